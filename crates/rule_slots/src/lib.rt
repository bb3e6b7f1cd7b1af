//! Slots: values as the machine has them, marks and whole-number words without kinds, and the operations on them.
//! Nothing is copied where a feature is read, a class's instances are listed or a text is cut.
#![tactic(auto)]

mod collections;
mod comparer;
mod comparing;
mod elements;
mod integers;
mod lists;
mod objects;
mod ordering;
mod own_room;
mod placing;
mod reading;
mod searching;
mod sets;
mod slot;
mod sorting;
mod sums;
mod texts;
mod truth;

pub use collections::{
    collection_size, emptiness, exclusion, inclusion, membership, occurrence_count,
};
pub use comparing::equality;
pub use integers::{
    absolute, addition, at_most, division, greater, less_than, lesser, multiplication, negative,
    remainder, subtraction,
};
pub use lists::Lists;
pub use objects::{all_instances, cast, kind_test, type_test, value_read};
pub use reading::{element, scalar_slot};
pub use sets::{are_distinct, as_collection, as_set};
pub use slot::{
    Home, Mark, Slot, home_named, index_slot, invalid_slot, null_slot, number_slot, part_slot,
    truth_slot,
};
pub use sorting::move_down;
pub use sums::summation;
pub use texts::{substring, text_length, unit_text};
pub use truth::{
    both_null, conjunction, disjunction, exclusive_disjunction, implication, invalid_test,
    is_false, is_true, known_slot, negation, undefined_test,
};
