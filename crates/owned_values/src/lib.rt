//! Values that own their collections, and OCL's operations on them: what an evaluator of trees computes with.
#![tactic(auto)]

mod collecting;
mod elements;
mod endings;
mod equalities;
mod integers;
mod objects;
mod sums;
mod texts;
mod truth;
mod value;

pub use collecting::{collect, collect_flat, reject, select, unique_bodies};
pub use elements::{
    as_collection, as_set, collection_size, emptiness, exclusion, inclusion, membership,
    occurrence_count,
};
pub use endings::{exists, for_all, one};
pub use equalities::equality;
pub use integers::{
    absolute, addition, at_most, division, greater, less_than, lesser, multiplication, negative,
    remainder, subtraction,
};
pub use objects::{all_instances, cast, kind_test, type_test, value_read};
pub use sums::summation;
pub use texts::{substring, text_length};
pub use truth::{
    both_null, conjunction, disjunction, exclusive_disjunction, implication, invalid_test,
    negation, undefined_test,
};
pub use value::{
    Element, Value, copy_of, copy_value, element_value, is_false, is_invalid, is_null, is_true,
};
