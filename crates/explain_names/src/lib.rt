//! The names of a class model for those who write of it: reads that take any number, and names that were misspelled.
#![tactic(auto)]

mod names;
mod near;

pub use names::{
    belongs, class_name, enumeration_name, feature_info, feature_named, is_abstract,
    is_class_below, is_literal, literal_count, literal_name,
};
pub use near::{offer_classes, offer_enumerations, offer_features, offer_literals};
