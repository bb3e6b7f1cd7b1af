//! Kinds of values: which fits which, the kind of a feature, wider and common kinds.
#![tactic(auto)]

mod fitting;
mod kind;
pub mod laws;

pub use fitting::{common_kind, comparable, fits, is_same_collection, scalar_fits, wider_kind};
pub use kind::{Kind, ScalarKind, collected_kind, element_kind, elements_kind, feature_kind};
