//! Why the types of rules are refused: a reading of their types that stops at the fault, and the message for it.
#![tactic(auto)]

mod conforming;
mod fates;
mod found;
mod known;
mod meant;
mod operands;
mod operations;
mod reading;
mod scope;
mod type_flaws;
mod type_names;
mod warnings;
mod words;
mod writing;

pub use type_flaws::explain_type_flaw;
pub use type_names::{TypeName, type_name};
pub use warnings::warn_of_rule;
