//! The names that the text of an expression gives to the variables of its core tree.
#![tactic(auto)]

mod marks;
mod reading;

pub use reading::given_names;
