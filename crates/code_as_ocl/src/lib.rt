//! The rules of a code file as OCL: of each its context class, its name, and the core tree of its code as a text. A rule's
//! verdict is that of the meaning of this tree. A text without a mark is compiled to the rule again.
#![tactic(auto)]

mod asked;
mod kinds;
mod known;
mod levels;
mod lines;
mod marks;
mod pairs;
mod quoted;
mod retyped;
mod rules;
mod typed;
mod types;
mod wanted;

pub use marks::{put_rule, put_rules};
pub use rules::MAX_INSTRUCTIONS;
