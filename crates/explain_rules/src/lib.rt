//! All faults of a rule text at once: those of its characters, names that several rules have, and of each rule the first fault
//! of its grammar, or else of its types.
#![tactic(auto)]

mod characters;
mod context;
mod faults;
mod names;
mod search;
mod sections;

pub use faults::{explain_unread, explain_untyped};
