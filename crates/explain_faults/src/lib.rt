//! The faults of refused inputs as values, each with its place, and the words that are said of them.
#![tactic(auto)]

mod fault;
mod faults;
mod pointer;

pub use fault::{Fault, FaultPlace};
pub use faults::Faults;
pub use pointer::{ROOT, element_pointer, member_pointer};
