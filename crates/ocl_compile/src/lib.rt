//! Compiles rules: from core trees, whose types are checked, to a unit of code. Their meaning is defined beside it, and
//! `laws` relate the two.
#![tactic(auto)]

mod compiling;
mod emitting;
mod extent;
mod fault;
mod fields;
mod instructions;
pub mod laws;
mod limits;
mod measuring;
mod numbering;
mod numbers;
mod symbols;
mod texts;

pub use compiling::compile;
pub use fault::{CompileFault, Limit};
