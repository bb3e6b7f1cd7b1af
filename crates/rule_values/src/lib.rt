//! Values: which value is in which kind, when values are equal, the results of operations and iterations, and the
//! verdict of a value. The machine runs by these definitions, and the meaning of a rule's text cites them.
#![tactic(auto)]

pub mod laws;
mod verdict;

pub use verdict::Verdict;
