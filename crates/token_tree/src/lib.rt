//! The simple values of a JSON text straight from its tokens, without a tree of them.
#![tactic(auto)]

mod numbers;
mod single;

pub use single::{NoSingle, Single, single_of, singles_of};
