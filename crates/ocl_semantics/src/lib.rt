//! What core trees mean: the meaning of each tree as a definition, and an evaluator that computes it.
#![tactic(auto)]

mod constants;
mod evaluating;
mod iterations;
mod operations;
mod variables;

pub use evaluating::{evaluate, evaluate_all, evaluate_bodies, evaluate_link, evaluate_links};
pub use variables::Variables;
