//! The machine: configurations, steps and runs of accepted code.
#![tactic(auto)]

mod applying;
mod charging;
mod instr;
mod iterate;
mod iteration_results;
mod keeping;
pub mod laws;
mod machine;
mod piece;
mod progress;
mod run;
mod spare;
mod stack;
mod state;
mod step;
mod task;
mod turns;
mod verdict;

pub use machine::Machine;
pub use progress::Progress;
pub use rule_values::Verdict;
