//! What a desk replies to the calls of a script, and the law that each job of a script is as if alone.
#![tactic(auto)]

pub mod laws;
mod reply;
mod running;

pub use running::answer_calls;
