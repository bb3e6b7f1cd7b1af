//! The value of an expression for an object of a delivery, and a console that gives the value of each line.
#![tactic(auto)]

mod console;
mod eval_words;
mod evals;
mod probing;

pub use console::{ConsoleAsked, EXPRESSION, Terminal, run_console, value_line};
pub use eval_words::Unvalued;
pub use evals::{EvalAsked, Valued, evaluate_expression};
