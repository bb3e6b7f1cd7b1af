//! The commands of `ocl_check`, each over its inputs and a sink.
#![tactic(auto)]

mod commands;
mod input;
pub mod laws;
mod outcome;
mod reply;
mod source;
mod three_inputs;
mod watch;

pub use commands::bound::{bound_inputs, run_bound};
pub use commands::compile::{compile_inputs, run_compile};
pub use commands::desk::{reply_inputs, run_desk};
pub use commands::judge::{JudgeOptions, MAX_BUDGET, Report, RulesForm, judge_inputs, run_judge};
pub use commands::verify::{run_verify, verify_inputs};
pub use input::{InputFault, MAX_INPUT, read_input};
pub use outcome::{CommandFault, Outcome, stop};
pub use rule_report::{Sink, Telling};
pub use source::{CountedReader, Source};
pub use watch::{Unwatched, Watch};
