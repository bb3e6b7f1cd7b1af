//! What the programs `ocl_check` and `ocl_explain` share: commands on a command line, and files that are created when they
//! are first written.
#![tactic(auto)]

mod commands;
mod help;
mod lazy_output;

pub use commands::{
    CompileFiles, DeskFiles, Request, RuleFiles, STANDARD_INPUT, VerifyFiles, bound, compile, desk,
    judge, request_of, verify, word,
};
pub use help::VERSION;
pub use lazy_output::LazyOutput;
