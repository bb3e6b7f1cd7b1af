//! What the words of a command line of `ocl_explain` ask: its commands with their arguments, options and help.
#![tactic(auto)]

mod command_line;
mod eval_words;
mod examples_words;
mod judge_words;
mod list_words;
mod schema_words;
mod show_words;
mod standard_input;
mod summary_words;
mod test_words;
mod text_words;
mod why_words;

pub use command_line::{Asked, CommandLine, read_words};
pub use eval_words::EvalWords;
pub use examples_words::{ExampleWords, VERDICTS};
pub use judge_words::Printing;
pub use list_words::ListFiles;
pub use show_words::ShowWords;
pub use summary_words::SummaryWords;
pub use test_words::TestWords;
pub use text_words::TextsAsked;
pub use why_words::{ExplanationLimits, WhyWords};
