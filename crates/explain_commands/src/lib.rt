//! The commands of `ocl_explain` over files and standard streams: every input is read before the first is looked at.
#![tactic(auto)]

mod compiling;
mod evaluating;
mod examples;
mod files;
mod judging;
mod placing;
mod report_files;
mod requests;
mod rule_texts;
mod searching;
mod showing;
mod shown;
mod summaries;
mod testing;
mod whys;

pub use evaluating::evaluate;
pub use examples::show_examples;
pub use requests::{answer, list, schema};
pub use showing::show_rules;
pub use summaries::sum_up;
pub use testing::test;
pub use whys::explain;
