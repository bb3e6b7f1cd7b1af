//! Why a rule has its verdict for an object: each part of its expression with its value, down to
//! what is absent or invalid.
#![tactic(auto)]

mod deciding;
mod differences;
mod explainer;
mod explaining;
pub mod laws;
mod names;
mod nodes;
mod operands;
mod pieces;
mod reasons;
mod texts;
mod turns;
mod valued;
mod values;
mod verdicts;
mod words;

pub use names::{copy_name, next, put_variable};
pub use pieces::put;
pub use texts::{class_asked, put_all_instances, put_constant, put_wrapped};
pub use valued::value_of;
pub use values::put_character;
pub use verdicts::{ExplainedRule, explain_named_verdict, explain_rule, explain_verdict};
pub use words::{Form, iteration_word, kind_name, operator_form, operator_word};
