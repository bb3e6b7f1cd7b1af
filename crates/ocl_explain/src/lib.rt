//! The commands of `ocl_check` over inputs that were read already, each with an explanation on
//! standard error.
#![tactic(auto)]

mod answers;
mod code_whys;
mod detailed;
mod differences;
mod exampling;
mod explainer;
mod findings;
mod formed;
mod given_names;
mod last_error;
mod listing;
mod schema;
mod selecting;
mod showing;
mod testing;
mod unknown;
mod verdicts;
mod weaving;
mod whys;

pub use answers::{answer_bound, answer_compile, answer_desk, answer_judge, answer_verify};
pub use code_whys::answer_why_code;
pub use differences::put_differences;
pub use exampling::{Example, ExampleAsked, find_example, rule_names};
pub use findings::{
    RuleAsked, answer_judge_why, answer_judge_why_code, answer_why_code_rule, answer_why_rule,
};
pub use formed::{FormAsked, answer_judge_form};
pub use last_error::WithLastError;
pub use listing::list_code;
pub use schema::print_schema;
pub use selecting::{Selected, select_rules};
pub use showing::show_code;
pub use testing::{Tested, test_rules};
pub use weaving::{Detail, Shown};
pub use whys::{WhyAsked, answer_why};
