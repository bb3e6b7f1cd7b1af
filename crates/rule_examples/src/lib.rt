//! Deliveries that show what a rule means: of those that are tried the smallest for which it holds, fails or is undecided.
#![tactic(auto)]

mod changing;
mod choosing;
mod constants;
mod draft;
mod json;
mod lone;
mod making;
mod searching;
mod shapes;
mod shrinking;
mod trial;
mod verdicts;

pub use constants::{Constants, rule_tokens};
pub use lone::lone_rule;
pub use searching::{Limits, Sketch, search};
pub use trial::Trial;
pub use verdicts::verdict_at;
