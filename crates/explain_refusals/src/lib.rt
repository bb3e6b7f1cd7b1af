//! Why `ocl_check` refuses an input, and what of accepted rules is hardly meant: what is said behind an answer.
#![tactic(auto)]

mod costs;
mod endings;
mod explaining;
mod given;
mod refusals;
mod texts;
mod warnings;
mod writing;

pub use endings::{ended, failed, model_refusal, refused};
pub use explaining::{Ending, Explaining, Listener, Nobody, Words};
pub use given::{Given, options_of};
pub use refusals::explain_rejected;
pub use writing::write_answer;
