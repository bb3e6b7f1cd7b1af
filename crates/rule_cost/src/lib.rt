//! The cost of judging: bounds on the lengths of collections and on the charges of a run, and units that are admitted
//! within a budget.
#![tactic(auto)]

mod admission;
mod admitted;
mod bounding;
mod cut;
mod fault;
mod feature_lengths;
mod instructions;
mod operands;
mod place;
mod sized;
mod walk;
mod watch;

pub use admission::admit;
pub use admitted::Admitted;
pub use bounding::{bound, watch_bound};
pub use cut::{Bound, STEP_LIMIT};
pub use fault::CostFault;
pub use watch::{Passed, Turns, Watch};
