//! Scripts of a desk: a text with a call in each line, read and checked whole.
#![tactic(auto)]

mod call;
mod fault;
mod line;
mod script;

pub use call::Call;
pub use fault::ScriptFault;
pub use script::read_script;
