//! The verifier: what code names in a class model, which operands and results its instructions have, and which units are
//! accepted.
#![tactic(auto)]

mod accepted;
mod block_instr;
mod blocks;
mod code;
mod depths;
mod fault;
pub mod laws;
mod limits;
mod meant;
mod memory;
mod named;
mod operands;
mod pattern;
mod place;
mod resolved;
mod results;
mod rules;
mod shape;
mod symbols_used;
mod taking;
mod verifier;
mod walk;
mod wanted;
mod watch;

pub use accepted::Accepted;
pub use block_instr::BlockInstr;
pub use blocks::{block_of, bound_count, operands_above, shape_of};
pub use depths::Depths;
pub use fault::{VerifyFault, VerifyFlaw};
pub use limits::{MAX_BLOCKS, MAX_OPERANDS};
pub use named::Named;
pub use operands::operand_count;
pub use pattern::{Operands, Pattern};
pub use resolved::{Resolved, resolve};
pub use rules::check_rule;
pub use shape::Shape;
pub use symbols_used::symbol_used;
pub use verifier::verify;
pub use wanted::{ending_wanted, operands_wanted};
pub use watch::{Reached, Watch};
