//! What the crates of tests share: bytes as hexadecimal digits, code files of rules in words, a
//! catalogue with deliveries, and writers that fail.
#![tactic(auto)]

mod assembly;
mod catalogue;
mod hex;
mod writers;

pub use assembly::file_of_rules;
pub use catalogue::{CATALOGUE, DUCT, DUCT_DEPTH, NETS};
pub use hex::bytes_of;
pub use writers::{Narrow, WhenFull};
