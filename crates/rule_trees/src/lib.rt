//! The core trees of accepted code: what a rule of a code file says as an expression, whoever made the file.
//! `core_of_rule` builds them, and `laws` relate them to the code's runs and to the compiler.
#![tactic(auto)]

mod blocks;
mod building;
mod code;
mod instructions;
pub mod laws;
mod meant;
mod nodes;
mod operands;
mod operations;
mod values;
mod walk;

pub use building::core_of_rule;
