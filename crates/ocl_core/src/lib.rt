//! Core trees: what the expressions of rules mean, with names resolved, and when they are typed.
#![tactic(auto)]

mod core_tree;
mod operator;

pub use core_tree::{ConstantValue, Core, CoreLink, CoreRule, Iteration};
pub use operator::{BasicType, ClassOperator, ElementOperator, Operator, PlainOperator};
