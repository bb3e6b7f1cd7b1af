//! Whether two core trees are the same: node by node, with equal constants, numbers, operators and kinds.
#![tactic(auto)]

mod leaves;
mod operators;
mod trees;

pub use trees::is_same_tree;
