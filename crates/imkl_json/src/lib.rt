//! JSON trees, for readers with faults of their own: the tree of some bytes, and JSON objects and lists with their members.
#![tactic(auto)]

mod reading;

pub use reading::{JsonFault, list_of, member_count, record_of, tree};
