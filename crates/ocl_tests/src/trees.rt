//! The core tree of a rule of a code file, where there is memory for it.

use imkl_model::ClassModel;
use ocl_pipeline::{accept_code, read_model};
use rule_trees::core_of_rule;
use std::alloc::Global;
use std::test::*;
use test_support::CATALOGUE;

/// The rule r of KabelOfLeiding: `if true then let x1 = -2^63 in x1 < 0 else false endif`, of eight instructions.
const LEAST_IS_BELOW_ZERO: &[u8] =
    b"OCLB\x00\x01\x00\x02\x00\x01r\x00\x0eKabelOfLeiding\x00\x01\x01\x00\x01\x00\x01\x00\x00\x00\x00\x00\x08\
\x04\x01\x41\x01\x00\x05\x00\x01\x03\x80\x00\x00\x00\x00\x00\x00\x00\x40\x00\x03\x02\x00\x01\
\x03\x00\x00\x00\x00\x00\x00\x00\x00\x19\x04\x00";

fn has_tree_for(alloc: Global, model: &ClassModel, code: &[u8]) -> bool {
    match accept_code(alloc, model, code) {
        Ok(accepted) => accepted.rules() > 0 && core_of_rule(alloc, &accepted, 0).is_ok(),
        Err(_rejected) => false,
    }
}

fn has_tree(alloc: Global, code: &[u8]) -> bool {
    match read_model(alloc, CATALOGUE.as_bytes()) {
        Ok(model) => has_tree_for(alloc, &model, code),
        Err(_why) => false,
    }
}

#[test]
fn a_rule_of_a_code_file_has_a_core_tree(rt: HostRuntime) {
    assert!(rt; has_tree(rt.alloc(), LEAST_IS_BELOW_ZERO));
}
