//! The verdicts of `embedding` on a delivery of a duct and two cables, of which one is 600 deep and the other has no depth.

use embedding::broken_rules;
use ocl_pipeline::{Refusal, Stopped};
use std::alloc::Global;
use std::test::*;
use test_support::{CATALOGUE, DUCT};

/// The rule d of KabelOfLeiding, that each is more than 600 deep, which is charged 4 for an object: SELF, ATTR diepte, INT
/// 600, GT.
const DEEPER_THAN_600: &[u8] =
    b"OCLB\x00\x01\x00\x03\x00\x01d\x00\x0eKabelOfLeiding\x00\x06diepte\x00\x02\x01\x00\x01\x03\x00\x01\x00\x02\x00\x01\
\x00\x00\x00\x00\x00\x04\x01\x09\x00\x01\x03\x00\x00\x00\x00\x00\x00\x02\x58\x1b";

/// What is answered of the delivery.
#[derive(Clone, Copy, Debug, PartialEq, Eq)]
enum Answered {
    /// So many objects break a rule.
    Broken(usize),
    /// This isn't a code file.
    NoCode,
    /// A rule is above the budget.
    AboveBudget,
    /// Something else.
    Other,
}

fn answer_of(alloc: Global, code: &[u8], budget: u64) -> Answered {
    match broken_rules(alloc, CATALOGUE.as_bytes(), DUCT.as_bytes(), code, budget) {
        Ok(broken) => Answered::Broken(broken.len()),
        Err(Stopped::Refused(Refusal::Code { .. })) => Answered::NoCode,
        Err(Stopped::Refused(Refusal::Cost { .. })) => Answered::AboveBudget,
        Err(_) => Answered::Other,
    }
}

#[test]
fn the_cable_of_600_breaks_the_rule(rt: HostRuntime) {
    assert_eq!(rt;
        answer_of(rt.alloc(), DEEPER_THAN_600, 4),
        Answered::Broken(1)
    );
    assert_eq!(rt;
        answer_of(rt.alloc(), DEEPER_THAN_600, 3),
        Answered::AboveBudget
    );
    assert_eq!(rt; answer_of(rt.alloc(), b"OCL", 4), Answered::NoCode);
}
