//! A budget above 2^63-1, the largest that the command line takes and the largest bound that there is.

use ocl_check::{CountedReader, JudgeOptions, Outcome, RulesForm, Telling, run_judge};
use std::alloc::{AllocError, Global};
use std::test::*;
use test_support::{CATALOGUE, DUCT};

/// Judging by a rule text within any budget that there is.
const WITHIN_ALL: JudgeOptions = JudgeOptions {
    form: RulesForm::Text,
    budget: u64::MAX,
};

/// A rule of so many iterations over three objects, one inside the other.
fn nested(alloc: Global, depth: u32) -> Result<String, AllocError> {
    let mut text = String::from_str(alloc, "context Mantelbuis inv r: ")?;
    for _ in 0..depth {
        text.push_str("KabelOfLeiding.allInstances()->forAll(k | ")?;
    }
    text.push_str("true")?;
    for _ in 0..depth {
        text.push(')')?;
    }
    Ok(text)
}

/// How `judge` of the duct by a text ends, and whether it prints this.
fn judged(alloc: Global, rules: &str, text: &str) -> (Outcome, bool) {
    let mut sink = Telling::new(Vec::new(alloc));
    let outcome = run_judge(
        alloc,
        WITHIN_ALL,
        &mut CountedReader::new(CATALOGUE.as_bytes()),
        &mut CountedReader::new(DUCT.as_bytes()),
        &mut CountedReader::new(rules.as_bytes()),
        &mut sink,
    );
    (outcome, sink.into_inner().as_slice() == text.as_bytes())
}

fn judged_nested(alloc: Global, depth: u32, text: &str) -> Result<(Outcome, bool), AllocError> {
    let rules = nested(alloc, depth)?;
    Ok(judged(alloc, rules.as_str(), text))
}

#[test]
fn a_bound_that_is_over_is_above_every_budget(rt: HostRuntime) -> Result<(), Fail> {
    let report = "rule r checked 1 holds 1 fails 0 undecided 0\ntotal fails 0 undecided 0\n";
    assert_eq!(rt;
        judged_nested(rt.alloc(), 2, report)?,
        (Outcome::Status(0), true)
    );
    // 3^60 is above 2^63
    let refused = judged_nested(rt.alloc(), 60, "refused cost 1 0\n")?;
    assert_eq!(rt; refused, (Outcome::Status(2), true));
    Ok(())
}
