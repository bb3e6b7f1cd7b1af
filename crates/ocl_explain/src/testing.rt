//! A test of rules: the report on a delivery, beside the one that is wanted.

ghost use Rattle.std.specs.Prelude.{◌≡◌, option_map, IfOk};
ghost use Rattle.ocl_explain.specs.TestedRules.{IsReport, is_as_wanted};

use crate::answers::answer_judge;
use explain_notes::Input;
use explain_refusals::{Nobody, Words};
use ocl_check::{JudgeOptions, Outcome, Telling};
use std::alloc::{AllocError, Global};

/// What a test of rules comes to.
#[derive(Drop)]
pub struct Tested {
    /// The report on the delivery, or the line by which an input is refused.
    pub report: Vec<u8>,
    /// Whether these bytes are wanted.
    pub passes: bool,
    /// Why an input is refused; empty where none is.
    pub words: Words,
}

/// Whether a report is the one that is wanted, byte by byte.
fn is_as_wanted(wanted: Option<&[u8]>, report: &[u8]) -> bool
    ensures { result ≡ is_as_wanted (option_map (λ w. w.now) wanted.entry) report.now }
{
    match wanted {
        Some(wanted) => wanted == report,
        None => false,
    }
}

/// Judges a delivery by rules as `run_judge` does, and compares the report with the bytes that are wanted. The test
/// doesn't pass where none are.
pub fn test_rules<'i>(
    alloc: Global,
    options: JudgeOptions,
    model: Input<'i>,
    delivery: Input<'i>,
    rules: Input<'i>,
    wanted: Option<&[u8]>,
) -> Result<Tested, AllocError>
    ensures report { IfOk result (λ t. IsReport options model.entry.bytes.now
        delivery.entry.bytes.now rules.entry.bytes.now t.report.items) }
    ensures passes { IfOk result (λ t. t.passes ≡
        is_as_wanted (option_map (λ w. w.now) wanted.entry) t.report.items) }
{
    let mut sink = Telling::new(Vec::new(alloc));
    let judged = answer_judge(alloc, &Nobody, options, model, delivery, rules, &mut sink);
    let report = sink.into_inner();
    match judged.outcome {
        Outcome::Status(_) => {
            let passes = is_as_wanted(wanted, &report);
            Ok(Tested {
                report,
                passes,
                words: judged.words,
            })
        }
        // Memory takes all bytes that there is room for.
        Outcome::Failed(_) => Err(AllocError),
    }
}
