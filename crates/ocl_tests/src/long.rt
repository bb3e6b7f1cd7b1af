//! Outputs longer than one write: each is flushed once, after its last byte.

ghost use Rattle.std.specs.Prelude.{◌≡◌, false};

use ocl_check::{
    CountedReader, JudgeOptions, MAX_BUDGET, Outcome, RulesForm, Telling, run_bound, run_compile,
    run_desk, run_judge,
};
use std::alloc::{AllocError, Global};
use std::fmt::Write;
use std::io;
use std::test::*;
use test_support::{CATALOGUE, DUCT, Narrow, WhenFull};

/// Text is written once there are so many bytes of it.
const PIECE_BYTES: usize = 8_192;

/// A hundred rules of ducts, with names of some hundred bytes.
fn rules(alloc: Global) -> Result<String, AllocError> {
    let mut text = String::new(alloc);
    for rule in 0..100 {
        write!(text, "context Mantelbuis inv rule_number_{rule}")?;
        for _ in 0..10 {
            text.push_str("_with_a_name")?;
        }
        text.push_str(": false\n")?;
    }
    Ok(text)
}

/// Calls that are refused, and then the report of a job.
fn script(alloc: Global) -> Result<String, AllocError> {
    let mut text = String::new(alloc);
    for _ in 0..1_000 {
        text.push_str("grant 7 7\n")?;
    }
    text.push_str("enter\ngrant 0 1000000\nlines 0\n")?;
    Ok(text)
}

/// A writer with room for everything.
fn wide(alloc: Global) -> Narrow {
    Narrow::new(alloc, usize::MAX, WhenFull::Fails)
}

/// Whether a command ended with this status, and a writer took a long text that was flushed once, at its end.
fn is_whole(outcome: Outcome, status: u8, writer: Telling<Narrow>) -> bool {
    outcome == Outcome::Status(status) && writer.into_inner().has_more_than(PIECE_BYTES)
}

/// How `compile` of a text ends.
fn compile_into<W: io::Write>(alloc: Global, rules: &str, out: &mut Telling<W>) -> Outcome
    requires { out.old.1 ≡ false }
{
    run_compile(
        alloc,
        &mut CountedReader::new(CATALOGUE.as_bytes()),
        &mut CountedReader::new(rules.as_bytes()),
        out,
        &mut Telling::new(wide(alloc)),
    )
}

/// The code file of a text, and whether it is written whole.
fn compiled(alloc: Global, rules: &str) -> (Vec<u8>, bool) {
    let mut code = Telling::new(Vec::new(alloc));
    let mut counted = Telling::new(wide(alloc));
    let _written = compile_into(alloc, rules, &mut code);
    let outcome = compile_into(alloc, rules, &mut counted);
    (code.into_inner(), is_whole(outcome, 0, counted))
}

/// Whether the report by a text is written whole.
fn is_judged(alloc: Global, rules: &str) -> bool {
    let mut sink = Telling::new(wide(alloc));
    let form = RulesForm::Text;
    let budget = MAX_BUDGET;
    let outcome = run_judge(
        alloc,
        JudgeOptions { form, budget },
        &mut CountedReader::new(CATALOGUE.as_bytes()),
        &mut CountedReader::new(DUCT.as_bytes()),
        &mut CountedReader::new(rules.as_bytes()),
        &mut sink,
    );
    is_whole(outcome, 1, sink)
}

/// Whether the bounds of a code file are written whole.
fn is_bounded(alloc: Global, code: &[u8]) -> bool {
    let mut sink = Telling::new(wide(alloc));
    let outcome = run_bound(
        alloc,
        &mut CountedReader::new(CATALOGUE.as_bytes()),
        &mut CountedReader::new(DUCT.as_bytes()),
        &mut CountedReader::new(code),
        &mut sink,
    );
    is_whole(outcome, 0, sink)
}

/// Whether the replies to a script are written whole.
fn is_replied(alloc: Global, code: &[u8], script: &str) -> bool {
    let mut sink = Telling::new(wide(alloc));
    let outcome = run_desk(
        alloc,
        &mut CountedReader::new(CATALOGUE.as_bytes()),
        &mut CountedReader::new(DUCT.as_bytes()),
        &mut CountedReader::new(code),
        &mut CountedReader::new(script.as_bytes()),
        &mut sink,
    );
    is_whole(outcome, 0, sink)
}

#[test]
fn long_answers_are_flushed_once_at_their_end(rt: HostRuntime) -> Result<(), Fail> {
    let rules = rules(rt.alloc())?;
    let (code, code_is_whole) = compiled(rt.alloc(), &rules);
    assert!(rt; code_is_whole);
    assert!(rt; is_judged(rt.alloc(), &rules));
    assert!(rt; is_bounded(rt.alloc(), &code));
    let script = script(rt.alloc())?;
    assert!(rt; is_replied(rt.alloc(), &code, &script));
    Ok(())
}
