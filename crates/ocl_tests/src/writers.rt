//! Writers that fail, and how often they are flushed.

use ocl_check::{
    CommandFault, CountedReader, JudgeOptions, MAX_BUDGET, Outcome, RulesForm, Telling, run_bound,
    run_compile, run_desk, run_judge, run_verify,
};
use std::alloc::Global;
use std::test::*;
use test_support::{CATALOGUE, DUCT, DUCT_DEPTH, Narrow, WhenFull};

/// The rule of the code file.
const DUCT_RULE: &str = "context Mantelbuis inv d: self.omvat->forAll(k | k.diepte >= 600)";

/// Two jobs, of which the first is granted what it costs, 14, in three parts.
const SCRIPT: &[u8] =
    b"enter\nenter\ngrant 0 0\ngrant 0 3\ngrant 1 100\ngrant 0 3\ngrant 0 100\ngrant 0 1\nlines 0\n";

/// What a command writes.
#[derive(Clone, Copy, Debug)]
enum Written {
    /// The report of `judge`.
    Report,
    /// The lines of `bound`.
    Bounds,
    /// The line of `verify`.
    Accepted,
    /// The code file of `compile`.
    Code,
    /// The line of `compile`.
    Compiled,
    /// The replies of `desk`.
    Replies,
}

/// Each of them.
const EACH: [Written; 6] = [
    Written::Report,
    Written::Bounds,
    Written::Accepted,
    Written::Code,
    Written::Compiled,
    Written::Replies,
];

impl Written {
    /// What is written for a duct that holds a cable 600 deep and one without a depth, by the rule of ducts.
    fn bytes(self) -> &'static [u8] {
        match self {
            Written::Report => {
                b"undecided d M1\nrule d checked 1 holds 0 fails 0 undecided 1\ntotal fails 0 undecided 1\n"
            }
            Written::Bounds => b"bound d 19\n",
            Written::Accepted => b"accepted 1\n",
            Written::Code => DUCT_DEPTH,
            Written::Compiled => b"compiled 1\n",
            Written::Replies => {
                b"job 0\njob 1\npaused 0 0\npaused 0 3\nover 1 14\npaused 0 6\nover 0 14\nrefused desk 2\n\
undecided d M1\nrule d checked 1 holds 0 fails 0 undecided 1\ntotal fails 0 undecided 1\n"
            }
        }
    }

    /// How the command ends where all is written.
    fn end(self) -> Outcome {
        match self {
            Written::Report => Outcome::Status(1),
            _ => Outcome::Status(0),
        }
    }
}

fn report_into(alloc: Global, writer: Narrow) -> (Outcome, Narrow) {
    let mut sink = Telling::new(writer);
    let form = RulesForm::Code;
    let budget = MAX_BUDGET;
    let outcome = run_judge(
        alloc,
        JudgeOptions { form, budget },
        &mut CountedReader::new(CATALOGUE.as_bytes()),
        &mut CountedReader::new(DUCT.as_bytes()),
        &mut CountedReader::new(DUCT_DEPTH),
        &mut sink,
    );
    (outcome, sink.into_inner())
}

fn bounds_into(alloc: Global, writer: Narrow) -> (Outcome, Narrow) {
    let mut sink = Telling::new(writer);
    let outcome = run_bound(
        alloc,
        &mut CountedReader::new(CATALOGUE.as_bytes()),
        &mut CountedReader::new(DUCT.as_bytes()),
        &mut CountedReader::new(DUCT_DEPTH),
        &mut sink,
    );
    (outcome, sink.into_inner())
}

fn accepted_into(alloc: Global, writer: Narrow) -> (Outcome, Narrow) {
    let mut sink = Telling::new(writer);
    let outcome = run_verify(
        alloc,
        &mut CountedReader::new(CATALOGUE.as_bytes()),
        &mut CountedReader::new(DUCT_DEPTH),
        &mut sink,
    );
    (outcome, sink.into_inner())
}

fn replies_into(alloc: Global, writer: Narrow) -> (Outcome, Narrow) {
    let mut sink = Telling::new(writer);
    let outcome = run_desk(
        alloc,
        &mut CountedReader::new(CATALOGUE.as_bytes()),
        &mut CountedReader::new(DUCT.as_bytes()),
        &mut CountedReader::new(DUCT_DEPTH),
        &mut CountedReader::new(SCRIPT),
        &mut sink,
    );
    (outcome, sink.into_inner())
}

/// How `compile` of a text ends over these writers, and both afterwards.
fn compiled_into(
    alloc: Global,
    rules: &str,
    code: Narrow,
    printed: Narrow,
) -> (Outcome, Narrow, Narrow) {
    let mut out = Telling::new(code);
    let mut sink = Telling::new(printed);
    let outcome = run_compile(
        alloc,
        &mut CountedReader::new(CATALOGUE.as_bytes()),
        &mut CountedReader::new(rules.as_bytes()),
        &mut out,
        &mut sink,
    );
    (outcome, out.into_inner(), sink.into_inner())
}

/// A writer with room for everything.
fn wide(alloc: Global) -> Narrow {
    Narrow::new(alloc, 1_000, WhenFull::Fails)
}

/// How a command ends over a writer, and the writer afterwards.
fn written_into(alloc: Global, written: Written, writer: Narrow) -> (Outcome, Narrow) {
    match written {
        Written::Report => report_into(alloc, writer),
        Written::Bounds => bounds_into(alloc, writer),
        Written::Accepted => accepted_into(alloc, writer),
        Written::Replies => replies_into(alloc, writer),
        Written::Code => {
            let (outcome, code, _printed) = compiled_into(alloc, DUCT_RULE, writer, wide(alloc));
            (outcome, code)
        }
        Written::Compiled => {
            let (outcome, _code, printed) = compiled_into(alloc, DUCT_RULE, wide(alloc), writer);
            (outcome, printed)
        }
    }
}

/// Whether a writer of so much room has taken just the beginning, and neither a byte more nor a flush.
fn fails_after(alloc: Global, written: Written, left: usize, writer: Narrow) -> bool {
    let (outcome, writer) = written_into(alloc, written, writer);
    outcome == Outcome::Failed(CommandFault::Write) && writer.has_first(left, written.bytes())
}

/// Whether writers of so much room, of each kind, are left alone once they have failed.
fn are_left_alone_after(alloc: Global, written: Written, left: usize) -> bool {
    for when_full in WhenFull::EACH {
        let writer = Narrow::new(alloc, left, when_full);
        let slow = Narrow::new(alloc, left, when_full).byte_by_byte();
        if !fails_after(alloc, written, left, writer) || !fails_after(alloc, written, left, slow) {
            return false;
        }
    }
    true
}

/// How much room writers had that weren't left alone once they had failed, if any.
fn written_to_again(alloc: Global, written: Written) -> Option<usize> {
    for left in 0..written.bytes().len() {
        if !are_left_alone_after(alloc, written, left) {
            return Some(left);
        }
    }
    None
}

#[test]
fn reports_bounds_and_acceptances_leave_writers_alone(rt: HostRuntime) {
    assert_eq!(rt; written_to_again(rt.alloc(), Written::Report), None);
    assert_eq!(rt; written_to_again(rt.alloc(), Written::Bounds), None);
    assert_eq!(rt; written_to_again(rt.alloc(), Written::Accepted), None);
}

#[test]
fn compile_leaves_writers_alone(rt: HostRuntime) {
    assert_eq!(rt; written_to_again(rt.alloc(), Written::Code), None);
    assert_eq!(rt; written_to_again(rt.alloc(), Written::Compiled), None);
}

#[test]
fn desk_leaves_writers_alone(rt: HostRuntime) {
    assert_eq!(rt; written_to_again(rt.alloc(), Written::Replies), None);
}

/// Whether a writer takes all and is then flushed once, and the command ends so.
fn takes_all(alloc: Global, written: Written, writer: Narrow, wanted: Outcome) -> bool {
    let (outcome, writer) = written_into(alloc, written, writer);
    outcome == wanted && writer.has_all(written.bytes())
}

/// Whether all is flushed once, at its end, also where a byte is taken at a time; and whether a flush that fails is a failed
/// write.
fn is_flushed_once(alloc: Global, written: Written) -> bool {
    let room = written.bytes().len();
    let writer = Narrow::new(alloc, room, WhenFull::Fails);
    let slow = Narrow::new(alloc, room, WhenFull::Fails).byte_by_byte();
    let failed = Outcome::Failed(CommandFault::Write);
    takes_all(alloc, written, writer, written.end())
        && takes_all(alloc, written, slow, written.end())
        && takes_all(alloc, written, Narrow::without_flush(alloc, room), failed)
}

#[test]
fn everything_is_flushed_once_at_its_end(rt: HostRuntime) {
    for written in EACH {
        assert!(rt; is_flushed_once(rt.alloc(), written), "{written:?}");
    }
}

/// Whether nothing is printed where the code file fails after so many bytes.
fn prints_nothing_after(alloc: Global, left: usize) -> bool {
    let code = Narrow::new(alloc, left, WhenFull::Fails);
    let (_outcome, _code, printed) = compiled_into(alloc, DUCT_RULE, code, wide(alloc));
    printed.has_first(0, b"")
}

/// Whether the code file is whole where nothing can be printed.
fn code_is_whole(alloc: Global) -> bool {
    let printed = Narrow::new(alloc, 0, WhenFull::Fails);
    let (_outcome, code, _printed) = compiled_into(alloc, DUCT_RULE, wide(alloc), printed);
    code.has_all(DUCT_DEPTH)
}

/// Whether the code file's writer is untouched, not even flushed, where the text is refused.
fn refused_text_leaves_the_code_file(alloc: Global) -> bool {
    let (_outcome, code, printed) = compiled_into(alloc, "'", wide(alloc), wide(alloc));
    code.has_first(0, b"") && printed.has_all(b"refused text 2 0\n")
}

#[test]
fn a_code_file_and_its_line_go_together(rt: HostRuntime) {
    for left in 0..DUCT_DEPTH.len() {
        assert!(rt; prints_nothing_after(rt.alloc(), left), "{left}");
    }
    assert!(rt; code_is_whole(rt.alloc()));
    assert!(rt; refused_text_leaves_the_code_file(rt.alloc()));
}
