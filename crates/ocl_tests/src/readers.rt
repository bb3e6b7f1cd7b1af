//! Readers that fail, never end, or return a byte at a time.

ghost use Rattle.std.specs.Prelude.{◌≡◌, false};

use ocl_check::{
    CommandFault, CountedReader, InputFault, JudgeOptions, MAX_BUDGET, Outcome, RulesForm, Telling,
    read_input, run_bound, run_compile, run_desk, run_judge, run_verify,
};
use std::alloc::Global;
use std::io;
use std::io::{Error, ErrorKind, Read, Write};
use std::test::*;
use test_support::{DUCT, DUCT_DEPTH};

/// A reader of these bytes, so many at a time, of which one read may fail; it counts its reads.
#[derive(Drop)]
struct Fed<'b> {
    bytes: &'b [u8],
    width: usize,
    fails_at: Option<u32>,
    kind: ErrorKind,
    reads: u32,
}

impl Read for Fed<'_> {
    fn read(&mut self, buf: &mut [u8]) -> io::Result<usize> {
        let number = self.reads;
        self.reads = number.saturating_add(1);
        if self.fails_at == Some(number) {
            return Err(Error::from(self.kind));
        }
        let count = buf.len().min(self.width);
        self.bytes.read(&mut buf[..count])
    }
}

/// How many bytes are read under a limit of 8, and by how many reads.
fn read_of(alloc: Global, fed: Fed<'_>) -> (Result<usize, InputFault>, u32) {
    let mut source = CountedReader::new(fed);
    let read = match read_input(alloc, &mut source, 8) {
        Ok(bytes) => Ok(bytes.len()),
        Err(fault) => Err(fault),
    };
    (read, source.into_inner().reads)
}

#[test]
fn reads_up_to_the_limit(rt: HostRuntime) {
    let failed = Err(InputFault::Read);
    let other = ErrorKind::Other;
    let cases = [
        // no bytes at all; eight bytes one by one; all eight at once
        (0, 1, None, other, Ok(0), 1),
        (8, 1, None, other, Ok(8), 9),
        (8, 8, None, other, Ok(8), 2),
        // nine at once, or one by one for long: nine bytes are enough to know
        (9, 9, None, other, failed, 1),
        (1_000, 1, None, other, failed, 9),
        // a read that fails, or is interrupted, isn't made again, though it would go on
        (8, 1, Some(2), other, failed, 3),
        (8, 1, Some(2), ErrorKind::Interrupted, failed, 3),
        (8, 1, Some(0), other, failed, 1),
    ];
    let bytes = [0u8; 1_000];
    for (length, width, fails_at, kind, read, reads) in cases {
        let fed = Fed {
            bytes: &bytes[..length],
            width,
            fails_at,
            kind,
            reads: 0,
        };
        assert_eq!(rt; read_of(rt.alloc(), fed), (read, reads));
    }
}
/// A writer that takes everything, and counts it.
#[derive(Drop)]
struct Taken(usize);

impl Write for Taken {
    fn write(&mut self, buf: &[u8]) -> io::Result<usize> {
        self.0 = self.0.saturating_add(buf.len());
        Ok(buf.len())
    }

    fn flush(&mut self) -> io::Result<()> {
        Ok(())
    }
}

/// Which input of a command fails, by its number from 0, and at which of its reads.
#[derive(Clone, Copy)]
struct Failing {
    input: usize,
    at: u32,
}

impl Failing {
    /// The input of a number, seven bytes at a time, of which no read was made.
    fn input<'b>(self, number: usize, bytes: &'b [u8]) -> CountedReader<Fed<'b>>
        ensures unread { (result.2 ≡ false) × (result.1 ≡ 0) }
    {
        CountedReader::new(Fed {
            bytes,
            width: 7,
            fails_at: if number == self.input {
                Some(self.at)
            } else {
                None
            },
            kind: ErrorKind::Other,
            reads: 0,
        })
    }

    /// Whether an input of a number was read as it must be: those before the one that fails to their end, that one until it
    /// failed, those after it not at all.
    fn is_read_so(self, number: usize, source: CountedReader<Fed<'_>>) -> bool {
        let fed = source.into_inner();
        if number < self.input {
            fed.bytes.is_empty()
        } else if number == self.input {
            fed.reads == self.at.saturating_add(1)
        } else {
            fed.reads == 0
        }
    }
}

/// Whether a command failed because an input couldn't be read, and wrote nothing.
fn failed_to_read(outcome: Outcome, sink: Telling<Taken>) -> bool {
    outcome == Outcome::Failed(CommandFault::Read) && sink.into_inner().0 == 0
}

/// A class model that is refused: a read that fails comes before that.
const REFUSED: &[u8] = b"{\"a\":1}";

/// Two lines of calls.
const SCRIPT: &[u8] = b"enter\ngrant 0 3\n";

fn judge_fails(alloc: Global, form: RulesForm, failing: Failing) -> bool {
    let budget = MAX_BUDGET;
    let mut model = failing.input(0, REFUSED);
    let mut delivery = failing.input(1, DUCT.as_bytes());
    let mut rules = failing.input(2, DUCT_DEPTH);
    let mut sink = Telling::new(Taken(0));
    let options = JudgeOptions { form, budget };
    let outcome = run_judge(
        alloc,
        options,
        &mut model,
        &mut delivery,
        &mut rules,
        &mut sink,
    );
    failed_to_read(outcome, sink)
        && failing.is_read_so(0, model)
        && failing.is_read_so(1, delivery)
        && failing.is_read_so(2, rules)
}

fn bound_fails(alloc: Global, failing: Failing) -> bool {
    let mut model = failing.input(0, REFUSED);
    let mut delivery = failing.input(1, DUCT.as_bytes());
    let mut code = failing.input(2, DUCT_DEPTH);
    let mut sink = Telling::new(Taken(0));
    let outcome = run_bound(alloc, &mut model, &mut delivery, &mut code, &mut sink);
    failed_to_read(outcome, sink)
        && failing.is_read_so(0, model)
        && failing.is_read_so(1, delivery)
        && failing.is_read_so(2, code)
}

fn verify_fails(alloc: Global, failing: Failing) -> bool {
    let mut model = failing.input(0, REFUSED);
    let mut code = failing.input(1, DUCT_DEPTH);
    let mut sink = Telling::new(Taken(0));
    let outcome = run_verify(alloc, &mut model, &mut code, &mut sink);
    failed_to_read(outcome, sink) && failing.is_read_so(0, model) && failing.is_read_so(1, code)
}

fn compile_fails(alloc: Global, failing: Failing) -> bool {
    let mut model = failing.input(0, REFUSED);
    let mut rules = failing.input(1, b"context Mantelbuis inv: true");
    let mut code = Telling::new(Taken(0));
    let mut sink = Telling::new(Taken(0));
    let outcome = run_compile(alloc, &mut model, &mut rules, &mut code, &mut sink);
    failed_to_read(outcome, sink)
        && code.into_inner().0 == 0
        && failing.is_read_so(0, model)
        && failing.is_read_so(1, rules)
}

fn desk_fails(alloc: Global, failing: Failing) -> bool {
    let mut model = failing.input(0, REFUSED);
    let mut delivery = failing.input(1, DUCT.as_bytes());
    let mut code = failing.input(2, DUCT_DEPTH);
    let mut script = failing.input(3, SCRIPT);
    let mut sink = Telling::new(Taken(0));
    let outcome = run_desk(
        alloc,
        &mut model,
        &mut delivery,
        &mut code,
        &mut script,
        &mut sink,
    );
    failed_to_read(outcome, sink)
        && failing.is_read_so(0, model)
        && failing.is_read_so(1, delivery)
        && failing.is_read_so(2, code)
        && failing.is_read_so(3, script)
}

/// Whether each command fails where one of its inputs does, by its number from 0, at its first or its second read.
fn each_fails(alloc: Global, input: usize) -> bool {
    for at in 0..2 {
        let failing = Failing { input, at };
        let with_three = input >= 3
            || judge_fails(alloc, RulesForm::Code, failing)
                && judge_fails(alloc, RulesForm::Text, failing)
                && bound_fails(alloc, failing);
        let with_two = input >= 2 || verify_fails(alloc, failing) && compile_fails(alloc, failing);
        if !(desk_fails(alloc, failing) && with_three && with_two) {
            return false;
        }
    }
    true
}

#[test]
fn commands_fail_where_an_input_does(rt: HostRuntime) {
    for input in 0..4 {
        assert!(rt; each_fails(rt.alloc(), input), "input {input}");
    }
}
