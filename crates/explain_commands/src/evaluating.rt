//! The value of an expression, or of those of standard input line by line.

use crate::files::{in_memory, print, read_file};
use explain_command_line::EvalWords;
use explain_notes::Input;
use expression_values::{
    ConsoleAsked, EXPRESSION, EvalAsked, Terminal, Unvalued, evaluate_expression, run_console,
    value_line,
};
use ocl_check::{CommandFault, Outcome};
use std::alloc::Global;
use std::io::{BufRead, ErrorKind, Input as Lines};

/// The standard streams as a terminal.
#[derive(Drop)]
struct Streams<'a, R> {
    rt: &'a HostRuntime,
    reader: R,
}

/// A line without its line feed.
fn without_end(alloc: Global, line: &[u8]) -> Result<Vec<u8>, CommandFault> {
    in_memory(Vec::from_slice(alloc, line.strip_suffix(b"\n").unwrap_or(line)))
}

impl<R: BufRead> Terminal for Streams<'_, R> {
    fn next_line(&mut self, alloc: Global) -> Result<Option<Vec<u8>>, CommandFault> {
        let mut line = Vec::new(alloc);
        match self.reader.read_until(b'\n', &mut line) {
            Ok(0) => Ok(None),
            Ok(_) => Ok(Some(without_end(alloc, &line)?)),
            Err(error) if error.kind() == ErrorKind::OutOfMemory => Err(CommandFault::OutOfMemory),
            Err(error) => {
                let _ = eprintln!(self.rt; "standard input: it can't be read: {error}");
                Err(CommandFault::Read)
            }
        }
    }

    fn show(&mut self, line: &str) -> Result<(), CommandFault> {
        print(self.rt, line)
    }

    fn complain(&mut self, words: &str) {
        let _ = self.rt.eprint(words);
    }
}

/// Ends where there is no value.
fn end_without(rt: &HostRuntime, why: Unvalued) -> Result<Outcome, CommandFault> {
    match why {
        Unvalued::Refused(words) => {
            let _ = rt.eprint(words.as_str());
            Ok(Outcome::Status(2))
        }
        Unvalued::Failed(fault) => Err(fault),
    }
}

/// Prints the value of an expression.
fn print_value(rt: &HostRuntime, asked: EvalAsked<'_>) -> Result<Outcome, CommandFault> {
    match evaluate_expression(rt.alloc(), asked) {
        Ok(valued) => {
            print(rt, in_memory(value_line(rt.alloc(), &valued))?.as_str())?;
            Ok(Outcome::Status(0))
        }
        Err(why) => end_without(rt, why),
    }
}

/// Prints the values of the expressions of standard input.
fn print_values(rt: &HostRuntime, asked: ConsoleAsked<'_>) -> Result<Outcome, CommandFault> {
    let mut streams = Streams {
        rt,
        reader: rt.reader(),
    };
    match run_console(rt.alloc(), asked, &mut streams) {
        Ok(()) => Ok(Outcome::Status(0)),
        Err(why) => end_without(rt, why),
    }
}

/// Evaluates what the words ask, over inputs that were read.
fn evaluate_inputs<'i>(
    rt: &HostRuntime,
    words: EvalWords<'i>,
    model: Input<'i>,
    delivery: Input<'i>,
) -> Result<Outcome, CommandFault> {
    let Some(expression) = words.expression else {
        return print_values(rt, ConsoleAsked { model, delivery });
    };
    let asked = EvalAsked {
        model,
        delivery,
        expression: Input {
            path: EXPRESSION,
            bytes: expression.as_bytes(),
        },
        id: words.id,
    };
    print_value(rt, asked)
}

/// Reads the inputs, each whole, and then evaluates.
fn evaluate_files(rt: &HostRuntime, words: EvalWords<'_>) -> Result<Outcome, CommandFault> {
    let model = read_file(rt, words.model)?;
    let delivery = read_file(rt, words.delivery)?;
    evaluate_inputs(rt, words, model.input(), delivery.input())
}

/// Prints the value of an expression, or of those of standard input.
pub fn evaluate(rt: &HostRuntime, words: EvalWords<'_>) -> Outcome {
    match evaluate_files(rt, words) {
        Ok(outcome) => outcome,
        Err(fault) => Outcome::Failed(fault),
    }
}
