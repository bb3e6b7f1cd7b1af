//! The command line.

use clap::{Command, Error};
use ocl_programs::{Request, VERSION, bound, compile, desk, judge, request_of, verify};
use std::alloc::{AllocError, Global};

/// The end of the program's help.
const HELP: &str = "\
Inputs are read whole before the first is checked, each of at most 268,435,456 bytes; a path may be
a pipe, and `-` is standard input, for one input. `ocl_check COMMAND --help` says what a command
prints and how it ends. The pages are in docs/use/ (language.md for rules, class-model.md, delivery.md,
commands.md) and in docs/formats/ (code-file.md, machine.md).";

/// The program's commands and their arguments.
fn command<'a>(alloc: Global) -> Result<Command<'a>, AllocError> {
    Command::new(alloc, "ocl_check")
        .about("Judges deliveries of buried networks against OCL invariants")
        .version(VERSION)
        .after_help(HELP)
        .subcommand_required(true)
        .subcommand(judge(alloc)?)?
        .subcommand(compile(alloc)?)?
        .subcommand(verify(alloc)?)?
        .subcommand(bound(alloc)?)?
        .subcommand(desk(alloc)?)
}

/// The command that the words give, with its files.
pub(crate) fn read_words<'a>(alloc: Global, words: &'a [String]) -> Result<Request<'a>, Error> {
    let matches = command(alloc)?.try_get_matches_from(words)?;
    Ok(request_of(&matches))
}
