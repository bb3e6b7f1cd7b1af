//! The words of `list`.

use clap::{Arg, ArgMatches, Command};
use ocl_programs::word;
use std::alloc::{AllocError, Global};

/// The end of the help of `list`.
const LIST: &str = "\
Prints for each rule its name, its context class and its instructions, one in a line, each with the
byte at which it begins. With a class model the kinds of the eight topmost operands on the stack stand
beside each instruction, and it is said why the code isn't accepted, if it isn't. For instance
  ocl_explain list examples/min-depth.code examples/catalogue.json

Status 0: printed. 2: the file or the class model is refused, or the code isn't accepted. 3: memory,
a read or a write failed.";

/// The files that `list` names.
#[derive(Clone, Copy, Drop)]
pub struct ListFiles<'a> {
    /// The path of the code file.
    pub code: &'a str,
    /// The path of the class model, if there is one.
    pub model: Option<&'a str>,
}

/// The command.
pub(crate) fn list<'a>(alloc: Global) -> Result<Command<'a>, AllocError> {
    Command::new(alloc, "list")
        .about("Lists a code file in words")
        .after_help(LIST)
        .arg(Arg::new(alloc, "CODE").required(true).help("The code file"))?
        .arg(Arg::new(alloc, "MODEL").help("The class model, a JSON file"))
}

/// What the matches of `list` ask.
pub(crate) fn list_words<'a>(matches: &ArgMatches<'a>) -> ListFiles<'a> {
    ListFiles {
        code: word(Some(matches), "CODE"),
        model: matches.get_str("MODEL"),
    }
}
