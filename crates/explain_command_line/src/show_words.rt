//! The words of `show`.

use clap::{Arg, ArgMatches, Command};
use ocl_programs::word;
use std::alloc::{AllocError, Global};

/// The end of the help of `show`.
const SHOW: &str = "\
Prints the rules of a code file as OCL, each with its context class: an expression that means for each
object what the code does, whoever made the file. Variables have the names x1, x2 and so on. Of a rule
of more than 1000 instructions it says that it isn't shown; list prints its instructions. For instance
  ocl_explain show examples/min-depth.code examples/catalogue.json

Status 0: printed. 2: the class model or the file is refused. 3: memory, a read or a write failed.";

/// The words of `show`.
#[derive(Clone, Copy, Drop)]
pub struct ShowWords<'a> {
    /// The path of the code file.
    pub code: &'a str,
    /// The path of the class model.
    pub model: &'a str,
}

/// The command.
pub(crate) fn show<'a>(alloc: Global) -> Result<Command<'a>, AllocError> {
    Command::new(alloc, "show")
        .about("Shows the rules of a code file as OCL")
        .after_help(SHOW)
        .arg(Arg::new(alloc, "CODE").required(true).help("The code file"))?
        .arg(
            Arg::new(alloc, "MODEL")
                .required(true)
                .help("The class model, a JSON file"),
        )
}

/// What the matches of `show` ask.
pub(crate) fn show_words<'a>(matches: &ArgMatches<'a>) -> ShowWords<'a> {
    ShowWords {
        code: word(Some(matches), "CODE"),
        model: word(Some(matches), "MODEL"),
    }
}
