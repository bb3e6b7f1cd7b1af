//! The words of `test`.

use clap::{Arg, ArgAction, ArgMatches, Command};
use ocl_programs::word;
use std::alloc::{AllocError, Global};

/// The end of the help of `test`.
const TEST: &str = "\
Judges each delivery NAME.json of a folder by a rule text, and compares the report with NAME.report,
which judge --text has printed or somebody has written. Of a report that differs the lines are shown
that were wanted (-) and that were found (+). With --accept the reports are written. For instance
  ocl_explain test examples/rule-tests examples/catalogue.json examples/network.rules

Status 0: each report is as wanted, or was written. 1: one isn't, or none is wanted. 2: the folder has
no delivery. 3: memory, a read or a write failed.";

/// The words of `test`.
#[derive(Clone, Copy, Drop)]
pub struct TestWords<'a> {
    /// The path of the folder that has the deliveries and the reports.
    pub folder: &'a str,
    /// The path of the class model.
    pub model: &'a str,
    /// The path of the rule text.
    pub rules: &'a str,
    /// Whether reports that aren't as wanted are written.
    pub accepts: bool,
}

/// The command.
pub(crate) fn test<'a>(alloc: Global) -> Result<Command<'a>, AllocError> {
    Command::new(alloc, "test")
        .about("Tests rules by the deliveries of a folder and their reports")
        .after_help(TEST)
        .arg(
            Arg::new(alloc, "accept")
                .long("accept")
                .action(ArgAction::SetTrue)
                .help("Writes each report that isn't as wanted"),
        )?
        .arg(
            Arg::new(alloc, "FOLDER")
                .required(true)
                .help("The folder of the deliveries and their reports"),
        )?
        .arg(
            Arg::new(alloc, "MODEL")
                .required(true)
                .help("The class model, a JSON file"),
        )?
        .arg(
            Arg::new(alloc, "RULES")
                .required(true)
                .help("The rule text"),
        )
}

/// What the matches of `test` ask.
pub(crate) fn test_words<'a>(matches: &ArgMatches<'a>) -> TestWords<'a> {
    TestWords {
        folder: word(Some(matches), "FOLDER"),
        model: word(Some(matches), "MODEL"),
        rules: word(Some(matches), "RULES"),
        accepts: matches.get_flag("accept"),
    }
}
