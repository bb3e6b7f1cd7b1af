//! The words of `summary`.

use clap::{Arg, ArgMatches, Command};
use ocl_programs::word;
use report_summary::Table;
use std::alloc::{AllocError, Global};

/// The end of the help of `summary`.
const SUMMARY: &str = "\
Reads what examples/judge-one leaves of each delivery, NAME.report, NAME.status and NAME.failure, and
prints how many deliveries there are of each status, which refusals there are, what is found of each
rule, and of each delivery what is found or why it has to be judged again. A folder in FOLDER has the
deliveries of a sender: what they come to is printed for each sender as well. With --csv a table is
printed for spreadsheets: of deliveries, or of the rules of each. For instance
  ocl_explain summary --csv rules reports
docs/use/many-deliveries.md has the columns.

Status 0: printed. 1: printed, and a run failed or a report isn't whole. 2: the folder has none of these
files. 3: memory, a read or a write failed.";

/// The tables that `summary` prints.
const TABLES: [&str; 2] = ["deliveries", "rules"];

/// The words of `summary`.
#[derive(Clone, Copy, Drop)]
pub struct SummaryWords<'a> {
    /// The path of the folder.
    pub folder: &'a str,
    /// The table, if one is asked for.
    pub table: Option<Table>,
}

/// The option of `summary` that chooses a table.
fn table<'a>(alloc: Global) -> Arg<'a> {
    Arg::new(alloc, "csv")
        .long("csv")
        .value_name("TABLE")
        .value_parser(TABLES.as_slice())
        .help("Prints a table for spreadsheets, in place of words")
}

/// The command.
pub(crate) fn summary<'a>(alloc: Global) -> Result<Command<'a>, AllocError> {
    Command::new(alloc, "summary")
        .about("Sums up a folder of reports")
        .after_help(SUMMARY)
        .arg(table(alloc))?
        .arg(
            Arg::new(alloc, "FOLDER")
                .required(true)
                .help("The folder of the reports, statuses and failures"),
        )
}

/// What the matches of `summary` ask.
pub(crate) fn summary_words<'a>(matches: &ArgMatches<'a>) -> SummaryWords<'a> {
    SummaryWords {
        folder: word(Some(matches), "FOLDER"),
        table: match matches.get_str("csv") {
            Some("deliveries") => Some(Table::Deliveries),
            Some(_) => Some(Table::Rules),
            None => None,
        },
    }
}
