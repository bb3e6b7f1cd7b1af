//! The words of `examples`.

use clap::{Arg, ArgAction, ArgMatches, Command, value_parser};
use ocl_programs::word;
use std::alloc::{AllocError, Global};

/// The end of the help of `examples`.
const EXAMPLES: &str = "\
For each rule and each verdict a small delivery is searched in which the rule holds, fails, or is
undecided for an object, which is named. Each that is shown was judged. With FOLDER the deliveries are
written there as RULE.holds.json and so on, each with its report beside it (RULE.holds.report), so that
ocl_explain test takes the folder. Where none is found that proves nothing. For instance
  ocl_explain examples examples/catalogue.json examples/network.rules --rule deepEnough

Status 0: searched. 2: an input is refused. 3: memory, a read or a write failed.";

/// The words of the verdicts, as options and files have them.
pub const VERDICTS: [&str; 3] = ["holds", "fails", "undecided"];

/// The words of `examples`.
#[derive(Clone, Copy, Drop)]
pub struct ExampleWords<'a> {
    /// The path of the class model.
    pub model: &'a str,
    /// The path of the rule text.
    pub rules: &'a str,
    /// The path of the folder that deliveries are written to, if they are.
    pub folder: Option<&'a str>,
    /// The names of the rules, separated by commas, if not all are meant.
    pub names: Option<&'a str>,
    /// The verdict, if not all are meant.
    pub verdict: Option<&'a str>,
    /// Whether all other rules are to hold.
    pub others_hold: bool,
    /// The seed of the search, if one is given.
    pub seed: Option<u64>,
    /// The most deliveries that are tried for a verdict, if they are given.
    pub tries: Option<u64>,
    /// The most objects of a delivery, if they are given.
    pub objects: Option<u64>,
}

/// The command.
pub(crate) fn examples<'a>(alloc: Global) -> Result<Command<'a>, AllocError> {
    Command::new(alloc, "examples")
        .about("Searches for small deliveries that show what each rule means")
        .after_help(EXAMPLES)
        .arg(
            Arg::new(alloc, "rule")
                .long("rule")
                .value_name("NAMES")
                .help("Only for the rules of these names, which commas separate"),
        )?
        .arg(
            Arg::new(alloc, "verdict")
                .long("verdict")
                .value_name("VERDICT")
                .value_parser(VERDICTS.as_slice())
                .help("Only deliveries that show this verdict"),
        )?
        .arg(
            Arg::new(alloc, "others-hold")
                .long("others-hold")
                .action(ArgAction::SetTrue)
                .help("Only deliveries in which all other rules hold"),
        )?
        .arg(
            Arg::new(alloc, "seed")
                .long("seed")
                .value_name("N")
                .value_parser(value_parser!(u64))
                .help("Another seed finds other deliveries (1)"),
        )?
        .arg(
            Arg::new(alloc, "tries")
                .long("tries")
                .value_name("N")
                .value_parser(value_parser!(u64))
                .help("Tries at most N deliveries for a verdict (6000)"),
        )?
        .arg(
            Arg::new(alloc, "objects")
                .long("objects")
                .value_name("N")
                .value_parser(value_parser!(u64))
                .help("Of at most N objects, up to 100 (6)"),
        )?
        .arg(
            Arg::new(alloc, "MODEL")
                .required(true)
                .help("The class model, a JSON file"),
        )?
        .arg(
            Arg::new(alloc, "RULES")
                .required(true)
                .help("The rule text"),
        )?
        .arg(Arg::new(alloc, "FOLDER").help("The folder that the deliveries are written to"))
}

/// What the matches of `examples` ask.
pub(crate) fn example_words<'a>(matches: &ArgMatches<'a>) -> ExampleWords<'a> {
    ExampleWords {
        model: word(Some(matches), "MODEL"),
        rules: word(Some(matches), "RULES"),
        folder: matches.get_str("FOLDER"),
        names: matches.get_str("rule"),
        verdict: matches.get_str("verdict"),
        others_hold: matches.get_flag("others-hold"),
        seed: matches.get_one::<u64>("seed"),
        tries: matches.get_one::<u64>("tries"),
        objects: matches.get_one::<u64>("objects"),
    }
}
