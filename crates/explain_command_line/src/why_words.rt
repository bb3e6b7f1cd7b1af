//! The words of `why`, and the limits of explanations.

use clap::{Arg, ArgMatches, Command, value_parser};
use ocl_programs::{RuleFiles, word};
use std::alloc::{AllocError, Global};

/// The end of the help of `why`.
const WHY: &str = "\
Prints the verdict of a rule for an object, and below it each part of the rule's expression with its
value: of a part that is null or invalid why it is, of an iteration the elements that decide it. RULES
is a rule text or a code file, RULE the name of one of its rules and ID the id of an object of its
context class. The expression of a code file's rule is the one that show prints. Without ID it prints what
judge prints of the rule, and explains each object for which it doesn't hold.
Of a long explanation the first lines are printed, and how many more there are. For instance
  ocl_explain why examples/catalogue.json examples/network.json examples/network.rules deepEnough E3

Status 0: printed. 2: an input is refused, with the line that judge prints, or there is no such rule or
object. 3: memory, a read or a write failed.";

/// The most that is to be printed of explanations, as far as that is given.
#[derive(Clone, Copy, Drop)]
pub struct ExplanationLimits {
    /// The greatest number of findings of a rule that are explained, if one is given.
    pub findings: Option<u64>,
    /// The greatest number of lines of an explanation, if one is given.
    pub lines: Option<u64>,
}

/// The words of `why`.
#[derive(Clone, Copy, Drop)]
pub struct WhyWords<'a> {
    /// The paths of the class model, the delivery and the rule text.
    pub files: RuleFiles<'a>,
    /// The name of the rule.
    pub rule: &'a str,
    /// The id of the object, if one is asked for.
    pub id: Option<&'a str>,
    /// The most that is to be printed.
    pub limits: ExplanationLimits,
}

/// The command.
pub(crate) fn why<'a>(alloc: Global) -> Result<Command<'a>, AllocError> {
    Command::new(alloc, "why")
        .about("Says why a rule has its verdict for an object")
        .after_help(WHY)
        .arg(
            Arg::new(alloc, "lines")
                .long("lines")
                .value_name("N")
                .value_parser(value_parser!(u64))
                .help("Prints at most N lines of an explanation (400, and 20 without ID)"),
        )?
        .arg(
            Arg::new(alloc, "max")
                .long("max")
                .value_name("N")
                .value_parser(value_parser!(u64))
                .help("Without ID: explains at most N objects (20)"),
        )?
        .arg(
            Arg::new(alloc, "MODEL")
                .required(true)
                .help("The class model, a JSON file"),
        )?
        .arg(
            Arg::new(alloc, "DELIVERY")
                .required(true)
                .help("The delivery, a JSON file"),
        )?
        .arg(
            Arg::new(alloc, "RULES")
                .required(true)
                .help("The rule text, or a code file"),
        )?
        .arg(
            Arg::new(alloc, "RULE")
                .required(true)
                .help("The name of the rule"),
        )?
        .arg(
            Arg::new(alloc, "ID")
                .allow_hyphen_values(true)
                .help("The id of the object"),
        )
}

/// The limits that the matches of `why` or `judge` give.
pub(crate) fn explanation_limits(matches: &ArgMatches<'_>) -> ExplanationLimits {
    ExplanationLimits {
        findings: matches.get_one::<u64>("max"),
        lines: matches.get_one::<u64>("lines"),
    }
}

/// What the matches of `why` ask.
pub(crate) fn why_words<'a>(matches: &ArgMatches<'a>) -> WhyWords<'a> {
    WhyWords {
        files: RuleFiles {
            model: word(Some(matches), "MODEL"),
            delivery: word(Some(matches), "DELIVERY"),
            rules: word(Some(matches), "RULES"),
        },
        rule: word(Some(matches), "RULE"),
        id: matches.get_str("ID"),
        limits: explanation_limits(matches),
    }
}
