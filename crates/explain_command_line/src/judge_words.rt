//! The options of `judge` for what is printed of the report.

use crate::why_words::{ExplanationLimits, explanation_limits};
use clap::{Arg, ArgAction, ArgMatches, value_parser};
use report_forms::Form;
use std::alloc::{AllocError, Global};

/// What is printed of a report, and how.
#[derive(Clone, Copy, Drop)]
pub struct Printing<'a> {
    /// The form of the report, if it isn't as `ocl_check` prints it.
    pub form: Option<Form>,
    /// The most that is printed of the explanations of findings, if they are explained.
    pub explained: Option<ExplanationLimits>,
    /// The names of the rules that are judged, separated by commas, if not all are.
    pub rules: Option<&'a str>,
}

/// The names of the forms of a report.
const FORMS: [&str; 6] = ["text", "json", "github", "junit", "sarif", "html"];

/// The option of `judge` that chooses the form of the report.
pub(crate) fn format<'a>(alloc: Global) -> Arg<'a> {
    Arg::new(alloc, "format")
        .long("format")
        .value_name("FORM")
        .value_parser(FORMS.as_slice())
        .help("Prints each finding with its place, class and message")
}

/// The option of `judge` that prints JSON.
pub(crate) fn json<'a>(alloc: Global) -> Result<Arg<'a>, AllocError> {
    Arg::new(alloc, "json")
        .long("json")
        .action(ArgAction::SetTrue)
        .help("The same as --format json: an object in each line")
        .conflicts_with("format")
}

/// The option of `judge` that chooses rules.
pub(crate) fn rules<'a>(alloc: Global) -> Result<Arg<'a>, AllocError> {
    Arg::new(alloc, "rule")
        .long("rule")
        .value_name("NAMES")
        .help("With --text: judges by the rules of these names, which commas separate")
        .requires_arg("text")
}

/// The option of `judge` that explains its findings.
pub(crate) fn explained<'a>(alloc: Global) -> Arg<'a> {
    Arg::new(alloc, "why")
        .long("why")
        .action(ArgAction::SetTrue)
        .help("Prints below each finding the parts of the rule with their values")
}

/// The option of `judge --why` that limits how many findings are explained.
pub(crate) fn findings<'a>(alloc: Global) -> Result<Arg<'a>, AllocError> {
    Arg::new(alloc, "max")
        .long("max")
        .value_name("N")
        .value_parser(value_parser!(u64))
        .help("With --why: explains at most N findings of each rule (all)")
        .requires_arg("why")
}

/// The option of `judge --why` that limits the length of an explanation.
pub(crate) fn finding_lines<'a>(alloc: Global) -> Result<Arg<'a>, AllocError> {
    Arg::new(alloc, "lines")
        .long("lines")
        .value_name("N")
        .value_parser(value_parser!(u64))
        .help("With --why: prints at most N lines of each explanation (20)")
        .requires_arg("why")
}

/// The form of a name.
fn form_named(name: &str) -> Form {
    match name {
        "json" => Form::Json,
        "github" => Form::Github,
        "junit" => Form::Junit,
        "sarif" => Form::Sarif,
        "html" => Form::Html,
        _ => Form::Text,
    }
}

/// The form that is asked for, if one is.
fn form_asked(judge: &ArgMatches<'_>) -> Option<Form> {
    if judge.get_flag("json") {
        return Some(Form::Json);
    }
    match judge.get_str("format") {
        Some(name) => Some(form_named(name)),
        None => None,
    }
}

/// The limits of the explanations of findings, if they are explained.
fn explained_asked(judge: &ArgMatches<'_>) -> Option<ExplanationLimits> {
    if judge.get_flag("why") {
        Some(explanation_limits(judge))
    } else {
        None
    }
}

/// What is printed of a report, by the matches of `judge`; of other commands there is none.
pub(crate) fn printing_asked<'a>(judge: Option<&ArgMatches<'a>>) -> Printing<'a> {
    match judge {
        Some(judge) => Printing {
            form: form_asked(judge),
            explained: explained_asked(judge),
            rules: judge.get_str("rule"),
        },
        None => Printing {
            form: None,
            explained: None,
            rules: None,
        },
    }
}
