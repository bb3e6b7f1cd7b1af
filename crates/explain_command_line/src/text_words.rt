//! The options of `judge` and `compile` for rule texts.

use clap::{Arg, ArgAction, ArgMatches};
use std::alloc::{AllocError, Global};

/// What is asked of rule texts.
#[derive(Drop)]
pub struct TextsAsked<'a> {
    /// The paths of the rule texts that are joined behind the first.
    pub also: Vec<&'a str>,
    /// Whether a delivery is searched for that breaks each rule.
    pub searches: bool,
}

/// The option of `judge` that adds a rule text.
pub(crate) fn judge_also<'a>(alloc: Global) -> Result<Arg<'a>, AllocError> {
    Arg::new(alloc, "also")
        .long("also")
        .value_name("RULES")
        .action(ArgAction::Append)
        .help("With --text: one more rule text, judged with the others as one; may be repeated")
        .requires_arg("text")
}

/// The option of `judge` that searches for deliveries.
pub(crate) fn judge_search<'a>(alloc: Global) -> Result<Arg<'a>, AllocError> {
    Arg::new(alloc, "search")
        .long("search")
        .action(ArgAction::SetTrue)
        .help("With --text: warns of each rule that no delivery was found to break")
        .requires_arg("text")
}

/// The option of `compile` that adds a rule text.
pub(crate) fn compile_also<'a>(alloc: Global) -> Arg<'a> {
    Arg::new(alloc, "also")
        .long("also")
        .value_name("RULES")
        .action(ArgAction::Append)
        .help("One more rule text, compiled with the others as one; may be repeated")
}

/// The option of `compile` that searches for deliveries.
pub(crate) fn compile_search<'a>(alloc: Global) -> Arg<'a> {
    Arg::new(alloc, "search")
        .long("search")
        .action(ArgAction::SetTrue)
        .help("Warns of each rule that no delivery was found to break")
}

/// Whether a command searches for deliveries.
pub(crate) fn searches(matches: Option<&ArgMatches<'_>>) -> bool {
    match matches {
        Some(matches) => matches.get_flag("search"),
        None => false,
    }
}

/// Puts the paths of the rule texts that a command has beside its first.
pub(crate) fn put_also<'a>(
    paths: &mut Vec<&'a str>,
    matches: Option<&ArgMatches<'a>>,
) -> Result<(), AllocError> {
    let Some(matches) = matches else {
        return Ok(());
    };
    for path in matches.get_strs("also").unwrap_or(&[]) {
        paths.push(*path)?;
    }
    Ok(())
}
