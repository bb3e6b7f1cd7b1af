//! What is known beside a report.

use crate::places::EntryPlace;
use imkl_population::Population;

/// What a rule's author says of its findings: the comment above the rule, or behind it.
#[derive(Drop)]
pub struct RuleMessage {
    /// The rule's name.
    pub rule: String,
    /// The message, which has no ends of lines.
    pub message: String,
}

/// What is known beside a report.
#[derive(Clone, Copy)]
pub struct Beside<'b, 'm> {
    /// The path of the delivery, as it was given.
    pub path: &'b str,
    /// The objects.
    pub population: &'b Population<'m>,
    /// Where the entry of each object begins.
    pub places: &'b [EntryPlace],
    /// The messages of rules that have one.
    pub messages: &'b [RuleMessage],
}
