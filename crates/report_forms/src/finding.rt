//! Findings: objects for which a rule doesn't hold.

ghost use Rattle.std.specs.Prelude.{◌≡◌, ◌++◌, ◌<◌, IfOk, IfSome, OnOk, length, map};
ghost use Rattle.imkl_population.specs.Population.{object_number};
ghost use Rattle.report_forms.specs.Findings.{
  context_of,
  finding_view,
  verdict_name,
  message_in,
  class_of_found,
  place_of_found,
  finding_of,
  message_part,
  described,
  placed,
};
ghost use Rattle.report_forms.specs.ReportRows.{word_at};

use crate::beside::{Beside, RuleMessage};
use crate::pieces::{put, put_number};
use crate::places::{EntryPlace, FIRST_PLACE};
use crate::rows::word_at;
use crate::search::object_named;
use imkl_population::{ObjectNo, Population};
use std::alloc::{AllocError, Global};

/// A finding. `fails` or `undecided` is its verdict.
#[derive(Clone, Copy)]
pub(crate) struct Finding<'w, 'm, 'b> {
    pub(crate) verdict: &'w [u8],
    pub(crate) rule: &'w [u8],
    pub(crate) object: &'w [u8],
    pub(crate) class: &'m str,
    pub(crate) message: &'b str,
    pub(crate) offset: usize,
    pub(crate) line: usize,
    pub(crate) column: usize,
}

/// The verdict that the first word of an object's line stands for.
fn verdict_name(word: &[u8]) -> &[u8]
    ensures { result.now ≡ verdict_name word.now }
{
    if word == b"fail".as_slice() {
        b"fails"
    } else {
        word
    }
}

/// The message of a rule; nothing where it has none.
pub(crate) fn message_of<'b>(messages: &'b [RuleMessage], rule: &[u8]) -> &'b str
    ensures { result.now ≡ message_in messages.entry.now rule.now }
{
    'messages: for message in messages {
        if message.rule.as_str().as_bytes() == rule {
            return message.message.as_str();
        }
    }
    ""
}

/// The name of an object's class.
fn class_of<'m>(population: &Population<'m>, object: Option<usize>) -> &'m str
    requires { IfSome object (λ o. o < length population.now.content.objects) }
    ensures { result.now ≡ class_of_found population.now.content object }
{
    population.consistent();
    match object {
        Some(index) => {
            let class = population.class_of(ObjectNo::new(index));
            population.model().class_name(class)
        }
        None => "",
    }
}

/// Where an object's entry begins.
fn place_of(places: &[EntryPlace], object: Option<usize>) -> EntryPlace
    ensures { result ≡ place_of_found places.now object }
{
    match object {
        Some(index) => match places.get(index) {
            Some(place) => *place,
            None => FIRST_PLACE,
        },
        None => FIRST_PLACE,
    }
}

/// Where the next object is looked for.
pub(crate) fn next_first(first: usize, object: Option<usize>) -> usize {
    object.unwrap_or(first)
}

/// The number of the object of an object's line, which is looked for from one object on.
pub(crate) fn object_in(population: &Population<'_>, first: usize, words: &[&[u8]]) -> Option<usize>
    ensures number { result ≡ object_number population.now.content
        (word_at (map (λ w. w.now) words.now) 2) }
    ensures there { IfSome result (λ o. o < length population.now.content.objects) }
{
    match object_named(population, first, word_at(words, 2)) {
        Some(object) => Some(object.index()),
        None => None,
    }
}

/// What the three words of an object's line tell.
pub(crate) fn finding_of<'w, 'm, 'b>(
    beside: Beside<'b, 'm>,
    words: &[&'w [u8]],
    object: Option<usize>,
) -> Finding<'w, 'm, 'b>
    requires there { IfSome object (λ o. o < length beside.population.now.content.objects) }
    requires number { object ≡ object_number beside.population.now.content
        (word_at (map (λ w. w.now) words.now) 2) }
    ensures { finding_view result ≡
        finding_of (context_of beside.entry) (map (λ w. w.now) words.now) }
{
    let place = place_of(beside.places, object);
    let verdict = verdict_name(word_at(words, 0));
    let rule = word_at(words, 1);
    let class = class_of(beside.population, object);
    let message = message_of(beside.messages, rule);
    Finding {
        verdict,
        rule,
        object: word_at(words, 2),
        class,
        message,
        offset: place.offset,
        line: place.line,
        column: place.column,
    }
}

/// Puts a message behind a colon, if there is one.
fn put_message_part(out: &mut Vec<u8>, message: &str) -> Result<(), AllocError>
    ensures { OnOk result (out.new.items ≡ out.old.items ++ message_part message.now) }
{
    if message.is_empty() {
        return Ok(());
    }
    put(out, ": ")?;
    put(out, message)
}

impl Finding<'_, '_, '_> {
    /// Puts `fails RULE for OBJECT (CLASS): MESSAGE`.
    pub(crate) fn put_described(self, out: &mut Vec<u8>) -> Result<(), AllocError>
        ensures { OnOk result (out.new.items ≡
            out.old.items ++ described (finding_view self.entry)) }
    {
        out.extend_from_slice(self.verdict)?;
        put(out, " ")?;
        out.extend_from_slice(self.rule)?;
        put(out, " for ")?;
        out.extend_from_slice(self.object)?;
        put(out, " (")?;
        put(out, self.class)?;
        put(out, ")")?;
        put_message_part(out, self.message)?;
        Ok(())
    }

    /// The same by itself.
    pub(crate) fn described(self, alloc: Global) -> Result<Vec<u8>, AllocError>
        ensures { IfOk result (λ v. v.items ≡ described (finding_view self.entry)) }
    {
        let mut out = Vec::new(alloc);
        self.put_described(&mut out)?;
        Ok(out)
    }

    /// Puts a line: the place, and the finding in words.
    pub(crate) fn put_placed(
        self,
        alloc: Global,
        out: &mut Vec<u8>,
        path: &str,
    ) -> Result<(), AllocError>
        ensures { OnOk result (out.new.items ≡
            out.old.items ++ placed path.now (finding_view self.entry)) }
    {
        put(out, path)?;
        put(out, ":")?;
        put_number(alloc, out, self.line)?;
        put(out, ":")?;
        put_number(alloc, out, self.column)?;
        put(out, ": ")?;
        self.put_described(out)?;
        put(out, "\n")?;
        Ok(())
    }
}
