//! Why a rule text is refused: all its faults.

use crate::characters::{Cleared, explain_characters};
use crate::context::Context;
use crate::names::RuleNames;
use crate::search::Search;
use crate::sections::sections_of;
use explain_faults::Faults;
use explain_notes::Input;
use explain_text::explain_text_flaw;
use imkl_model::ClassModel;
use ocl_tokens::{TextFault, TextFlaw, tokens};
use std::alloc::{AllocError, Global};

/// The most faults of a text that are explained.
pub(crate) const MAX_FAULTS: usize = 100;

/// Writes the faults of the rules of a text, at most so many.
fn explain_rules(
    alloc: Global,
    out: &mut Faults,
    input: Input<'_>,
    model: &ClassModel,
    text: &str,
    places: &[usize],
    left: usize,
) -> Result<(), AllocError> {
    let tokens = match tokens(alloc, text) {
        Ok(tokens) => tokens,
        Err(TextFault::At { .. }) => return Ok(()),
        Err(TextFault::OutOfMemory) => return Err(AllocError),
    };
    let sections = sections_of(alloc, &tokens, text.len())?;
    let mut search = Search {
        input,
        text,
        places,
        model,
        left,
        context: Context::unknown(),
        declared: Vec::new(alloc),
        names: RuleNames::new(alloc),
    };
    search.explain_sections(alloc, out, &tokens, &sections)
}

/// Writes the faults of the rules of a text that has these faults of its characters, of which so many were written.
fn explain_cleared(
    alloc: Global,
    out: &mut Faults,
    input: Input<'_>,
    model: &ClassModel,
    cleared: &Cleared,
    written: usize,
) -> Result<(), AllocError> {
    let left = MAX_FAULTS.saturating_sub(written);
    let text = cleared.text.as_str();
    explain_rules(alloc, out, input, model, text, &cleared.places, left)
}

/// Writes the faults of a text whose tokens aren't read: those of its characters, and those of the rules without them.
fn explain_uncut(
    alloc: Global,
    out: &mut Faults,
    input: Input<'_>,
    model: &ClassModel,
    text: &str,
    flaw: TextFlaw,
    offset: usize,
) -> Result<(), AllocError> {
    let before = out.list.len();
    match explain_characters(alloc, out, input, text, flaw, offset)? {
        Some(cleared) => {
            let written = out.list.len().saturating_sub(before);
            explain_cleared(alloc, out, input, model, &cleared, written)
        }
        None => Ok(()),
    }
}

/// Writes the faults of a text whose tokens are read, the first of which is this one.
fn explain_cut(
    alloc: Global,
    out: &mut Faults,
    input: Input<'_>,
    model: &ClassModel,
    text: &str,
    flaw: TextFlaw,
    offset: usize,
) -> Result<(), AllocError> {
    let before = out.list.len();
    explain_rules(alloc, out, input, model, text, &[], MAX_FAULTS)?;
    if out.list.len() == before {
        explain_text_flaw(alloc, out, input, flaw, offset)?;
    }
    Ok(())
}

/// Writes the faults of a rule text that isn't read, of which this is the first.
pub fn explain_unread(
    alloc: Global,
    out: &mut Faults,
    input: Input<'_>,
    model: &ClassModel,
    flaw: TextFlaw,
    offset: usize,
) -> Result<(), AllocError> {
    let Ok(text) = str::from_utf8(input.bytes) else {
        return explain_text_flaw(alloc, out, input, flaw, offset);
    };
    match tokens(alloc, text) {
        Ok(_) => explain_cut(alloc, out, input, model, text, flaw, offset),
        Err(TextFault::At { .. }) => explain_uncut(alloc, out, input, model, text, flaw, offset),
        Err(TextFault::OutOfMemory) => Err(AllocError),
    }
}

/// Writes the faults of a rule text that is read, and whose rules have types at fault.
pub fn explain_untyped(
    alloc: Global,
    out: &mut Faults,
    input: Input<'_>,
    model: &ClassModel,
) -> Result<(), AllocError> {
    match str::from_utf8(input.bytes) {
        Ok(text) => explain_rules(alloc, out, input, model, text, &[], MAX_FAULTS),
        Err(_) => Ok(()),
    }
}
