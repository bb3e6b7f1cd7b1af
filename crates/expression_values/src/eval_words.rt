//! Why an expression has no value, in words.

use explain_faults::Faults;
use explain_inputs::{explain_delivery, explain_model};
use explain_notes::{Input, Note, quote};
use explain_refusals::Words;
use explain_text::explain_text_flaw;
use explain_types::explain_type_flaw;
use imkl_model::ClassModel;
use ocl_base::OutOfMemory;
use ocl_check::CommandFault;
use ocl_pipeline::{Place, Refusal, Stopped};
use ocl_text::SurfaceRule;
use ocl_tokens::TextFlaw;
use ocl_types::TypeFlaw;
use std::alloc::{AllocError, Global};

/// Why there is no value.
#[derive(Drop)]
pub enum Unvalued {
    /// An input, the expression or the object is refused, in words.
    Refused(String),
    /// Memory ran out, or a read or a write failed.
    Failed(CommandFault),
}

impl From<AllocError> for Unvalued {
    fn from(_error: AllocError) -> Unvalued {
        Unvalued::Failed(CommandFault::OutOfMemory)
    }
}

impl From<OutOfMemory> for Unvalued {
    fn from(_error: OutOfMemory) -> Unvalued {
        Unvalued::Failed(CommandFault::OutOfMemory)
    }
}

/// The words of a refusal, if memory didn't run out.
pub(crate) fn refused(words: Words) -> Unvalued {
    match words {
        Ok(words) => Unvalued::Refused(words),
        Err(AllocError) => Unvalued::Failed(CommandFault::OutOfMemory),
    }
}

/// Why an expression isn't read that stands in a text, so many bytes behind its beginning.
pub(crate) fn unread(
    alloc: Global,
    text: Input<'_>,
    before: usize,
    flaw: TextFlaw,
    offset: usize,
) -> Words {
    let mut out = Faults::behind(alloc, before);
    match flaw {
        TextFlaw::DuplicateRule => add_second(alloc, &mut out, text, offset)?,
        _ => explain_text_flaw(alloc, &mut out, text, flaw, offset)?,
    }
    Ok(out.into_words())
}

/// Adds that a rule follows an expression.
fn add_second(
    alloc: Global,
    out: &mut Faults,
    input: Input<'_>,
    offset: usize,
) -> Result<(), AllocError> {
    let note = Note {
        input,
        offset,
        length: 3,
        message: "one expression is wanted, and no rule",
        fault: "text 6",
        label: "a rule begins here",
        help: "",
    };
    out.add_note(alloc, &note)
}

/// That a rule follows an expression.
pub(crate) fn not_alone(alloc: Global, text: Input<'_>, before: usize, offset: usize) -> Words {
    unread(alloc, text, before, TextFlaw::DuplicateRule, offset)
}

/// Why the types of an expression are refused, which is a part of these rules.
pub(crate) fn untyped(
    alloc: Global,
    text: Input<'_>,
    before: usize,
    model: &ClassModel,
    rules: &[SurfaceRule],
    flaw: TypeFlaw,
    offset: usize,
) -> Words {
    let mut out = Faults::behind(alloc, before);
    explain_type_flaw(alloc, &mut out, text, model, rules, flaw, 0, offset)?;
    Ok(out.into_words())
}

/// That an expression isn't found in its rule; each is.
pub(crate) fn no_part(alloc: Global) -> Words {
    String::from_str(alloc, "the expression isn't found in its rule\n")
}

/// That no object of a delivery has an id.
pub(crate) fn no_object(alloc: Global, path: &str, id: &str) -> Words {
    let shown = quote(alloc, id)?;
    format!(in alloc; "{path}: no object has the id `{shown}`\n")
}

/// That a class model has no class, of which an object could be.
pub(crate) fn no_class(alloc: Global, path: &str) -> Words {
    format!(in alloc;
        "{path}: an expression is read as a rule of a class, and the class model has none\n"
    )
}

/// Why a class model or a delivery is refused.
fn refusal_words(
    alloc: Global,
    model: Input<'_>,
    delivery: Input<'_>,
    place: Place<'_>,
    refusal: &Refusal,
) -> Words {
    let mut out = Faults::new(alloc);
    match (place, refusal) {
        (Place::Model, Refusal::Model(fault)) => explain_model(alloc, &mut out, model, *fault)?,
        (Place::Delivery(read), Refusal::Delivery(fault)) => {
            explain_delivery(alloc, &mut out, delivery, read, fault)?;
        }
        _ => (),
    }
    Ok(out.into_words())
}

/// Why there is no population in which an expression has a value.
pub(crate) fn unloaded(
    alloc: Global,
    model: Input<'_>,
    delivery: Input<'_>,
    place: Place<'_>,
    why: &Stopped,
) -> Unvalued {
    match why {
        Stopped::Refused(refusal) => {
            refused(refusal_words(alloc, model, delivery, place, refusal))
        }
        Stopped::OutOfMemory => Unvalued::Failed(CommandFault::OutOfMemory),
    }
}
