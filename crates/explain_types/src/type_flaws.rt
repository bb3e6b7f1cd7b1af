//! Why the types of a rule are refused.

use crate::found::Stop;
use crate::reading::Reading;
use crate::words::{unknown_class, write_finding};
use crate::writing::Words;
use explain_faults::Faults;
use explain_notes::{Input, Note};
use explain_text::length_of_token;
use imkl_model::ClassModel;
use ocl_text::{Expression, SurfaceRule};
use ocl_types::TypeFlaw;
use std::alloc::{AllocError, Global};

/// Writes what a reading finds at the fault of a rule, if it finds it.
fn write_read<'t>(
    alloc: Global,
    words: &mut Words,
    reading: &mut Reading<'t>,
    expression: &'t Expression,
) -> Result<(), AllocError> {
    if let Err(Stop::OutOfMemory) = reading.part_of(expression) {
        return Err(AllocError);
    }
    match reading.finding {
        Some(finding) => write_finding(alloc, words, reading, finding),
        None => Ok(()),
    }
}

/// Writes what is said of the fault of a rule.
fn write_words(
    alloc: Global,
    words: &mut Words,
    model: &ClassModel,
    rule: &SurfaceRule,
    flaw: TypeFlaw,
    offset: usize,
) -> Result<(), AllocError> {
    let context = rule.context.as_str();
    match model.class(context) {
        Some(class) => {
            let mut reading = Reading::of_rule(alloc, model, class, rule, flaw, offset)?;
            write_read(alloc, words, &mut reading, &rule.expression)
        }
        None => unknown_class(alloc, words, model, context),
    }
}

/// What is said of the fault of a rule; the flaw's name alone where a reading finds no more.
fn words_of(
    alloc: Global,
    model: &ClassModel,
    rule: Option<&SurfaceRule>,
    flaw: TypeFlaw,
    offset: usize,
) -> Result<Words, AllocError> {
    let mut words = Words {
        message: String::new(alloc),
        label: String::new(alloc),
        help: String::new(alloc),
    };
    if let Some(rule) = rule {
        write_words(alloc, &mut words, model, rule, flaw, offset)?;
    }
    if words.message.is_empty() {
        write!(&mut words.message, "{flaw}")?;
    }
    Ok(words)
}

/// Adds the note on a fault.
fn add_note(
    alloc: Global,
    out: &mut Faults,
    input: Input<'_>,
    words: &Words,
    flaw: TypeFlaw,
    offset: usize,
) -> Result<(), AllocError> {
    let number = flaw.number();
    let fault = format!(in alloc; "types {number}")?;
    let note = Note {
        input,
        offset,
        length: length_of_token(alloc, input.bytes, offset)?,
        message: words.message.as_str(),
        fault: fault.as_str(),
        label: words.label.as_str(),
        help: words.help.as_str(),
    };
    out.add_note(alloc, &note)
}

/// Says why the rules of a text are refused of which this one has this flaw at an offset.
pub fn explain_type_flaw(
    alloc: Global,
    out: &mut Faults,
    input: Input<'_>,
    model: &ClassModel,
    rules: &[SurfaceRule],
    flaw: TypeFlaw,
    rule: usize,
    offset: usize,
) -> Result<(), AllocError> {
    let words = words_of(alloc, model, rules.get(rule), flaw, offset)?;
    add_note(alloc, out, input, &words, flaw, offset)
}
