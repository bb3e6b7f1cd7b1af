//! Warnings of rules whose types are right.

use crate::found::Stop;
use crate::known::Fate;
use crate::reading::Reading;
use crate::scope::{Decided, Decision, Scope, Unequal};
use crate::type_names::a_type;
use explain_names::{enumeration_name, literal_name};
use explain_notes::{Input, Note};
use explain_text::length_of_token;
use imkl_model::{ClassModel, EnumNo};
use ocl_kinds::{Kind, ScalarKind};
use ocl_text::SurfaceRule;
use ocl_types::TypeFlaw;
use std::alloc::{AllocError, Global};

/// How what was meant by a comparison with a literal's name is written, by the first literal of the enumeration.
fn equality_advice(
    alloc: Global,
    model: &ClassModel,
    left: &Kind,
    right: &Kind,
) -> Result<String, AllocError> {
    let enumeration = match (left, right) {
        (Kind::Scalar(ScalarKind::Enumeration(it)), Kind::Scalar(ScalarKind::String)) => *it,
        (Kind::Scalar(ScalarKind::String), Kind::Scalar(ScalarKind::Enumeration(it))) => *it,
        _ => return Ok(String::new(alloc)),
    };
    literal_advice(alloc, model, enumeration)
}

/// How a literal of an enumeration is written, by its first one.
fn literal_advice(
    alloc: Global,
    model: &ClassModel,
    enumeration: EnumNo,
) -> Result<String, AllocError> {
    let name = enumeration_name(model, enumeration);
    let literal = literal_name(model, enumeration, 0);
    format!(in alloc;
        "a literal of an enumeration is written without quotes, as `{name}::{literal}`"
    )
}

/// Writes a warning of a comparison that is true only where both values are null.
fn write_unequal(
    alloc: Global,
    out: &mut String,
    input: Input<'_>,
    model: &ClassModel,
    unequal: &Unequal,
) -> Result<(), AllocError> {
    let (left, right) = (a_type(model, &unequal.left), a_type(model, &unequal.right));
    let label = format!(in alloc; "{left} on its left, {right} on its right")?;
    let help = equality_advice(alloc, model, &unequal.left, &unequal.right)?;
    let note = Note {
        input,
        offset: unequal.offset,
        length: length_of_token(alloc, input.bytes, unequal.offset)?,
        message: "these are equal only where both are null",
        fault: "warning",
        label: label.as_str(),
        help: help.as_str(),
    };
    note.write(alloc, out)
}

/// Writes a warning of a variable that nothing reads.
fn write_unread(
    alloc: Global,
    out: &mut String,
    input: Input<'_>,
    offset: usize,
) -> Result<(), AllocError> {
    let note = Note {
        input,
        offset,
        length: length_of_token(alloc, input.bytes, offset)?,
        message: "nothing reads this variable",
        fault: "warning",
        label: "",
        help: "",
    };
    note.write(alloc, out)
}

/// Writes a warning of a part of which something is decided whatever the delivery.
fn write_decided(
    alloc: Global,
    out: &mut String,
    input: Input<'_>,
    decided: &Decided,
) -> Result<(), AllocError> {
    let message = match decided.decision {
        Decision::NeverTrue => "this is never true",
        Decision::NeverFalse => "this is never false",
        Decision::NeverBoth => "the two sides are never both true",
        Decision::Invalid => "this has no value, since an operand is null",
    };
    let note = Note {
        input,
        offset: decided.offset,
        length: length_of_token(alloc, input.bytes, decided.offset)?,
        message,
        fault: "warning",
        label: "",
        help: "",
    };
    note.write(alloc, out)
}

/// Writes the warnings that a reading gathered.
fn write_gathered(
    alloc: Global,
    out: &mut String,
    input: Input<'_>,
    model: &ClassModel,
    scope: &Scope<'_>,
) -> Result<(), AllocError> {
    for unequal in &scope.unequal {
        write_unequal(alloc, out, input, model, unequal)?;
    }
    for offset in &scope.unread {
        write_unread(alloc, out, input, *offset)?;
    }
    for decided in &scope.decided {
        write_decided(alloc, out, input, decided)?;
    }
    Ok(())
}

/// Writes a warning of a rule that no object can keep or break, if it is one.
fn write_fate(
    alloc: Global,
    out: &mut String,
    input: Input<'_>,
    rule: &SurfaceRule,
    fate: Fate,
) -> Result<(), AllocError> {
    let (what, label) = match (fate.may_hold, fate.may_fail) {
        (true, true) => return Ok(()),
        (false, true) => ("no object can keep", "this is never true"),
        (true, false) => ("no object can break", "this is never false"),
        (false, false) => ("no object can keep or break", "this is never true or false"),
    };
    let name = rule.name.as_str();
    let message = format!(in alloc; "{what} rule `{name}`")?;
    let offset = rule.expression.offset();
    let note = Note {
        input,
        offset,
        length: length_of_token(alloc, input.bytes, offset)?,
        message: message.as_str(),
        fault: "warning",
        label,
        help: "",
    };
    note.write(alloc, out)
}

/// Writes what there are warnings of in a rule, once it is read.
fn write_read<'t>(
    alloc: Global,
    out: &mut String,
    input: Input<'_>,
    reading: &mut Reading<'t>,
    rule: &'t SurfaceRule,
) -> Result<(), AllocError> {
    match reading.part_of(&rule.expression) {
        Ok(part) => {
            write_gathered(alloc, out, input, reading.model, &reading.scope)?;
            write_fate(alloc, out, input, rule, part.fate)
        }
        Err(Stop::OutOfMemory) => Err(AllocError),
        Err(Stop::Fault) => Ok(()),
    }
}

/// Writes the warnings of a rule whose types are right: comparisons that are true only of two nulls, variables of a `let`
/// that nothing reads, and that no object can keep or break it.
pub fn warn_of_rule(
    alloc: Global,
    out: &mut String,
    input: Input<'_>,
    model: &ClassModel,
    rule: &SurfaceRule,
) -> Result<(), AllocError> {
    let Some(class) = model.class(rule.context.as_str()) else {
        return Ok(());
    };
    // (no fault stands there, so the reading goes through the whole rule)
    let flaw = TypeFlaw::UnknownName;
    let mut reading = Reading::of_rule(alloc, model, class, rule, flaw, usize::MAX)?;
    write_read(alloc, out, input, &mut reading, rule)
}
