//! Kinds in words.

use explain_names::{class_name, enumeration_name};
use imkl_model::ClassModel;
use ocl_base::Stack;
use ocl_kinds::{Kind, ScalarKind};
use rule_verify::{Operands, Pattern};
use std::alloc::{AllocError, Global};

/// The most kinds of a list that are written.
const MAX_KINDS: usize = 8;

fn scalar_words<'m>(model: &'m ClassModel, kind: &ScalarKind) -> &'m str {
    match kind {
        ScalarKind::Void => "Void",
        ScalarKind::Boolean => "Boolean",
        ScalarKind::Integer => "Integer",
        ScalarKind::String => "String",
        ScalarKind::Enumeration(enumeration) => enumeration_name(model, *enumeration),
        ScalarKind::Class(class) => class_name(model, *class),
        ScalarKind::AnyObject => "any object",
    }
}

/// Writes a kind, as `Set(KabelOfLeiding)`.
fn write_kind(out: &mut String, model: &ClassModel, kind: &Kind) -> Result<(), AllocError> {
    match kind {
        Kind::Scalar(scalar) => out.push_str(scalar_words(model, scalar)),
        Kind::Collection(collection, element) => {
            let element = scalar_words(model, element);
            write!(out, "{collection:?}({element})")
        }
    }
}

/// Writes a comma, unless nothing is written yet.
fn separate(out: &mut String) -> Result<(), AllocError> {
    if out.is_empty() {
        Ok(())
    } else {
        out.push_str(", ")
    }
}

/// Writes what is wanted.
fn write_pattern(
    out: &mut String,
    model: &ClassModel,
    pattern: &Pattern,
) -> Result<(), AllocError> {
    match pattern {
        Pattern::Fitting(kind) => write_kind(out, model, kind),
        Pattern::Anything => out.push_str("anything"),
        Pattern::AnySingle => out.push_str("a single value"),
        Pattern::AnyCollection => out.push_str("a collection"),
        Pattern::CollectionOf(element) => {
            let element = scalar_words(model, element);
            write!(out, "a collection of {element}")
        }
    }
}

/// The topmost eight kinds of a stack, the topmost last, as `Integer, Set(KabelOfLeiding)`; where there are more, how many
/// are before them.
pub(crate) fn kind_list(
    alloc: Global,
    model: &ClassModel,
    kinds: &Stack<Kind>,
) -> Result<String, AllocError> {
    let mut out = String::new(alloc);
    let more = kinds.len().saturating_sub(MAX_KINDS);
    if more > 0 {
        write!(out, "{more} more")?;
    }
    for number in more..kinds.len() {
        if let Some(kind) = kinds.from_bottom(number) {
            separate(&mut out)?;
            write_kind(&mut out, model, &kind)?;
        }
    }
    Ok(out)
}

/// What operands may be, the topmost last.
pub(crate) fn wanted_list(
    alloc: Global,
    model: &ClassModel,
    wanted: &Operands,
) -> Result<String, AllocError> {
    let mut out = String::new(alloc);
    match wanted {
        Operands::Nothing => (),
        Operands::One(only) => write_pattern(&mut out, model, only)?,
        Operands::Two(top, below) => {
            write_pattern(&mut out, model, below)?;
            separate(&mut out)?;
            write_pattern(&mut out, model, top)?;
        }
        Operands::Three(top, middle, lowest) => {
            write_pattern(&mut out, model, lowest)?;
            separate(&mut out)?;
            write_pattern(&mut out, model, middle)?;
            separate(&mut out)?;
            write_pattern(&mut out, model, top)?;
        }
    }
    Ok(out)
}
