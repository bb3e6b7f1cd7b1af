//! What a class model doesn't have that code names.

use crate::symbols::text_of;
use explain_names::{offer_classes, offer_enumerations, offer_features, offer_literals};
use explain_notes::{Nearest, quote};
use imkl_model::{ClassModel, ClassNo, EnumNo};
use rule_code::{Symbol, SymbolNumber};
use rule_verify::Resolved;
use std::alloc::{AllocError, Global};

/// Writes that there is no such thing, and what may have been meant.
fn write_missing(
    alloc: Global,
    out: &mut String,
    what: &str,
    name: &str,
    nearest: &Nearest<'_>,
) -> Result<(), AllocError> {
    let name = quote(alloc, name)?;
    match nearest.name() {
        Some(near) => writeln!(out, "  {what} `{name}`; did you mean `{near}`?"),
        None => writeln!(out, "  {what} `{name}`"),
    }
}

fn write_missing_class(
    alloc: Global,
    out: &mut String,
    model: &ClassModel,
    name: &str,
) -> Result<(), AllocError> {
    let mut nearest = Nearest::to(name);
    offer_classes(alloc, model, &mut nearest)?;
    write_missing(alloc, out, "there is no class", name, &nearest)
}

fn write_missing_enumeration(
    alloc: Global,
    out: &mut String,
    model: &ClassModel,
    name: &str,
) -> Result<(), AllocError> {
    let mut nearest = Nearest::to(name);
    offer_enumerations(alloc, model, &mut nearest)?;
    write_missing(alloc, out, "there is no enumeration", name, &nearest)
}

fn write_missing_feature(
    alloc: Global,
    out: &mut String,
    model: &ClassModel,
    class: ClassNo,
    class_name: &str,
    name: &str,
) -> Result<(), AllocError> {
    let mut nearest = Nearest::to(name);
    offer_features(alloc, model, class, &mut nearest)?;
    let what = format!(in alloc; "{class_name} has no feature")?;
    write_missing(alloc, out, what.as_str(), name, &nearest)
}

fn write_missing_literal(
    alloc: Global,
    out: &mut String,
    model: &ClassModel,
    enumeration: EnumNo,
    enumeration_name: &str,
    name: &str,
) -> Result<(), AllocError> {
    let mut nearest = Nearest::to(name);
    offer_literals(alloc, model, enumeration, &mut nearest)?;
    let what = format!(in alloc; "{enumeration_name} has no literal")?;
    write_missing(alloc, out, what.as_str(), name, &nearest)
}

/// Writes what a class model doesn't have that a symbol names.
pub(crate) fn write_missing_symbol(
    alloc: Global,
    out: &mut String,
    resolved: &Resolved<'_>,
    symbol: SymbolNumber,
) -> Result<(), AllocError> {
    let (model, unit) = (resolved.model(), resolved.unit());
    match unit.symbols.get(usize::from(symbol.0)) {
        Some(Symbol::Class(class)) => write_missing_class(alloc, out, model, text_of(unit, *class)),
        Some(Symbol::Enumeration(enumeration)) => {
            write_missing_enumeration(alloc, out, model, text_of(unit, *enumeration))
        }
        Some(Symbol::Feature { class, feature }) => {
            let (class, feature) = (text_of(unit, *class), text_of(unit, *feature));
            match model.linked_class(class) {
                Some(owner) => write_missing_feature(alloc, out, model, owner, class, feature),
                None => write_missing_class(alloc, out, model, class),
            }
        }
        Some(
            Symbol::Literal {
                enumeration,
                literal,
            },
        ) => {
            let (enumeration, literal) = (text_of(unit, *enumeration), text_of(unit, *literal));
            match model.enumeration(enumeration) {
                Some(owner) => {
                    write_missing_literal(alloc, out, model, owner, enumeration, literal)
                }
                None => write_missing_enumeration(alloc, out, model, enumeration),
            }
        }
        None => Ok(()),
    }
}
