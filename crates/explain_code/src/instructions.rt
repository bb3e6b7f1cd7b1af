//! Instructions in words: their names, and their fields with what these name.

use crate::symbols::{kind_words, scalar_words, symbol_words, text_of};
use explain_notes::quote;
use rule_code::{Instr, Unit};
use rule_verify::{Shape, shape_of};
use std::alloc::{AllocError, Global};

/// The numbers of instructions of the bodies that follow an instruction: of its only body, or of its two branches.
pub(crate) fn bodies_of(instruction: &Instr) -> Option<(usize, usize)> {
    match shape_of(*instruction) {
        Shape::Single => None,
        Shape::OneBody(length) => Some((length, 0)),
        Shape::TwoBodies(first, second) => Some((first, second)),
    }
}

/// The fields of an instruction that has one value in it.
fn value_words(alloc: Global, unit: &Unit, instruction: &Instr) -> Result<String, AllocError> {
    match instruction {
        Instr::Get(number) => format!(in alloc; "{number}"),
        Instr::Int(number) => format!(in alloc; "{number}"),
        Instr::Bool(truth) => format!(in alloc; "{truth}"),
        Instr::Text(number) => {
            let text = quote(alloc, text_of(unit, *number))?;
            format!(in alloc; "'{text}'")
        }
        Instr::Enum(symbol)
        | Instr::Attr(symbol)
        | Instr::All(symbol)
        | Instr::KindOf(symbol)
        | Instr::TypeOf(symbol)
        | Instr::AsType(symbol) => symbol_words(alloc, unit, *symbol),
        _ => Ok(String::new(alloc)),
    }
}

/// The fields of an instruction that has a kind in it.
fn kinds_words(alloc: Global, unit: &Unit, instruction: &Instr) -> Result<String, AllocError> {
    match instruction {
        Instr::AsColl(collection, kind) => {
            let element = scalar_words(alloc, unit, kind)?;
            format!(in alloc; "{collection:?}({element})")
        }
        Instr::Includes(kind)
        | Instr::Count(kind)
        | Instr::IncAll(kind)
        | Instr::ExcAll(kind)
        | Instr::AsSet(kind) => scalar_words(alloc, unit, kind),
        Instr::Eq(kind) => kind_words(alloc, unit, kind),
        Instr::If(kind, first, second) => {
            let kind = kind_words(alloc, unit, kind)?;
            format!(in alloc; "{kind} {first} {second}")
        }
        Instr::IsUnique(kind, count) | Instr::Fold(kind, count) => {
            let kind = scalar_words(alloc, unit, kind)?;
            format!(in alloc; "{kind} {count}")
        }
        _ => value_words(alloc, unit, instruction),
    }
}

/// An instruction with its fields, and what these name in place of their numbers, as `ATTR C.f`.
pub fn instruction_words(
    alloc: Global,
    unit: &Unit,
    instruction: &Instr,
) -> Result<String, AllocError> {
    let name = instruction.name();
    let fields = match (instruction, bodies_of(instruction)) {
        (Instr::If(_, _, _) | Instr::IsUnique(_, _) | Instr::Fold(_, _), _) | (_, None) => {
            kinds_words(alloc, unit, instruction)?
        }
        (_, Some((count, _))) => format!(in alloc; "{count}")?,
    };
    if fields.is_empty() {
        return String::from_str(alloc, name);
    }
    format!(in alloc; "{name} {fields}")
}
