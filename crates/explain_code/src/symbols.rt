//! What the numbers of a unit name.

use explain_notes::quote;
use rule_code::{Symbol, SymbolNumber, TextNumber, Unit, WrittenKind, WrittenScalar};
use std::alloc::{AllocError, Global};

/// The text of a number.
pub(crate) fn text_of(unit: &Unit, number: TextNumber) -> &str {
    match unit.texts.get(usize::from(number.0)) {
        Some(text) => text.as_str(),
        None => "",
    }
}

/// What a symbol names, as OCL writes it: `C`, `E`, `C.f` or `E::l`.
pub fn symbol_words(
    alloc: Global,
    unit: &Unit,
    number: SymbolNumber,
) -> Result<String, AllocError> {
    let (first, mark, second) = match unit.symbols.get(usize::from(number.0)) {
        Some(Symbol::Class(name) | Symbol::Enumeration(name)) => (text_of(unit, *name), "", ""),
        Some(Symbol::Feature { class, feature }) => {
            (text_of(unit, *class), ".", text_of(unit, *feature))
        }
        Some(
            Symbol::Literal {
                enumeration,
                literal,
            },
        ) => (text_of(unit, *enumeration), "::", text_of(unit, *literal)),
        None => ("", "", ""),
    };
    let (first, second) = (quote(alloc, first)?, quote(alloc, second)?);
    format!(in alloc; "{first}{mark}{second}")
}

/// A single value's kind, as OCL writes it.
pub(crate) fn scalar_words(
    alloc: Global,
    unit: &Unit,
    kind: &WrittenScalar,
) -> Result<String, AllocError> {
    let name = match kind {
        WrittenScalar::Void => "Void",
        WrittenScalar::Boolean => "Boolean",
        WrittenScalar::Integer => "Integer",
        WrittenScalar::String => "String",
        WrittenScalar::AnyObject => "any object",
        WrittenScalar::Enumeration(symbol) | WrittenScalar::Class(symbol) => {
            return symbol_words(alloc, unit, *symbol);
        }
    };
    String::from_str(alloc, name)
}

/// A kind, as OCL writes it.
pub(crate) fn kind_words(
    alloc: Global,
    unit: &Unit,
    kind: &WrittenKind,
) -> Result<String, AllocError> {
    match kind {
        WrittenKind::Scalar(scalar) => scalar_words(alloc, unit, scalar),
        WrittenKind::Collection(collection, element) => {
            let element = scalar_words(alloc, unit, element)?;
            format!(in alloc; "{collection:?}({element})")
        }
    }
}
