//! The values of a feature as they are written, and the notes on them.

use explain_names::{class_name, enumeration_name, is_literal, literal_count, literal_name};
use explain_notes::quote;
use imkl_model::{ClassModel, ElementType, EnumNo};
use serde_json::Value;
use std::alloc::{AllocError, Global};
use std::slice;

/// The most literals that are listed.
const MAX_LISTED: usize = 12;

/// The values that a member lists: one stands for a list of one, null for none.
pub(crate) fn values_of(value: &Value) -> &[Value] {
    match value {
        Value::Null => &[],
        Value::Array(values) => values.as_slice(),
        _ => slice::from_ref(value),
    }
}

/// A value as it is written, cut where it is long.
pub(crate) fn quote_value(alloc: Global, value: &Value) -> Result<String, AllocError> {
    let text = value.to_string(alloc)?;
    quote(alloc, text.as_str())
}

/// Whether a value is of an attribute's type, or for an end a text.
pub(crate) fn is_of_type(model: &ClassModel, element: ElementType, value: &Value) -> bool {
    match element {
        ElementType::Boolean => value.is_boolean(),
        ElementType::Integer => value.as_i64().is_some(),
        ElementType::String | ElementType::Class(_) => value.is_string(),
        ElementType::Enumeration(enumeration) => match value.as_str() {
            Some(name) => is_literal(model, enumeration, name),
            None => false,
        },
    }
}

/// A number for a whole number and for a truth value: values of one type are equal where their numbers are.
pub(crate) fn number_of(value: &Value) -> Option<i64> {
    match value.as_bool() {
        Some(truth) => Some(i64::from(truth)),
        None => value.as_i64(),
    }
}

/// Writes the literals of an enumeration, as they are listed.
fn write_literals(
    out: &mut String,
    model: &ClassModel,
    enumeration: EnumNo,
) -> Result<(), AllocError> {
    for index in 0..literal_count(model, enumeration) {
        if index != 0 {
            out.push_str(", ")?;
        }
        if index == MAX_LISTED {
            return out.push_str("..");
        }
        out.push_str(literal_name(model, enumeration, index))?;
    }
    Ok(())
}

/// Writes what a value of an element type is, in words.
pub(crate) fn write_type(
    out: &mut String,
    model: &ClassModel,
    element: ElementType,
) -> Result<(), AllocError> {
    match element {
        ElementType::Boolean => out.push_str("true or false"),
        ElementType::Integer => out.push_str("a whole number without a point"),
        ElementType::String => out.push_str("a text in double quotes"),
        ElementType::Enumeration(enumeration) => {
            let name = enumeration_name(model, enumeration);
            write!(out, "a literal of {name} (")?;
            write_literals(out, model, enumeration)?;
            out.push_str(")")
        }
        ElementType::Class(class) => {
            let name = class_name(model, class);
            write!(out, "the id of an object of {name}")
        }
    }
}
