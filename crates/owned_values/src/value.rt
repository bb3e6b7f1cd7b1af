//! Values as the machine has them.

ghost use Rattle.std.specs.Prelude.{◌≡◌, IfOk};
ghost use Rattle.rule_values.specs.Value.{element_value};
ghost use Rattle.rule_values.specs.Operations.{is_true, is_false, is_null, is_invalid, truth_known};
ghost use Rattle.owned_values.specs.Meant.{meant, meant_element, meant_elements};

use imkl_model::{EnumNo, LiteralNo};
use imkl_population::ObjectNo;
use ocl_base::{CollectionKind, OutOfMemory, push};
use std::alloc::Global;

/// A single value or null, as collections have them. A text is borrowed from the unit or the population.
#[derive(Drop)]
pub enum Element<'a> {
    /// Null.
    Null,
    /// A truth value.
    Bool(bool),
    /// A whole number.
    Int(i64),
    /// A text.
    Text(&'a str),
    /// A literal of an enumeration.
    Literal(EnumNo, LiteralNo),
    /// An object.
    Object(ObjectNo),
}

/// A value.
#[derive(Drop)]
pub enum Value<'a> {
    /// Invalid.
    Invalid,
    /// A single value, or null.
    Element(Element<'a>),
    /// A collection.
    Collection(CollectionKind, Vec<Element<'a>>),
}

/// The same element again.
pub fn copy_of<'a>(element: &Element<'a>) -> Element<'a>
    ensures { meant_element result ≡ meant_element element.now }
{
    match element {
        Element::Null => Element::Null,
        Element::Bool(b) => Element::Bool(*b),
        Element::Int(n) => Element::Int(*n),
        Element::Text(text) => Element::Text(text),
        Element::Literal(enumeration, literal) => Element::Literal(*enumeration, *literal),
        Element::Object(object) => Element::Object(*object),
    }
}

/// An element as a value of its own.
pub fn element_value<'a>(element: &Element<'a>) -> Value<'a>
    ensures { meant result ≡ element_value (meant_element element.now) }
{
    Value::Element(copy_of(element))
}

/// Whether it is true.
pub fn is_true(value: &Value<'_>) -> bool
    ensures { result ≡ is_true (meant value.now) }
{
    match value {
        Value::Element(Element::Bool(b)) => *b,
        _ => false,
    }
}

/// Whether it is false.
pub fn is_false(value: &Value<'_>) -> bool
    ensures { result ≡ is_false (meant value.now) }
{
    match value {
        Value::Element(Element::Bool(b)) => !*b,
        _ => false,
    }
}

/// Whether it is null.
pub fn is_null(value: &Value<'_>) -> bool
    ensures { result ≡ is_null (meant value.now) }
{
    match value {
        Value::Element(Element::Null) => true,
        _ => false,
    }
}

/// Whether it is invalid.
pub fn is_invalid(value: &Value<'_>) -> bool
    ensures { result ≡ is_invalid (meant value.now) }
{
    match value {
        Value::Invalid => true,
        Value::Element(_) => false,
        Value::Collection(_, _) => false,
    }
}

/// True where it is known to be true, false where it is known to be false, else invalid.
pub(crate) fn truth_known<'a>(is_so: bool, is_not: bool) -> Value<'a>
    ensures { meant result ≡ truth_known is_so is_not }
{
    if is_so {
        Value::Element(Element::Bool(true))
    } else if is_not {
        Value::Element(Element::Bool(false))
    } else {
        Value::Invalid
    }
}

/// The same value again.
#[inline(always)]
pub fn copy_value<'a>(alloc: Global, value: &Value<'a>) -> Result<Value<'a>, OutOfMemory>
    ensures { IfOk result (λ v. meant v ≡ meant value.now) }
{
    match value {
        Value::Invalid => Ok(Value::Invalid),
        Value::Element(element) => Ok(Value::Element(copy_of(element))),
        Value::Collection(kind, elements) => {
            let elements = copy_elements(alloc, elements.as_slice())?;
            Ok(Value::Collection(*kind, elements))
        }
    }
}

/// The same elements again.
fn copy_elements<'a>(
    alloc: Global,
    elements: &[Element<'a>],
) -> Result<Vec<Element<'a>>, OutOfMemory>
    ensures { IfOk result (λ v. meant_elements v.items ≡ meant_elements elements.now) }
{
    let mut copies = Vec::with_capacity(alloc, elements.len())?;
    for element in elements {
        push(&mut copies, copy_of(element))?;
    }
    Ok(copies)
}
