//! Operations on collections, and on their elements.

ghost use Rattle.std.specs.Prelude.{◌≡◌, ◌∷◌, [], pos, bytes_eq, IfOk, OnOk};
ghost use Rattle.std.specs.List.{list_all, list_any};
ghost use Rattle.std.specs.Str.{chars};
ghost use Rattle.ocl_base.specs.Lists.{is_among};
ghost use Rattle.rule_values.specs.Value.{same_element};
ghost use Rattle.rule_values.specs.Equality.{occurrences};
ghost use Rattle.rule_values.specs.Operations.{integer_value, as_collection, collection_size, emptiness, membership, occurrence_count, inclusion, exclusion, distinct, as_set};
ghost use Rattle.owned_values.specs.Meant.{meant, meant_element, meant_elements};
ghost use Rattle.owned_values.specs.Walks.{with_new};

use crate::value::{Element, Value, copy_of};
use ocl_base::{CollectionKind, OutOfMemory, push};
use std::alloc::Global;

/// Whether two elements are the same.
pub(crate) fn same_element(a: &Element<'_>, b: &Element<'_>) -> bool
    ensures { result ≡ same_element (meant_element a.now) (meant_element b.now) }
{
    match (a, b) {
        (Element::Null, Element::Null) => true,
        (Element::Bool(a), Element::Bool(b)) => *a == *b,
        (Element::Int(a), Element::Int(b)) => *a == *b,
        (Element::Text(a), Element::Text(b)) => same_text(a, b),
        (Element::Literal(d, a), Element::Literal(e, b)) => {
            d.index() == e.index() && a.index() == b.index()
        }
        (Element::Object(a), Element::Object(b)) => a.index() == b.index(),
        _ => false,
    }
}

/// Whether an element is one of these.
pub(crate) fn is_element_among(elements: &[Element<'_>], element: &Element<'_>) -> bool
    ensures { result ≡ is_among same_element (meant_elements elements.now) (meant_element element.now) }
{
    for other in elements {
        if same_element(element, other) {
            return true;
        }
    }
    false
}

/// A number as a value; invalid where it is too large for a whole number.
pub(crate) fn count_value<'a>(n: usize) -> Value<'a>
    ensures { meant result ≡ integer_value (pos n) }
{
    match i64::try_from(n) {
        Ok(n) => Value::Element(Element::Int(n)),
        Err(_) => Value::Invalid,
    }
}

/// How many elements there are.
pub fn collection_size<'a>(v: &Value<'_>) -> Value<'a>
    ensures { meant result ≡ collection_size (meant v.now) }
{
    match v {
        Value::Collection(_, elements) => count_value(elements.len()),
        _ => Value::Invalid,
    }
}

/// Whether there is no element.
pub fn emptiness<'a>(v: &Value<'_>) -> Value<'a>
    ensures { meant result ≡ emptiness (meant v.now) }
{
    match v {
        Value::Collection(_, elements) => Value::Element(Element::Bool(elements.len() == 0)),
        _ => Value::Invalid,
    }
}

/// Whether an element is in a collection.
pub fn membership<'a>(v: &Value<'_>, w: &Value<'_>) -> Value<'a>
    ensures { meant result ≡ membership (meant v.now) (meant w.now) }
{
    match (v, w) {
        (Value::Collection(_, elements), Value::Element(element)) => {
            Value::Element(Element::Bool(is_element_among(elements.as_slice(), element)))
        }
        _ => Value::Invalid,
    }
}

/// A collection of the one value; of null it is empty.
pub fn as_collection<'a>(
    alloc: Global,
    kind: CollectionKind,
    v: &Value<'a>,
) -> Result<Value<'a>, OutOfMemory>
    ensures { IfOk result (λ r. meant r ≡ as_collection kind (meant v.now)) }
{
    match v {
        Value::Element(Element::Null) => Ok(Value::Collection(kind, Vec::new(alloc))),
        Value::Element(element) => {
            let elements = one_element(alloc, element)?;
            Ok(Value::Collection(kind, elements))
        }
        _ => Ok(Value::Invalid),
    }
}

/// A list of one element.
fn one_element<'a>(alloc: Global, element: &Element<'a>) -> Result<Vec<Element<'a>>, OutOfMemory>
    ensures { IfOk result (λ v. meant_elements v.items ≡ meant_element element.now ∷ []) }
{
    let mut elements = Vec::new(alloc);
    push(&mut elements, copy_of(element))?;
    Ok(elements)
}

/// Whether two texts are the same.
fn same_text(a: &str, b: &str) -> bool
    ensures { result ≡ bytes_eq (chars a.now) (chars b.now) }
{
    a == b
}

/// How often an element stands in a list.
pub(crate) fn occurrences(elements: &[Element<'_>], element: &Element<'_>) -> usize
    ensures { result ≡ occurrences (meant_elements elements.now) (meant_element element.now) }
{
    let mut count = 0;
    for other in elements {
        if same_element(other, element) {
            count += 1;
        }
    }
    count
}

/// How often an element is in a collection.
pub fn occurrence_count<'a>(v: &Value<'_>, w: &Value<'_>) -> Value<'a>
    ensures { meant result ≡ occurrence_count (meant v.now) (meant w.now) }
{
    match (v, w) {
        (Value::Collection(_, elements), Value::Element(element)) => {
            count_value(occurrences(elements.as_slice(), element))
        }
        _ => Value::Invalid,
    }
}

/// Whether each of some elements is one of others.
pub(crate) fn are_elements_among(elements: &[Element<'_>], others: &[Element<'_>]) -> bool
    ensures { result ≡ list_all (is_among same_element (meant_elements elements.now))
        (meant_elements others.now) }
{
    for other in others {
        if !is_element_among(elements, other) {
            return false;
        }
    }
    true
}

/// Whether one of some elements is one of others.
fn is_one_among(elements: &[Element<'_>], others: &[Element<'_>]) -> bool
    ensures { result ≡ list_any (is_among same_element (meant_elements elements.now))
        (meant_elements others.now) }
{
    for other in others {
        if is_element_among(elements, other) {
            return true;
        }
    }
    false
}

/// Whether each element of the second collection is in the first.
pub fn inclusion<'a>(v: &Value<'_>, w: &Value<'_>) -> Value<'a>
    ensures { meant result ≡ inclusion (meant v.now) (meant w.now) }
{
    match (v, w) {
        (Value::Collection(_, elements), Value::Collection(_, others)) => {
            let all = are_elements_among(elements.as_slice(), others.as_slice());
            Value::Element(Element::Bool(all))
        }
        _ => Value::Invalid,
    }
}

/// Whether no element of the second collection is in the first.
pub fn exclusion<'a>(v: &Value<'_>, w: &Value<'_>) -> Value<'a>
    ensures { meant result ≡ exclusion (meant v.now) (meant w.now) }
{
    match (v, w) {
        (Value::Collection(_, elements), Value::Collection(_, others)) => {
            let any = is_one_among(elements.as_slice(), others.as_slice());
            Value::Element(Element::Bool(!any))
        }
        _ => Value::Invalid,
    }
}

/// Each element once, where it first stands.
fn distinct_elements<'a>(
    alloc: Global,
    elements: &[Element<'a>],
) -> Result<Vec<Element<'a>>, OutOfMemory>
    ensures { IfOk result (λ v. meant_elements v.items ≡ distinct (meant_elements elements.now)) }
{
    let mut distinct = Vec::new(alloc);
    for element in elements {
        push_new(&mut distinct, element)?;
    }
    Ok(distinct)
}

/// Puts a copy of an element at a list's end, if it isn't there yet.
fn push_new<'a>(elements: &mut Vec<Element<'a>>, element: &Element<'a>) -> Result<(), OutOfMemory>
    ensures { OnOk result (meant_elements elements.new.items ≡ with_new (meant_elements elements.old.items)
        (meant_element element.now)) }
{
    if !is_element_among(elements.as_slice(), element) {
        push(elements, copy_of(element))?;
    }
    Ok(())
}

/// The Set of a collection's elements.
pub fn as_set<'a>(alloc: Global, v: &Value<'a>) -> Result<Value<'a>, OutOfMemory>
    ensures { IfOk result (λ r. meant r ≡ as_set (meant v.now)) }
{
    match v {
        Value::Collection(_, elements) => {
            let distinct = distinct_elements(alloc, elements.as_slice())?;
            Ok(Value::Collection(CollectionKind::Set, distinct))
        }
        _ => Ok(Value::Invalid),
    }
}
