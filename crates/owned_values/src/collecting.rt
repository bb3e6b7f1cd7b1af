//! The results of iterations that keep elements, or collect the values of their body.

ghost use Rattle.std.specs.Prelude.{◌≡◌, ◌++◌, List, map, length, IfOk, OnOk};
ghost use Rattle.std.specs.List.{list_any, filter_map};
ghost use Rattle.ocl_base.specs.Lists.{repeats};
ghost use Rattle.rule_values.specs.Value.{Element as Meant, as_element, same_element};
ghost use Rattle.rule_values.specs.Operations.{is_invalid};
ghost use Rattle.rule_values.specs.Endings.{select, reject, collection_elements, joined, collect, collect_flat, unique_bodies};
ghost use Rattle.owned_values.specs.Meant.{meant, meant_elements, source};
ghost use Rattle.owned_values.specs.Walks.{element_list};

use crate::elements::is_element_among;
use crate::endings::{any_undecided, kept_elements};
use crate::value::{Element, Value, copy_of, is_invalid};
use ocl_base::{CollectionKind, OutOfMemory, push};
use ocl_kinds::collected_kind;
use std::alloc::Global;

/// The elements whose body is true; invalid where a body is undecided.
#[tactic(auto, using(crate::proofs::Bodies::any_bodies))]
pub fn select<'a>(
    alloc: Global,
    kind: CollectionKind,
    elements: &[Element<'a>],
    bodies: &[Value<'_>],
) -> Result<Value<'a>, OutOfMemory>
    requires { length bodies.now ≡ length elements.now }
    ensures { IfOk result (λ v. meant v ≡ select (source kind (meant_elements elements.now))
        (map meant bodies.now)) }
{
    if any_undecided(bodies) {
        return Ok(Value::Invalid);
    }
    let kept = kept_elements(alloc, elements, bodies, true)?;
    Ok(Value::Collection(kind, kept))
}

/// The elements whose body is false; invalid where a body is undecided.
#[tactic(auto, using(crate::proofs::Bodies::any_bodies))]
pub fn reject<'a>(
    alloc: Global,
    kind: CollectionKind,
    elements: &[Element<'a>],
    bodies: &[Value<'_>],
) -> Result<Value<'a>, OutOfMemory>
    requires { length bodies.now ≡ length elements.now }
    ensures { IfOk result (λ v. meant v ≡ reject (source kind (meant_elements elements.now))
        (map meant bodies.now)) }
{
    if any_undecided(bodies) {
        return Ok(Value::Invalid);
    }
    let kept = kept_elements(alloc, elements, bodies, false)?;
    Ok(Value::Collection(kind, kept))
}

/// Whether a body is invalid.
fn any_invalid(bodies: &[Value<'_>]) -> bool
    ensures { result ≡ list_any (λ b. is_invalid (meant b)) bodies.now }
{
    bodies.iter().any(is_invalid)
}

/// Puts a body at a list's end, if it is an element.
fn push_body<'a>(elements: &mut Vec<Element<'a>>, body: &Value<'a>) -> Result<(), OutOfMemory>
    ensures { OnOk result (meant_elements elements.new.items ≡ meant_elements elements.old.items ++
        element_list (as_element (meant body.now))) }
{
    match body {
        Value::Element(element) => push(elements, copy_of(element)),
        Value::Invalid => Ok(()),
        Value::Collection(_, _) => Ok(()),
    }
}

/// The bodies that are elements.
fn collected_elements<'a>(
    alloc: Global,
    bodies: &[Value<'a>],
) -> Result<Vec<Element<'a>>, OutOfMemory>
    ensures { IfOk result (λ v. meant_elements v.items ≡
        filter_map as_element (map meant bodies.now)) }
{
    let mut elements = Vec::new(alloc);
    for body in bodies {
        push_body(&mut elements, body)?;
    }
    Ok(elements)
}

/// What the bodies give, one by one; invalid where one is invalid.
#[tactic(auto, using(crate::proofs::Bodies::any_bodies))]
pub fn collect<'a>(
    alloc: Global,
    kind: CollectionKind,
    bodies: &[Value<'a>],
) -> Result<Value<'a>, OutOfMemory>
    ensures { IfOk result (λ v. (es : List Meant) →
        meant v ≡ collect (source kind es) (map meant bodies.now)) }
{
    if any_invalid(bodies) {
        return Ok(Value::Invalid);
    }
    let collected = collected_elements(alloc, bodies)?;
    Ok(Value::Collection(collected_kind(kind), collected))
}

/// Puts copies of elements at a list's end.
fn push_all<'a>(elements: &mut Vec<Element<'a>>, more: &[Element<'a>]) -> Result<(), OutOfMemory>
    ensures { OnOk result (meant_elements elements.new.items ≡ meant_elements elements.old.items ++
        meant_elements more.now) }
{
    for element in more {
        push(elements, copy_of(element))?;
    }
    Ok(())
}

/// Puts the elements of a body at a list's end.
fn push_elements<'a>(elements: &mut Vec<Element<'a>>, body: &Value<'a>) -> Result<(), OutOfMemory>
    ensures { OnOk result (meant_elements elements.new.items ≡ meant_elements elements.old.items ++
        collection_elements (meant body.now)) }
{
    match body {
        Value::Collection(_, more) => push_all(elements, more.as_slice()),
        Value::Element(_) => Ok(()),
        Value::Invalid => Ok(()),
    }
}

/// The elements of all the bodies, in order.
fn joined_elements<'a>(alloc: Global, bodies: &[Value<'a>]) -> Result<Vec<Element<'a>>, OutOfMemory>
    ensures { IfOk result (λ v. meant_elements v.items ≡ joined (map meant bodies.now)) }
{
    let mut elements = Vec::new(alloc);
    for body in bodies {
        push_elements(&mut elements, body)?;
    }
    Ok(elements)
}

/// The elements of what the bodies give; invalid where one is invalid.
#[tactic(auto, using(crate::proofs::Bodies::any_bodies))]
pub fn collect_flat<'a>(
    alloc: Global,
    kind: CollectionKind,
    bodies: &[Value<'a>],
) -> Result<Value<'a>, OutOfMemory>
    ensures { IfOk result (λ v. (es : List Meant) →
        meant v ≡ collect_flat (source kind es) (map meant bodies.now)) }
{
    if any_invalid(bodies) {
        return Ok(Value::Invalid);
    }
    let collected = joined_elements(alloc, bodies)?;
    Ok(Value::Collection(collected_kind(kind), collected))
}

/// Whether an element stands twice.
fn repeats_element(elements: &[Element<'_>]) -> bool
    ensures { result ≡ repeats same_element (meant_elements elements.now) }
{
    for index in 0..elements.len() {
        if is_element_among(&elements[index + 1..], &elements[index]) {
            return true;
        }
    }
    false
}

/// Whether no two bodies are equal; invalid where one is invalid.
#[tactic(auto, using(crate::proofs::Bodies::any_bodies))]
pub fn unique_bodies<'a>(alloc: Global, bodies: &[Value<'_>]) -> Result<Value<'a>, OutOfMemory>
    ensures { IfOk result (λ v. meant v ≡ unique_bodies (map meant bodies.now)) }
{
    if any_invalid(bodies) {
        return Ok(Value::Invalid);
    }
    let elements = collected_elements(alloc, bodies)?;
    Ok(Value::Element(Element::Bool(!repeats_element(elements.as_slice()))))
}
