//! The results of iterations at their end, from the values of their body for each element.

ghost use Rattle.std.specs.Prelude.{◌≡◌, ◌++◌, map, length, IfOk, OnOk};
ghost use Rattle.std.specs.List.{list_all, list_any};
ghost use Rattle.rule_values.specs.Operations.{is_true, is_false};
ghost use Rattle.rule_values.specs.Endings.{for_all, exists, is_undecided, count_true, one, kept_by};
ghost use Rattle.owned_values.specs.Meant.{meant, meant_element, meant_elements};
ghost use Rattle.owned_values.specs.Walks.{kept_one, is_wanted};

use crate::value::{Element, Value, copy_of, is_false, is_true, truth_known};
use ocl_base::{CollectionKind, OutOfMemory, push};
use std::alloc::Global;

/// Whether a body is neither true nor false.
fn is_undecided(body: &Value<'_>) -> bool
    ensures { result ≡ is_undecided (meant body.now) }
{
    !(is_true(body) || is_false(body))
}

fn all_true(bodies: &[Value<'_>]) -> bool
    ensures { result ≡ list_all (λ b. is_true (meant b)) bodies.now }
{
    bodies.iter().all(is_true)
}

fn any_true(bodies: &[Value<'_>]) -> bool
    ensures { result ≡ list_any (λ b. is_true (meant b)) bodies.now }
{
    bodies.iter().any(is_true)
}

fn all_false(bodies: &[Value<'_>]) -> bool
    ensures { result ≡ list_all (λ b. is_false (meant b)) bodies.now }
{
    bodies.iter().all(is_false)
}

fn any_false(bodies: &[Value<'_>]) -> bool
    ensures { result ≡ list_any (λ b. is_false (meant b)) bodies.now }
{
    bodies.iter().any(is_false)
}

pub(crate) fn any_undecided(bodies: &[Value<'_>]) -> bool
    ensures { result ≡ list_any (λ b. is_undecided (meant b)) bodies.now }
{
    bodies.iter().any(is_undecided)
}

/// False where one is false, else true where all are true.
#[tactic(auto, using(crate::proofs::Bodies::all_bodies, crate::proofs::Bodies::any_bodies))]
pub fn for_all<'a>(bodies: &[Value<'_>]) -> Value<'a>
    ensures { meant result ≡ for_all (map meant bodies.now) }
{
    truth_known(all_true(bodies), any_false(bodies))
}

/// True where one is true, else false where all are false.
#[tactic(auto, using(crate::proofs::Bodies::all_bodies, crate::proofs::Bodies::any_bodies))]
pub fn exists<'a>(bodies: &[Value<'_>]) -> Value<'a>
    ensures { meant result ≡ exists (map meant bodies.now) }
{
    truth_known(any_true(bodies), all_false(bodies))
}

/// How many bodies are true.
fn count_true(bodies: &[Value<'_>]) -> usize
    ensures { result ≡ count_true (map meant bodies.now) }
{
    let mut count = 0;
    for body in bodies {
        if is_true(body) {
            count += 1;
        }
    }
    count
}

/// Whether just one body is true; invalid where one is undecided.
#[tactic(auto, using(crate::proofs::Bodies::any_bodies))]
pub fn one<'a>(bodies: &[Value<'_>]) -> Value<'a>
    ensures { meant result ≡ one (map meant bodies.now) }
{
    if any_undecided(bodies) {
        return Value::Invalid;
    }
    Value::Element(Element::Bool(count_true(bodies) == 1))
}

/// Puts a copy of an element at a list's end, if it is to be kept.
fn keep_if<'a>(
    kept: &mut Vec<Element<'a>>,
    keep: bool,
    element: &Element<'a>,
) -> Result<(), OutOfMemory>
    ensures { OnOk result (meant_elements kept.new.items ≡ meant_elements kept.old.items ++
        kept_one keep (meant_element element.now)) }
{
    if keep {
        push(kept, copy_of(element))?;
    }
    Ok(())
}

/// The elements whose body is true, or else those whose body is false.
pub(crate) fn kept_elements<'a>(
    alloc: Global,
    elements: &[Element<'a>],
    bodies: &[Value<'_>],
    wanted: bool,
) -> Result<Vec<Element<'a>>, OutOfMemory>
    requires { length bodies.now ≡ length elements.now }
    ensures { IfOk result (λ v. meant_elements v.items ≡ kept_by (is_wanted wanted)
        (meant_elements elements.now) (map meant bodies.now)) }
{
    let mut kept = Vec::new(alloc);
    for index in 0..elements.len() {
        let keep = is_wanted(wanted, &bodies[index]);
        keep_if(&mut kept, keep, &elements[index])?;
    }
    Ok(kept)
}

/// Whether a body is the truth value that is wanted.
fn is_wanted(wanted: bool, body: &Value<'_>) -> bool
    ensures { result ≡ is_wanted wanted (meant body.now) }
{
    if wanted {
        is_true(body)
    } else {
        is_false(body)
    }
}
