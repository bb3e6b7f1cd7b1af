//! What makes an operation on collections false.

ghost use Rattle.std.specs.Prelude.{◌≡◌, ◌++◌, codes, map, IfOk, OnOk, string_bytes};
ghost use Rattle.owned_values.specs.Meant.{meant, meant_elements, IsValueThere, AreElementsThere};
ghost use Rattle.ocl_semantics.specs.Resolved.{AreThere};
ghost use Rattle.explain_why.specs.Differences.{elements_in, had_by, lacked_by, listed_text, unequal_text, beside_text, missing_text, element_difference, equality_difference, difference_text};

use crate::deciding::keep_if;
use crate::pieces::put;
use crate::values::{MAX_BESIDE, put_first_elements, put_some_elements, put_value};
use imkl_population::Population;
use ocl_base::OutOfMemory;
use ocl_core::{ElementOperator, Operator};
use owned_values::{Element, Value, element_value, is_false, is_true, membership};
use std::alloc::Global;

/// Of some elements those that a collection has.
fn had_by<'a>(
    alloc: Global,
    collection: &Value<'_>,
    elements: &[Element<'a>],
) -> Result<Vec<Element<'a>>, OutOfMemory>
    ensures { IfOk result (λ v. meant_elements v.items ≡
        had_by (meant collection.now) (meant_elements elements.now)) }
{
    let mut kept = Vec::new(alloc);
    for element in elements {
        let found = membership(collection, &element_value(element));
        keep_if(&mut kept, is_true(&found), element)?;
    }
    Ok(kept)
}

/// Of some elements those that a collection lacks.
fn lacked_by<'a>(
    alloc: Global,
    collection: &Value<'_>,
    elements: &[Element<'a>],
) -> Result<Vec<Element<'a>>, OutOfMemory>
    ensures { IfOk result (λ v. meant_elements v.items ≡
        lacked_by (meant collection.now) (meant_elements elements.now)) }
{
    let mut kept = Vec::new(alloc);
    for element in elements {
        let found = membership(collection, &element_value(element));
        keep_if(&mut kept, is_false(&found), element)?;
    }
    Ok(kept)
}

/// Puts elements behind words, nothing where there are none.
fn put_listed(
    alloc: Global,
    out: &mut String,
    population: &Population<'_>,
    words: &str,
    elements: &[Element<'_>],
) -> Result<(), OutOfMemory>
    requires { AreElementsThere population.now.content (meant_elements elements.now) }
    ensures { OnOk result (string_bytes out.new ≡ string_bytes out.old ++
        listed_text population.now.content words.now (meant_elements elements.now)) }
{
    if elements.is_empty() {
        return Ok(());
    }
    put(out, words)?;
    put_some_elements(alloc, out, population, elements)
}

/// Puts what two collections that aren't equal lack of one another.
fn put_unequal(
    alloc: Global,
    out: &mut String,
    population: &Population<'_>,
    first_lacks: &[Element<'_>],
    second_lacks: &[Element<'_>],
) -> Result<(), OutOfMemory>
    requires first { AreElementsThere population.now.content (meant_elements first_lacks.now) }
    requires second { AreElementsThere population.now.content (meant_elements second_lacks.now) }
    ensures { OnOk result (string_bytes out.new ≡ string_bytes out.old ++ unequal_text
        population.now.content (meant_elements first_lacks.now)
        (meant_elements second_lacks.now)) }
{
    if first_lacks.is_empty() {
        if second_lacks.is_empty() {
            return put(
                out,
                ": they have the same elements, in another number or order",
            );
        }
        return put_listed(alloc, out, population, ": the second lacks ", second_lacks);
    }
    put_listed(alloc, out, population, ": the first lacks ", first_lacks)?;
    put_listed(alloc, out, population, "; the second lacks ", second_lacks)
}

/// Puts some elements beside a value that is none of them.
fn put_beside(
    alloc: Global,
    out: &mut String,
    population: &Population<'_>,
    elements: &[Element<'_>],
) -> Result<(), OutOfMemory>
    requires { AreElementsThere population.now.content (meant_elements elements.now) }
    ensures { OnOk result (string_bytes out.new ≡ string_bytes out.old ++
        beside_text population.now.content (meant_elements elements.now)) }
{
    if elements.is_empty() {
        return put(out, "; it is empty");
    }
    put(out, "; it has ")?;
    put_first_elements(alloc, out, population, MAX_BESIDE, elements)
}

/// Puts a value that is no element of a collection, and some that are.
fn put_missing(
    alloc: Global,
    out: &mut String,
    population: &Population<'_>,
    v: &Value<'_>,
    w: &Value<'_>,
) -> Result<(), OutOfMemory>
    requires first { IsValueThere population.now.content (meant v.now) }
    requires second { IsValueThere population.now.content (meant w.now) }
    ensures { OnOk result (string_bytes out.new ≡ string_bytes out.old ++ missing_text
        population.now.content (meant v.now) (meant w.now)) }
{
    put(out, ": it lacks ")?;
    put_value(alloc, out, population, w)?;
    match v {
        Value::Collection(_, elements) => put_beside(alloc, out, population, elements),
        _ => put_beside(alloc, out, population, &[]),
    }
}

/// Puts the elements of a second collection that the first lacks.
fn put_lacked(
    alloc: Global,
    out: &mut String,
    population: &Population<'_>,
    v: &Value<'_>,
    w: &Value<'_>,
) -> Result<(), OutOfMemory>
    requires { IsValueThere population.now.content (meant w.now) }
    ensures { OnOk result (string_bytes out.new ≡ string_bytes out.old ++ listed_text
        population.now.content (codes ": it lacks ")
        (lacked_by (meant v.now) (elements_in (meant w.now)))) }
{
    let Value::Collection(_, elements) = w else {
        return Ok(());
    };
    let lacked = lacked_by(alloc, v, elements)?;
    put_listed(alloc, out, population, ": it lacks ", &lacked)
}

/// Puts the elements of a second collection that the first has.
fn put_had(
    alloc: Global,
    out: &mut String,
    population: &Population<'_>,
    v: &Value<'_>,
    w: &Value<'_>,
) -> Result<(), OutOfMemory>
    requires { IsValueThere population.now.content (meant w.now) }
    ensures { OnOk result (string_bytes out.new ≡ string_bytes out.old ++ listed_text
        population.now.content (codes ": it has ")
        (had_by (meant v.now) (elements_in (meant w.now)))) }
{
    let Value::Collection(_, elements) = w else {
        return Ok(());
    };
    let had = had_by(alloc, v, elements)?;
    put_listed(alloc, out, population, ": it has ", &had)
}

/// Puts which elements make an operation on collections false.
fn put_element_difference(
    alloc: Global,
    out: &mut String,
    population: &Population<'_>,
    operator: ElementOperator,
    v: &Value<'_>,
    w: &Value<'_>,
) -> Result<(), OutOfMemory>
    requires first { IsValueThere population.now.content (meant v.now) }
    requires second { IsValueThere population.now.content (meant w.now) }
    ensures { OnOk result (string_bytes out.new ≡ string_bytes out.old ++ element_difference
        population.now.content operator (meant v.now) (meant w.now)) }
{
    match operator {
        ElementOperator::Includes => put_missing(alloc, out, population, v, w),
        ElementOperator::IncludesAll => put_lacked(alloc, out, population, v, w),
        ElementOperator::ExcludesAll => put_had(alloc, out, population, v, w),
        ElementOperator::Occurrences | ElementOperator::AsSet => Ok(()),
    }
}

/// Puts what two collections that aren't equal lack of one another; nothing of single values.
fn put_equality_difference(
    alloc: Global,
    out: &mut String,
    population: &Population<'_>,
    v: &Value<'_>,
    w: &Value<'_>,
) -> Result<(), OutOfMemory>
    requires first { IsValueThere population.now.content (meant v.now) }
    requires second { IsValueThere population.now.content (meant w.now) }
    ensures { OnOk result (string_bytes out.new ≡ string_bytes out.old ++ equality_difference
        population.now.content (meant v.now) (meant w.now)) }
{
    let (Value::Collection(_, elements), Value::Collection(_, others)) = (v, w) else {
        return Ok(());
    };
    let first_lacks = lacked_by(alloc, v, others)?;
    let second_lacks = lacked_by(alloc, w, elements)?;
    put_unequal(alloc, out, population, &first_lacks, &second_lacks)
}

/// Puts what makes an operation false, where it is one on collections.
pub(crate) fn put_difference(
    alloc: Global,
    out: &mut String,
    population: &Population<'_>,
    operator: Operator,
    v: &Value<'_>,
    others: &[Value<'_>],
) -> Result<(), OutOfMemory>
    requires first { IsValueThere population.now.content (meant v.now) }
    requires others { AreThere population.now.content (map meant others.now) }
    ensures { OnOk result (string_bytes out.new ≡ string_bytes out.old ++ difference_text
        population.now.content operator (meant v.now) (map meant others.now)) }
{
    match (operator, others) {
        (Operator::OfElements(of_elements, _), [w, ..]) => {
            put_element_difference(alloc, out, population, of_elements, v, w)
        }
        (Operator::Equal(_), [w, ..]) => put_equality_difference(alloc, out, population, v, w),
        _ => Ok(()),
    }
}
