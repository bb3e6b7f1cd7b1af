//! The evaluator.

ghost use Rattle.std.specs.Prelude.{◌≡◌, ◌∷◌, length, map, drop, IfOk, OnOk};
ghost use Rattle.std.specs.List.{AllByRecursion};
ghost use Rattle.ocl_core.specs.Core.{cores_of};
ghost use Rattle.ocl_core.specs.CoreView.{core_view};
ghost use Rattle.ocl_semantics.specs.Meaning.{meaning, meanings, iterated, fold_over, folded};
ghost use Rattle.rule_values.specs.Value.{element_value};
ghost use Rattle.owned_values.specs.Meant.{meant, meant_element, meant_elements, IsElementThere, AreElementsThere, IsValueThere};
ghost use Rattle.ocl_semantics.specs.Resolved.{IsResolved, AreResolved, AreThere};
ghost use Rattle.ocl_semantics.specs.Evaluated.{bindings, IsLinkResolved, AreLinksResolved, link_value, links_value};

use crate::constants::constant_value;
use crate::iterations::iteration_value;
use crate::operations::operation_value;
use crate::variables::Variables;
use imkl_population::Population;
use ocl_base::{OutOfMemory, push};
use ocl_core::{Core, CoreLink, Iteration};
use owned_values::{
    Element, Value, all_instances, as_collection, element_value, is_false, is_true, value_read,
};
use std::alloc::Global;

/// Computes what a core tree means in the values of its variables, of which the newest stands last.
///
/// It fails only where memory runs out: then values may be left behind the variables.
#[cycle(evaluate)]
#[tactic(auto, using(ocl_core::proofs::ForAbove::views))]
pub fn evaluate<'a>(
    alloc: Global,
    population: &'a Population<'_>,
    core: &'a Core,
    variables: &mut Variables<'a>,
) -> Result<Value<'a>, OutOfMemory>
    requires resolved { IsResolved population.now.content.model (core_view core.now) }
    requires there { AreThere population.now.content variables.old }
    ensures value { IfOk result (λ v. meant v ≡
        meaning population.now.content (core_view core.now) variables.old) }
    ensures there { IfOk result (λ v. IsValueThere population.now.content (meant v)) }
    ensures kept { OnOk result (variables.new ≡ variables.old) }
{
    population.consistent();
    match core {
        Core::Constant { value } => Ok(constant_value(value)),
        Core::Variable { number } => variables.value(alloc, *number),
        Core::AllInstances { class } => all_instances(alloc, population, *class),
        Core::Spine { first, links } => {
            let value = evaluate(alloc, population, first, variables)?;
            evaluate_links(alloc, population, value, links, variables)
        }
        Core::Let { values, body } => {
            bind_all(alloc, population, values, variables)?;
            let value = evaluate(alloc, population, body, variables)?;
            variables.forget(values.len());
            Ok(value)
        }
        Core::If {
            condition,
            then_branch,
            else_branch,
            ..
        } => {
            let condition = evaluate(alloc, population, condition, variables)?;
            if is_true(&condition) {
                evaluate(alloc, population, then_branch, variables)
            } else if is_false(&condition) {
                evaluate(alloc, population, else_branch, variables)
            } else {
                Ok(Value::Invalid)
            }
        }
    }
}

/// Binds values as variables, each seen by those after it.
#[cycle(evaluate)]
fn bind_all<'a>(
    alloc: Global,
    population: &'a Population<'_>,
    values: &'a [Core],
    variables: &mut Variables<'a>,
) -> Result<(), OutOfMemory>
    requires resolved { AllByRecursion (IsResolved population.now.content.model)
        (map core_view values.now) }
    requires there { AreThere population.now.content variables.old }
    ensures bound { OnOk result (variables.new ≡ bindings population.now.content
        (map core_view values.now) variables.old) }
    ensures there { OnOk result (AreThere population.now.content variables.new) }
    ensures others { OnOk result (drop (length values.now) variables.new ≡ variables.old) }
{
    'values: for value in values {
        let value = evaluate(alloc, population, value, variables)?;
        variables.bind(value)?;
    }
    Ok(())
}

/// Computes what several trees mean, in order.
#[cycle(evaluate)]
pub fn evaluate_all<'a>(
    alloc: Global,
    population: &'a Population<'_>,
    cores: &'a [Core],
    variables: &mut Variables<'a>,
) -> Result<Vec<Value<'a>>, OutOfMemory>
    requires resolved { AreResolved population.now.content.model (cores_of (map core_view cores.now)) }
    requires there { AreThere population.now.content variables.old }
    ensures values { IfOk result (λ vs. map meant vs.items ≡ meanings population.now.content
        (cores_of (map core_view cores.now)) variables.old) }
    ensures kept { OnOk result (variables.new ≡ variables.old) }
{
    let mut values = Vec::new(alloc);
    'cores: for core in cores {
        let value = evaluate(alloc, population, core, variables)?;
        push(&mut values, value)?;
    }
    Ok(values)
}

/// Computes what links make of the value of a first operand.
#[cycle(evaluate)]
pub fn evaluate_links<'a>(
    alloc: Global,
    population: &'a Population<'_>,
    first: Value<'a>,
    links: &'a [CoreLink],
    variables: &mut Variables<'a>,
) -> Result<Value<'a>, OutOfMemory>
    requires first { IsValueThere population.now.content (meant first) }
    requires resolved { AreLinksResolved population.now.content.model links.now }
    requires there { AreThere population.now.content variables.old }
    ensures value { IfOk result (λ v. meant v ≡ links_value population.now.content
        variables.old (meant first.entry) links.now) }
    ensures there { IfOk result (λ v. IsValueThere population.now.content (meant v)) }
    ensures kept { OnOk result (variables.new ≡ variables.old) }
{
    let mut value = first;
    'links: for link in links {
        value = evaluate_link(alloc, population, &value, link, variables)?;
    }
    Ok(value)
}

/// Computes what a link makes of the value of its first operand.
#[cycle(evaluate)]
#[tactic(auto, using(ocl_core::proofs::ForAbove::views))]
pub fn evaluate_link<'a>(
    alloc: Global,
    population: &'a Population<'_>,
    first: &Value<'a>,
    link: &'a CoreLink,
    variables: &mut Variables<'a>,
) -> Result<Value<'a>, OutOfMemory>
    requires first { IsValueThere population.now.content (meant first.now) }
    requires resolved { IsLinkResolved population.now.content.model link.now }
    requires there { AreThere population.now.content variables.old }
    ensures value { IfOk result (λ v. meant v ≡ link_value population.now.content
        variables.old (meant first.now) link.now) }
    ensures there { IfOk result (λ v. IsValueThere population.now.content (meant v)) }
    ensures kept { OnOk result (variables.new ≡ variables.old) }
{
    population.consistent();
    match link {
        CoreLink::Feature { feature } => value_read(alloc, population, *feature, first),
        CoreLink::Operation { operator, others } => {
            let others = evaluate_all(alloc, population, others, variables)?;
            operation_value(alloc, population, *operator, first, &others)
        }
        CoreLink::AsCollection { collection, .. } => as_collection(alloc, *collection, first),
        CoreLink::Iterate { iteration, body } => {
            evaluate_iteration(alloc, population, *iteration, first, body, variables)
        }
        CoreLink::Fold { start, body, .. } => {
            let start = evaluate(alloc, population, start, variables)?;
            evaluate_fold(alloc, population, first, start, body, variables)
        }
    }
}

/// Computes what an iteration gives over a collection; over all else it is invalid.
#[cycle(evaluate)]
fn evaluate_iteration<'a>(
    alloc: Global,
    population: &'a Population<'_>,
    iteration: Iteration,
    source: &Value<'a>,
    body: &'a Core,
    variables: &mut Variables<'a>,
) -> Result<Value<'a>, OutOfMemory>
    requires source { IsValueThere population.now.content (meant source.now) }
    requires resolved { IsResolved population.now.content.model (core_view body.now) }
    requires there { AreThere population.now.content variables.old }
    ensures value { IfOk result (λ v. meant v ≡ iterated iteration (meant source.now)
        (λ e. meaning population.now.content (core_view body.now)
        (element_value e ∷ variables.old))) }
    ensures kept { OnOk result (variables.new ≡ variables.old) }
{
    match source {
        Value::Collection(kind, elements) => {
            let bodies = evaluate_bodies(alloc, population, elements, body, variables)?;
            iteration_value(alloc, iteration, *kind, elements, &bodies)
        }
        _ => Ok(Value::Invalid),
    }
}

/// Computes what the body of an iteration means for each element.
#[cycle(evaluate)]
pub fn evaluate_bodies<'a>(
    alloc: Global,
    population: &'a Population<'_>,
    elements: &[Element<'a>],
    body: &'a Core,
    variables: &mut Variables<'a>,
) -> Result<Vec<Value<'a>>, OutOfMemory>
    requires elements { AreElementsThere population.now.content (meant_elements elements.now) }
    requires resolved { IsResolved population.now.content.model (core_view body.now) }
    requires there { AreThere population.now.content variables.old }
    ensures bodies { IfOk result (λ vs. map meant vs.items ≡ map
        (λ e. meaning population.now.content (core_view body.now)
        (element_value e ∷ variables.old)) (meant_elements elements.now)) }
    ensures kept { OnOk result (variables.new ≡ variables.old) }
{
    let mut bodies = Vec::new(alloc);
    'elements: for element in elements {
        let value = evaluate_with(alloc, population, element_value(element), body, variables)?;
        push(&mut bodies, value)?;
    }
    Ok(bodies)
}

/// Computes what a fold over a collection accumulates; over all else it is invalid.
#[cycle(evaluate)]
fn evaluate_fold<'a>(
    alloc: Global,
    population: &'a Population<'_>,
    source: &Value<'a>,
    start: Value<'a>,
    body: &'a Core,
    variables: &mut Variables<'a>,
) -> Result<Value<'a>, OutOfMemory>
    requires source { IsValueThere population.now.content (meant source.now) }
    requires start { IsValueThere population.now.content (meant start) }
    requires resolved { IsResolved population.now.content.model (core_view body.now) }
    requires there { AreThere population.now.content variables.old }
    ensures value { IfOk result (λ v. meant v ≡ folded (meant source.now) (meant start.entry)
        (λ e a. meaning population.now.content (core_view body.now)
        (a ∷ element_value e ∷ variables.old))) }
    ensures kept { OnOk result (variables.new ≡ variables.old) }
{
    match source {
        Value::Collection(_, elements) => {
            fold_elements(alloc, population, elements, start, body, variables)
        }
        _ => Ok(Value::Invalid),
    }
}

/// Computes what is accumulated over elements.
#[cycle(evaluate)]
fn fold_elements<'a>(
    alloc: Global,
    population: &'a Population<'_>,
    elements: &[Element<'a>],
    start: Value<'a>,
    body: &'a Core,
    variables: &mut Variables<'a>,
) -> Result<Value<'a>, OutOfMemory>
    requires elements { AreElementsThere population.now.content (meant_elements elements.now) }
    requires start { IsValueThere population.now.content (meant start) }
    requires resolved { IsResolved population.now.content.model (core_view body.now) }
    requires there { AreThere population.now.content variables.old }
    ensures value { IfOk result (λ v. meant v ≡ fold_over
        (λ e a. meaning population.now.content (core_view body.now)
        (a ∷ element_value e ∷ variables.old)) (meant start.entry)
        (meant_elements elements.now)) }
    ensures kept { OnOk result (variables.new ≡ variables.old) }
{
    let mut accumulated = start;
    'elements: for element in elements {
        accumulated = fold_step(alloc, population, element, accumulated, body, variables)?;
    }
    Ok(accumulated)
}

/// Computes what the body of a fold means for an element and what is accumulated before it.
#[cycle(evaluate)]
fn fold_step<'a>(
    alloc: Global,
    population: &'a Population<'_>,
    element: &Element<'a>,
    accumulated: Value<'a>,
    body: &'a Core,
    variables: &mut Variables<'a>,
) -> Result<Value<'a>, OutOfMemory>
    requires element { IsElementThere population.now.content (meant_element element.now) }
    requires accumulated { IsValueThere population.now.content (meant accumulated) }
    requires resolved { IsResolved population.now.content.model (core_view body.now) }
    requires there { AreThere population.now.content variables.old }
    ensures value { IfOk result (λ v. meant v ≡ meaning population.now.content (core_view body.now)
        (meant accumulated.entry ∷ element_value (meant_element element.now)
        ∷ variables.old)) }
    ensures there { IfOk result (λ v. IsValueThere population.now.content (meant v)) }
    ensures kept { OnOk result (variables.new ≡ variables.old) }
{
    variables.bind(element_value(element))?;
    let value = evaluate_with(alloc, population, accumulated, body, variables)?;
    variables.forget(1);
    Ok(value)
}

/// Computes what a body means in which one more variable is bound.
#[cycle(evaluate)]
fn evaluate_with<'a>(
    alloc: Global,
    population: &'a Population<'_>,
    bound: Value<'a>,
    body: &'a Core,
    variables: &mut Variables<'a>,
) -> Result<Value<'a>, OutOfMemory>
    requires bound { IsValueThere population.now.content (meant bound) }
    requires resolved { IsResolved population.now.content.model (core_view body.now) }
    requires there { AreThere population.now.content variables.old }
    ensures value { IfOk result (λ v. meant v ≡ meaning population.now.content (core_view body.now)
        (meant bound.entry ∷ variables.old)) }
    ensures there { IfOk result (λ v. IsValueThere population.now.content (meant v)) }
    ensures kept { OnOk result (variables.new ≡ variables.old) }
{
    variables.bind(bound)?;
    let value = evaluate(alloc, population, body, variables)?;
    variables.forget(1);
    Ok(value)
}
