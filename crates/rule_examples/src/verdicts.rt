//! The verdict of a rule for an object.

ghost use Rattle.std.specs.Prelude.{◌≡◌, ◌<◌, length, true, IfOk, IfSome};
ghost use Rattle.imkl_population.specs.Population.{is_instance};
ghost use Rattle.ocl_core.specs.CoreView.{checked_rule_of};
ghost use Rattle.ocl_core.specs.Typing.{IsTypedRule};
ghost use Rattle.ocl_semantics.specs.Meaning.{meant_verdict};
ghost use Rattle.owned_values.specs.Meant.{meant};
ghost use Rattle.rule_values.specs.Verdict.{verdict_of};
ghost use Rattle.rule_examples.specs.Verdicts.{IsJudged, IsVerdictAt};

use imkl_population::{ObjectNo, Population};
use ocl_base::OutOfMemory;
use ocl_core::CoreRule;
use ocl_semantics::{Variables, evaluate};
use owned_values::{Element, Value, is_false, is_true};
use rule_values::Verdict;
use std::alloc::Global;

/// The verdict of the value of a rule's tree.
fn verdict_of(value: &Value<'_>) -> Verdict
    ensures { result ≡ verdict_of (meant value.now) }
{
    if is_true(value) {
        Verdict::Holds
    } else if is_false(value) {
        Verdict::Fails
    } else {
        Verdict::Undecided
    }
}

/// The object of a number, if a rule judges it: if it is of the rule's context class or of a subclass of it.
pub(crate) fn judged_object(
    population: &Population<'_>,
    rule: &CoreRule,
    object: usize,
) -> Option<ObjectNo>
    requires { IsTypedRule population.now.content.model (checked_rule_of rule.now) }
    ensures { IfSome result (IsJudged population.now.content (checked_rule_of rule.now) object) }
{
    population.consistent();
    if object >= population.objects() {
        return None;
    }
    let object = ObjectNo::new(object);
    let class = population.class_of(object);
    if population.model().conforms(class, rule.context) {
        Some(object)
    } else {
        None
    }
}

/// The verdict of a rule for an object.
fn verdict_for<'a>(
    alloc: Global,
    population: &'a Population<'_>,
    rule: &'a CoreRule,
    object: ObjectNo,
) -> Result<Verdict, OutOfMemory>
    requires rule { IsTypedRule population.now.content.model (checked_rule_of rule.now) }
    requires object { object < length population.now.content.objects }
    ensures { IfOk result (λ v. v ≡ meant_verdict population.entry.now.content
        (checked_rule_of rule.entry.now) object) }
{
    let mut variables = Variables::new(alloc);
    variables.bind(Value::Element(Element::Object(object)))?;
    let value = evaluate(alloc, population, &rule.tree, &mut variables)?;
    Ok(verdict_of(&value))
}

/// The verdict of a rule for the object of a number, from 0 in the delivery's order. None: there is no such object, or the rule
/// doesn't judge it.
pub fn verdict_at(
    alloc: Global,
    population: &Population<'_>,
    rule: &CoreRule,
    object: usize,
) -> Result<Option<Verdict>, OutOfMemory>
    requires { IsTypedRule population.now.content.model (checked_rule_of rule.now) }
    ensures { IfOk result (λ v. IfSome v (IsVerdictAt population.now.content
        (checked_rule_of rule.now) object)) }
{
    match judged_object(population, rule, object) {
        Some(judged) => Ok(Some(verdict_for(alloc, population, rule, judged)?)),
        None => Ok(None),
    }
}
