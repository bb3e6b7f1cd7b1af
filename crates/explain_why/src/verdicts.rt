//! The explanation of a rule's verdict for an object.

ghost use Rattle.std.specs.Prelude.{◌≡◌, [], ◌∷◌, ◌++◌, ◌<◌, length, map, IfOk, OnOk, string_bytes};
ghost use Rattle.ocl_core.specs.CoreView.{core_view, checked_rule_of};
ghost use Rattle.ocl_semantics.specs.Meaning.{meaning};
ghost use Rattle.rule_values.specs.Verdict.{verdict_of};
ghost use Rattle.rule_values.specs.Value.{object_value};
ghost use Rattle.owned_values.specs.Meant.{meant};
ghost use Rattle.ocl_semantics.specs.Resolved.{IsResolved, AreThere};
ghost use Rattle.explain_why.specs.Explanation.{explained, verdict_word, judged_object, verdict_line, named_explanation, explanation};
ghost use Rattle.explain_why.specs.NameWalk.{naming_view};
ghost use Rattle.explain_why.specs.RuleView.{explained_rule};

use crate::explainer::Explainer;
use crate::names::{Naming, naming_of};
use crate::pieces::put;
use imkl_model::ClassNo;
use imkl_population::{ObjectNo, Population};
use ocl_base::OutOfMemory;
use ocl_core::{Core, CoreRule};
use ocl_semantics::{Variables, evaluate};
use owned_values::{Element, Value, is_false, is_true};
use std::alloc::Global;

/// The word for the verdict of a value.
fn verdict_word(value: &Value<'_>) -> &'static str
    ensures { result.now ≡ verdict_word (verdict_of (meant value.now)) }
{
    if is_true(value) {
        "holds"
    } else if is_false(value) {
        "fails"
    } else {
        "is undecided"
    }
}

/// A rule whose verdict is explained.
#[derive(Clone, Copy)]
pub struct ExplainedRule<'a> {
    /// Its name.
    pub name: &'a str,
    /// Its context class.
    pub context: ClassNo,
    /// Its expression.
    pub tree: &'a Core,
}

/// Puts an object by its id and its class.
fn put_judged(
    out: &mut String,
    population: &Population<'_>,
    object: ObjectNo,
) -> Result<(), OutOfMemory>
    requires { object < length population.now.content.objects }
    ensures { OnOk result (string_bytes out.new ≡ string_bytes out.old ++
        judged_object population.now.content object) }
{
    put(out, population.id(object))?;
    put(out, " : ")?;
    put(
        out,
        population.model().class_name(population.class_of(object)),
    )
}

/// Puts the verdict of a rule for an object, by the value of its expression.
fn put_verdict(
    out: &mut String,
    population: &Population<'_>,
    rule: &ExplainedRule<'_>,
    object: ObjectNo,
    value: &Value<'_>,
) -> Result<(), OutOfMemory>
    requires object { object < length population.now.content.objects }
    requires value { meant value.now ≡ meaning population.now.content (core_view rule.now.tree.now)
        (object_value object ∷ []) }
    ensures { OnOk result (string_bytes out.new ≡ string_bytes out.old ++
        verdict_line population.now.content (explained_rule rule.now) object) }
{
    put(out, "rule ")?;
    put(out, rule.name)?;
    put(out, " ")?;
    put(out, verdict_word(value))?;
    put(out, " for ")?;
    put_judged(out, population, object)?;
    put(out, "\n")
}

/// Puts the parts of a rule's expression, below its verdict.
fn put_parts<'a>(
    alloc: Global,
    out: &mut String,
    population: &'a Population<'_>,
    core: &'a Core,
    naming: Naming<'_, '_>,
    variables: &mut Variables<'a>,
) -> Result<(), OutOfMemory>
    requires resolved { IsResolved population.now.content.model (core_view core.now) }
    requires there { AreThere population.now.content variables.old }
    ensures { OnOk result (string_bytes out.new ≡ string_bytes out.old ++ explained
        population.now.content (core_view core.now) 1 variables.old (naming_view naming.entry)) }
{
    let explainer = Explainer {
        alloc,
        population,
        level: 1,
        naming,
    };
    explainer.explain(out, core, variables)
}

/// Why a rule has its verdict for an object: the verdict, and below it the parts of the rule's expression with their values, by
/// names of variables in the order in which they are bound.
fn explain_named<'a>(
    alloc: Global,
    population: &'a Population<'_>,
    rule: &ExplainedRule<'a>,
    names: &[String],
    object: ObjectNo,
) -> Result<String, OutOfMemory>
    requires resolved { IsResolved population.now.content.model (core_view rule.now.tree.now) }
    requires object { object < length population.now.content.objects }
    ensures { IfOk result (λ s. string_bytes s ≡ named_explanation population.entry.now.content
        (explained_rule rule.now) (map string_bytes names.now) object) }
{
    let mut out = String::new(alloc);
    let mut variables = Variables::new(alloc);
    variables.bind(Value::Element(Element::Object(object)))?;
    let value = evaluate(alloc, population, rule.tree, &mut variables)?;
    put_verdict(&mut out, population, rule, object, &value)?;
    let inner = naming_of(alloc, names)?;
    let naming = inner.naming();
    put_parts(
        alloc,
        &mut out,
        population,
        rule.tree,
        naming,
        &mut variables,
    )?;
    Ok(out)
}

/// Why a rule has its verdict for an object: the verdict, and below it the parts of the rule's expression with their values.
/// Variables have numbers.
pub fn explain_rule<'a>(
    alloc: Global,
    population: &'a Population<'_>,
    rule: &ExplainedRule<'a>,
    object: ObjectNo,
) -> Result<String, OutOfMemory>
    requires resolved { IsResolved population.now.content.model (core_view rule.now.tree.now) }
    requires object { object < length population.now.content.objects }
    ensures { IfOk result (λ s. string_bytes s ≡ explanation population.entry.now.content
        (explained_rule rule.now) object) }
{
    explain_named(alloc, population, rule, &[], object)
}

/// Why a rule of a text has its verdict for an object, as `explain_rule` writes it.
pub fn explain_verdict<'a>(
    alloc: Global,
    population: &'a Population<'_>,
    rule: &'a CoreRule,
    object: ObjectNo,
) -> Result<String, OutOfMemory>
    requires resolved { IsResolved population.now.content.model (core_view rule.now.tree) }
    requires object { object < length population.now.content.objects }
    ensures { IfOk result (λ s. string_bytes s ≡ explanation population.entry.now.content
        (checked_rule_of rule.entry.now) object) }
{
    let explained = ExplainedRule {
        name: rule.name.as_str(),
        context: rule.context,
        tree: &rule.tree,
    };
    explain_rule(alloc, population, &explained, object)
}

/// The same, where variables have the names that the text gives them: in the order in which they are bound, an empty one where
/// it gives none.
pub fn explain_named_verdict<'a>(
    alloc: Global,
    population: &'a Population<'_>,
    rule: &'a CoreRule,
    names: &[String],
    object: ObjectNo,
) -> Result<String, OutOfMemory>
    requires resolved { IsResolved population.now.content.model (core_view rule.now.tree) }
    requires object { object < length population.now.content.objects }
    ensures { IfOk result (λ s. string_bytes s ≡ named_explanation population.entry.now.content
        (checked_rule_of rule.entry.now) (map string_bytes names.now) object) }
{
    let explained = ExplainedRule {
        name: rule.name.as_str(),
        context: rule.context,
        tree: &rule.tree,
    };
    explain_named(alloc, population, &explained, names, object)
}
