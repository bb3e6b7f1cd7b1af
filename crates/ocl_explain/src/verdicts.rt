//! The explanation of the verdict of a rule for an object, by the rule's name and the object's id.

ghost use Rattle.std.specs.Prelude.{◌≡◌, ◌<◌, length, map, is_some, IfOk};
ghost use Rattle.std.specs.List.{AllByRecursion};
ghost use Rattle.imkl_population.specs.Population.{object_number};
ghost use Rattle.ocl_core.specs.CoreView.{checked_rule_of};
ghost use Rattle.ocl_core.specs.Typing.{IsTypedRule};
ghost use Rattle.ocl_explain.specs.Explained.{found_text};
ghost use Rattle.ocl_explain.specs.RuleNames.{rule_names};
ghost use Rattle.ocl_explain.specs.WhyAnswers.{judged_text, text_for_object, rule_named, why_text};

use crate::given_names::{RuleNames, given_for};
use explain_why::explain_named_verdict;
use imkl_population::{ObjectNo, Population};
use ocl_base::OutOfMemory;
use ocl_core::CoreRule;
use report_forms::object_named;
use std::alloc::Global;

/// What there is of a rule's name and an object's id.
#[derive(Drop)]
pub(crate) enum Found<'m> {
    /// The explanation of the rule's verdict for the object.
    Explained {
        /// The explanation.
        text: String,
        /// The object.
        object: ObjectNo,
    },
    /// No rule has the name.
    NoRule,
    /// No object has the id.
    NoObject,
    /// The rule doesn't judge the object.
    NotJudged {
        /// The name of the class of which the rule judges objects.
        context: &'m str,
        /// The name of the object's class.
        class: &'m str,
    },
}

/// What there is of a rule and an object.
fn find_judged<'m>(
    alloc: Global,
    population: &Population<'m>,
    names: &[RuleNames],
    rule: &CoreRule,
    object: ObjectNo,
) -> Result<Found<'m>, OutOfMemory>
    requires rule { IsTypedRule population.now.content.model (checked_rule_of rule.now) }
    requires object { object < length population.now.content.objects }
    ensures { IfOk result (λ f. found_text f ≡ judged_text population.now.content
        (map rule_names names.now) (checked_rule_of rule.now) object) }
{
    let (model, class) = (population.model(), population.class_of(object));
    if model.conforms(class, rule.context) {
        let given = given_for(names, rule.name.as_str());
        let text = explain_named_verdict(alloc, population, rule, given, object)?;
        return Ok(Found::Explained { text, object });
    }
    Ok(Found::NotJudged {
        context: model.class_name(rule.context),
        class: model.class_name(class),
    })
}

/// What there is of a rule and an object's id.
fn find_object<'m>(
    alloc: Global,
    population: &Population<'m>,
    names: &[RuleNames],
    rule: &CoreRule,
    first: usize,
    id: &[u8],
) -> Result<Found<'m>, OutOfMemory>
    requires { IsTypedRule population.now.content.model (checked_rule_of rule.now) }
    ensures { IfOk result (λ f. found_text f ≡ text_for_object population.now.content
        (map rule_names names.now) (checked_rule_of rule.now)
        (object_number population.now.content id.now)) }
{
    match object_named(population, first, id) {
        Some(object) => find_judged(alloc, population, names, rule, object),
        None => Ok(Found::NoObject),
    }
}

/// What there is of a rule's name and an object's id. The object is looked for from one on, and then among those before it.
pub(crate) fn find_verdict<'m>(
    alloc: Global,
    population: &Population<'m>,
    names: &[RuleNames],
    rules: &[CoreRule],
    name: &[u8],
    first: usize,
    id: &[u8],
) -> Result<Found<'m>, OutOfMemory>
    requires { AllByRecursion (IsTypedRule population.now.content.model)
        (map checked_rule_of rules.now) }
    ensures { IfOk result (λ f. found_text f ≡ why_text population.now.content
        (map rule_names names.now) (map checked_rule_of rules.now) name.now id.now) }
{
    'rules: for rule in rules {
        if rule.name.as_str().as_bytes() == name {
            return find_object(alloc, population, names, rule, first, id);
        }
    }
    Ok(Found::NoRule)
}

/// Whether a rule has a name.
pub(crate) fn is_rule(rules: &[CoreRule], name: &[u8]) -> bool
    ensures { result ≡ is_some (rule_named (map checked_rule_of rules.now) name.now) }
{
    'rules: for rule in rules {
        if rule.name.as_str().as_bytes() == name {
            return true;
        }
    }
    false
}
