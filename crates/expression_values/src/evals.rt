//! The value of an expression in the population of a delivery.

ghost use Rattle.std.specs.Prelude.{◌≡◌, ◌<◌, ⊤, length, map, option_map, Ok, IfOk, IfSome, string_bytes};
ghost use Rattle.std.specs.List.{AllByRecursion};
ghost use Rattle.ocl_text.specs.View.{rule_of};
ghost use Rattle.ocl_core.specs.CoreView.{checked_rule_of};
ghost use Rattle.ocl_core.specs.Typing.{IsTypedRule};
ghost use Rattle.ocl_pipeline.specs.Steps.{inputs_in};
ghost use Rattle.ocl_pipeline.specs.TextReading.{ReadsAs};
ghost use Rattle.expression_values.specs.EvalAnswers.{frame, probed, IsFoundValue, IsRuleValue, IsTextValue, context_number, IsValued, HasValue};

use crate::eval_words::{
    Unvalued, no_class, no_object, no_part, not_alone, refused, unloaded, unread, untyped,
};
use crate::probing::{probe, probed_part};
use explain_notes::Input;
use explain_types::type_name;
use explain_why::value_of;
use imkl_model::ClassNo;
use imkl_population::{ObjectNo, Population};
use ocl_base::push;
use ocl_check::CommandFault;
use ocl_core::CoreRule;
use ocl_kinds::Kind;
use ocl_pipeline::{Place, PopulationAsker, Stopped, ask_inputs, read_text};
use ocl_text::SurfaceRule;
use ocl_tokens::TextFault;
use ocl_types::{RulesFault, check_rules};
use report_forms::object_named;
use std::alloc::{AllocError, Global};

/// What is asked of a delivery.
#[derive(Clone, Copy, Drop)]
pub struct EvalAsked<'a> {
    /// The class model.
    pub model: Input<'a>,
    /// The delivery.
    pub delivery: Input<'a>,
    /// The expression, by the path that it has in words.
    pub expression: Input<'a>,
    /// The id of the object that is `self`, if there is one.
    pub id: Option<&'a str>,
}

/// The value of an expression.
#[derive(Drop)]
pub struct Valued {
    /// The kind of the expression.
    pub kind: Kind,
    /// The value, as OCL writes it.
    pub text: String,
    /// The name of the kind.
    pub type_name: String,
}

/// The value of the expression that is found in typed rules.
fn value_of_typed(
    alloc: Global,
    population: &Population<'_>,
    object: Option<ObjectNo>,
    rules: &[CoreRule],
) -> Result<Valued, Unvalued>
    requires typed { AllByRecursion (IsTypedRule population.now.content.model)
        (map checked_rule_of rules.now) }
    requires object { IfSome object (λ o. o < length population.now.content.objects) }
    ensures { IfOk result (λ v. IsFoundValue population.now.content object
        (probed (map checked_rule_of rules.now)) v.kind (string_bytes v.text)) }
{
    let [rule, ..] = rules else {
        return Err(refused(no_part(alloc)));
    };
    let Some(part) = probed_part(&rule.tree) else {
        return Err(refused(no_part(alloc)));
    };
    let text = value_of(alloc, population, part.tree, object)?;
    let name = type_name(population.model(), &part.kind);
    Ok(Valued {
        kind: part.kind,
        text,
        type_name: format!(in alloc; "{name}")?,
    })
}

/// The value of the expression of a rule that was read.
fn value_of_rule(
    alloc: Global,
    population: &Population<'_>,
    object: Option<ObjectNo>,
    path: &str,
    text: &[u8],
    before: usize,
    rule: SurfaceRule,
) -> Result<Valued, Unvalued>
    requires object { IfSome object (λ o. o < length population.now.content.objects) }
    ensures { IfOk result (λ v. IsRuleValue population.now.content object
        (rule_of rule) v.kind (string_bytes v.text)) }
{
    let model = population.model();
    let mut rules = Vec::new(alloc);
    push(&mut rules, probe(alloc, rule)?)?;
    match check_rules(alloc, model, &rules) {
        Ok(typed) => value_of_typed(alloc, population, object, &typed),
        Err(RulesFault::At { flaw, offset, .. }) => {
            Err(refused(untyped(
                alloc,
                Input { path, bytes: text },
                before,
                model,
                &rules,
                flaw,
                offset,
            )))
        }
        Err(RulesFault::OutOfMemory) => Err(Unvalued::Failed(CommandFault::OutOfMemory)),
    }
}

/// The value of the expression of the one rule that was read.
fn value_of_rules(
    alloc: Global,
    population: &Population<'_>,
    object: Option<ObjectNo>,
    path: &str,
    text: &[u8],
    before: usize,
    rules: Vec<SurfaceRule>,
) -> Result<Valued, Unvalued>
    requires object { IfSome object (λ o. o < length population.now.content.objects) }
    requires read { ReadsAs text.now (Ok (map rule_of rules.items)) }
    ensures { IfOk result (λ v. IsTextValue population.now.content object
        text.now v.kind (string_bytes v.text)) }
{
    let mut rules = rules;
    let Some(rule) = rules.pop() else {
        return Err(refused(no_part(alloc)));
    };
    match rules.as_slice() {
        [] => value_of_rule(alloc, population, object, path, text, before, rule),
        [_] => Err(refused(not_alone(alloc, Input { path, bytes: text }, before, rule.offset))),
        [_, second, ..] => Err(refused(not_alone(
            alloc,
            Input { path, bytes: text },
            before,
            second.offset,
        ))),
    }
}

/// The value of the expression of a text.
fn value_of_text(
    alloc: Global,
    population: &Population<'_>,
    object: Option<ObjectNo>,
    path: &str,
    text: &[u8],
    before: usize,
) -> Result<Valued, Unvalued>
    requires object { IfSome object (λ o. o < length population.now.content.objects) }
    ensures { IfOk result (λ v. IsTextValue population.now.content object
        text.now v.kind (string_bytes v.text)) }
{
    match read_text(alloc, text) {
        Ok(rules) => value_of_rules(alloc, population, object, path, text, before, rules),
        Err(TextFault::At { flaw, offset }) => Err(refused(unread(
            alloc,
            Input { path, bytes: text },
            before,
            flaw,
            offset,
        ))),
        Err(TextFault::OutOfMemory) => Err(Unvalued::Failed(CommandFault::OutOfMemory)),
    }
}

/// The line before an expression with which it is a rule of a class.
fn frame(alloc: Global, class: &str) -> Result<Vec<u8>, AllocError>
    ensures { IfOk result (λ v. v.items ≡ frame class.now) }
{
    let mut out = Vec::from_slice(alloc, "context ".as_bytes())?;
    out.extend_from_slice(class.as_bytes())?;
    out.extend_from_slice(" inv eval:\n".as_bytes())?;
    Ok(out)
}

/// The value of an expression as a rule of a class, of which `self` is an object or nothing.
fn value_in(
    alloc: Global,
    population: &Population<'_>,
    object: Option<ObjectNo>,
    class: ClassNo,
    path: &str,
    expression: &[u8],
) -> Result<Valued, Unvalued>
    requires object { IfSome object (λ o. o < length population.now.content.objects) }
    requires class { class ≡ context_number population.now.content object }
    requires known { class < length population.now.content.model.classes }
    ensures { IfOk result (λ v. IsValued population.now.content object
        expression.now v.kind (string_bytes v.text)) }
{
    let mut bytes = frame(alloc, population.model().class_name(class))?;
    let before = bytes.len();
    bytes.extend_from_slice(expression)?;
    value_of_text(alloc, population, object, path, &bytes, before)
}

/// The value of an expression, of which `self` is an object or nothing.
pub(crate) fn value_for(
    alloc: Global,
    population: &Population<'_>,
    object: Option<ObjectNo>,
    path: &str,
    expression: &[u8],
) -> Result<Valued, Unvalued>
    requires object { IfSome object (λ o. o < length population.now.content.objects) }
    ensures { IfOk result (λ v. IsValued population.now.content object
        expression.now v.kind (string_bytes v.text)) }
{
    match object {
        Some(object) => {
            let class = population.class_of(object);
            value_in(alloc, population, Some(object), class, path, expression)
        }
        None if population.model().class_count() == 0 => Err(refused(no_class(alloc, path))),
        None => value_in(alloc, population, None, ClassNo::new(0), path, expression),
    }
}

/// The value of an expression, of which `self` is the object of an id, if there is one.
fn value_with(
    alloc: Global,
    population: &Population<'_>,
    asked: EvalAsked<'_>,
) -> Result<Valued, Unvalued>
    ensures { IfOk result (λ v. HasValue (option_map (λ i. i.now) asked.entry.id)
        asked.entry.expression.bytes.now (Ok population.now.content) v.kind
        (string_bytes v.text)) }
{
    let (path, text) = (asked.expression.path, asked.expression.bytes);
    let Some(id) = asked.id else {
        return value_for(alloc, population, None, path, text);
    };
    match object_named(population, 0, id.as_bytes()) {
        Some(object) => value_for(alloc, population, Some(object), path, text),
        None => Err(refused(no_object(alloc, asked.delivery.path, id))),
    }
}

/// Asks for the value of an expression.
#[derive(Clone, Copy)]
struct Evaluation<'a> {
    asked: EvalAsked<'a>,
}

impl PopulationAsker<()> for Evaluation<'_> {
    type Output = Result<Valued, Unvalued>;

    ghost can_ask = { λ s. ⊤ };

    ghost answers = { λ e given old o new. IfOk o (λ v. HasValue
        (option_map (λ i. i.now) e.asked.id) e.asked.expression.bytes.now given v.kind
        (string_bytes v.text)) };

    fn ask(
        &self,
        alloc: Global,
        population: &Population<'_>,
        _into: &mut (),
    ) -> Result<Valued, Unvalued> {
        value_with(alloc, population, self.asked)
    }

    fn stop(
        &self,
        alloc: Global,
        place: Place<'_>,
        why: Stopped,
        _into: &mut (),
    ) -> Result<Valued, Unvalued> {
        Err(unloaded(alloc, self.asked.model, self.asked.delivery, place, &why))
    }
}

/// Evaluates an expression in the population of a delivery, of which `self` is the object of an id, or invalid where none is
/// named. What is given has the kind of the expression's core tree, and its text is that of the tree's meaning.
pub fn evaluate_expression(alloc: Global, asked: EvalAsked<'_>) -> Result<Valued, Unvalued>
    ensures { IfOk result (λ v. HasValue (option_map (λ i. i.now) asked.entry.id)
        asked.entry.expression.bytes.now
        (inputs_in asked.entry.model.bytes.now asked.entry.delivery.bytes.now) v.kind
        (string_bytes v.text)) }
{
    let asker = Evaluation { asked };
    let (model, delivery) = (asked.model.bytes, asked.delivery.bytes);
    ask_inputs(alloc, &asker, model, delivery, &mut ())
}
