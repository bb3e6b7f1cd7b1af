//! Deliveries that show what a rule means.

ghost use Rattle.std.specs.Prelude.{◌≡◌, ⊤, map, string_bytes, Ok, IfOk, IfSome};
ghost use Rattle.std.specs.List.{AllByRecursion};
ghost use Rattle.ocl_core.specs.CoreView.{checked_rule_of};
ghost use Rattle.ocl_core.specs.Typing.{IsTypedRule};
ghost use Rattle.ocl_explain.specs.Examples.{HasVerdict, IsShownOf, MeansOf, ShowsVerdict};

use explain_notes::Input;
use imkl_model::ClassModel;
use imkl_population::Population;
use ocl_base::OutOfMemory;
use ocl_check::MAX_BUDGET;
use ocl_core::CoreRule;
use ocl_pipeline::{
    OfText, Place, Stopped, TextAsker, accept, ask_inputs, compile_text, read_model, read_text,
    type_text,
};
use ocl_tokens::{TextFault, Token, tokens};
use report_forms::object_named;
use rule_cost::{CostFault, admit};
use rule_examples::{Constants, Limits, Sketch, Trial, lone_rule, rule_tokens, search, verdict_at};
use rule_values::Verdict;
use rule_verify::Accepted;
use std::alloc::{AllocError, Global};

/// The rule and the verdict that a delivery is to show, and how far is searched.
#[derive(Clone, Copy, Drop)]
pub struct ExampleAsked<'a> {
    /// The class model.
    pub model: Input<'a>,
    /// The rule text.
    pub rules: Input<'a>,
    /// The name of the rule.
    pub rule: &'a str,
    /// The rule's index among those of the text, from 0.
    pub index: usize,
    /// The verdict that an object is to have.
    pub verdict: Verdict,
    /// Whether all other rules are to hold.
    pub others_hold: bool,
    /// How far is searched.
    pub limits: Limits,
}

/// A delivery that shows a verdict of a rule.
#[derive(Drop)]
pub struct Example {
    /// The delivery.
    pub delivery: String,
    /// The id of an object that has the verdict.
    pub id: String,
}

/// The verdict of a rule for the object of an id. None: there is no such object, or the rule doesn't judge it.
fn verdict_for_id(
    alloc: Global,
    population: &Population<'_>,
    rule: &CoreRule,
    id: &[u8],
) -> Result<Option<Verdict>, OutOfMemory>
    requires { IsTypedRule population.now.content.model (checked_rule_of rule.now) }
    ensures { IfOk result (λ v. IfSome v
        (MeansOf population.now.content (checked_rule_of rule.now) id.now)) }
{
    match object_named(population, 0, id) {
        Some(object) => verdict_at(alloc, population, rule, object.index()),
        None => Ok(None),
    }
}

/// The verdict of the first rule of a name for the object of an id. None: there is no such rule or object, or the rule doesn't
/// judge the object.
fn verdict_named(
    alloc: Global,
    population: &Population<'_>,
    rules: &[CoreRule],
    name: &[u8],
    id: &[u8],
) -> Result<Option<Verdict>, OutOfMemory>
    requires { AllByRecursion (IsTypedRule population.now.content.model)
        (map checked_rule_of rules.now) }
    ensures { IfOk result (λ v. IfSome v (ShowsVerdict population.now.content
        (map checked_rule_of rules.now) name.now id.now)) }
{
    'rules: for rule in rules {
        if rule.name.as_str().as_bytes() == name {
            return verdict_for_id(alloc, population, rule, id);
        }
    }
    Ok(None)
}

/// Asks for the verdict of the rule of a name for the object of an id.
#[derive(Clone, Copy)]
struct Told<'a> {
    rule: &'a str,
    id: &'a str,
}

impl TextAsker<()> for Told<'_> {
    type Output = Result<Option<Verdict>, OutOfMemory>;

    ghost can_ask = { λ s. ⊤ };

    ghost answers = { λ t given old o new.
        IfOk o (λ v. IfSome v (IsShownOf t.rule.now t.id.now given)) };

    fn ask(
        &self,
        alloc: Global,
        population: &Population<'_>,
        rules: &[CoreRule],
        accepted: &Accepted<'_>,
        _into: &mut (),
    ) -> Result<Option<Verdict>, OutOfMemory> {
        let sizes = population.sizes(alloc)?;
        match admit(alloc, accepted, &sizes, MAX_BUDGET) {
            Ok(_admitted) => {
                let (name, id) = (self.rule.as_bytes(), self.id.as_bytes());
                verdict_named(alloc, population, rules, name, id)
            }
            Err(CostFault::TooCostly { .. }) => Ok(None),
            Err(CostFault::OutOfMemory) => Err(OutOfMemory),
        }
    }

    fn stop(
        &self,
        _alloc: Global,
        _place: Place<'_>,
        why: Stopped,
        _into: &mut (),
    ) -> Result<Option<Verdict>, OutOfMemory> {
        match why {
            Stopped::Refused(_) => Ok(None),
            Stopped::OutOfMemory => Err(OutOfMemory),
        }
    }
}

/// The verdict of the rule of a name for the object of an id, where `judge` refuses none of the inputs.
fn told_verdict<'a>(
    alloc: Global,
    model: &[u8],
    delivery: &[u8],
    rules: &'a [u8],
    rule: &'a str,
    id: &'a str,
) -> Result<Option<Verdict>, OutOfMemory>
    ensures { IfOk result (λ v. IfSome v (HasVerdict model.now delivery.now
        rules.entry.now rule.entry.now id.entry.now)) }
{
    let asker = OfText {
        asker: &Told { rule, id },
        text: rules,
    };
    ask_inputs(alloc, &asker, model, delivery, &mut ())
}

/// Searches for a delivery by a typed rule and those that are to hold beside it; a text with their code says how long they
/// take.
fn sketch_beside<'a>(
    alloc: Global,
    model: &'a ClassModel,
    rule: &'a CoreRule,
    others: &'a [CoreRule],
    asked: ExampleAsked<'_>,
    text: &[u8],
    tokens: &'a [Token<'a>],
) -> Result<Option<Sketch>, OutOfMemory>
    requires typed { IsTypedRule model.now (checked_rule_of rule.now) }
    requires all_typed { AllByRecursion (IsTypedRule model.now) (map checked_rule_of others.now) }
{
    let Some(unit) = unless_refused(compile_text(alloc, model, text))? else {
        return Ok(None);
    };
    match accept(alloc, model, unit) {
        Ok(accepted) => {
            let constants = Constants::new(alloc, tokens)?;
            let trial = Trial::new(model, rule, others, &accepted);
            search(alloc, trial, constants, asked.verdict, asked.limits)
        }
        Err(_rejected) => Ok(None),
    }
}

/// Searches for a delivery by one of some typed rules.
fn sketch_rule<'a>(
    alloc: Global,
    model: &'a ClassModel,
    rule: &'a CoreRule,
    rules: &'a [CoreRule],
    asked: ExampleAsked<'a>,
) -> Result<Option<Sketch>, OutOfMemory>
    requires typed { IsTypedRule model.now (checked_rule_of rule.now) }
    requires all_typed { AllByRecursion (IsTypedRule model.now) (map checked_rule_of rules.now) }
{
    let text = str::from_utf8(asked.rules.bytes).unwrap_or("");
    let tokens = match tokens(alloc, text) {
        Ok(tokens) => tokens,
        Err(TextFault::At { .. }) => return Ok(None),
        Err(TextFault::OutOfMemory) => return Err(OutOfMemory),
    };
    if asked.others_hold {
        return sketch_beside(alloc, model, rule, rules, asked, text.as_bytes(), &tokens);
    }
    let own = rule_tokens(&tokens, asked.index);
    let lone = lone_rule(alloc, model, rule, text, own)?;
    sketch_beside(
        alloc,
        model,
        rule,
        &[],
        asked,
        lone.as_str().as_bytes(),
        own,
    )
}

/// Searches for a delivery by the rule of a name.
fn sketch_by<'a>(
    alloc: Global,
    model: &'a ClassModel,
    rules: &'a [CoreRule],
    asked: ExampleAsked<'a>,
) -> Result<Option<Sketch>, OutOfMemory>
    requires { AllByRecursion (IsTypedRule model.now) (map checked_rule_of rules.now) }
{
    'rules: for rule in rules {
        if rule.name.as_str() == asked.rule {
            return sketch_rule(alloc, model, rule, rules, asked);
        }
    }
    Ok(None)
}

/// What was made of an input; none where it is refused.
fn unless_refused<T: Drop>(made: Result<T, Stopped>) -> Result<Option<T>, OutOfMemory>
    ensures { IfOk result (λ m. IfSome m (λ t. made ≡ Ok t)) }
{
    match made {
        Ok(made) => Ok(Some(made)),
        Err(Stopped::Refused(_)) => Ok(None),
        Err(Stopped::OutOfMemory) => Err(OutOfMemory),
    }
}

/// Searches for a delivery.
fn sketch(alloc: Global, asked: ExampleAsked<'_>) -> Result<Option<Sketch>, OutOfMemory> {
    let Some(model) = unless_refused(read_model(alloc, asked.model.bytes))? else {
        return Ok(None);
    };
    let Some(rules) = unless_refused(type_text(alloc, &model, asked.rules.bytes))? else {
        return Ok(None);
    };
    sketch_by(alloc, &model, &rules, asked)
}

/// Searches for a delivery in which an object has a verdict of a rule. What is found is judged as `judge` does: its bytes are
/// loaded, no rule of the text passes the largest budget, and the rule has the verdict for the object of that id. None: no
/// delivery was found in so many tries, or an input is refused.
pub fn find_example(alloc: Global, asked: ExampleAsked<'_>) -> Result<Option<Example>, OutOfMemory>
    ensures { IfOk result (λ found. IfSome found (λ e. HasVerdict asked.entry.model.bytes.now
        (string_bytes e.delivery) asked.entry.rules.bytes.now asked.entry.rule.now
        (string_bytes e.id) asked.entry.verdict)) }
{
    let Some(Sketch { delivery, id }) = sketch(alloc, asked)? else {
        return Ok(None);
    };
    let verdict = told_verdict(
        alloc,
        asked.model.bytes,
        delivery.as_str().as_bytes(),
        asked.rules.bytes,
        asked.rule,
        id.as_str(),
    )?;
    if verdict == Some(asked.verdict) {
        Ok(Some(Example { delivery, id }))
    } else {
        Ok(None)
    }
}

/// The names of a text's rules in their order; none where it is refused.
pub fn rule_names(alloc: Global, rules: Input<'_>) -> Result<Vec<String>, AllocError> {
    let mut names = Vec::new(alloc);
    match read_text(alloc, rules.bytes) {
        Ok(read) => {
            for rule in &read {
                names.push(String::from_str(alloc, rule.name.as_str())?)?;
            }
            Ok(names)
        }
        Err(fault) => match Stopped::from(fault) {
            Stopped::OutOfMemory => Err(AllocError),
            Stopped::Refused(_) => Ok(names),
        },
    }
}
