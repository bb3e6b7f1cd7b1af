//! The command `why` of a code file, of inputs that were read already.

ghost use Rattle.std.specs.Prelude.{◌≡◌, ◌<◌, length, false, IfOk, IfSome, string_bytes};
ghost use Rattle.imkl_population.specs.Population.{object_number};
ghost use Rattle.imkl_population.specs.Sizes.{sizes_of};
ghost use Rattle.ocl_core.specs.CoreView.{core_view};
ghost use Rattle.ocl_semantics.specs.Resolved.{IsResolved};
ghost use Rattle.rule_code.specs.View.{content};
ghost use Rattle.explain_why.specs.Explanation.{explanation};
ghost use Rattle.ocl_check.specs.Answers.{IsAnswered, IsFlushedBy, KeepsUnread, fails_read, fails_write};
ghost use Rattle.ocl_check.specs.Ending.{IsEnding};
ghost use Rattle.ocl_check.specs.Given.{given_answer};
ghost use Rattle.ocl_explain.specs.CodeFound.{code_found_text};
ghost use Rattle.ocl_explain.specs.CodeWhy.{rule_of_tree, rule_number, text_of_rule, code_judged_text, code_object_text, code_why_text, code_why_of, code_why_answer};
ghost use Rattle.ocl_explain.specs.WhyAnswers.{shown_answer, why_answer};

use crate::selecting::no_rule;
use crate::unknown::{not_judged, unknown_object};
use crate::whys::{WhyAsked, write_explanation, write_unknown};
use code_as_ocl::MAX_INSTRUCTIONS;
use explain_notes::Nearest;
use explain_refusals::{Ending, Explaining, Given, Nobody, Words, options_of};
use explain_why::{ExplainedRule, explain_rule};
use imkl_model::ClassNo;
use imkl_population::{ObjectNo, Population, Sizes};
use ocl_base::OutOfMemory;
use ocl_check::{CommandFault, MAX_BUDGET, Outcome, RulesForm, Sink, stop};
use ocl_core::Core;
use ocl_pipeline::{CodeAsker, OfCode, Place, SizedCode, Stopped, ask_inputs};
use report_forms::object_named;
use rule_cost::admit;
use rule_trees::core_of_rule;
use rule_trees::laws::trees_are_resolved;
use rule_verify::Accepted;
use std::alloc::Global;

/// What there is of a rule's name and an object's id.
#[derive(Drop)]
pub(crate) enum CodeFound<'m> {
    /// The explanation of the rule's verdict for the object.
    Explained {
        /// The explanation.
        text: String,
        /// The object.
        object: ObjectNo,
    },
    /// No rule has the name.
    NoRule,
    /// No object has the id.
    NoObject,
    /// The rule doesn't judge the object.
    NotJudged {
        /// The name of the class of which the rule judges objects.
        context: &'m str,
        /// The name of the object's class.
        class: &'m str,
    },
    /// The rule has too many instructions.
    TooLong,
}

/// The explanation of the verdict of a rule of this name, context class and expression.
fn explain_tree<'a>(
    alloc: Global,
    population: &'a Population<'_>,
    name: &'a str,
    context: ClassNo,
    tree: &'a Core,
    object: ObjectNo,
) -> Result<String, OutOfMemory>
    requires resolved { IsResolved population.now.content.model (core_view tree.now) }
    requires object { object < length population.now.content.objects }
    ensures { IfOk result (λ s. string_bytes s ≡ explanation population.entry.now.content
        (rule_of_tree name.entry.now context (core_view tree.entry.now)) object) }
{
    let explained = ExplainedRule {
        name,
        context,
        tree,
    };
    explain_rule(alloc, population, &explained, object)
}

/// The explanation of a rule's verdict for an object that it judges.
fn explain_code<'m>(
    alloc: Global,
    population: &Population<'m>,
    accepted: &Accepted<'_>,
    rule: usize,
    object: ObjectNo,
) -> Result<CodeFound<'m>, OutOfMemory>
    requires one_model { population.now.content.model ≡ accepted.now.model }
    requires rule { rule < length accepted.now.unit.rules }
    requires object { object < length population.now.content.objects }
    ensures { IfOk result (λ f. code_found_text f ≡ text_of_rule population.now.content
        accepted.now.unit rule object) }
{
    trees_are_resolved();
    if accepted.unit().rule(rule).code.len() > MAX_INSTRUCTIONS {
        return Ok(CodeFound::TooLong);
    }
    let tree = core_of_rule(alloc, accepted, rule)?;
    let name = accepted.rule_name(rule);
    let context = accepted.context(rule);
    let text = explain_tree(alloc, population, name, context, &tree, object)?;
    Ok(CodeFound::Explained { text, object })
}

/// What there is of a rule and an object.
fn find_judged<'m>(
    alloc: Global,
    population: &Population<'m>,
    accepted: &Accepted<'_>,
    rule: usize,
    object: ObjectNo,
) -> Result<CodeFound<'m>, OutOfMemory>
    requires one_model { population.now.content.model ≡ accepted.now.model }
    requires rule { rule < length accepted.now.unit.rules }
    requires object { object < length population.now.content.objects }
    ensures { IfOk result (λ f. code_found_text f ≡ code_judged_text population.now.content
        accepted.now.unit rule object) }
{
    let (model, class) = (population.model(), population.class_of(object));
    let context = accepted.context(rule);
    if model.conforms(class, context) {
        return explain_code(alloc, population, accepted, rule, object);
    }
    Ok(CodeFound::NotJudged {
        context: model.class_name(context),
        class: model.class_name(class),
    })
}

/// What there is of a rule and an object's id.
fn find_object<'m>(
    alloc: Global,
    population: &Population<'m>,
    accepted: &Accepted<'_>,
    rule: usize,
    first: usize,
    id: &[u8],
) -> Result<CodeFound<'m>, OutOfMemory>
    requires one_model { population.now.content.model ≡ accepted.now.model }
    requires rule { rule < length accepted.now.unit.rules }
    ensures { IfOk result (λ f. code_found_text f ≡ code_object_text population.now.content
        accepted.now.unit rule (object_number population.now.content id.now)) }
{
    match object_named(population, first, id) {
        Some(object) => find_judged(alloc, population, accepted, rule, object),
        None => Ok(CodeFound::NoObject),
    }
}

/// The index of the rule of a name.
pub(crate) fn rule_named(accepted: &Accepted<'_>, name: &[u8]) -> Option<usize>
    ensures number { result ≡ rule_number accepted.now.unit name.now }
    ensures there { IfSome result (λ n. n < length accepted.now.unit.rules) }
{
    for rule in 0..accepted.rules() {
        if accepted.rule_name(rule).as_bytes() == name {
            return Some(rule);
        }
    }
    None
}

/// What there is of a rule's name and an object's id. The object is looked for from one on, and then among those before it.
pub(crate) fn find_code_verdict<'m>(
    alloc: Global,
    population: &Population<'m>,
    accepted: &Accepted<'_>,
    name: &[u8],
    first: usize,
    id: &[u8],
) -> Result<CodeFound<'m>, OutOfMemory>
    requires { population.now.content.model ≡ accepted.now.model }
    ensures { IfOk result (λ f. code_found_text f ≡ code_why_text population.now.content
        accepted.now.unit name.now id.now) }
{
    match rule_named(accepted, name) {
        Some(rule) => find_object(alloc, population, accepted, rule, first, id),
        None => Ok(CodeFound::NoRule),
    }
}

/// That no rule of the code has a name, with the nearest that one has.
pub(crate) fn unknown_code_rule(
    alloc: Global,
    path: &str,
    name: &str,
    accepted: &Accepted<'_>,
) -> Words {
    let mut nearest = Nearest::to(name);
    for rule in 0..accepted.rules() {
        nearest.offer(alloc, accepted.rule_name(rule))?;
    }
    no_rule(alloc, path, name, &nearest)
}

/// That a rule is too long to be explained.
fn too_long(alloc: Global, asked: WhyAsked<'_>) -> Words {
    let (path, rule) = (asked.rules.path, asked.rule);
    format!(in alloc;
        "{path}: rule `{rule}` has more than {MAX_INSTRUCTIONS} instructions, so it isn't explained\n"
    )
}

/// Asks for an explanation.
#[derive(Clone, Copy)]
struct CodeExplanation<'a> {
    asked: WhyAsked<'a>,
    watch: &'a Explaining<'a, Nobody>,
}

/// Writes the explanation that was found, or nothing.
fn write_found<S: Sink>(
    alloc: Global,
    explanation: CodeExplanation<'_>,
    accepted: &Accepted<'_>,
    found: CodeFound<'_>,
    sink: &mut S,
) -> Outcome
    requires { S.has_failed sink.old ≡ false }
    ensures { IsEnding S.contents S.has_failed S.flushes S.has_pending false
        (shown_answer explanation.entry.asked.lines (why_answer (code_found_text found.entry)))
        sink.old result sink.new }
{
    let CodeExplanation { asked, watch } = explanation;
    let words = match found {
        CodeFound::Explained { text, object: _ } => {
            return write_explanation(alloc, &text, asked.lines, sink);
        }
        CodeFound::NoRule => unknown_code_rule(alloc, asked.rules.path, asked.rule, accepted),
        CodeFound::NoObject => unknown_object(alloc, asked),
        CodeFound::NotJudged { context, class } => not_judged(alloc, asked, context, class),
        CodeFound::TooLong => too_long(alloc, asked),
    };
    write_unknown(watch, words, sink)
}

/// Answers of accepted code whose rules are within the budget.
fn answer_judged<S: Sink>(
    alloc: Global,
    explanation: CodeExplanation<'_>,
    population: &Population<'_>,
    accepted: &Accepted<'_>,
    sink: &mut S,
) -> Outcome
    requires one_model { population.now.content.model ≡ accepted.now.model }
    requires well { S.has_failed sink.old ≡ false }
    ensures { IsEnding S.contents S.has_failed S.flushes S.has_pending false
        (shown_answer explanation.entry.asked.lines (why_answer (code_why_text
        population.now.content accepted.now.unit explanation.entry.asked.rule.now
        explanation.entry.asked.id.now))) sink.old result sink.new }
{
    let (name, id) = (
        explanation.asked.rule.as_bytes(),
        explanation.asked.id.as_bytes(),
    );
    match find_code_verdict(alloc, population, accepted, name, 0, id) {
        Ok(found) => write_found(alloc, explanation, accepted, found, sink),
        Err(OutOfMemory) => Outcome::Failed(CommandFault::OutOfMemory),
    }
}

/// Answers of accepted code, in a population of these sizes.
fn answer_sized<S: Sink>(
    alloc: Global,
    explanation: CodeExplanation<'_>,
    population: &Population<'_>,
    sizes: &Sizes<'_>,
    accepted: &Accepted<'_>,
    sink: &mut S,
) -> Outcome
    requires one_model { population.now.content.model ≡ accepted.now.model }
    requires sizes { sizes.now ≡ sizes_of population.now.content }
    requires well { S.has_failed sink.old ≡ false }
    ensures { IsEnding S.contents S.has_failed S.flushes S.has_pending false
        (code_why_of explanation.entry.asked.rule.now explanation.entry.asked.id.now
        explanation.entry.asked.lines (population.now.content, accepted.now.unit))
        sink.old result sink.new }
{
    match admit(alloc, accepted, sizes, MAX_BUDGET) {
        Ok(_admitted) => answer_judged(alloc, explanation, population, accepted, sink),
        Err(fault) => {
            let place = Place::Cost(SizedCode::new(accepted, sizes));
            stop(alloc, explanation.watch, place, Stopped::from(fault), sink)
        }
    }
}

impl<S: Sink> CodeAsker<S> for CodeExplanation<'_> {
    type Output = Outcome;

    ghost can_ask = { λ s. S.has_failed s ≡ false };

    ghost answers = { λ e given old o new. IsEnding S.contents S.has_failed S.flushes S.has_pending
        false (given_answer (code_why_of e.asked.rule.now e.asked.id.now e.asked.lines) given)
        old o new };

    fn ask(
        &self,
        alloc: Global,
        population: &Population<'_>,
        accepted: &Accepted<'_>,
        sink: &mut S,
    ) -> Outcome {
        match population.sizes(alloc) {
            Ok(sizes) => answer_sized(alloc, *self, population, &sizes, accepted, sink),
            Err(_failed) => Outcome::Failed(CommandFault::OutOfMemory),
        }
    }

    fn stop(&self, alloc: Global, place: Place<'_>, why: Stopped, sink: &mut S) -> Outcome {
        stop(alloc, self.watch, place, why, sink)
    }
}

/// Explains why a rule of a code file has its verdict for an object, as `answer_why` explains one of a text: the expression is
/// the core tree of the rule's code, whose meaning is the verdict of the report. Where `judge` refuses an input it is refused
/// likewise. Where there is no such rule or object, the rule doesn't judge the object, or it has more than `MAX_INSTRUCTIONS`
/// instructions, nothing is written, with status 2. It fails as `answer_why` does.
pub fn answer_why_code<S: Sink>(alloc: Global, asked: WhyAsked<'_>, sink: &mut S) -> Ending
    requires { S.has_failed sink.old ≡ false }
    ensures answered { IsAnswered (code_why_answer asked.entry.model.bytes.now
        asked.entry.delivery.bytes.now asked.entry.rules.bytes.now asked.entry.rule.now
        asked.entry.id.now asked.entry.lines) (S.contents sink.old) (S.contents sink.new)
        result.outcome }
    ensures sink { S.has_failed sink.new ≡ fails_write result.outcome }
    ensures flushed { IsFlushedBy S.flushes S.has_pending result.outcome sink.old sink.new }
    ensures kept { KeepsUnread result.outcome sink.old sink.new }
    ensures read { fails_read result.outcome ≡ false }
{
    let given = Given {
        model: asked.model,
        delivery: Some(asked.delivery),
        rules: asked.rules,
        script: None,
        options: options_of(RulesForm::Code),
    };
    let watch = Explaining::new(given, &Nobody);
    let asker = OfCode {
        asker: &CodeExplanation {
            asked,
            watch: &watch,
        },
        code: asked.rules.bytes,
    };
    let outcome = ask_inputs(alloc, &asker, asked.model.bytes, asked.delivery.bytes, sink);
    watch.ending(alloc, outcome)
}
