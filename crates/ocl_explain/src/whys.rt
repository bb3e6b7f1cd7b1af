//! The command `why`, of inputs that were read already.

ghost use Rattle.std.specs.Prelude.{◌≡◌, Some, None, map, false, string_bytes};
ghost use Rattle.std.specs.List.{AllByRecursion};
ghost use Rattle.imkl_population.specs.Sizes.{sizes_of};
ghost use Rattle.ocl_core.specs.CoreView.{checked_rule_of};
ghost use Rattle.ocl_core.specs.Typing.{IsTypedRule};
ghost use Rattle.ocl_pipeline.specs.CompiledRules.{rules_with};
ghost use Rattle.ocl_check.specs.Answers.{IsAnsweredBy, IsFlushedBy, KeepsUnread, fails_read, fails_write};
ghost use Rattle.ocl_check.specs.Ending.{IsEnding};
ghost use Rattle.ocl_check.specs.Given.{given_answer};
ghost use Rattle.ocl_explain.specs.Explained.{found_text, why_of};
ghost use Rattle.ocl_pipeline.specs.TextReading.{TextReading, ReadsAs};
ghost use Rattle.ocl_explain.specs.RuleNames.{rule_names, names_by};
ghost use Rattle.ocl_explain.specs.WhyAnswers.{shown_answer, why_answer, why_text, WhyAnswers};

use crate::given_names::{RuleNames, names_in};
use crate::unknown::{not_judged, unknown_object, unknown_rule};
use crate::verdicts::{Found, find_verdict};
use explain_notes::{Input, cut_text};
use explain_refusals::{Ending, Explaining, Given, Nobody, Words, options_of, write_answer};
use imkl_population::{Population, Sizes};
use ocl_base::OutOfMemory;
use ocl_check::{CommandFault, MAX_BUDGET, Outcome, RulesForm, Sink, stop};
use ocl_core::CoreRule;
use ocl_pipeline::laws::each_text_is_read;
use ocl_pipeline::{OfText, Place, SizedCode, Stopped, TextAsker, ask_inputs};
use rule_cost::admit;
use rule_verify::Accepted;
use std::alloc::Global;

/// The rule and the object whose verdict is explained, and the inputs.
#[derive(Clone, Copy, Drop)]
pub struct WhyAsked<'a> {
    /// The class model.
    pub model: Input<'a>,
    /// The delivery.
    pub delivery: Input<'a>,
    /// The rule text.
    pub rules: Input<'a>,
    /// The name of the rule.
    pub rule: &'a str,
    /// The id of the object.
    pub id: &'a str,
    /// How many lines of the explanation are shown.
    pub lines: usize,
}

/// Asks for an explanation.
#[derive(Clone, Copy)]
struct Explanation<'a> {
    asked: WhyAsked<'a>,
    watch: &'a Explaining<'a, Nobody>,
}

/// Writes so many lines of an explanation.
pub(crate) fn write_explanation<S: Sink>(
    alloc: Global,
    text: &String,
    lines: usize,
    sink: &mut S,
) -> Outcome
    requires { S.has_failed sink.old ≡ false }
    ensures { IsEnding S.contents S.has_failed S.flushes S.has_pending false
        (shown_answer lines (why_answer (Some (string_bytes text.now)))) sink.old result sink.new }
{
    match cut_text(alloc, text.as_bytes(), lines) {
        Ok(shown) => write_answer(sink, &shown, 0),
        Err(_) => Outcome::Failed(CommandFault::OutOfMemory),
    }
}

/// Writes nothing, and keeps the words that say why.
pub(crate) fn write_unknown<S: Sink>(
    watch: &Explaining<'_, Nobody>,
    words: Words,
    sink: &mut S,
) -> Outcome
    requires { S.has_failed sink.old ≡ false }
    ensures { IsEnding S.contents S.has_failed S.flushes S.has_pending false (why_answer None)
        sink.old result sink.new }
{
    watch.keep(words);
    write_answer(sink, &[], 2)
}

/// Writes the explanation that was found, or nothing.
fn write_found<S: Sink>(
    alloc: Global,
    explanation: Explanation<'_>,
    rules: &[CoreRule],
    found: Found<'_>,
    sink: &mut S,
) -> Outcome
    requires { S.has_failed sink.old ≡ false }
    ensures { IsEnding S.contents S.has_failed S.flushes S.has_pending false
        (shown_answer explanation.entry.asked.lines (why_answer (found_text found.entry)))
        sink.old result sink.new }
{
    let Explanation { asked, watch } = explanation;
    match found {
        Found::Explained { text, object: _ } => write_explanation(alloc, &text, asked.lines, sink),
        Found::NoRule => write_unknown(
            watch,
            unknown_rule(alloc, asked.rules.path, asked.rule, rules),
            sink,
        ),
        Found::NoObject => write_unknown(watch, unknown_object(alloc, asked), sink),
        Found::NotJudged { context, class } => {
            write_unknown(watch, not_judged(alloc, asked, context, class), sink)
        }
    }
}

/// Answers of typed rules that are judged.
fn answer_judged<S: Sink>(
    alloc: Global,
    explanation: Explanation<'_>,
    population: &Population<'_>,
    names: &[RuleNames],
    rules: &[CoreRule],
    sink: &mut S,
) -> Outcome
    requires typed { AllByRecursion (IsTypedRule population.now.content.model)
        (map checked_rule_of rules.now) }
    requires well { S.has_failed sink.old ≡ false }
    ensures { IsEnding S.contents S.has_failed S.flushes S.has_pending false
        (shown_answer explanation.entry.asked.lines (why_answer (why_text population.now.content
        (map rule_names names.now) (map checked_rule_of rules.now) explanation.entry.asked.rule.now
        explanation.entry.asked.id.now))) sink.old result sink.new }
{
    let (name, id) = (
        explanation.asked.rule.as_bytes(),
        explanation.asked.id.as_bytes(),
    );
    match find_verdict(alloc, population, names, rules, name, 0, id) {
        Ok(found) => write_found(alloc, explanation, rules, found, sink),
        Err(OutOfMemory) => Outcome::Failed(CommandFault::OutOfMemory),
    }
}

/// Answers of typed rules and their accepted unit, in a population of these sizes.
fn answer_sized<S: Sink>(
    alloc: Global,
    explanation: Explanation<'_>,
    population: &Population<'_>,
    names: &[RuleNames],
    rules: &[CoreRule],
    sizes: &Sizes<'_>,
    accepted: &Accepted<'_>,
    sink: &mut S,
) -> Outcome
    requires one_model { population.now.content.model ≡ accepted.now.model }
    requires typed { AllByRecursion (IsTypedRule population.now.content.model)
        (map checked_rule_of rules.now) }
    requires sizes { sizes.now ≡ sizes_of population.now.content }
    requires well { S.has_failed sink.old ≡ false }
    ensures { (t : TextReading) → map rule_names names.now ≡
        names_by t (map checked_rule_of rules.now) →
        IsEnding S.contents S.has_failed S.flushes S.has_pending false
        (why_of t explanation.entry.asked.rule.now explanation.entry.asked.id.now
        explanation.entry.asked.lines (
          population.now.content,
          rules_with (map checked_rule_of rules.now) accepted.now.unit,
        )) sink.old result sink.new }
{
    match admit(alloc, accepted, sizes, MAX_BUDGET) {
        Ok(_admitted) => answer_judged(alloc, explanation, population, names, rules, sink),
        Err(fault) => {
            let place = Place::Cost(SizedCode::new(accepted, sizes));
            stop(alloc, explanation.watch, place, Stopped::from(fault), sink)
        }
    }
}

/// Answers of typed rules and their accepted unit, with names of the rules' variables.
fn answer_named<S: Sink>(
    alloc: Global,
    explanation: Explanation<'_>,
    population: &Population<'_>,
    names: &[RuleNames],
    rules: &[CoreRule],
    accepted: &Accepted<'_>,
    sink: &mut S,
) -> Outcome
    requires one_model { population.now.content.model ≡ accepted.now.model }
    requires typed { AllByRecursion (IsTypedRule population.now.content.model)
        (map checked_rule_of rules.now) }
    requires well { S.has_failed sink.old ≡ false }
    ensures { (t : TextReading) → map rule_names names.now ≡
        names_by t (map checked_rule_of rules.now) →
        IsEnding S.contents S.has_failed S.flushes S.has_pending false
        (why_of t explanation.entry.asked.rule.now explanation.entry.asked.id.now
        explanation.entry.asked.lines (
          population.now.content,
          rules_with (map checked_rule_of rules.now) accepted.now.unit,
        )) sink.old result sink.new }
{
    match population.sizes(alloc) {
        Ok(sizes) => answer_sized(
            alloc,
            explanation,
            population,
            names,
            rules,
            &sizes,
            accepted,
            sink,
        ),
        Err(_failed) => Outcome::Failed(CommandFault::OutOfMemory),
    }
}

impl<S: Sink> TextAsker<S> for Explanation<'_> {
    type Output = Outcome;

    ghost can_ask = { λ s. S.has_failed s ≡ false };

    ghost answers = { λ e given old o new. (t : TextReading) × ReadsAs e.asked.rules.bytes.now t ×
        IsEnding S.contents S.has_failed S.flushes S.has_pending
        false (given_answer (why_of t e.asked.rule.now e.asked.id.now e.asked.lines) given)
        old o new };

    fn ask(
        &self,
        alloc: Global,
        population: &Population<'_>,
        rules: &[CoreRule],
        accepted: &Accepted<'_>,
        sink: &mut S,
    ) -> Outcome {
        each_text_is_read();
        match names_in(alloc, self.asked.rules.bytes, rules) {
            Ok(names) => answer_named(alloc, *self, population, &names, rules, accepted, sink),
            Err(OutOfMemory) => Outcome::Failed(CommandFault::OutOfMemory),
        }
    }

    fn stop(&self, alloc: Global, place: Place<'_>, why: Stopped, sink: &mut S) -> Outcome {
        each_text_is_read();
        stop(alloc, self.watch, place, why, sink)
    }
}

/// Explains why a rule has its verdict for an object: writes the explanation, with status 0. Of a long one the first lines are
/// written, as many as are asked for, and how many more there are. Where `judge` refuses an input
/// it is refused likewise, with the line that `judge` prints. Else, where there is no such rule or object or the rule doesn't
/// judge the object, nothing is written, with status 2.
///
/// An explanation is of the rules and the population whose report `judge` answers. `Failed(OutOfMemory)`: memory ran out.
/// `Failed(Write)`: the sink has failed. In both the sink took a prefix of the answer.
pub fn answer_why<S: Sink>(alloc: Global, asked: WhyAsked<'_>, sink: &mut S) -> Ending
    requires { S.has_failed sink.old ≡ false }
    ensures answered { IsAnsweredBy (WhyAnswers asked.entry.model.bytes.now
        asked.entry.delivery.bytes.now asked.entry.rules.bytes.now asked.entry.rule.now
        asked.entry.id.now asked.entry.lines) (S.contents sink.old) (S.contents sink.new)
        result.outcome }
    ensures sink { S.has_failed sink.new ≡ fails_write result.outcome }
    ensures flushed { IsFlushedBy S.flushes S.has_pending result.outcome sink.old sink.new }
    ensures kept { KeepsUnread result.outcome sink.old sink.new }
    ensures read { fails_read result.outcome ≡ false }
{
    let given = Given {
        model: asked.model,
        delivery: Some(asked.delivery),
        rules: asked.rules,
        script: None,
        options: options_of(RulesForm::Text),
    };
    let watch = Explaining::new(given, &Nobody);
    let asker = OfText {
        asker: &Explanation {
            asked,
            watch: &watch,
        },
        text: asked.rules.bytes,
    };
    let outcome = ask_inputs(alloc, &asker, asked.model.bytes, asked.delivery.bytes, sink);
    watch.ending(alloc, outcome)
}
