//! The report of `judge` with the explanation of each finding below its line, or what it has of one rule.

ghost use Rattle.std.specs.Prelude.{◌≡◌, ℕ, [], Some, None, option_map, false, true};
ghost use Rattle.ocl_check.specs.declared.commands.judge.TheConstants.{MAX_BUDGET};
ghost use Rattle.ocl_check.specs.Answers.{IsAnswered, IsAnsweredBy, IsFlushedBy, KeepsSink, fails_read, fails_write};
ghost use Rattle.ocl_check.specs.Ending.{IsEnding};
ghost use Rattle.ocl_check.specs.Given.{given_answer};
ghost use Rattle.ocl_check.specs.Reply.{Answer};
ghost use Rattle.ocl_explain.specs.Explained.{explained_within, code_explained_within, code_explained_answer};
ghost use Rattle.ocl_pipeline.specs.TextReading.{TextReading, ReadsAs};
ghost use Rattle.ocl_explain.specs.ExplainedReport.{explained_report, reported, explained_answer, ExplainedAnswers};

use crate::explainer::{CodeRules, Explainer, TextRules};
use crate::given_names::names_in;
use crate::weaving::{Shown, Wanted, explained_report};
use explain_notes::Input;
use explain_refusals::{Ending, Explaining, Given, Listener, Nobody, options_of, write_answer};
use imkl_population::Population;
use ocl_base::OutOfMemory;
use ocl_check::{
    CommandFault, JudgeOptions, MAX_BUDGET, Outcome, Report, RulesForm, Sink, Telling, stop,
};
use ocl_core::CoreRule;
use ocl_pipeline::laws::each_text_is_read;
use ocl_pipeline::{CodeAsker, OfCode, OfText, Place, Stopped, TextAsker, ask_inputs};
use rule_verify::Accepted;
use std::alloc::Global;

/// The rule whose findings are explained, and the inputs.
#[derive(Clone, Copy, Drop)]
pub struct RuleAsked<'a> {
    /// The class model.
    pub model: Input<'a>,
    /// The delivery.
    pub delivery: Input<'a>,
    /// The rule text, or the code file.
    pub rules: Input<'a>,
    /// The name of the rule.
    pub rule: &'a str,
    /// How much is shown.
    pub shown: Shown,
}

/// Asks for the report with explanations, or for what it has of the rule of a name.
#[derive(Clone, Copy)]
pub(crate) struct ExplainedReport<'a, L> {
    pub(crate) budget: u64,
    pub(crate) shown: Shown,
    pub(crate) rule: Option<&'a str>,
    /// The bytes of the rules.
    pub(crate) rules: &'a [u8],
    pub(crate) watch: &'a Explaining<'a, L>,
}

/// Writes a report with explanations, of which only the lines of one rule are wanted if its name is given.
fn write_explained<E: Explainer, S: Sink>(
    alloc: Global,
    explainer: &E,
    population: &Population<'_>,
    wanted: Wanted<'_>,
    text: &[u8],
    status: u8,
    sink: &mut S,
) -> Outcome
    requires can { E.can_explain explainer.now population.now.content }
    requires well { S.has_failed sink.old ≡ false }
    ensures { IsEnding S.contents S.has_failed S.flushes S.has_pending true (
      explained_report
          (E.explains explainer.now population.now.content) wanted.entry.shown
          (option_map (λ r. r.now) wanted.entry.rule) text.now,
      status,
    ) sink.old result sink.new }
{
    match explained_report(alloc, explainer, population, wanted, text) {
        Ok(explained) => write_answer(sink, &explained, status),
        Err(OutOfMemory) => Outcome::Failed(CommandFault::OutOfMemory),
    }
}

impl<L: Listener> ExplainedReport<'_, L> {
    /// Writes what a report has of the rule of a name; nothing, where there is no such rule.
    fn write_named<E: Explainer, S: Sink>(
        &self,
        alloc: Global,
        explainer: &E,
        population: &Population<'_>,
        name: &str,
        text: &[u8],
        sink: &mut S,
    ) -> Outcome
        requires can { E.can_explain explainer.now population.now.content }
        requires well { S.has_failed sink.old ≡ false }
        ensures { (status : ℕ) → IsEnding S.contents S.has_failed S.flushes S.has_pending true
            (reported (E.explains explainer.now population.now.content) self.now.shown
            (Some name.now) (text.now, status)) sink.old result sink.new }
    {
        if !explainer.has_rule(name.as_bytes()) {
            let path = self.watch.given().rules.path;
            self.watch.keep(explainer.unknown(alloc, path, name));
            return write_answer(sink, &[], 2);
        }
        let wanted = Wanted {
            shown: self.shown,
            rule: Some(name.as_bytes()),
        };
        write_explained(alloc, explainer, population, wanted, text, 0, sink)
    }

    /// Writes an answer of `judge` that has this status: a report with explanations, or of a refusal its line.
    fn write_answered<E: Explainer, S: Sink>(
        &self,
        alloc: Global,
        explainer: &E,
        population: &Population<'_>,
        text: &[u8],
        status: u8,
        sink: &mut S,
    ) -> Outcome
        requires can { E.can_explain explainer.now population.now.content }
        requires well { S.has_failed sink.old ≡ false }
        ensures { IsEnding S.contents S.has_failed S.flushes S.has_pending true (explained_answer
            (E.explains explainer.now population.now.content) self.now.shown
            (option_map (λ r. r.now) self.now.rule) (text.now, status)) sink.old result sink.new }
    {
        if status == 2 {
            return write_answer(sink, text, status);
        }
        match self.rule {
            Some(name) => self.write_named(alloc, explainer, population, name, text, sink),
            None => {
                let wanted = Wanted {
                    shown: self.shown,
                    rule: None,
                };
                write_explained(alloc, explainer, population, wanted, text, status, sink)
            }
        }
    }

    /// Writes what `judge` answered, of which it wrote these bytes into memory.
    fn write_judged<E: Explainer, S: Sink>(
        &self,
        alloc: Global,
        explainer: &E,
        population: &Population<'_>,
        text: &[u8],
        judged: Outcome,
        sink: &mut S,
    ) -> Outcome
        requires can { E.can_explain explainer.now population.now.content }
        requires well { S.has_failed sink.old ≡ false }
        ensures { (said : Answer) → IsAnswered said (Some []) (Some text.now) judged →
            IsEnding S.contents S.has_failed S.flushes S.has_pending true (explained_answer
            (E.explains explainer.now population.now.content) self.now.shown
            (option_map (λ r. r.now) self.now.rule) said) sink.old result sink.new }
    {
        match judged {
            Outcome::Status(status) => {
                self.write_answered(alloc, explainer, population, text, status, sink)
            }
            // Memory takes all bytes that there is room for.
            Outcome::Failed(_) => Outcome::Failed(CommandFault::OutOfMemory),
        }
    }
}

impl<S: Sink, L: Listener> TextAsker<S> for ExplainedReport<'_, L> {
    type Output = Outcome;

    ghost can_ask = { λ s. S.has_failed s ≡ false };

    ghost answers = { λ e given old o new. (t : TextReading) × ReadsAs e.rules.now t ×
        IsEnding S.contents S.has_failed S.flushes S.has_pending
        true (given_answer (explained_within t e.budget e.shown (option_map (λ r. r.now) e.rule))
        given) old o new };

    fn ask(
        &self,
        alloc: Global,
        population: &Population<'_>,
        rules: &[CoreRule],
        accepted: &Accepted<'_>,
        sink: &mut S,
    ) -> Outcome {
        each_text_is_read();
        let names = match names_in(alloc, self.rules, rules) {
            Ok(names) => names,
            Err(OutOfMemory) => return Outcome::Failed(CommandFault::OutOfMemory),
        };
        let report = Report {
            budget: self.budget,
            watch: self.watch,
        };
        let mut memory = Telling::new(Vec::new(alloc));
        let judged = TextAsker::ask(&report, alloc, population, rules, accepted, &mut memory);
        let text = memory.into_inner();
        let explainer = TextRules {
            rules,
            names: &names,
        };
        self.write_judged(alloc, &explainer, population, &text, judged, sink)
    }

    fn stop(&self, alloc: Global, place: Place<'_>, why: Stopped, sink: &mut S) -> Outcome {
        each_text_is_read();
        stop(alloc, self.watch, place, why, sink)
    }
}

impl<S: Sink, L: Listener> CodeAsker<S> for ExplainedReport<'_, L> {
    type Output = Outcome;

    ghost can_ask = { λ s. S.has_failed s ≡ false };

    ghost answers = { λ e given old o new. IsEnding S.contents S.has_failed S.flushes S.has_pending
        true (given_answer (code_explained_within e.budget e.shown
        (option_map (λ r. r.now) e.rule)) given) old o new };

    fn ask(
        &self,
        alloc: Global,
        population: &Population<'_>,
        accepted: &Accepted<'_>,
        sink: &mut S,
    ) -> Outcome {
        let (budget, watch) = (self.budget, self.watch);
        let report = Report { budget, watch };
        let mut memory = Telling::new(Vec::new(alloc));
        let judged = CodeAsker::ask(&report, alloc, population, accepted, &mut memory);
        let text = memory.into_inner();
        let explainer = CodeRules { accepted };
        self.write_judged(alloc, &explainer, population, &text, judged, sink)
    }

    fn stop(&self, alloc: Global, place: Place<'_>, why: Stopped, sink: &mut S) -> Outcome {
        stop(alloc, self.watch, place, why, sink)
    }
}

/// Judges a delivery by the rules of a text, within a budget in charges for a rule and an object, and writes the report as
/// `run_judge` does. Below the line of each object for which a rule doesn't hold are the parts of the rule's expression with
/// their values, as `answer_why` writes them; `shown` says of how many findings of a rule, and how many lines of each. Where
/// `judge` refuses an input it is refused likewise. The listener hears what it hears of `answer_judge`.
///
/// The answer is put together whole before its first byte is written. `Failed(OutOfMemory)`: memory ran out; nothing was
/// written. `Failed(Write)`: the sink has failed, after a prefix of the answer.
pub fn answer_judge_why<'i, S: Sink, L: Listener>(
    alloc: Global,
    listener: &'i L,
    budget: u64,
    shown: Shown,
    model: Input<'i>,
    delivery: Input<'i>,
    rules: Input<'i>,
    sink: &mut S,
) -> Ending
    requires { S.has_failed sink.old ≡ false }
    ensures answered { IsAnsweredBy (ExplainedAnswers budget shown None
        model.entry.bytes.now delivery.entry.bytes.now rules.entry.bytes.now)
        (S.contents sink.old) (S.contents sink.new) result.outcome }
    ensures sink { S.has_failed sink.new ≡ fails_write result.outcome }
    ensures flushed { IsFlushedBy S.flushes S.has_pending result.outcome sink.old sink.new }
    ensures kept { KeepsSink result.outcome sink.old sink.new }
    ensures read { fails_read result.outcome ≡ false }
{
    let given = Given {
        model,
        delivery: Some(delivery),
        rules,
        script: None,
        options: JudgeOptions {
            form: RulesForm::Text,
            budget,
        },
    };
    let watch = Explaining::new(given, listener);
    let asker = OfText {
        asker: &ExplainedReport {
            budget,
            shown,
            rule: None,
            rules: rules.bytes,
            watch: &watch,
        },
        text: rules.bytes,
    };
    let outcome = ask_inputs(alloc, &asker, model.bytes, delivery.bytes, sink);
    watch.ending(alloc, outcome)
}

/// Explains why a rule of a text doesn't hold for the objects that it judges: writes the lines that the report has of the rule,
/// and below that of each object the parts of the rule's expression with their values, with status 0; `shown` says of how
/// many objects, and how many lines of each. Where `judge` refuses an input it is refused likewise. Else, where there is no
/// such rule, nothing is written, with status 2.
///
/// It fails as `answer_judge_why` does.
pub fn answer_why_rule<S: Sink>(alloc: Global, asked: RuleAsked<'_>, sink: &mut S) -> Ending
    requires { S.has_failed sink.old ≡ false }
    ensures answered { IsAnsweredBy (ExplainedAnswers MAX_BUDGET asked.entry.shown
        (Some asked.entry.rule.now) asked.entry.model.bytes.now asked.entry.delivery.bytes.now
        asked.entry.rules.bytes.now) (S.contents sink.old) (S.contents sink.new) result.outcome }
    ensures sink { S.has_failed sink.new ≡ fails_write result.outcome }
    ensures flushed { IsFlushedBy S.flushes S.has_pending result.outcome sink.old sink.new }
    ensures kept { KeepsSink result.outcome sink.old sink.new }
    ensures read { fails_read result.outcome ≡ false }
{
    let given = Given {
        model: asked.model,
        delivery: Some(asked.delivery),
        rules: asked.rules,
        script: None,
        options: options_of(RulesForm::Text),
    };
    let watch = Explaining::new(given, &Nobody);
    let asker = OfText {
        asker: &ExplainedReport {
            budget: MAX_BUDGET,
            shown: asked.shown,
            rule: Some(asked.rule),
            rules: asked.rules.bytes,
            watch: &watch,
        },
        text: asked.rules.bytes,
    };
    let outcome = ask_inputs(alloc, &asker, asked.model.bytes, asked.delivery.bytes, sink);
    watch.ending(alloc, outcome)
}

/// What is read for a report by a code file.
fn code_given<'a>(
    model: Input<'a>,
    delivery: Input<'a>,
    code: Input<'a>,
    budget: u64,
) -> Given<'a> {
    Given {
        model,
        delivery: Some(delivery),
        rules: code,
        script: None,
        options: JudgeOptions {
            form: RulesForm::Code,
            budget,
        },
    }
}

/// Judges a delivery by a code file, within a budget, and writes the report with explanations as `answer_judge_why` does of a
/// text: each expression is the core tree of a rule's code, whose meaning is the verdict of the report. A rule of more than
/// `MAX_INSTRUCTIONS` instructions isn't explained. It is refused where `judge` refuses, and fails as `answer_judge_why` does.
pub fn answer_judge_why_code<'i, S: Sink, L: Listener>(
    alloc: Global,
    listener: &'i L,
    budget: u64,
    shown: Shown,
    model: Input<'i>,
    delivery: Input<'i>,
    code: Input<'i>,
    sink: &mut S,
) -> Ending
    requires { S.has_failed sink.old ≡ false }
    ensures answered { IsAnswered (code_explained_answer budget shown None
        model.entry.bytes.now delivery.entry.bytes.now code.entry.bytes.now)
        (S.contents sink.old) (S.contents sink.new) result.outcome }
    ensures sink { S.has_failed sink.new ≡ fails_write result.outcome }
    ensures flushed { IsFlushedBy S.flushes S.has_pending result.outcome sink.old sink.new }
    ensures kept { KeepsSink result.outcome sink.old sink.new }
    ensures read { fails_read result.outcome ≡ false }
{
    let watch = Explaining::new(code_given(model, delivery, code, budget), listener);
    let asker = OfCode {
        asker: &ExplainedReport {
            budget,
            shown,
            rule: None,
            rules: code.bytes,
            watch: &watch,
        },
        code: code.bytes,
    };
    let outcome = ask_inputs(alloc, &asker, model.bytes, delivery.bytes, sink);
    watch.ending(alloc, outcome)
}

/// Explains why a rule of a code file doesn't hold for the objects that it judges, as `answer_why_rule` does of a text.
pub fn answer_why_code_rule<S: Sink>(alloc: Global, asked: RuleAsked<'_>, sink: &mut S) -> Ending
    requires { S.has_failed sink.old ≡ false }
    ensures answered { IsAnswered (code_explained_answer MAX_BUDGET asked.entry.shown
        (Some asked.entry.rule.now) asked.entry.model.bytes.now asked.entry.delivery.bytes.now
        asked.entry.rules.bytes.now) (S.contents sink.old) (S.contents sink.new) result.outcome }
    ensures sink { S.has_failed sink.new ≡ fails_write result.outcome }
    ensures flushed { IsFlushedBy S.flushes S.has_pending result.outcome sink.old sink.new }
    ensures kept { KeepsSink result.outcome sink.old sink.new }
    ensures read { fails_read result.outcome ≡ false }
{
    let given = code_given(asked.model, asked.delivery, asked.rules, MAX_BUDGET);
    let watch = Explaining::new(given, &Nobody);
    let asker = OfCode {
        asker: &ExplainedReport {
            budget: MAX_BUDGET,
            shown: asked.shown,
            rule: Some(asked.rule),
            rules: asked.rules.bytes,
            watch: &watch,
        },
        code: asked.rules.bytes,
    };
    let outcome = ask_inputs(alloc, &asker, asked.model.bytes, asked.delivery.bytes, sink);
    watch.ending(alloc, outcome)
}
