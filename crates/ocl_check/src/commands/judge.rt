//! The command `judge`.

ghost use Rattle.std.specs.Prelude.{◌≡◌, false};
ghost use Rattle.rule_cost.specs.Admission.{Fits};
ghost use Rattle.ocl_check.specs.Answers.{IsAnsweredBy, IsFlushedBy, IsUnread, KeepsUnread, ReadBy, fails_read, fails_write};
ghost use Rattle.ocl_check.specs.Ending.{IsEnding};
ghost use Rattle.ocl_check.specs.Given.{given_answer, pair_answer, meant_within};
ghost use Rattle.ocl_check.specs.Judge.{status_of, report_answer, budget_answer};
ghost use Rattle.ocl_check.specs.JudgeText.{JudgeAnswers};
ghost use Rattle.ocl_check.specs.Reply.{Answer};
ghost use Rattle.ocl_check.specs.Sources.{ReadsInOrder, none, ◌then◌, used};

use crate::outcome::{CommandFault, Outcome, stop};
use crate::source::Source;
use crate::three_inputs::read_inputs;
use crate::watch::{Unwatched, Watch};
use imkl_population::Population;
use ocl_core::CoreRule;
use ocl_pipeline::laws::each_text_is_read;
use ocl_pipeline::{
    AdmittedAsker, CodeAsker, OfCode, OfText, Place, Stopped, TextAsker, ask_admitted, ask_inputs,
};
use rule_cost::Admitted;
use rule_report::{ReportFault, Sink, Summary, write_report};
use rule_verify::Accepted;
use std::alloc::Global;

/// The budget of `judge` where none is given, and the largest that its command line takes: 2^63-1
/// charges for each rule and object.
pub const MAX_BUDGET: u64 = 9_223_372_036_854_775_807;

/// The status of a report: 0 where every rule holds for each object of its context class, else 1.
fn status_of(summary: Summary) -> u8
    ensures { result ≡ status_of summary }
{
    if summary.fails == 0 && summary.undecided == 0 {
        0
    } else {
        1
    }
}

/// Writes the report on a population that fits the admitted code.
fn judge_admitted<S: Sink>(
    alloc: Global,
    population: &Population<'_>,
    admitted: &Admitted<'_>,
    sink: &mut S,
) -> Outcome
    requires fits { Fits admitted.now population.now.content }
    requires well { S.has_failed sink.old ≡ false }
    ensures { IsEnding S.contents S.has_failed S.flushes S.has_pending false (report_answer
        population.now.content admitted.now.resolved.unit) sink.old result sink.new }
{
    match write_report(alloc, admitted, population, sink) {
        Ok(summary) => Outcome::Status(status_of(summary)),
        Err(ReportFault::Write) => Outcome::Failed(CommandFault::Write),
        Err(ReportFault::OutOfMemory) => Outcome::Failed(CommandFault::OutOfMemory),
    }
}

/// Asks for the report, by rules that are within a budget.
#[derive(Clone, Copy)]
pub struct Report<'a, V> {
    /// The greatest bound that a rule may have, in charges for an object.
    pub budget: u64,
    /// Who watches.
    pub watch: &'a V,
}

impl<S: Sink, V: Watch> AdmittedAsker<S> for Report<'_, V> {
    type Output = Outcome;

    ghost can_ask = { λ s. S.has_failed s ≡ false };

    ghost answers = { λ _ p given old o new. IsEnding S.contents S.has_failed S.flushes
        S.has_pending false (given_answer (λ a. report_answer p a.resolved.unit) given) old o new };

    fn ask(
        &self,
        alloc: Global,
        population: &Population<'_>,
        admitted: &Admitted<'_>,
        sink: &mut S,
    ) -> Outcome {
        self.watch.admit(alloc, population, admitted);
        judge_admitted(alloc, population, admitted, sink)
    }

    fn stop(&self, alloc: Global, place: Place<'_>, why: Stopped, sink: &mut S) -> Outcome {
        stop(alloc, self.watch, place, why, sink)
    }
}

impl<S: Sink, V: Watch> CodeAsker<S> for Report<'_, V> {
    type Output = Outcome;

    ghost can_ask = { λ s. S.has_failed s ≡ false };

    ghost answers = { λ r given old o new. IsEnding S.contents S.has_failed S.flushes S.has_pending
        false (given_answer (pair_answer (budget_answer r.budget)) given) old o new };

    fn ask(
        &self,
        alloc: Global,
        population: &Population<'_>,
        accepted: &Accepted<'_>,
        sink: &mut S,
    ) -> Outcome {
        ask_admitted(alloc, self, self.budget, population, accepted, sink)
    }

    fn stop(&self, alloc: Global, place: Place<'_>, why: Stopped, sink: &mut S) -> Outcome {
        stop(alloc, self.watch, place, why, sink)
    }
}

impl<S: Sink, V: Watch> TextAsker<S> for Report<'_, V> {
    type Output = Outcome;

    ghost can_ask = { λ s. S.has_failed s ≡ false };

    ghost answers = { λ r given old o new. IsEnding S.contents S.has_failed S.flushes S.has_pending
        false (given_answer (meant_within r.budget) given) old o new };

    fn ask(
        &self,
        alloc: Global,
        population: &Population<'_>,
        _rules: &[CoreRule],
        accepted: &Accepted<'_>,
        sink: &mut S,
    ) -> Outcome {
        ask_admitted(alloc, self, self.budget, population, accepted, sink)
    }

    fn stop(&self, alloc: Global, place: Place<'_>, why: Stopped, sink: &mut S) -> Outcome {
        stop(alloc, self.watch, place, why, sink)
    }
}

/// The form of the rules that `judge` is given.
#[derive(Clone, Copy)]
pub enum RulesForm {
    /// A code file.
    Code,
    /// A rule text.
    Text,
}

/// How a delivery is judged.
#[derive(Clone, Copy)]
pub struct JudgeOptions {
    /// In what form the rules come.
    pub form: RulesForm,
    /// The greatest bound that a rule may have, in charges for an object; from `MAX_BUDGET` on all budgets mean the same.
    pub budget: u64,
}

/// Answers with the report on a delivery, as `run_judge` does of inputs that it has read.
pub fn judge_inputs<S: Sink, V: Watch>(
    alloc: Global,
    watch: &V,
    options: JudgeOptions,
    model: &[u8],
    delivery: &[u8],
    rules: &[u8],
    sink: &mut S,
) -> Outcome
    requires { S.has_failed sink.old ≡ false }
    ensures { (a : Answer) × JudgeAnswers options model.now delivery.now rules.now a
        × IsEnding S.contents S.has_failed S.flushes S.has_pending false a sink.old result sink.new }
{
    let asker = &Report {
        budget: options.budget,
        watch,
    };
    match options.form {
        RulesForm::Code => {
            let asker = OfCode { asker, code: rules };
            ask_inputs(alloc, &asker, model, delivery, sink)
        }
        RulesForm::Text => {
            let asker = OfText { asker, text: rules };
            ask_inputs(alloc, &asker, model, delivery, sink)
        }
    }
}

/// Judges a delivery. Reads the class model (JSON), the delivery (JSON) and the rules (a code file or
/// a text), each whole and of at most 268,435,456 bytes; an input is untouched until the one before
/// it has ended. Then writes the report, with status 0 where every rule holds for each object of its
/// context class, else 1; or, with status 2, the line of the first input that is refused, or of the
/// first rule whose bound is 2^63 or more or above the budget. Rules of a text are judged by what
/// they mean. Whatever it answers, of each input at most 268,435,457 bytes are read, by as many reads.
///
/// `Failed(Read)`: an input can't be read, or is too long; then the sink is as it was.
/// `Failed(OutOfMemory)`: memory ran out; the sink took a prefix of the report, and nothing of the line
/// of a refusal. `Failed(Write)`: the sink has failed, after a prefix of the answer. The sink is flushed
/// once, after the last byte, where the command ends with a status.
pub fn run_judge<M: Source, D: Source, R: Source, S: Sink>(
    alloc: Global,
    options: JudgeOptions,
    model: &mut M,
    delivery: &mut D,
    rules: &mut R,
    sink: &mut S,
) -> Outcome
    requires model { IsUnread (M.has_failed model.old) (M.reads model.old) }
    requires delivery { IsUnread (D.has_failed delivery.old) (D.reads delivery.old) }
    requires rules { IsUnread (R.has_failed rules.old) (R.reads rules.old) }
    requires sink { S.has_failed sink.old ≡ false }
    ensures answered { ReadBy result (M.remaining model.old) (λ xs.
        ReadBy result (D.remaining delivery.old) (λ ys. ReadBy result (R.remaining rules.old) (λ zs.
        IsAnsweredBy (JudgeAnswers options xs ys zs) (S.contents sink.old) (S.contents sink.new)
        result))) }
    ensures sink { S.has_failed sink.new ≡ fails_write result }
    ensures flushed { IsFlushedBy S.flushes S.has_pending result sink.old sink.new }
    ensures kept { KeepsUnread result sink.old sink.new }
    ensures read { ReadsInOrder (none then used M.remaining M.has_failed M.reads model.old model.new
        then used D.remaining D.has_failed D.reads delivery.old delivery.new
        then used R.remaining R.has_failed R.reads rules.old rules.new) (fails_read result) }
{
    each_text_is_read();
    match read_inputs(alloc, model, delivery, rules) {
        Ok(inputs) => judge_inputs(
            alloc,
            &Unwatched,
            options,
            &inputs.model,
            &inputs.delivery,
            &inputs.rules,
            sink,
        ),
        Err(fault) => Outcome::Failed(CommandFault::from(fault)),
    }
}
