//! The command `desk`.

ghost use Rattle.std.specs.Prelude.{◌≡◌, false, Ok, Err, IfOk};
ghost use Rattle.rule_cost.specs.Admission.{Fits};
ghost use Rattle.desk_script.specs.Script.{script_of};
ghost use Rattle.ocl_check.specs.Answers.{IsAnswered, IsFlushedBy, IsUnread, KeepsUnread, ReadBy, fails_read, fails_write};
ghost use Rattle.ocl_check.specs.Desk.{script_answer, calls_answer, desk_answer};
ghost use Rattle.ocl_check.specs.Ending.{IsEnding, IsInput};
ghost use Rattle.ocl_check.specs.Given.{given_answer, pair_answer};
ghost use Rattle.ocl_check.specs.Sources.{ReadsInOrder, none, ◌then◌, used, fails_for_read};

use crate::commands::judge::MAX_BUDGET;
use crate::input::{InputFault, MAX_INPUT, read_input};
use crate::outcome::{CommandFault, Outcome, stop};
use crate::source::Source;
use crate::three_inputs::{Inputs, read_inputs};
use crate::watch::{Unwatched, Watch};
use desk_replies::answer_calls;
use desk_script::{Call, ScriptFault, read_script};
use imkl_population::Population;
use ocl_pipeline::{
    AdmittedAsker, CodeAsker, OfCode, Place, Refusal, Stopped, ask_admitted, ask_inputs,
};
use rule_cost::Admitted;
use rule_report::{ReportFault, Sink};
use rule_verify::Accepted;
use std::alloc::Global;

/// Answers the calls of a script on a population that fits the admitted code.
fn reply_calls<S: Sink>(
    alloc: Global,
    population: &Population<'_>,
    admitted: &Admitted<'_>,
    calls: &[Call],
    sink: &mut S,
) -> Outcome
    requires fits { Fits admitted.now population.now.content }
    requires well { S.has_failed sink.old ≡ false }
    ensures { IsEnding S.contents S.has_failed S.flushes S.has_pending false (script_answer
        admitted.now population.now.content (Ok calls.now)) sink.old result sink.new }
{
    match answer_calls(alloc, admitted, population, calls, sink) {
        Ok(()) => Outcome::Status(0),
        Err(ReportFault::Write) => Outcome::Failed(CommandFault::Write),
        Err(ReportFault::OutOfMemory) => Outcome::Failed(CommandFault::OutOfMemory),
    }
}

/// Answers a script, which is read whole before its first call is made.
fn reply_admitted<S: Sink, V: Watch>(
    alloc: Global,
    watch: &V,
    script: &[u8],
    population: &Population<'_>,
    admitted: &Admitted<'_>,
    sink: &mut S,
) -> Outcome
    requires fits { Fits admitted.now population.now.content }
    requires well { S.has_failed sink.old ≡ false }
    ensures { IsEnding S.contents S.has_failed S.flushes S.has_pending false (script_answer
        admitted.now population.now.content (script_of script.now)) sink.old result sink.new }
{
    match read_script(alloc, script) {
        Ok(calls) => reply_calls(alloc, population, admitted, &calls, sink),
        Err(ScriptFault::At { line }) => {
            let why = Stopped::Refused(Refusal::Script { line });
            stop(alloc, watch, Place::AfterRules, why, sink)
        }
        Err(ScriptFault::OutOfMemory) => Outcome::Failed(CommandFault::OutOfMemory),
    }
}

/// Asks for the replies to a script, by rules that are within the greatest budget.
#[derive(Clone, Copy)]
struct Replies<'a, V> {
    /// The script.
    script: &'a [u8],
    /// Who watches.
    watch: &'a V,
}

impl<S: Sink, V: Watch> AdmittedAsker<S> for Replies<'_, V> {
    type Output = Outcome;

    ghost can_ask = { λ s. S.has_failed s ≡ false };

    ghost answers = { λ r p given old o new. IsEnding S.contents S.has_failed S.flushes
        S.has_pending false
        (given_answer (λ a. script_answer a p (script_of r.script.now)) given) old o new };

    fn ask(
        &self,
        alloc: Global,
        population: &Population<'_>,
        admitted: &Admitted<'_>,
        sink: &mut S,
    ) -> Outcome {
        reply_admitted(alloc, self.watch, self.script, population, admitted, sink)
    }

    fn stop(&self, alloc: Global, place: Place<'_>, why: Stopped, sink: &mut S) -> Outcome {
        stop(alloc, self.watch, place, why, sink)
    }
}

impl<S: Sink, V: Watch> CodeAsker<S> for Replies<'_, V> {
    type Output = Outcome;

    ghost can_ask = { λ s. S.has_failed s ≡ false };

    ghost answers = { λ r given old o new. IsEnding S.contents S.has_failed S.flushes S.has_pending
        false (given_answer (pair_answer (calls_answer r.script.now)) given) old o new };

    fn ask(
        &self,
        alloc: Global,
        population: &Population<'_>,
        accepted: &Accepted<'_>,
        sink: &mut S,
    ) -> Outcome {
        ask_admitted(alloc, self, MAX_BUDGET, population, accepted, sink)
    }

    fn stop(&self, alloc: Global, place: Place<'_>, why: Stopped, sink: &mut S) -> Outcome {
        stop(alloc, self.watch, place, why, sink)
    }
}

/// Answers a script on a delivery and a code file, as `run_desk` does of inputs that it has read.
pub fn reply_inputs<S: Sink, V: Watch>(
    alloc: Global,
    watch: &V,
    model: &[u8],
    delivery: &[u8],
    code: &[u8],
    script: &[u8],
    sink: &mut S,
) -> Outcome
    requires { S.has_failed sink.old ≡ false }
    ensures { IsEnding S.contents S.has_failed S.flushes S.has_pending false
        (desk_answer model.now delivery.now code.now script.now) sink.old result sink.new }
{
    let asker = OfCode {
        asker: &Replies { script, watch },
        code,
    };
    ask_inputs(alloc, &asker, model, delivery, sink)
}

/// Reads three inputs and a script, one after another, each whole.
fn read_all<M: Source, D: Source, C: Source, P: Source>(
    alloc: Global,
    model: &mut M,
    delivery: &mut D,
    code: &mut C,
    script: &mut P,
) -> Result<(Inputs, Vec<u8>), InputFault>
    requires model { IsUnread (M.has_failed model.old) (M.reads model.old) }
    requires delivery { IsUnread (D.has_failed delivery.old) (D.reads delivery.old) }
    requires code { IsUnread (C.has_failed code.old) (C.reads code.old) }
    requires script { IsUnread (P.has_failed script.old) (P.reads script.old) }
    ensures model { IfOk result (λ i. IsInput (M.remaining model.old) i.0.model.items) }
    ensures delivery { IfOk result (λ i. IsInput (D.remaining delivery.old) i.0.delivery.items) }
    ensures code { IfOk result (λ i. IsInput (C.remaining code.old) i.0.rules.items) }
    ensures script { IfOk result (λ i. IsInput (P.remaining script.old) i.1.items) }
    ensures read { ReadsInOrder (none then used M.remaining M.has_failed M.reads model.old model.new
        then used D.remaining D.has_failed D.reads delivery.old delivery.new
        then used C.remaining C.has_failed C.reads code.old code.new
        then used P.remaining P.has_failed P.reads script.old script.new) (fails_for_read result) }
{
    let inputs = read_inputs(alloc, model, delivery, code)?;
    let script = read_input(alloc, script, MAX_INPUT)?;
    Ok((inputs, script))
}

/// Answers a script of calls on a desk. Reads the class model (JSON), the delivery (JSON), the code file and the script,
/// each whole and of at most 268,435,456 bytes; an input is untouched until the one before it has ended. Then makes the
/// script's calls in their order, each job being the report on the delivery by the code, and writes what is replied, with
/// status 0; or, with status 2, the line of the first input that is refused, or of the first rule whose bound is 2^63 or
/// more. The script is checked whole before its first call is made.
///
/// It fails as `run_judge` does. Where memory runs out, for the desk too, the sink took a prefix of the replies, and nothing
/// of the line of a refusal.
pub fn run_desk<M: Source, D: Source, C: Source, P: Source, S: Sink>(
    alloc: Global,
    model: &mut M,
    delivery: &mut D,
    code: &mut C,
    script: &mut P,
    sink: &mut S,
) -> Outcome
    requires model { IsUnread (M.has_failed model.old) (M.reads model.old) }
    requires delivery { IsUnread (D.has_failed delivery.old) (D.reads delivery.old) }
    requires code { IsUnread (C.has_failed code.old) (C.reads code.old) }
    requires script { IsUnread (P.has_failed script.old) (P.reads script.old) }
    requires sink { S.has_failed sink.old ≡ false }
    ensures answered { ReadBy result (M.remaining model.old) (λ xs.
        ReadBy result (D.remaining delivery.old) (λ ys. ReadBy result (C.remaining code.old) (λ zs.
        ReadBy result (P.remaining script.old) (λ ws. IsAnswered (desk_answer xs ys zs ws)
        (S.contents sink.old) (S.contents sink.new) result)))) }
    ensures sink { S.has_failed sink.new ≡ fails_write result }
    ensures flushed { IsFlushedBy S.flushes S.has_pending result sink.old sink.new }
    ensures kept { KeepsUnread result sink.old sink.new }
    ensures read { ReadsInOrder (none then used M.remaining M.has_failed M.reads model.old model.new
        then used D.remaining D.has_failed D.reads delivery.old delivery.new
        then used C.remaining C.has_failed C.reads code.old code.new
        then used P.remaining P.has_failed P.reads script.old script.new) (fails_read result) }
{
    match read_all(alloc, model, delivery, code, script) {
        Ok((inputs, script)) => reply_inputs(
            alloc,
            &Unwatched,
            &inputs.model,
            &inputs.delivery,
            &inputs.rules,
            &script,
            sink,
        ),
        Err(fault) => Outcome::Failed(CommandFault::from(fault)),
    }
}
