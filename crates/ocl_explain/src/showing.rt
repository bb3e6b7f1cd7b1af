//! The rules of a code file as OCL.

ghost use Rattle.std.specs.Prelude.{◌≡◌, true, false};
ghost use Rattle.ocl_check.specs.Answers.{IsAnswered, IsAnsweredBy, IsFlushedBy, KeepsSink, fails_read, fails_write};
ghost use Rattle.ocl_check.specs.Ending.{IsEnding};
ghost use Rattle.ocl_check.specs.Reply.{Answer};
ghost use Rattle.ocl_explain.specs.ShownCode.{IsShownUnit, IsShownCode, ShowAnswers};

use code_as_ocl::put_rules;
use explain_notes::Input;
use explain_refusals::{Ending, Explaining, Given, Nobody, options_of, write_answer};
use imkl_model::ClassModel;
use ocl_base::OutOfMemory;
use ocl_check::{Outcome, RulesForm, Sink, stop};
use ocl_pipeline::{Place, Stopped, accept_code, read_model};
use rule_verify::Accepted;
use std::alloc::Global;

/// Writes the rules of accepted code.
fn show_accepted<S: Sink>(
    alloc: Global,
    watch: &Explaining<'_, Nobody>,
    accepted: &Accepted<'_>,
    sink: &mut S,
) -> Outcome
    requires { S.has_failed sink.old ≡ false }
    ensures { (a : Answer) × IsShownUnit accepted.now.model accepted.now.unit a
        × IsEnding S.contents S.has_failed S.flushes S.has_pending true a sink.old result sink.new }
{
    let mut text = String::new(alloc);
    match put_rules(alloc, &mut text, accepted) {
        Ok(()) => write_answer(sink, text.as_bytes(), 0),
        Err(OutOfMemory) => {
            let place = Place::Rules(accepted.model());
            stop(alloc, watch, place, Stopped::OutOfMemory, sink)
        }
    }
}

/// Writes the rules of a code file.
fn show_file<S: Sink>(
    alloc: Global,
    watch: &Explaining<'_, Nobody>,
    model: &ClassModel,
    code: &[u8],
    sink: &mut S,
) -> Outcome
    requires { S.has_failed sink.old ≡ false }
    ensures { (a : Answer) × IsShownCode code.now model.now a
        × IsEnding S.contents S.has_failed S.flushes S.has_pending true a sink.old result sink.new }
{
    match accept_code(alloc, model, code) {
        Ok(accepted) => show_accepted(alloc, watch, &accepted, sink),
        Err(rejected) => {
            let (place, why) = rejected.into_parts(model);
            stop(alloc, watch, place, why, sink)
        }
    }
}

/// Writes the rules of a code file, for the class model that bytes describe.
fn show_inputs<S: Sink>(
    alloc: Global,
    watch: &Explaining<'_, Nobody>,
    model: &[u8],
    code: &[u8],
    sink: &mut S,
) -> Outcome
    requires { S.has_failed sink.old ≡ false }
    ensures { (a : Answer) × ShowAnswers model.now code.now a
        × IsEnding S.contents S.has_failed S.flushes S.has_pending true a sink.old result sink.new }
{
    match read_model(alloc, model) {
        Ok(model) => show_file(alloc, watch, &model, code, sink),
        Err(why) => stop(alloc, watch, Place::Model, why, sink),
    }
}

/// Shows the rules of a code file as OCL: of each its context class, its name, and an expression whose meaning is the rule's
/// verdict (`verdicts_are_of_trees` of `rule_trees`). A rule without a mark is compiled again to one of the same name, context
/// class and core tree. Where `verify` refuses an input it is refused likewise, with status 2.
///
/// The answer is put together whole before its first byte is written. `Failed(OutOfMemory)`: memory ran out; nothing was
/// written. `Failed(Write)`: the sink has failed, after a prefix of the answer.
pub fn show_code<'i, S: Sink>(
    alloc: Global,
    model: Input<'i>,
    code: Input<'i>,
    sink: &mut S,
) -> Ending
    requires { S.has_failed sink.old ≡ false }
    ensures answered { IsAnsweredBy (ShowAnswers model.entry.bytes.now code.entry.bytes.now)
        (S.contents sink.old) (S.contents sink.new) result.outcome }
    ensures sink { S.has_failed sink.new ≡ fails_write result.outcome }
    ensures flushed { IsFlushedBy S.flushes S.has_pending result.outcome sink.old sink.new }
    ensures kept { KeepsSink result.outcome sink.old sink.new }
    ensures read { fails_read result.outcome ≡ false }
{
    let given = Given {
        model,
        delivery: None,
        rules: code,
        script: None,
        options: options_of(RulesForm::Code),
    };
    let watch = Explaining::new(given, &Nobody);
    let outcome = show_inputs(alloc, &watch, model.bytes, code.bytes, sink);
    watch.ending(alloc, outcome)
}
