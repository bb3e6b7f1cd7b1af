//! The command `verify`.

ghost use Rattle.std.specs.Prelude.{◌≡◌, true, false, Ok, IfOk};
ghost use Rattle.rule_code.specs.CodeFile.{unit_of};
ghost use Rattle.ocl_check.specs.Reply.{said};
ghost use Rattle.ocl_check.specs.Answers.{IsAnswered, IsFlushedBy, IsUnread, KeepsSink, ReadBy, fails_read, fails_write};
ghost use Rattle.ocl_check.specs.Ending.{IsEnding};
ghost use Rattle.ocl_check.specs.Verify.{verify_code_answer, verify_answer};
ghost use Rattle.ocl_check.specs.Sources.{ReadsInOrder, none, ◌then◌, used};

use crate::input::read_two;
use crate::outcome::{CommandFault, Outcome, answer};
use crate::reply::{Reply, accepted_reply, refusal_reply};
use crate::source::Source;
use crate::watch::{Unwatched, Watch};
use imkl_model::ClassModel;
use ocl_base::OutOfMemory;
use ocl_pipeline::{Place, accept_code, read_model};
use rule_report::Sink;
use std::alloc::Global;

/// The reply to a code file.
fn verify_code<V: Watch>(
    alloc: Global,
    watch: &V,
    model: &ClassModel,
    code: &[u8],
) -> Result<Reply, OutOfMemory>
    ensures { IfOk result (λ r. said r ≡ verify_code_answer model.now (unit_of code.now)) }
{
    match accept_code(alloc, model, code) {
        Ok(accepted) => accepted_reply(alloc, accepted.rules()),
        Err(rejected) => {
            let (place, why) = rejected.into_parts(model);
            watch.stop(alloc, place, &why);
            refusal_reply(alloc, why)
        }
    }
}

/// The reply to a class model and a code file.
fn verify_reply<V: Watch>(
    alloc: Global,
    watch: &V,
    model: &[u8],
    code: &[u8],
) -> Result<Reply, OutOfMemory>
    ensures { IfOk result (λ r. said r ≡ verify_answer model.now code.now) }
{
    match read_model(alloc, model) {
        Ok(model) => verify_code(alloc, watch, &model, code),
        Err(why) => {
            watch.stop(alloc, Place::Model, &why);
            refusal_reply(alloc, why)
        }
    }
}

/// Answers whether a code file is accepted, as `run_verify` does of inputs that it has read.
pub fn verify_inputs<S: Sink, V: Watch>(
    alloc: Global,
    watch: &V,
    model: &[u8],
    code: &[u8],
    sink: &mut S,
) -> Outcome
    requires { S.has_failed sink.old ≡ false }
    ensures { IsEnding S.contents S.has_failed S.flushes S.has_pending true
        (verify_answer model.now code.now) sink.old result sink.new }
{
    answer(sink, verify_reply(alloc, watch, model, code))
}

/// Verifies a code file: reads the class model and the code file, each whole, and then writes that
/// the code is accepted, or one line on the first of them that is refused. The code file is
/// untouched until the class model has ended. Status 0 where it is accepted, 2 with a refusal; it
/// fails as `run_bound` does.
pub fn run_verify<M: Source, C: Source, S: Sink>(
    alloc: Global,
    model: &mut M,
    code: &mut C,
    sink: &mut S,
) -> Outcome
    requires model { IsUnread (M.has_failed model.old) (M.reads model.old) }
    requires code { IsUnread (C.has_failed code.old) (C.reads code.old) }
    requires sink { S.has_failed sink.old ≡ false }
    ensures answered { ReadBy result (M.remaining model.old) (λ xs.
        ReadBy result (C.remaining code.old) (λ ys.
        IsAnswered (verify_answer xs ys) (S.contents sink.old) (S.contents sink.new) result)) }
    ensures sink { S.has_failed sink.new ≡ fails_write result }
    ensures flushed { IsFlushedBy S.flushes S.has_pending result sink.old sink.new }
    ensures kept { KeepsSink result sink.old sink.new }
    ensures read { ReadsInOrder (none then used M.remaining M.has_failed M.reads model.old model.new
        then used C.remaining C.has_failed C.reads code.old code.new) (fails_read result) }
{
    match read_two(alloc, model, code) {
        Ok((model, code)) => verify_inputs(alloc, &Unwatched, &model, &code, sink),
        Err(fault) => Outcome::Failed(CommandFault::from(fault)),
    }
}
