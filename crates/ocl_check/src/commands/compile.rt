//! The command `compile`.

ghost use Rattle.std.specs.Prelude.{◌≡◌, ◌⊎◌, ◌||◌, true, false, IfOk, IsOk};
ghost use Rattle.rule_code.specs.View.{content};
ghost use Rattle.rule_report.specs.Sink.{IsFlushedOnce};
ghost use Rattle.ocl_check.specs.Answers.{IsAnswered, IsFlushedBy, IsUnread, KeepsSink, ReadBy, fails_read, fails_write};
ghost use Rattle.ocl_check.specs.Compile.{CompileAnswer, compiled_code, compiled_answer, compile_answer, HasUnit, HasUnitFor, IsCodeWritten, IsOfUnit};
ghost use Rattle.ocl_check.specs.Reply.{said};
ghost use Rattle.ocl_pipeline.specs.TextReading.{TextReading, ReadsAs};
ghost use Rattle.ocl_pipeline.specs.Inputs.{model_of};
ghost use Rattle.ocl_check.specs.CompileParts.{compiled_seen, is_ended, IsNothingFor};
ghost use Rattle.ocl_check.specs.Sources.{ReadsInOrder, none, ◌then◌, used};
ghost use Rattle.ocl_pipeline.specs.CompiledRules.{compiled_rules};

use crate::input::read_two;
use crate::outcome::{CommandFault, Outcome, say};
use crate::reply::{Reply, compiled_reply, refusal_reply};
use crate::source::Source;
use crate::watch::{Unwatched, Watch};
use imkl_model::ClassModel;
use ocl_base::OutOfMemory;
use ocl_pipeline::laws::each_text_is_read;
use ocl_pipeline::{Place, Stopped, compile_text, read_model};
use rule_code::{Unit, write_unit};
use rule_report::{Sink, write_and_flush};
use std::alloc::Global;

/// The result of compiling.
#[derive(Drop)]
pub(crate) enum Compiled {
    /// The bytes of a code file, and the reply.
    Code(Vec<u8>, Reply),
    /// The reply to an input that is refused.
    Refused(Reply),
}

/// The result of compiling where an input is refused. Running out of memory is not a refusal.
fn refusal<V: Watch>(
    alloc: Global,
    watch: &V,
    place: Place<'_>,
    why: Stopped,
) -> Result<Compiled, OutOfMemory>
    ensures { IfOk result (λ c. IsNothingFor why (compiled_seen c)) }
{
    watch.stop(alloc, place, &why);
    let reply = refusal_reply(alloc, why)?;
    Ok(Compiled::Refused(reply))
}

/// The code file of a unit, and the reply.
fn compiled_unit(alloc: Global, unit: &Unit) -> Result<Compiled, OutOfMemory>
    ensures { IfOk result (λ c. compiled_seen c ≡ compiled_code (content unit.now)) }
{
    let Ok(code) = write_unit(alloc, unit) else {
        return Err(OutOfMemory);
    };
    let reply = compiled_reply(alloc, unit.rules.len())?;
    Ok(Compiled::Code(code, reply))
}

/// Compiles a rule text for a class model.
fn compile_rule_text<V: Watch>(
    alloc: Global,
    watch: &V,
    model: &ClassModel,
    text: &[u8],
) -> Result<Compiled, OutOfMemory>
    ensures { (t : TextReading) × ReadsAs text.now t ×
        IfOk result (λ c. compiled_seen c ≡ compiled_answer (compiled_rules model.now t)) ×
        IfOk result (λ c. HasUnit (compiled_rules model.now t)) }
{
    match compile_text(alloc, model, text) {
        Ok(unit) => {
            unit.well_formed();
            watch.compile(alloc, model);
            compiled_unit(alloc, &unit)
        }
        Err(why) => refusal(alloc, watch, Place::Rules(model), why),
    }
}

/// Compiles a rule text for a class model that is read first.
fn compile_both<V: Watch>(
    alloc: Global,
    watch: &V,
    model: &[u8],
    text: &[u8],
) -> Result<Compiled, OutOfMemory>
    ensures { (t : TextReading) × ReadsAs text.now t ×
        IfOk result (λ c. compiled_seen c ≡ compile_answer model.now t) ×
        IfOk result (λ c. HasUnitFor (model_of model.now) t) }
{
    each_text_is_read();
    match read_model(alloc, model) {
        Ok(model) => compile_rule_text(alloc, watch, &model, text),
        Err(why) => refusal(alloc, watch, Place::Model, why),
    }
}

/// Writes a code file, and only then the reply.
fn write_compiled<O: Sink, S: Sink>(
    code: &[u8],
    reply: &Reply,
    out: &mut O,
    sink: &mut S,
) -> Outcome
    requires out_well { O.has_failed out.old ≡ false }
    requires well { S.has_failed sink.old ≡ false }
    ensures code { IsCodeWritten O.contents O.has_failed (Some code.now) out.old out.new result }
    ensures said { IsAnswered (said reply.now) (S.contents sink.old) (S.contents sink.new) result }
    ensures sinks { (O.has_failed out.new || S.has_failed sink.new) ≡ fails_write result }
    ensures code_flushed { O.has_failed out.new ≡ false → (out.new ≡ out.old)
        ⊎ IsFlushedOnce O.flushes O.has_pending out.old out.new }
    ensures code_first { O.has_failed out.new ≡ true → sink.new ≡ sink.old }
    ensures flushed { IsFlushedBy S.flushes S.has_pending result sink.old sink.new }
    ensures kept { KeepsSink result sink.old sink.new }
    ensures read { fails_read result ≡ false }
{
    let Ok(()) = write_and_flush(out, code) else {
        return Outcome::Failed(CommandFault::Write);
    };
    match write_and_flush(sink, reply.text.as_bytes()) {
        Ok(()) => Outcome::Status(reply.status),
        Err(_failed) => Outcome::Failed(CommandFault::Write),
    }
}

/// Writes what compiling came to: the code file and then the reply, or only the line of an input that is refused.
fn write_result<O: Sink, S: Sink>(
    compiled: Result<Compiled, OutOfMemory>,
    out: &mut O,
    sink: &mut S,
) -> Outcome
    requires out_well { O.has_failed out.old ≡ false }
    requires well { S.has_failed sink.old ≡ false }
    ensures code { (a : CompileAnswer) → IfOk compiled (λ c. compiled_seen c ≡ a) →
        IsCodeWritten O.contents O.has_failed a.code out.old out.new result }
    ensures said { (a : CompileAnswer) → IfOk compiled (λ c. compiled_seen c ≡ a) →
        IsAnswered a.said (S.contents sink.old) (S.contents sink.new) result }
    ensures sinks { (O.has_failed out.new || S.has_failed sink.new) ≡ fails_write result }
    ensures code_flushed { O.has_failed out.new ≡ false → (out.new ≡ out.old)
        ⊎ IsFlushedOnce O.flushes O.has_pending out.old out.new }
    ensures code_first { O.has_failed out.new ≡ true → sink.new ≡ sink.old }
    ensures flushed { IsFlushedBy S.flushes S.has_pending result sink.old sink.new }
    ensures kept { KeepsSink result sink.old sink.new }
    ensures read { fails_read result ≡ false }
    ensures ended { is_ended result ≡ true → IsOk compiled }
{
    match compiled {
        Ok(Compiled::Code(code, reply)) => write_compiled(&code, &reply, out, sink),
        Ok(Compiled::Refused(reply)) => say(sink, &reply),
        Err(OutOfMemory) => Outcome::Failed(CommandFault::OutOfMemory),
    }
}

/// Writes the code file of a rule text and the reply, as `run_compile` does of inputs that it has read.
pub fn compile_inputs<O: Sink, S: Sink, V: Watch>(
    alloc: Global,
    watch: &V,
    model: &[u8],
    rules: &[u8],
    out: &mut O,
    sink: &mut S,
) -> Outcome
    requires out { O.has_failed out.old ≡ false }
    requires sink { S.has_failed sink.old ≡ false }
    ensures answered { (t : TextReading) × ReadsAs rules.now t × IsOfUnit result model.now t
        × IsCodeWritten O.contents O.has_failed (compile_answer model.now t).code
        out.old out.new result
        × IsAnswered (compile_answer model.now t).said
        (S.contents sink.old) (S.contents sink.new) result }
    ensures sinks { (O.has_failed out.new || S.has_failed sink.new) ≡ fails_write result }
    ensures code_flushed { O.has_failed out.new ≡ false → (out.new ≡ out.old)
        ⊎ IsFlushedOnce O.flushes O.has_pending out.old out.new }
    ensures code_first { O.has_failed out.new ≡ true → sink.new ≡ sink.old }
    ensures flushed { IsFlushedBy S.flushes S.has_pending result sink.old sink.new }
    ensures kept { KeepsSink result sink.old sink.new }
    ensures read { fails_read result ≡ false }
{
    write_result(compile_both(alloc, watch, model, rules), out, sink)
}

/// Compiles a rule text: reads the class model and the text, each whole, and then writes the code
/// file, and after it how many rules there are, with status 0; or, with status 2, one line on the
/// first of them that is refused, and then `out` is untouched. The text is untouched until the class
/// model has ended.
///
/// Where memory or a read fails both sinks are as they were. Where `out` can't be written it took a
/// prefix of the code file, and nothing is printed; where only the reply can't, `out` took it whole. Each
/// is flushed once, after its last byte, where it took all.
pub fn run_compile<M: Source, R: Source, O: Sink, S: Sink>(
    alloc: Global,
    model: &mut M,
    rules: &mut R,
    out: &mut O,
    sink: &mut S,
) -> Outcome
    requires model { IsUnread (M.has_failed model.old) (M.reads model.old) }
    requires rules { IsUnread (R.has_failed rules.old) (R.reads rules.old) }
    requires out { O.has_failed out.old ≡ false }
    requires sink { S.has_failed sink.old ≡ false }
    ensures answered { ReadBy result (M.remaining model.old) (λ xs.
        ReadBy result (R.remaining rules.old) (λ ys. (t : TextReading) × ReadsAs ys t
        × IsOfUnit result xs t
        × IsCodeWritten O.contents O.has_failed (compile_answer xs t).code out.old out.new result
        × IsAnswered (compile_answer xs t).said
        (S.contents sink.old) (S.contents sink.new) result)) }
    ensures sinks { (O.has_failed out.new || S.has_failed sink.new) ≡ fails_write result }
    ensures code_flushed { O.has_failed out.new ≡ false → (out.new ≡ out.old)
        ⊎ IsFlushedOnce O.flushes O.has_pending out.old out.new }
    ensures code_first { O.has_failed out.new ≡ true → sink.new ≡ sink.old }
    ensures flushed { IsFlushedBy S.flushes S.has_pending result sink.old sink.new }
    ensures kept { KeepsSink result sink.old sink.new }
    ensures read { ReadsInOrder (none then used M.remaining M.has_failed M.reads model.old model.new
        then used R.remaining R.has_failed R.reads rules.old rules.new) (fails_read result) }
{
    each_text_is_read();
    match read_two(alloc, model, rules) {
        Ok((model, rules)) => compile_inputs(alloc, &Unwatched, &model, &rules, out, sink),
        Err(fault) => Outcome::Failed(CommandFault::from(fault)),
    }
}
