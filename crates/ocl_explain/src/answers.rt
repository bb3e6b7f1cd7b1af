//! The results of `ocl_check` for inputs that were read already, and the explanation after each.

ghost use Rattle.std.specs.Prelude.{◌≡◌, ◌⊎◌, ◌||◌, true, false};
ghost use Rattle.rule_report.specs.Sink.{IsFlushedOnce};
ghost use Rattle.ocl_check.specs.Answers.{IsAnswered, IsAnsweredBy, IsFlushedBy, KeepsSink, KeepsUnread, fails_read, fails_write};
ghost use Rattle.ocl_check.specs.Bound.{bound_answer};
ghost use Rattle.ocl_check.specs.Compile.{IsCodeWritten, IsOfUnit, compile_answer};
ghost use Rattle.ocl_check.specs.Desk.{desk_answer};
ghost use Rattle.ocl_check.specs.JudgeText.{JudgeAnswers};
ghost use Rattle.ocl_pipeline.specs.TextReading.{TextReading, ReadsAs};
ghost use Rattle.ocl_check.specs.Verify.{verify_answer};

use explain_notes::Input;
use explain_refusals::{Ending, Explaining, Given, Listener, Nobody, options_of};
use ocl_check::{
    JudgeOptions, RulesForm, Sink, bound_inputs, compile_inputs, judge_inputs, reply_inputs,
    verify_inputs,
};
use std::alloc::Global;

/// Judges a delivery by rules as `run_judge` does. The listener hears of what is hardly meant, and of what may take long,
/// before the report is written.
pub fn answer_judge<'i, S: Sink, L: Listener>(
    alloc: Global,
    listener: &L,
    options: JudgeOptions,
    model: Input<'i>,
    delivery: Input<'i>,
    rules: Input<'i>,
    sink: &mut S,
) -> Ending
    requires { S.has_failed sink.old ≡ false }
    ensures answered { IsAnsweredBy (JudgeAnswers options model.entry.bytes.now
        delivery.entry.bytes.now rules.entry.bytes.now)
        (S.contents sink.old) (S.contents sink.new) result.outcome }
    ensures sink { S.has_failed sink.new ≡ fails_write result.outcome }
    ensures flushed { IsFlushedBy S.flushes S.has_pending result.outcome sink.old sink.new }
    ensures kept { KeepsUnread result.outcome sink.old sink.new }
    ensures read { fails_read result.outcome ≡ false }
{
    let given = Given {
        model,
        delivery: Some(delivery),
        rules,
        script: None,
        options,
    };
    let watch = Explaining::new(given, listener);
    let (model, delivery, rules) = (model.bytes, delivery.bytes, rules.bytes);
    let outcome = judge_inputs(alloc, &watch, options, model, delivery, rules, sink);
    watch.ending(alloc, outcome)
}

/// Says what each rule of a code file is charged at most, as `run_bound` does.
pub fn answer_bound<'i, S: Sink>(
    alloc: Global,
    model: Input<'i>,
    delivery: Input<'i>,
    code: Input<'i>,
    sink: &mut S,
) -> Ending
    requires { S.has_failed sink.old ≡ false }
    ensures answered { IsAnswered (bound_answer model.entry.bytes.now delivery.entry.bytes.now
        code.entry.bytes.now) (S.contents sink.old) (S.contents sink.new) result.outcome }
    ensures sink { S.has_failed sink.new ≡ fails_write result.outcome }
    ensures flushed { IsFlushedBy S.flushes S.has_pending result.outcome sink.old sink.new }
    ensures kept { KeepsSink result.outcome sink.old sink.new }
    ensures read { fails_read result.outcome ≡ false }
{
    let given = Given {
        model,
        delivery: Some(delivery),
        rules: code,
        script: None,
        options: options_of(RulesForm::Code),
    };
    let watch = Explaining::new(given, &Nobody);
    let outcome = bound_inputs(alloc, &watch, model.bytes, delivery.bytes, code.bytes, sink);
    watch.ending(alloc, outcome)
}

/// Verifies a code file as `run_verify` does.
pub fn answer_verify<'i, S: Sink>(
    alloc: Global,
    model: Input<'i>,
    code: Input<'i>,
    sink: &mut S,
) -> Ending
    requires { S.has_failed sink.old ≡ false }
    ensures answered { IsAnswered (verify_answer model.entry.bytes.now code.entry.bytes.now)
        (S.contents sink.old) (S.contents sink.new) result.outcome }
    ensures sink { S.has_failed sink.new ≡ fails_write result.outcome }
    ensures flushed { IsFlushedBy S.flushes S.has_pending result.outcome sink.old sink.new }
    ensures kept { KeepsSink result.outcome sink.old sink.new }
    ensures read { fails_read result.outcome ≡ false }
{
    let given = Given {
        model,
        delivery: None,
        rules: code,
        script: None,
        options: options_of(RulesForm::Code),
    };
    let watch = Explaining::new(given, &Nobody);
    let outcome = verify_inputs(alloc, &watch, model.bytes, code.bytes, sink);
    watch.ending(alloc, outcome)
}

/// Compiles a rule text as `run_compile` does, and says what is hardly meant.
pub fn answer_compile<'i, O: Sink, S: Sink>(
    alloc: Global,
    model: Input<'i>,
    rules: Input<'i>,
    out: &mut O,
    sink: &mut S,
) -> Ending
    requires out { O.has_failed out.old ≡ false }
    requires sink { S.has_failed sink.old ≡ false }
    ensures answered { (t : TextReading) × ReadsAs rules.entry.bytes.now t
        × IsOfUnit result.outcome model.entry.bytes.now t
        × IsCodeWritten O.contents O.has_failed (compile_answer model.entry.bytes.now t).code
        out.old out.new result.outcome
        × IsAnswered (compile_answer model.entry.bytes.now t).said
        (S.contents sink.old) (S.contents sink.new) result.outcome }
    ensures sinks { (O.has_failed out.new || S.has_failed sink.new)
        ≡ fails_write result.outcome }
    ensures code_flushed { O.has_failed out.new ≡ false → (out.new ≡ out.old)
        ⊎ IsFlushedOnce O.flushes O.has_pending out.old out.new }
    ensures code_first { O.has_failed out.new ≡ true → sink.new ≡ sink.old }
    ensures flushed { IsFlushedBy S.flushes S.has_pending result.outcome sink.old sink.new }
    ensures kept { KeepsSink result.outcome sink.old sink.new }
    ensures read { fails_read result.outcome ≡ false }
{
    let given = Given {
        model,
        delivery: None,
        rules,
        script: None,
        options: options_of(RulesForm::Text),
    };
    let watch = Explaining::new(given, &Nobody);
    let outcome = compile_inputs(alloc, &watch, model.bytes, rules.bytes, out, sink);
    watch.ending(alloc, outcome)
}

/// Answers a script of calls on a desk as `run_desk` does.
pub fn answer_desk<'i, S: Sink>(
    alloc: Global,
    model: Input<'i>,
    delivery: Input<'i>,
    code: Input<'i>,
    script: Input<'i>,
    sink: &mut S,
) -> Ending
    requires { S.has_failed sink.old ≡ false }
    ensures answered { IsAnswered (desk_answer model.entry.bytes.now delivery.entry.bytes.now
        code.entry.bytes.now script.entry.bytes.now)
        (S.contents sink.old) (S.contents sink.new) result.outcome }
    ensures sink { S.has_failed sink.new ≡ fails_write result.outcome }
    ensures flushed { IsFlushedBy S.flushes S.has_pending result.outcome sink.old sink.new }
    ensures kept { KeepsUnread result.outcome sink.old sink.new }
    ensures read { fails_read result.outcome ≡ false }
{
    let given = Given {
        model,
        delivery: Some(delivery),
        rules: code,
        script: Some(script),
        options: options_of(RulesForm::Code),
    };
    let watch = Explaining::new(given, &Nobody);
    let (model, delivery, code) = (model.bytes, delivery.bytes, code.bytes);
    let outcome = reply_inputs(alloc, &watch, model, delivery, code, script.bytes, sink);
    watch.ending(alloc, outcome)
}
