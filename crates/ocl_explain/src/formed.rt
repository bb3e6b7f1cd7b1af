//! The output of `judge` in a form, with the places, classes and messages of its findings.

ghost use Rattle.std.specs.Prelude.{◌≡◌, ℕ, List, [], Some, true, false, IfOk};
ghost use Rattle.ocl_check.specs.Answers.{IsAnswered, IsAnsweredBy, IsFlushedBy, KeepsSink, fails_read, fails_write};
ghost use Rattle.ocl_check.specs.Ending.{IsEnding};
ghost use Rattle.ocl_check.specs.Reply.{Answer, refused};
ghost use Rattle.explain_faults.specs.declared.fault.Fault.{Fault};
ghost use Rattle.report_forms.specs.declared.beside.RuleMessage.{RuleMessage};
ghost use Rattle.report_forms.specs.Forms.{form_of_report};
ghost use Rattle.ocl_pipeline.specs.TextReading.{TextReading, ReadsAs};
ghost use Rattle.ocl_explain.specs.FormedReport.{context_in, detailed_within, code_detailed_within, formed_in, formed_refusal, formed_given, IsFormDue, FormAnswers};

use crate::detailed::{Answered, DetailedReport};
use crate::weaving::Detail;
use explain_faults::Fault;
use explain_notes::Input;
use explain_refusals::{Ending, Explaining, Given, Listener, write_answer};
use imkl_population::Population;
use ocl_check::{CommandFault, JudgeOptions, Outcome, RulesForm, Sink, Telling, stop};
use ocl_core::CoreRule;
use ocl_pipeline::laws::each_text_is_read;
use ocl_pipeline::{CodeAsker, OfCode, OfText, Place, Refusal, Stopped, TextAsker, ask_inputs};
use report_forms::{
    Beside, Form, RuleMessage, entry_places, form_of_refusal, form_of_report, rule_messages,
};
use rule_verify::Accepted;
use std::alloc::{AllocError, Global};

/// Asks for the report in a form.
#[derive(Clone, Copy)]
struct FormedReport<'a, L> {
    report: DetailedReport<'a, L>,
    form: Form,
    delivery: Input<'a>,
}

/// A report on the population of a delivery, in a form.
fn formed_report(
    alloc: Global,
    form: Form,
    delivery: Input<'_>,
    messages: &[RuleMessage],
    population: &Population<'_>,
    text: &[u8],
) -> Result<Vec<u8>, AllocError>
    ensures { IfOk result (λ v. v.items ≡ form_of_report form (context_in
        delivery.entry.path.now delivery.entry.bytes.now messages.now population.now.content)
        text.now) }
{
    let places = entry_places(alloc, delivery.bytes)?;
    let beside = Beside {
        path: delivery.path,
        population,
        places: &places,
        messages,
    };
    form_of_report(alloc, form, beside, text)
}

/// Writes what was put together, with this status.
fn write_made<S: Sink>(sink: &mut S, made: Result<Vec<u8>, AllocError>, status: u8) -> Outcome
    requires { S.has_failed sink.old ≡ false }
    ensures { (text : List ℕ) → IfOk made (λ v. v.items ≡ text) → IsEnding S.contents
        S.has_failed S.flushes S.has_pending true (text, status) sink.old result sink.new }
{
    match made {
        Ok(text) => write_answer(sink, &text, status),
        Err(_error) => Outcome::Failed(CommandFault::OutOfMemory),
    }
}

impl<L: Listener> FormedReport<'_, L> {
    /// Writes the line of a refusal, with this status, in the form.
    fn write_line<S: Sink>(
        &self,
        alloc: Global,
        faults: &[Fault],
        text: &[u8],
        status: u8,
        sink: &mut S,
    ) -> Outcome
        requires { S.has_failed sink.old ≡ false }
        ensures { IsEnding S.contents S.has_failed S.flushes S.has_pending true (formed_refusal
            self.now.form self.now.delivery.path.now faults.now (text.now, status))
            sink.old result sink.new }
    {
        let made = form_of_refusal(alloc, self.form, self.delivery.path, faults, text);
        write_made(sink, made, status)
    }

    /// Writes the line of a refusal in the form, of which these bytes were written into memory.
    fn write_refusal<S: Sink>(
        &self,
        alloc: Global,
        faults: &[Fault],
        text: &[u8],
        stopped: Outcome,
        sink: &mut S,
    ) -> Outcome
        requires { S.has_failed sink.old ≡ false }
        ensures { (said : Answer) → IsAnswered said (Some []) (Some text.now) stopped →
            IsEnding S.contents S.has_failed S.flushes S.has_pending true (formed_refusal
            self.now.form self.now.delivery.path.now faults.now said)
            sink.old result sink.new }
    {
        match stopped {
            Outcome::Status(status) => self.write_line(alloc, faults, text, status, sink),
            // Memory takes all bytes that there is room for.
            Outcome::Failed(_) => Outcome::Failed(CommandFault::OutOfMemory),
        }
    }

    /// Writes a report that has this status, in the form.
    fn write_report<S: Sink>(
        &self,
        alloc: Global,
        population: &Population<'_>,
        messages: &[RuleMessage],
        text: &[u8],
        status: u8,
        sink: &mut S,
    ) -> Outcome
        requires { S.has_failed sink.old ≡ false }
        ensures { IsEnding S.contents S.has_failed S.flushes S.has_pending true (
          form_of_report
              self.now.form (context_in self.now.delivery.path.now self.now.delivery.bytes.now
              messages.now population.now.content) text.now,
          status,
        ) sink.old result sink.new }
    {
        let made = formed_report(alloc, self.form, self.delivery, messages, population, text);
        write_made(sink, made, status)
    }

    /// Writes an answer of `judge` that has this status, in the form.
    fn write_answered<S: Sink>(
        &self,
        alloc: Global,
        population: &Population<'_>,
        messages: &[RuleMessage],
        faults: &[Fault],
        text: &[u8],
        status: u8,
        sink: &mut S,
    ) -> Outcome
        requires { S.has_failed sink.old ≡ false }
        ensures { IsEnding S.contents S.has_failed S.flushes S.has_pending true (formed_in
            self.now.form self.now.delivery.path.now self.now.delivery.bytes.now messages.now
            faults.now population.now.content (text.now, status)) sink.old result sink.new }
    {
        if status == 2 {
            return self.write_line(alloc, faults, text, status, sink);
        }
        self.write_report(alloc, population, messages, text, status, sink)
    }

    /// Writes what `judge` answered in the form, of which it wrote these bytes into memory.
    fn write_judged<S: Sink>(
        &self,
        alloc: Global,
        population: &Population<'_>,
        messages: &[RuleMessage],
        faults: &[Fault],
        text: &[u8],
        judged: Outcome,
        sink: &mut S,
    ) -> Outcome
        requires { S.has_failed sink.old ≡ false }
        ensures { (said : Answer) → IsAnswered said (Some []) (Some text.now) judged →
            IsEnding S.contents S.has_failed S.flushes S.has_pending true (formed_in
            self.now.form self.now.delivery.path.now self.now.delivery.bytes.now messages.now
            faults.now population.now.content said) sink.old result sink.new }
    {
        match judged {
            Outcome::Status(status) => {
                self.write_answered(alloc, population, messages, faults, text, status, sink)
            }
            // Memory takes all bytes that there is room for.
            Outcome::Failed(_) => Outcome::Failed(CommandFault::OutOfMemory),
        }
    }

    /// The same, with the messages of the rules of a text.
    fn write_with_messages<S: Sink>(
        &self,
        alloc: Global,
        population: &Population<'_>,
        faults: &[Fault],
        text: &[u8],
        judged: Outcome,
        sink: &mut S,
    ) -> Outcome
        requires { S.has_failed sink.old ≡ false }
        ensures { (said : Answer) → IsAnswered said (Some []) (Some text.now) judged →
            (messages : List RuleMessage) × IsEnding S.contents S.has_failed S.flushes
            S.has_pending true (formed_in self.now.form self.now.delivery.path.now
            self.now.delivery.bytes.now messages faults.now population.now.content said)
            sink.old result sink.new }
    {
        match rule_messages(alloc, self.report.rules) {
            Ok(messages) => {
                self.write_judged(alloc, population, &messages, faults, text, judged, sink)
            }
            Err(_error) => Outcome::Failed(CommandFault::OutOfMemory),
        }
    }

    /// Ends where an input is refused.
    fn end_refused<S: Sink>(
        &self,
        alloc: Global,
        place: Place<'_>,
        refusal: Refusal,
        sink: &mut S,
    ) -> Outcome
        requires { S.has_failed sink.old ≡ false }
        ensures { (faults : List Fault) × IsEnding S.contents S.has_failed S.flushes S.has_pending
            true (formed_refusal self.now.form self.now.delivery.path.now faults (refused refusal))
            sink.old result sink.new }
    {
        let mut memory = Telling::new(Vec::new(alloc));
        let stopped = stop(
            alloc,
            self.report.watch,
            place,
            Stopped::Refused(refusal),
            &mut memory,
        );
        let text = memory.into_inner();
        match self.report.watch.take_faults(alloc) {
            Ok(faults) => self.write_refusal(alloc, &faults, &text, stopped, sink),
            Err(_error) => Outcome::Failed(CommandFault::OutOfMemory),
        }
    }

    /// Ends where an input is refused, or memory ran out.
    fn end_stopped<S: Sink>(
        &self,
        alloc: Global,
        place: Place<'_>,
        why: Stopped,
        sink: &mut S,
    ) -> Outcome
        requires { S.has_failed sink.old ≡ false }
        ensures { (faults : List Fault) × ((a : Answer) →
            IsFormDue self.now.form self.now.delivery.path.now faults why a →
            IsEnding S.contents S.has_failed S.flushes S.has_pending true a
            sink.old result sink.new) }
    {
        match why {
            Stopped::Refused(refusal) => self.end_refused(alloc, place, refusal, sink),
            Stopped::OutOfMemory => Outcome::Failed(CommandFault::OutOfMemory),
        }
    }
}

impl<S: Sink, L: Listener> CodeAsker<S> for FormedReport<'_, L> {
    type Output = Outcome;

    ghost can_ask = { λ s. S.has_failed s ≡ false };

    ghost answers = { λ f given old o new. (faults : List Fault) × IsEnding S.contents S.has_failed
        S.flushes S.has_pending true (formed_given f.form f.delivery.path.now
        f.delivery.bytes.now [] faults (λ x. x.0) (code_detailed_within f.report.budget f.report.detail)
        given) old o new };

    fn ask(
        &self,
        alloc: Global,
        population: &Population<'_>,
        accepted: &Accepted<'_>,
        sink: &mut S,
    ) -> Outcome {
        let Answered { text, outcome } = self.report.of_code(alloc, population, accepted);
        match self.report.watch.take_faults(alloc) {
            Ok(faults) => self.write_judged(alloc, population, &[], &faults, &text, outcome, sink),
            Err(_error) => Outcome::Failed(CommandFault::OutOfMemory),
        }
    }

    fn stop(&self, alloc: Global, place: Place<'_>, why: Stopped, sink: &mut S) -> Outcome {
        self.end_stopped(alloc, place, why, sink)
    }
}

impl<S: Sink, L: Listener> TextAsker<S> for FormedReport<'_, L> {
    type Output = Outcome;

    ghost can_ask = { λ s. S.has_failed s ≡ false };

    ghost answers = { λ f given old o new. (messages : List RuleMessage) × (faults : List Fault) ×
        (t : TextReading) × ReadsAs f.report.rules.now t ×
        IsEnding S.contents S.has_failed S.flushes S.has_pending true (formed_given f.form
        f.delivery.path.now f.delivery.bytes.now messages faults (λ x. x.0)
        (detailed_within t f.report.budget f.report.detail) given) old o new };

    fn ask(
        &self,
        alloc: Global,
        population: &Population<'_>,
        rules: &[CoreRule],
        accepted: &Accepted<'_>,
        sink: &mut S,
    ) -> Outcome {
        let Answered { text, outcome } = self.report.of_rules(alloc, population, rules, accepted);
        match self.report.watch.take_faults(alloc) {
            Ok(faults) => {
                self.write_with_messages(alloc, population, &faults, &text, outcome, sink)
            }
            Err(_error) => Outcome::Failed(CommandFault::OutOfMemory),
        }
    }

    fn stop(&self, alloc: Global, place: Place<'_>, why: Stopped, sink: &mut S) -> Outcome {
        each_text_is_read();
        self.end_stopped(alloc, place, why, sink)
    }
}

/// What is judged, and how the report is printed.
#[derive(Clone, Copy, Drop)]
pub struct FormAsked<'a> {
    /// The class model.
    pub model: Input<'a>,
    /// The delivery.
    pub delivery: Input<'a>,
    /// The rules, in the form that the options say.
    pub rules: Input<'a>,
    /// The form of the rules, and the budget within which they are admitted.
    pub options: JudgeOptions,
    /// The form of the report.
    pub form: Form,
    /// How much is printed of a finding.
    pub detail: Detail,
}

/// Judges a delivery by rules as `run_judge` does, and writes the report, or what is refused and its faults, in a form, with the
/// same status. Each finding has the place of its object's entry in the delivery, the object's class, and of rules that come as text the
/// rule's message. Where explanations are wanted each finding has its own, as `answer_judge_why` writes it; annotations and SARIF have
/// none. The listener hears what it hears of `answer_judge`.
///
/// The answer is put together whole before its first byte is written. `Failed(OutOfMemory)`: memory ran out; nothing was
/// written. `Failed(Write)`: the sink has failed, after a prefix of the answer.
pub fn answer_judge_form<'a, S: Sink, L: Listener>(
    alloc: Global,
    listener: &'a L,
    asked: FormAsked<'a>,
    sink: &mut S,
) -> Ending
    requires { S.has_failed sink.old ≡ false }
    ensures answered { IsAnsweredBy (FormAnswers asked.entry.form asked.entry.detail asked.entry.delivery.path.now
        asked.entry.options asked.entry.model.bytes.now asked.entry.delivery.bytes.now
        asked.entry.rules.bytes.now) (S.contents sink.old) (S.contents sink.new) result.outcome }
    ensures sink { S.has_failed sink.new ≡ fails_write result.outcome }
    ensures flushed { IsFlushedBy S.flushes S.has_pending result.outcome sink.old sink.new }
    ensures kept { KeepsSink result.outcome sink.old sink.new }
    ensures read { fails_read result.outcome ≡ false }
{
    let given = Given {
        model: asked.model,
        delivery: Some(asked.delivery),
        rules: asked.rules,
        script: None,
        options: asked.options,
    };
    let watch = Explaining::new(given, listener);
    let outcome = ask_form(alloc, asked, &watch, sink);
    watch.ending(alloc, outcome)
}

/// Asks for the report in a form.
fn ask_form<S: Sink, L: Listener>(
    alloc: Global,
    asked: FormAsked<'_>,
    watch: &Explaining<'_, L>,
    sink: &mut S,
) -> Outcome
    requires { S.has_failed sink.old ≡ false }
    ensures { (a : Answer) × FormAnswers asked.entry.form asked.entry.detail asked.entry.delivery.path.now
        asked.entry.options asked.entry.model.bytes.now asked.entry.delivery.bytes.now
        asked.entry.rules.bytes.now a × IsEnding S.contents S.has_failed S.flushes S.has_pending
        true a sink.old result sink.new }
{
    let (model, delivery, rules) = (asked.model.bytes, asked.delivery, asked.rules.bytes);
    let asker = &FormedReport {
        report: DetailedReport {
            budget: asked.options.budget,
            detail: asked.detail,
            rules,
            watch,
        },
        form: asked.form,
        delivery,
    };
    match asked.options.form {
        RulesForm::Code => {
            let asker = OfCode { asker, code: rules };
            ask_inputs(alloc, &asker, model, delivery.bytes, sink)
        }
        RulesForm::Text => {
            let asker = OfText { asker, text: rules };
            ask_inputs(alloc, &asker, model, delivery.bytes, sink)
        }
    }
}
