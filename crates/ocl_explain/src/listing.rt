//! A code file in words.

ghost use Rattle.std.specs.Prelude.{◌≡◌, false, OnOk};

use code_as_ocl::put_rule;
use explain_code::{explain_code_flaw, list_counts, list_rule};
use explain_faults::Faults;
use explain_notes::Input;
use explain_refusals::{Ending, Words, ended, explain_rejected, failed, model_refusal, refused};
use imkl_model::ClassModel;
use ocl_base::OutOfMemory;
use ocl_check::{CommandFault, Sink};
use ocl_pipeline::{Rejected, Stopped, accept_code, read_model};
use rule_code::{CodeFault, CodeFlaw, Unit, read_unit};
use rule_report::write_and_flush;
use rule_verify::{Accepted, Resolved, resolve};
use std::alloc::Global;

/// A unit that is listed, with what there is of it in a class model.
#[derive(Clone, Copy)]
struct Listed<'l> {
    unit: &'l Unit,
    /// With its symbols looked up.
    resolved: Option<&'l Resolved<'l>>,
    /// Accepted.
    accepted: Option<&'l Accepted<'l>>,
}

/// Writes a part of a listing.
fn write_part<S: Sink>(sink: &mut S, part: &str) -> Result<(), CommandFault>
    requires { S.has_failed sink.old ≡ false }
    ensures { OnOk result (S.has_failed sink.new ≡ false) }
{
    match write_and_flush(sink, part.as_bytes()) {
        Ok(()) => Ok(()),
        Err(_failed) => Err(CommandFault::Write),
    }
}

/// A rule as OCL, if its code is accepted; else nothing.
fn rule_as_ocl(
    alloc: Global,
    accepted: Option<&Accepted<'_>>,
    rule: usize,
) -> Result<String, CommandFault> {
    let mut text = String::new(alloc);
    match accepted {
        Some(accepted) if rule < accepted.rules() => {
            match put_rule(alloc, &mut text, accepted, rule) {
                Ok(()) => Ok(text),
                Err(OutOfMemory) => Err(CommandFault::OutOfMemory),
            }
        }
        _ => Ok(text),
    }
}

/// Writes a rule of a unit that begins at an offset; returns where it ends.
fn write_rule<S: Sink>(
    alloc: Global,
    sink: &mut S,
    listed: Listed<'_>,
    rule: usize,
    begin: usize,
) -> Result<usize, CommandFault>
    requires { S.has_failed sink.old ≡ false }
    ensures { OnOk result (S.has_failed sink.new ≡ false) }
{
    let mut part = rule_as_ocl(alloc, listed.accepted, rule)?;
    let Ok(end) = list_rule(alloc, &mut part, listed.unit, listed.resolved, rule, begin) else {
        return Err(CommandFault::OutOfMemory);
    };
    write_part(sink, part.as_str())?;
    Ok(end)
}

/// Writes a unit in words, each rule as soon as it is put together.
fn write_unit<S: Sink>(alloc: Global, sink: &mut S, listed: Listed<'_>) -> Result<(), CommandFault>
    requires { S.has_failed sink.old ≡ false }
{
    let mut counts = String::new(alloc);
    let Ok(first) = list_counts(&mut counts, listed.unit) else {
        return Err(CommandFault::OutOfMemory);
    };
    write_part(sink, counts.as_str())?;
    let mut offset = first;
    for rule in 0..listed.unit.rules.len() {
        offset = write_rule(alloc, sink, listed, rule, offset)?;
    }
    Ok(())
}

/// Why a unit is rejected.
fn rejection(alloc: Global, code: Input<'_>, model: &ClassModel, rejected: Rejected) -> Words {
    let mut out = Faults::new(alloc);
    explain_rejected(alloc, &mut out, code, model, rejected)?;
    Ok(out.into_words())
}

/// Lists a unit that is accepted, each rule as OCL above its instructions.
fn list_accepted<S: Sink>(alloc: Global, sink: &mut S, accepted: &Accepted<'_>) -> Ending
    requires { S.has_failed sink.old ≡ false }
{
    let listed = Listed {
        unit: accepted.unit(),
        resolved: Some(accepted.resolved()),
        accepted: Some(accepted),
    };
    match write_unit(alloc, sink, listed) {
        Ok(()) => ended(alloc),
        Err(fault) => failed(alloc, fault),
    }
}

/// Writes a unit that isn't accepted, with what its symbols name.
fn write_resolved<S: Sink>(
    alloc: Global,
    sink: &mut S,
    resolved: &Resolved<'_>,
) -> Result<(), CommandFault>
    requires { S.has_failed sink.old ≡ false }
{
    let listed = Listed {
        unit: resolved.unit(),
        resolved: Some(resolved),
        accepted: None,
    };
    write_unit(alloc, sink, listed)
}

/// Lists a unit that isn't accepted, and says why.
fn list_resolved<S: Sink>(
    alloc: Global,
    sink: &mut S,
    code: Input<'_>,
    resolved: Resolved<'_>,
    why: Stopped,
) -> Ending
    requires { S.has_failed sink.old ≡ false }
{
    match write_resolved(alloc, sink, &resolved) {
        Ok(()) => {
            let model = resolved.model();
            let unit = Some(resolved.into_unit());
            refused(alloc, rejection(alloc, code, model, Rejected { why, unit }))
        }
        Err(fault) => failed(alloc, fault),
    }
}

/// Lists the unit of a code file that isn't accepted, if there is one, and says why it isn't.
fn list_rejected<S: Sink>(
    alloc: Global,
    sink: &mut S,
    code: Input<'_>,
    model: &ClassModel,
    rejected: Rejected,
) -> Ending
    requires { S.has_failed sink.old ≡ false }
{
    let Rejected { why, unit } = rejected;
    match (why, unit) {
        (Stopped::OutOfMemory, _) => failed(alloc, CommandFault::OutOfMemory),
        (why, Some(unit)) => match resolve(alloc, model, unit) {
            Ok(resolved) => list_resolved(alloc, sink, code, resolved, why),
            Err(_failed) => failed(alloc, CommandFault::OutOfMemory),
        },
        (why, None) => {
            let rejected = Rejected { why, unit: None };
            refused(alloc, rejection(alloc, code, model, rejected))
        }
    }
}

/// Lists a code file for a class model, and says why it isn't accepted, if it isn't.
fn list_for<S: Sink>(alloc: Global, sink: &mut S, code: Input<'_>, model: &ClassModel) -> Ending
    requires { S.has_failed sink.old ≡ false }
{
    match accept_code(alloc, model, code.bytes) {
        Ok(accepted) => list_accepted(alloc, sink, &accepted),
        Err(rejected) => list_rejected(alloc, sink, code, model, rejected),
    }
}

/// Lists a code file with a class model, which is read first.
fn list_with<S: Sink>(alloc: Global, sink: &mut S, code: Input<'_>, model: Input<'_>) -> Ending
    requires { S.has_failed sink.old ≡ false }
{
    match read_model(alloc, model.bytes) {
        Ok(read) => list_for(alloc, sink, code, &read),
        Err(Stopped::Refused(refusal)) => refused(alloc, model_refusal(alloc, model, &refusal)),
        Err(Stopped::OutOfMemory) => failed(alloc, CommandFault::OutOfMemory),
    }
}

/// Why a code file is refused.
fn flaw_of(alloc: Global, code: Input<'_>, flaw: CodeFlaw, offset: usize) -> Words {
    let mut out = String::new(alloc);
    explain_code_flaw(alloc, &mut out, code, flaw, offset)?;
    Ok(out)
}

/// Lists a unit by itself.
fn list_unit<S: Sink>(alloc: Global, sink: &mut S, unit: &Unit) -> Ending
    requires { S.has_failed sink.old ≡ false }
{
    let listed = Listed {
        unit,
        resolved: None,
        accepted: None,
    };
    match write_unit(alloc, sink, listed) {
        Ok(()) => ended(alloc),
        Err(fault) => failed(alloc, fault),
    }
}

/// Lists a code file without a class model.
fn list_alone<S: Sink>(alloc: Global, sink: &mut S, code: Input<'_>) -> Ending
    requires { S.has_failed sink.old ≡ false }
{
    match read_unit(alloc, code.bytes) {
        Ok(unit) => list_unit(alloc, sink, &unit),
        Err(CodeFault::At { flaw, offset }) => refused(alloc, flaw_of(alloc, code, flaw, offset)),
        Err(CodeFault::OutOfMemory) => failed(alloc, CommandFault::OutOfMemory),
    }
}

/// Lists a code file: its counts, and rule by rule an instruction a line, with its offset in the file. Each rule is written
/// as soon as it is put together. With a class model the kinds of the operands on the stack stand beside each instruction,
/// and it is said why the code isn't accepted, if it isn't. Status 2: the file or the class model is refused, or the code
/// isn't accepted.
pub fn list_code<S: Sink>(
    alloc: Global,
    code: Input<'_>,
    model: Option<Input<'_>>,
    sink: &mut S,
) -> Ending
    requires { S.has_failed sink.old ≡ false }
{
    match model {
        Some(model) => list_with(alloc, sink, code, model),
        None => list_alone(alloc, sink, code),
    }
}
