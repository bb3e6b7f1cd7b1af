//! Why an input is refused, by the refusal and what had been read by then. After a refused delivery the rules are
//! looked at too.

use crate::costs::explain_cost;
use crate::given::Given;
use crate::texts::explain_text;
use explain_code::{Refused, explain_code_flaw, explain_verify_flaw};
use explain_faults::Faults;
use explain_inputs::{explain_delivery, explain_model};
use explain_notes::{Input, Note};
use imkl_delivery::DeliveryFault;
use imkl_model::ClassModel;
use ocl_check::RulesForm;
use ocl_pipeline::{Place, Refusal, Rejected, Stopped, accept_code, compile_text};
use rule_code::{CodeFlaw, Unit};
use std::alloc::{AllocError, Global};

/// Where a line of a text begins, in bytes from 0.
fn offset_of_line(bytes: &[u8], line: usize) -> usize {
    let mut lines = 1usize;
    for (index, byte) in bytes.iter().enumerate() {
        if lines >= line {
            return index;
        }
        if *byte == b'\n' {
            lines += 1;
        }
    }
    bytes.len()
}

/// Writes which line of a script is no call.
fn explain_script(
    alloc: Global,
    out: &mut Faults,
    input: Input<'_>,
    line: usize,
) -> Result<(), AllocError> {
    let fault = format!(in alloc; "script {line}")?;
    let note = Note {
        input,
        offset: offset_of_line(input.bytes, line),
        length: 1,
        message: "this line is no call",
        fault: fault.as_str(),
        label: "",
        help: "the calls are `enter`, `grant K N`, `lines K` and `withdraw K`, with single spaces and decimal digits",
    };
    out.add_note(alloc, &note)
}

/// Writes why bytes are no code file.
fn explain_code(
    alloc: Global,
    out: &mut Faults,
    input: Input<'_>,
    flaw: CodeFlaw,
    offset: usize,
) -> Result<(), AllocError> {
    let mut words = String::new(alloc);
    explain_code_flaw(alloc, &mut words, input, flaw, offset)?;
    out.add_written(alloc, input.path, words.as_str())
}

/// Writes why the rules are refused: a text, or the bytes of a code file.
fn explain_rules(
    alloc: Global,
    out: &mut Faults,
    input: Input<'_>,
    model: &ClassModel,
    refusal: &Refusal,
) -> Result<(), AllocError> {
    match refusal {
        Refusal::Code { flaw, offset } => explain_code(alloc, out, input, *flaw, *offset),
        _ => explain_text(alloc, out, input, model, refusal),
    }
}

/// Writes why the code of a unit isn't accepted.
fn explain_unit(
    alloc: Global,
    out: &mut Faults,
    input: Input<'_>,
    model: &ClassModel,
    unit: Unit,
    refusal: &Refusal,
) -> Result<(), AllocError> {
    match refusal {
        Refusal::Verify { flaw, rule, at } => {
            let refused = Refused {
                flaw: *flaw,
                rule: *rule,
                at: *at,
            };
            let mut words = String::new(alloc);
            explain_verify_flaw(alloc, &mut words, input, model, unit, refused)?;
            out.add_written(alloc, input.path, words.as_str())
        }
        _ => Ok(()),
    }
}

/// Writes why a rule text is refused, if it is.
fn look_at_text(
    alloc: Global,
    out: &mut Faults,
    input: Input<'_>,
    model: &ClassModel,
) -> Result<(), AllocError> {
    let Err(why) = compile_text(alloc, model, input.bytes) else {
        return Ok(());
    };
    match why {
        Stopped::Refused(refusal) => explain_text(alloc, out, input, model, &refusal),
        Stopped::OutOfMemory => Err(AllocError),
    }
}

/// Writes why a code file, or its unit, is rejected.
pub fn explain_rejected(
    alloc: Global,
    out: &mut Faults,
    input: Input<'_>,
    model: &ClassModel,
    rejected: Rejected,
) -> Result<(), AllocError> {
    let Rejected { why, unit } = rejected;
    let Stopped::Refused(refusal) = why else {
        return Err(AllocError);
    };
    match unit {
        Some(unit) => explain_unit(alloc, out, input, model, unit, &refusal),
        None => explain_rules(alloc, out, input, model, &refusal),
    }
}

/// Writes why a code file is refused, if it is.
fn look_at_code(
    alloc: Global,
    out: &mut Faults,
    input: Input<'_>,
    model: &ClassModel,
) -> Result<(), AllocError> {
    match accept_code(alloc, model, input.bytes) {
        Ok(_) => Ok(()),
        Err(rejected) => explain_rejected(alloc, out, input, model, rejected),
    }
}

/// Writes why a delivery is refused, and then why the rules are, if they are.
fn explain_delivery_and_rules(
    alloc: Global,
    out: &mut Faults,
    given: Given<'_>,
    model: &ClassModel,
    fault: &DeliveryFault,
) -> Result<(), AllocError> {
    if let Some(delivery) = given.delivery {
        explain_delivery(alloc, out, delivery, model, fault)?;
    }
    match given.options.form {
        RulesForm::Text => look_at_text(alloc, out, given.rules, model),
        RulesForm::Code => look_at_code(alloc, out, given.rules, model),
    }
}

/// Writes why an input is refused, by where the pipeline stopped.
pub(crate) fn explain_refusal(
    alloc: Global,
    out: &mut Faults,
    given: Given<'_>,
    place: Place<'_>,
    refusal: &Refusal,
) -> Result<(), AllocError> {
    let rules = given.rules;
    match (place, refusal) {
        (Place::Model, Refusal::Model(fault)) => explain_model(alloc, out, given.model, *fault),
        (Place::Delivery(model), Refusal::Delivery(fault)) => {
            explain_delivery_and_rules(alloc, out, given, model, fault)
        }
        (Place::Rules(model), refusal) => explain_rules(alloc, out, rules, model, refusal),
        (Place::Unit(model, unit), refusal) => explain_unit(
            alloc, out, rules, model, unit, refusal,
        ),
        (Place::Cost(code), Refusal::Cost { rule }) => {
            explain_cost(alloc, out, rules, &code, given.options.budget, *rule)
        }
        (Place::AfterRules, Refusal::Script { line }) => match given.script {
            Some(script) => explain_script(alloc, out, script, *line),
            None => Ok(()),
        },
        _ => Ok(()),
    }
}
