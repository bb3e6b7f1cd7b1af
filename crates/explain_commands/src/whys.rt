//! Why a rule has its verdict for an object, or for each object for which it doesn't hold, over files.

use crate::files::{read_file, report_write};
use crate::requests::end;
use crate::shown::{object_lines, shown_of_rule};
use explain_command_line::WhyWords;
use explain_notes::Input;
use explain_text::is_code_file;
use ocl_check::{CommandFault, Outcome, Telling};
use ocl_explain::{
    RuleAsked, WhyAsked, WithLastError, answer_why, answer_why_code, answer_why_code_rule,
    answer_why_rule,
};
use std::io;

/// Explains a verdict over inputs that were read.
fn explain_object(rt: &HostRuntime, asked: WhyAsked<'_>) -> Outcome {
    let mut sink = Telling::new(WithLastError::new(io::writer(rt)));
    let ending = if is_code_file(asked.rules.bytes) {
        answer_why_code(rt.alloc(), asked, &mut sink)
    } else {
        answer_why(rt.alloc(), asked, &mut sink)
    };
    report_write(rt, "standard output", sink.into_inner().error());
    end(rt, ending)
}

/// Explains the findings of a rule over inputs that were read.
fn explain_rule(rt: &HostRuntime, asked: RuleAsked<'_>) -> Outcome {
    let mut sink = Telling::new(WithLastError::new(io::writer(rt)));
    let ending = if is_code_file(asked.rules.bytes) {
        answer_why_code_rule(rt.alloc(), asked, &mut sink)
    } else {
        answer_why_rule(rt.alloc(), asked, &mut sink)
    };
    report_write(rt, "standard output", sink.into_inner().error());
    end(rt, ending)
}

/// Explains what the words ask, over inputs that were read.
fn explain_inputs<'i>(
    rt: &HostRuntime,
    words: WhyWords<'i>,
    model: Input<'i>,
    delivery: Input<'i>,
    rules: Input<'i>,
) -> Outcome {
    let rule = words.rule;
    match words.id {
        Some(id) => explain_object(
            rt,
            WhyAsked {
                model,
                delivery,
                rules,
                rule,
                id,
                lines: object_lines(words.limits),
            },
        ),
        None => explain_rule(
            rt,
            RuleAsked {
                model,
                delivery,
                rules,
                rule,
                shown: shown_of_rule(words.limits),
            },
        ),
    }
}

/// Reads the inputs, each whole, and then answers.
fn explain_files(rt: &HostRuntime, words: WhyWords<'_>) -> Result<Outcome, CommandFault> {
    let model = read_file(rt, words.files.model)?;
    let delivery = read_file(rt, words.files.delivery)?;
    let rules = read_file(rt, words.files.rules)?;
    Ok(explain_inputs(rt, words, model.input(), delivery.input(), rules.input()))
}

/// Explains the verdict of a rule for an object, or its findings.
pub fn explain(rt: &HostRuntime, words: WhyWords<'_>) -> Outcome {
    match explain_files(rt, words) {
        Ok(outcome) => outcome,
        Err(fault) => Outcome::Failed(fault),
    }
}
