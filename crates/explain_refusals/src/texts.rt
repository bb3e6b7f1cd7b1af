//! Why a rule text is refused: as a text, for the types of its rules, or for a limit of code.

use explain_faults::Faults;
use explain_notes::{Input, Note};
use explain_rules::{explain_unread, explain_untyped};
use imkl_model::ClassModel;
use ocl_compile::Limit;
use ocl_pipeline::{Refusal, read_text};
use ocl_text::SurfaceRule;
use ocl_tokens::TextFault;
use std::alloc::{AllocError, Global};

/// What passes a limit, and how it can be made to fit.
fn limit_words(limit: Limit) -> (&'static str, &'static str) {
    match limit {
        Limit::Stack => (
            "this rule needs more than 1,024 operands at once",
            "give parts of it names by `let`, or write two rules",
        ),
        Limit::Nesting => (
            "this rule nests more than 64 blocks: iterations, branches and variables",
            "write two rules, or fewer variables one after another",
        ),
        Limit::Size => (
            "with this rule the code is too large",
            "code has at most 4,096 rules, 65,535 instructions in each, 65,535 texts and symbols, and 4,096 bytes in a text: write two files",
        ),
    }
}

/// Adds a note at the word `inv` of a rule.
fn add_at_rule<'n>(
    alloc: Global,
    out: &mut Faults,
    input: Input<'n>,
    rule: Option<&SurfaceRule>,
    message: &'n str,
    fault: &'n str,
    help: &'n str,
) -> Result<(), AllocError> {
    let offset = match rule {
        Some(rule) => rule.offset,
        None => 0,
    };
    let note = Note {
        input,
        offset,
        length: 3,
        message,
        fault,
        label: "",
        help,
    };
    out.add_note(alloc, &note)
}

fn explain_limit(
    alloc: Global,
    out: &mut Faults,
    input: Input<'_>,
    rules: &[SurfaceRule],
    limit: Limit,
    rule: usize,
) -> Result<(), AllocError> {
    let (message, help) = limit_words(limit);
    let number = limit.number();
    let fault = format!(in alloc; "compile {number}")?;
    add_at_rule(
        alloc,
        out,
        input,
        rules.get(rule),
        message,
        fault.as_str(),
        help,
    )
}

/// The rules of a text; none where it isn't read.
pub(crate) fn rules_of(alloc: Global, input: Input<'_>) -> Result<Vec<SurfaceRule>, AllocError> {
    match read_text(alloc, input.bytes) {
        Ok(rules) => Ok(rules),
        Err(TextFault::At { .. }) => Ok(Vec::new(alloc)),
        Err(TextFault::OutOfMemory) => Err(AllocError),
    }
}

/// Says why a rule text is refused.
pub(crate) fn explain_text(
    alloc: Global,
    out: &mut Faults,
    input: Input<'_>,
    model: &ClassModel,
    refusal: &Refusal,
) -> Result<(), AllocError> {
    match refusal {
        Refusal::Text { flaw, offset } => {
            explain_unread(alloc, out, input, model, *flaw, *offset)
        }
        Refusal::Types { .. } => explain_untyped(alloc, out, input, model),
        Refusal::Compile { limit, rule } => {
            let rules = rules_of(alloc, input)?;
            explain_limit(alloc, out, input, &rules, *limit, *rule)
        }
        _ => Ok(()),
    }
}
