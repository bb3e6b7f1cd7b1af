//! Why code isn't accepted for a class model.

use crate::instructions::{bodies_of, instruction_words};
use crate::kinds::wanted_list;
use crate::missing::write_missing_symbol;
use crate::seen::Seen;
use crate::symbols::{symbol_words, text_of};
use explain_notes::Input;
use imkl_model::ClassModel;
use ocl_kinds::{Kind, ScalarKind};
use rule_code::{Instr, Rule, Unit};
use rule_verify::{
    Operands, Pattern, Resolved, VerifyFlaw, ending_wanted, operands_wanted, resolve, symbol_used,
};
use std::alloc::{AllocError, Global};

/// What the verifier found.
#[derive(Clone, Copy, Drop)]
pub struct Refused {
    /// What is wrong.
    pub flaw: VerifyFlaw,
    /// The index of the rule.
    pub rule: usize,
    /// The index of the instruction.
    pub at: usize,
}

/// What is wrong with an instruction, in words, and how it can be mended.
fn words_of(flaw: VerifyFlaw) -> (&'static str, &'static str) {
    match flaw {
        VerifyFlaw::NoSuchName => (
            "it names what the class model doesn't have",
            "the code was compiled for another class model, or the class model has changed since",
        ),
        VerifyFlaw::MissingOperand => (
            "an operand that it takes isn't on the stack",
            "a body begins with an empty stack: it can't take what stands below its block",
        ),
        VerifyFlaw::WrongKind => ("an operand that it takes is of another kind", ""),
        VerifyFlaw::BadVariable => (
            "it reads a variable that isn't there",
            "variable 0 is the object, and each block binds the next for its body alone",
        ),
        VerifyFlaw::BadNesting => (
            "its bodies are longer than what is left",
            "a body has its number of instructions within the body or rule that the block stands in",
        ),
        VerifyFlaw::LeftOver => (
            "a rule or a body doesn't end with exactly one value of its kind",
            "",
        ),
        VerifyFlaw::StackLimit => ("more than 1,024 operands are on the stack after it", ""),
        VerifyFlaw::NestLimit => ("more than 64 blocks are open", ""),
    }
}

/// Writes which rule isn't accepted, at which instruction, and why.
fn write_place(
    alloc: Global,
    out: &mut String,
    input: Input<'_>,
    unit: &Unit,
    rule: &Rule,
    refused: Refused,
    words: &str,
) -> Result<(), AllocError> {
    let (path, number, at) = (input.path, refused.flaw.number(), refused.at);
    let name = text_of(unit, rule.name);
    match rule.code.get(at) {
        Some(instruction) => {
            let instruction = instruction_words(alloc, unit, instruction)?;
            writeln!(
                out,
                "{path}: rule `{name}`, instruction {at}, {instruction}: {words} (verify {number})"
            )
        }
        None => writeln!(
            out,
            "{path}: rule `{name}`, at its end: {words} (verify {number})"
        ),
    }
}

/// Writes what is on the stack, and what is wanted there.
fn write_operands(
    alloc: Global,
    out: &mut String,
    model: &ClassModel,
    seen: &Seen<'_>,
    wanted: &Operands,
) -> Result<(), AllocError> {
    let wanted = wanted_list(alloc, model, wanted)?;
    let on_stack = match seen.last_operands() {
        "" => "nothing",
        kinds => kinds,
    };
    writeln!(out, "  on the stack: {on_stack}")?;
    writeln!(out, "  wanted: {wanted}")
}

/// Writes how long the bodies of a block are, and how much is left for them.
fn write_lengths(out: &mut String, seen: &Seen<'_>, instruction: &Instr) -> Result<(), AllocError> {
    let (first, second) = bodies_of(instruction).unwrap_or((0, 0));
    let (length, left) = (first.saturating_add(second), seen.left());
    writeln!(out, "  instructions in its bodies: {length}; left: {left}")
}

/// Writes what an instruction names that the class model doesn't have.
fn write_name(
    alloc: Global,
    out: &mut String,
    resolved: &Resolved<'_>,
    instruction: Instr,
) -> Result<(), AllocError> {
    match symbol_used(instruction) {
        Some(symbol) => write_missing_symbol(alloc, out, resolved, symbol),
        None => Ok(()),
    }
}

/// What the operands at the place of a fault may be: those of an instruction, or the one that a body or the rule ends with.
fn wanted_at(
    resolved: &Resolved<'_>,
    refused: Refused,
    instruction: Option<Instr>,
) -> Option<Operands> {
    let truth = Pattern::Fitting(Kind::Scalar(ScalarKind::Boolean));
    match (refused.flaw, instruction) {
        (VerifyFlaw::MissingOperand | VerifyFlaw::WrongKind, Some(instruction)) => {
            operands_wanted(resolved, refused.rule, instruction)
        }
        (VerifyFlaw::LeftOver, Some(block)) => {
            Some(Operands::One(ending_wanted(resolved, refused.rule, block)?))
        }
        (VerifyFlaw::LeftOver, None) => Some(Operands::One(truth)),
        _ => None,
    }
}

/// Writes what is known of the code up to the fault: a walk over the rule stops there, too.
fn write_state(
    alloc: Global,
    out: &mut String,
    resolved: &Resolved<'_>,
    rule: &Rule,
    refused: Refused,
) -> Result<(), AllocError> {
    let seen = Seen::of_rule(alloc, resolved, refused.rule)?;
    let instruction = rule.code.get(refused.at).copied();
    if let Some(wanted) = wanted_at(resolved, refused, instruction) {
        return write_operands(alloc, out, resolved.model(), &seen, &wanted);
    }
    let variables = seen.last_variables();
    match (refused.flaw, instruction) {
        (VerifyFlaw::NoSuchName, Some(instruction)) => {
            write_name(alloc, out, resolved, instruction)
        }
        (VerifyFlaw::BadVariable, _) => writeln!(out, "  variables, from 0: {variables}"),
        (VerifyFlaw::BadNesting, Some(block)) => write_lengths(out, &seen, &block),
        _ => Ok(()),
    }
}

/// Writes that the context class of a rule isn't there.
fn explain_context(
    alloc: Global,
    out: &mut String,
    input: Input<'_>,
    resolved: &Resolved<'_>,
    rule: &Rule,
) -> Result<(), AllocError> {
    let path = input.path;
    let name = text_of(resolved.unit(), rule.name);
    let class = symbol_words(alloc, resolved.unit(), rule.context)?;
    writeln!(
        out,
        "{path}: rule `{name}`, its context class {class}: the class model doesn't have it (verify 1)"
    )?;
    write_missing_symbol(alloc, out, resolved, rule.context)
}

/// Writes why a rule isn't accepted.
fn explain_rule(
    alloc: Global,
    out: &mut String,
    input: Input<'_>,
    resolved: &Resolved<'_>,
    refused: Refused,
) -> Result<(), AllocError> {
    let (words, help) = words_of(refused.flaw);
    let Some(rule) = resolved.unit().rules.get(refused.rule) else {
        return Ok(());
    };
    if resolved.named(rule.context).is_none() {
        explain_context(alloc, out, input, resolved, rule)?;
    } else {
        write_place(alloc, out, input, resolved.unit(), rule, refused, words)?;
        write_state(alloc, out, resolved, rule, refused)?;
    }
    if help.is_empty() {
        return Ok(());
    }
    writeln!(out, "  {help}")
}

/// Writes why a unit isn't accepted for a class model.
pub fn explain_verify_flaw(
    alloc: Global,
    out: &mut String,
    input: Input<'_>,
    model: &ClassModel,
    unit: Unit,
    refused: Refused,
) -> Result<(), AllocError> {
    match resolve(alloc, model, unit) {
        Ok(resolved) => explain_rule(alloc, out, input, &resolved, refused),
        Err((failed, _unit)) => Err(failed),
    }
}
