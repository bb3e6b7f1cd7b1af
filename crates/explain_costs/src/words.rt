//! What a rule may be charged, in words.

ghost use Rattle.std.specs.Prelude.{◌≡◌, ◌<◌, length};

use crate::parts::{Part, Parts};
use explain_code::{instruction_words, symbol_words};
use imkl_population::Sizes;
use rule_code::{Instr, Rule, Unit};
use rule_cost::{CostFault, STEP_LIMIT, Turns, watch_bound};
use rule_verify::Accepted;
use std::alloc::{AllocError, Global};

/// The most parts that are written.
const MAX_PARTS: usize = 20;

/// Writes a number; one that was cut is at least the limit.
fn write_cut(out: &mut String, number: u64) -> Result<(), AllocError> {
    if number < STEP_LIMIT {
        write!(out, "{number}")
    } else {
        out.push_str("2^63 or more")
    }
}

/// What the instruction of an index gives, in words.
fn source_words(
    alloc: Global,
    unit: &Unit,
    rule: &Rule,
    from: usize,
) -> Result<String, AllocError> {
    let Some(instruction) = rule.code.get(from) else {
        return Ok(String::new(alloc));
    };
    match instruction {
        Instr::Attr(symbol) => symbol_words(alloc, unit, *symbol),
        Instr::All(symbol) => {
            let class = symbol_words(alloc, unit, *symbol)?;
            format!(in alloc; "{class}.allInstances()")
        }
        _ => {
            let words = instruction_words(alloc, unit, instruction)?;
            format!(in alloc; "what instruction {from}, {words}, gives")
        }
    }
}

/// Writes what an iteration goes over, and what a turn is charged.
fn write_turns(
    alloc: Global,
    out: &mut String,
    unit: &Unit,
    rule: &Rule,
    source: usize,
    turns: Turns,
) -> Result<(), AllocError> {
    let words = source_words(alloc, unit, rule, source)?;
    write!(out, " over {words}: at most ")?;
    write_cut(out, turns.source)?;
    out.push_str(" elements, ")?;
    write_cut(out, turns.charges)?;
    out.push_str(" a turn, ")
}

/// Writes what a part comes to.
fn write_part(
    alloc: Global,
    out: &mut String,
    unit: &Unit,
    rule: &Rule,
    part: &Part,
) -> Result<(), AllocError> {
    let index = part.index;
    let Some(instruction) = rule.code.get(index) else {
        return Ok(());
    };
    for _ in 0..part.depth.saturating_add(1) {
        out.push_str("  ")?;
    }
    let words = instruction_words(alloc, unit, instruction)?;
    write!(out, "instruction {index}, {words},")?;
    match part.turns {
        Some(turns) => write_turns(alloc, out, unit, rule, part.source, turns)?,
        None => out.push_str(" goes over collections: ")?,
    }
    write_cut(out, part.charges)?;
    out.push_str(" in all\n")
}

/// Writes the iterations of a rule and the instructions that go over collections, each with what it is charged at most.
pub fn explain_charges(
    alloc: Global,
    out: &mut String,
    accepted: &Accepted<'_>,
    sizes: &Sizes<'_>,
    rule: usize,
) -> Result<(), AllocError>
    requires rule { rule < length accepted.now.unit.rules }
    requires one_model { sizes.now.model ≡ accepted.now.model }
{
    let unit = accepted.unit();
    let Some(explained) = unit.rules.get(rule) else {
        return Ok(());
    };
    let mut watch = Parts::new(alloc, &explained.code);
    if let Err(CostFault::OutOfMemory) = watch_bound(alloc, accepted, rule, sizes, &mut watch) {
        return Err(AllocError);
    }
    let parts = watch.all()?;
    for part in parts.iter().take(MAX_PARTS) {
        write_part(alloc, out, unit, explained, part)?;
    }
    let more = parts.len().saturating_sub(MAX_PARTS);
    if more > 0 {
        writeln!(out, "  and {more} more")?;
    }
    Ok(())
}
