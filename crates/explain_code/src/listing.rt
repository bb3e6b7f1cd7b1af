//! A unit in words: rule by rule, an instruction a line.

use crate::instructions::{bodies_of, instruction_words};
use crate::seen::Seen;
use crate::symbols::{symbol_words, text_of};
use rule_code::{Instr, Symbol, Unit, Version};
use rule_verify::Resolved;
use std::alloc::{AllocError, Global};

/// A block that is open: the index after its bodies, and where its second branch begins, if it has one.
#[derive(Clone, Copy)]
struct Open {
    end: usize,
    second: usize,
}

/// Where the rules of a unit begin in its file, in bytes from 0.
fn rules_offset(unit: &Unit) -> usize {
    let mut offset = 12usize;
    for text in &unit.texts {
        offset = offset.saturating_add(2).saturating_add(text.len());
    }
    for symbol in &unit.symbols {
        offset = offset.saturating_add(match symbol {
            Symbol::Class(_) | Symbol::Enumeration(_) => 3,
            Symbol::Feature { .. } | Symbol::Literal { .. } => 5,
        });
    }
    offset
}

/// Writes spaces, two for each block that is open.
fn indent(out: &mut String, depth: usize) -> Result<(), AllocError> {
    for _ in 0..depth {
        out.push_str("  ")?;
    }
    Ok(())
}

/// Closes the blocks that end before an index; writes where a second branch begins.
fn close(out: &mut String, open: &mut Vec<Open>, index: usize) -> Result<(), AllocError> {
    for _ in 0..open.len() {
        match open.last() {
            Some(block) if block.end <= index => (),
            _ => break,
        }
        open.pop();
    }
    match open.last() {
        Some(block) if block.second == index => {
            out.push_str("        ")?;
            indent(out, open.len().saturating_sub(1))?;
            out.push_str("else\n")
        }
        _ => Ok(()),
    }
}

/// The block that an instruction at an index opens.
fn open_block(instruction: &Instr, index: usize) -> Option<Open> {
    let (first, second) = bodies_of(instruction)?;
    let body = index.saturating_add(1);
    let middle = body.saturating_add(first);
    Some(Open {
        end: middle.saturating_add(second),
        second: if second == 0 { 0 } else { middle },
    })
}

/// The line of an instruction at an offset, in so many open blocks.
fn instruction_line(
    alloc: Global,
    unit: &Unit,
    instruction: &Instr,
    offset: usize,
    depth: usize,
) -> Result<String, AllocError> {
    let words = instruction_words(alloc, unit, instruction)?;
    let mut line = format!(in alloc; "{offset:6}  ")?;
    indent(&mut line, depth)?;
    line.push_str(words.as_str())?;
    Ok(line)
}

/// Writes the line of the instruction of an index, with the kinds beside it.
fn write_line(
    out: &mut String,
    line: &str,
    seen: Option<&Seen<'_>>,
    index: usize,
) -> Result<(), AllocError> {
    let kinds = match seen {
        Some(seen) => seen.operands_before(index),
        None => "",
    };
    if kinds.is_empty() {
        writeln!(out, "{line}")
    } else {
        writeln!(out, "{line:<48} {kinds}")
    }
}

/// Writes the instructions of a rule, the first of which begins at an offset, and the kinds beside them; answers where they
/// end.
fn list_code(
    alloc: Global,
    out: &mut String,
    unit: &Unit,
    code: &[Instr],
    seen: Option<&Seen<'_>>,
    begin: usize,
) -> Result<usize, AllocError> {
    let mut offset = begin;
    let mut open = Vec::new(alloc);
    for (index, instruction) in code.iter().enumerate() {
        close(out, &mut open, index)?;
        let line = instruction_line(alloc, unit, instruction, offset, open.len())?;
        write_line(out, line.as_str(), seen, index)?;
        offset = offset.saturating_add(instruction.encoded_len());
        if let Some(block) = open_block(instruction, index) {
            open.push(block)?;
        }
    }
    Ok(offset)
}

/// Writes the first line of a unit in words: its counts. Answers where its rules begin.
pub fn list_counts(out: &mut String, unit: &Unit) -> Result<usize, AllocError> {
    let version = match unit.version {
        Version::One => 1,
        Version::Two => 2,
    };
    let (texts, symbols, rules) = (unit.texts.len(), unit.symbols.len(), unit.rules.len());
    writeln!(
        out,
        "version {version}, texts {texts}, symbols {symbols}, rules {rules}"
    )?;
    Ok(rules_offset(unit))
}

/// Writes a rule of a unit that begins at an offset of the file: a line, and then one for each of its instructions, which
/// begins with the offset; the bodies of a block are indented. Of a unit whose symbols were looked up in a class model the
/// kinds of the operands on the stack are beside each instruction, up to the rule's first fault. Returns where the rule ends.
pub fn list_rule(
    alloc: Global,
    out: &mut String,
    unit: &Unit,
    resolved: Option<&Resolved<'_>>,
    rule: usize,
    begin: usize,
) -> Result<usize, AllocError> {
    let Some(listed) = unit.rules.get(rule) else {
        return Ok(begin);
    };
    let name = text_of(unit, listed.name);
    let context = symbol_words(alloc, unit, listed.context)?;
    let count = listed.code.len();
    writeln!(
        out,
        "rule {name}, context {context}, {count} instructions, at byte {begin}"
    )?;
    let seen = match resolved {
        Some(resolved) => Some(Seen::of_rule(alloc, resolved, rule)?),
        None => None,
    };
    let first = begin.saturating_add(6);
    list_code(alloc, out, unit, &listed.code, seen.as_ref(), first)
}
