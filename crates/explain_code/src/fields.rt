//! Which field of a code file holds an offset: the file is read field by field up to it.

use rule_code::{FieldSort, opcode_row};
use std::alloc::{AllocError, Global};

/// A way over the bytes of a file up to a byte.
#[derive(Clone, Copy)]
struct Way<'a> {
    bytes: &'a [u8],
    at: usize,
    target: usize,
}

impl Way<'_> {
    /// Goes over a field of so many bytes; whether the byte that is looked for is in it.
    fn meets(&mut self, width: usize) -> bool {
        let end = self.at.saturating_add(width);
        if self.target < end {
            return true;
        }
        self.at = end;
        false
    }

    /// The number of the two bytes that were gone over last.
    fn number(&self) -> usize {
        let begin = self.at.saturating_sub(2);
        match self.bytes.get(begin..self.at) {
            Some([high, low]) => usize::from(*high) * 256 + usize::from(*low),
            _ => 0,
        }
    }

    /// The byte that comes next.
    fn next(&self) -> u8 {
        self.bytes.get(self.at).copied().unwrap_or(0)
    }
}

/// The field of a text, of these.
fn text_field(alloc: Global, way: &mut Way<'_>) -> Result<Option<String>, AllocError> {
    if way.meets(2) {
        return Ok(Some(String::from_str(alloc, "the number of texts")?));
    }
    for index in 0..way.number() {
        if way.meets(2) {
            return Ok(Some(format!(in alloc; "the length of text {index}")?));
        }
        let length = way.number();
        if way.meets(length) {
            return Ok(Some(format!(in alloc; "the bytes of text {index}")?));
        }
    }
    Ok(None)
}

/// The field of a symbol.
fn symbol_field(alloc: Global, way: &mut Way<'_>) -> Result<Option<String>, AllocError> {
    if way.meets(2) {
        return Ok(Some(String::from_str(alloc, "the number of symbols")?));
    }
    for index in 0..way.number() {
        let tag = way.next();
        if way.meets(1) {
            return Ok(Some(format!(in alloc; "the tag of symbol {index}")?));
        }
        if way.meets(2) {
            return Ok(Some(format!(in alloc; "the first name of symbol {index}")?));
        }
        if matches!(tag, 3 | 4) && way.meets(2) {
            return Ok(Some(format!(in alloc; "the second name of symbol {index}")?));
        }
    }
    Ok(None)
}

/// A field of an instruction in words.
fn words_of(sort: FieldSort) -> &'static str {
    match sort {
        FieldSort::Scalar | FieldSort::Collection | FieldSort::Kind => "the kind",
        _ => "a number",
    }
}

/// The field of an instruction.
fn instruction_field(
    alloc: Global,
    way: &mut Way<'_>,
    rule: usize,
    index: usize,
) -> Result<Option<String>, AllocError> {
    let opcode = way.next();
    if way.meets(1) {
        return Ok(Some(format!(in alloc; "the opcode of instruction {index} of rule {rule}")?));
    }
    let Some(row) = opcode_row(opcode) else {
        return Ok(None);
    };
    for sort in row.fields {
        let first = way.next();
        if way.meets(sort.width(first)) {
            let (name, field) = (row.name, words_of(*sort));
            return Ok(Some(format!(in alloc;
                "{field} of instruction {index} ({name}) of rule {rule}"
            )?));
        }
    }
    Ok(None)
}

/// The field of a rule.
fn rule_field(alloc: Global, way: &mut Way<'_>, rule: usize) -> Result<Option<String>, AllocError> {
    if way.meets(2) {
        return Ok(Some(format!(in alloc; "the name of rule {rule}")?));
    }
    if way.meets(2) {
        return Ok(Some(format!(in alloc; "the context class of rule {rule}")?));
    }
    if way.meets(2) {
        return Ok(Some(format!(in alloc; "the number of instructions of rule {rule}")?));
    }
    for index in 0..way.number() {
        let field = instruction_field(alloc, way, rule, index)?;
        if field.is_some() {
            return Ok(field);
        }
    }
    Ok(None)
}

/// The field of one of the rules.
fn rules_field(alloc: Global, way: &mut Way<'_>) -> Result<Option<String>, AllocError> {
    if way.meets(2) {
        return Ok(Some(String::from_str(alloc, "the number of rules")?));
    }
    for rule in 0..way.number() {
        let field = rule_field(alloc, way, rule)?;
        if field.is_some() {
            return Ok(field);
        }
    }
    Ok(None)
}

/// The field of a code file that stands at an offset, in words. Before it the file is as it should be.
pub(crate) fn field_at(alloc: Global, bytes: &[u8], offset: usize) -> Result<String, AllocError> {
    let mut way = Way {
        bytes,
        at: 0,
        target: offset,
    };
    if way.meets(4) {
        return String::from_str(alloc, "the mark `OCLB` of a code file");
    }
    if way.meets(2) {
        return String::from_str(alloc, "the version");
    }
    let mut field = text_field(alloc, &mut way)?;
    if field.is_none() {
        field = symbol_field(alloc, &mut way)?;
    }
    if field.is_none() {
        field = rules_field(alloc, &mut way)?;
    }
    match field {
        Some(field) => Ok(field),
        None => String::from_str(alloc, "what follows the last rule"),
    }
}
