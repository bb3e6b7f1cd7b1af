//! The faults of the characters of a rule text, more than the first: those that begin no token, escapes that are none, numbers that
//! are too large, and what never ends.

use crate::faults::MAX_FAULTS;
use crate::sections::part_of;
use explain_faults::Faults;
use explain_notes::Input;
use explain_text::{explain_text_flaw, is_code_file};
use ocl_tokens::{TextFault, TextFlaw, tokens};
use std::alloc::{AllocError, Global};

/// The character that closes what another opens, where neither begins a token.
fn closing(character: char) -> Option<char> {
    match character {
        '{' => Some('}'),
        '[' => Some(']'),
        _ => None,
    }
}

/// Quotes that are no quotes of strings here, with those that close them.
static QUOTES: [(&str, &str); 3] = [
    ("\"", "\""),
    ("\u{2018}", "\u{2019}"),
    ("\u{201c}", "\u{201d}"),
];

/// Where what stands in such quotes ends that begins at an offset, in the same line; none where nothing does.
fn end_of_quoted(text: &str, offset: usize) -> Option<usize> {
    let line = part_of(text, offset, end_of_line(text, offset));
    for (open, close) in &QUOTES {
        if let Some(rest) = line.strip_prefix(*open)
            && let Some((inside, _)) = rest.split_once(*close)
        {
            let length = open.len().saturating_add(inside.len());
            return Some(offset.saturating_add(length).saturating_add(close.len()));
        }
    }
    None
}

/// A text with spaces in place of the character at an offset, of the same ones right behind it, and of the next one that closes
/// what it opens.
fn without_character(alloc: Global, text: &str, offset: usize) -> Result<String, AllocError> {
    let mut blanked = String::new(alloc);
    let (mut run, mut closer) = (None, None);
    for character in text.chars() {
        let at = blanked.len();
        if at == offset {
            run = Some(character);
            closer = closing(character);
        } else if at > offset && closer == Some(character) {
            closer = None;
        } else if run != Some(character) {
            run = None;
            blanked.push(character)?;
            continue;
        }
        for _ in 0..character.len_utf8() {
            blanked.push(' ')?;
        }
    }
    Ok(blanked)
}

/// Whether a comment of other languages begins at an offset.
fn begins_comment(text: &str, offset: usize) -> bool {
    let rest = text.as_bytes().get(offset..).unwrap_or(&[]);
    rest.starts_with(b"//")
}

/// Where the digits end that begin at an offset.
fn end_of_digits(text: &str, offset: usize) -> usize {
    let mut end = offset;
    for byte in text.as_bytes().get(offset..).unwrap_or(&[]) {
        if !byte.is_ascii_digit() {
            return end;
        }
        end = end.saturating_add(1);
    }
    end
}

/// Where the line of an offset ends.
fn end_of_line(text: &str, offset: usize) -> usize {
    let mut end = offset;
    for byte in text.as_bytes().get(offset..).unwrap_or(&[]) {
        if *byte == b'\n' {
            return end;
        }
        end = end.saturating_add(1);
    }
    end
}

/// Where a fault ends that begins at an offset. What never ends, ends with the text.
fn end_of_fault(text: &str, flaw: TextFlaw, offset: usize) -> usize {
    match flaw {
        TextFlaw::BadCharacter => end_of_line(text, offset),
        TextFlaw::BadEscape => offset.saturating_add(1),
        TextFlaw::NumberTooLarge => end_of_digits(text, offset),
        _ => text.len(),
    }
}

/// Puts white space in place of a text, with its ends of lines.
fn put_blank(out: &mut String, text: &[u8]) -> Result<(), AllocError> {
    for byte in text {
        out.push(if *byte == b'\n' { '\n' } else { ' ' })?;
    }
    Ok(())
}

/// A text with spaces in place of a fault.
fn without_fault(
    alloc: Global,
    text: &str,
    flaw: TextFlaw,
    offset: usize,
) -> Result<String, AllocError> {
    let is_character = matches!(flaw, TextFlaw::BadCharacter) && !begins_comment(text, offset);
    let end = match end_of_quoted(text, offset) {
        Some(end) if is_character => end,
        _ if is_character => return without_character(alloc, text, offset),
        _ => end_of_fault(text, flaw, offset),
    };
    let mut blanked = String::from_str(alloc, part_of(text, 0, offset))?;
    put_blank(&mut blanked, part_of(text, offset, end).as_bytes())?;
    blanked.push_str(part_of(text, end, text.len()))?;
    Ok(blanked)
}

/// A text without faults of its characters, as spaces stand in their places. Comments of other languages aren't among the places.
#[derive(Drop)]
pub(crate) struct Cleared {
    pub(crate) text: String,
    pub(crate) places: Vec<usize>,
}

/// The first fault of a text's characters, and its offset; none where its tokens are read.
fn fault_of(alloc: Global, text: &str) -> Result<Option<(TextFlaw, usize)>, AllocError> {
    match tokens(alloc, text) {
        Ok(_) => Ok(None),
        Err(TextFault::At { flaw, offset }) => Ok(Some((flaw, offset))),
        Err(TextFault::OutOfMemory) => Err(AllocError),
    }
}

/// Writes the fault of a text whose tokens aren't read, which is the first, and the others of its characters. Returns the text
/// without them, unless there are more than are written.
pub(crate) fn explain_characters(
    alloc: Global,
    out: &mut Faults,
    input: Input<'_>,
    text: &str,
    flaw: TextFlaw,
    offset: usize,
) -> Result<Option<Cleared>, AllocError> {
    let mut left = String::from_str(alloc, text)?;
    let mut places = Vec::new(alloc);
    let (mut flaw, mut offset) = (flaw, offset);
    for _ in 0..MAX_FAULTS {
        explain_text_flaw(alloc, out, input, flaw, offset)?;
        if is_code_file(input.bytes) {
            return Ok(None);
        }
        if !begins_comment(left.as_str(), offset) {
            places.push(offset)?;
        }
        left = without_fault(alloc, left.as_str(), flaw, offset)?;
        let Some((next, at)) = fault_of(alloc, left.as_str())? else {
            return Ok(Some(Cleared { text: left, places }));
        };
        flaw = next;
        offset = at;
    }
    Ok(None)
}
