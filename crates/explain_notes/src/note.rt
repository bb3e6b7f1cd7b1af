//! Notes: what is wrong, the line with a mark under what is at fault, and how to mend it.

use crate::input::Input;
use crate::place::{before, place_of};
use crate::showing::visible_text;
use std::alloc::{AllocError, Global};

/// The most characters of a line that are shown on either side of the fault.
const MAX_SHOWN: usize = 80;

/// What is said of a part of a text.
#[derive(Clone, Copy, Drop)]
pub struct Note<'a> {
    /// The text, which need not be UTF-8.
    pub input: Input<'a>,
    /// Where what is at fault begins, in bytes from 0.
    pub offset: usize,
    /// How many bytes it has.
    pub length: usize,
    /// What is wrong.
    pub message: &'a str,
    /// The fault by its document and number, as `types 5`.
    pub fault: &'a str,
    /// What is said beside the mark.
    pub label: &'a str,
    /// How it can be mended; empty where nothing is said.
    pub help: &'a str,
}

impl Note<'_> {
    /// Writes the note behind what is written already.
    pub fn write(&self, alloc: Global, out: &mut String) -> Result<(), AllocError> {
        let (message, fault, help) = (self.message, self.fault, self.help);
        let Input { path, bytes } = self.input;
        let place = place_of(bytes, self.offset);
        let (line, column) = (place.line, place.column);
        writeln!(out, "{path}:{line}:{column}: {message} ({fault})")?;
        write_marked(alloc, out, bytes, self.offset, self.length, self.label)?;
        if !help.is_empty() {
            writeln!(out, "  {help}")?;
        }
        Ok(())
    }
}

/// The last characters of a part of a line, with two dots before them where there are more.
fn push_end(out: &mut String, text: &str) -> Result<(), AllocError> {
    let count = text.chars().count();
    if count > MAX_SHOWN {
        out.push_str("..")?;
    }
    for character in text.chars().skip(count.saturating_sub(MAX_SHOWN)) {
        out.push(character)?;
    }
    Ok(())
}

/// The first characters of a part of a line, with two dots after them where there are more.
fn push_begin(out: &mut String, text: &str) -> Result<(), AllocError> {
    for character in text.chars().take(MAX_SHOWN) {
        out.push(character)?;
    }
    if text.chars().count() > MAX_SHOWN {
        out.push_str("..")?;
    }
    Ok(())
}

/// A character as many times as a text has characters.
fn push_under(out: &mut String, text: &str, mark: char) -> Result<(), AllocError> {
    for _ in text.chars() {
        out.push(mark)?;
    }
    Ok(())
}

/// What a text has before its first line feed.
fn first_line(text: &[u8]) -> &[u8] {
    match text.iter().position(|byte| *byte == b'\n') {
        Some(end) => text.get(..end).unwrap_or(text),
        None => text,
    }
}

/// What a text has after its last line feed.
fn last_line(text: &[u8]) -> &[u8] {
    match text.iter().rposition(|byte| *byte == b'\n') {
        Some(end) => text
            .get(end..)
            .and_then(|rest| rest.get(1..))
            .unwrap_or(text),
        None => text,
    }
}

/// What is shown of a line: before what is at fault, of that, and after it.
#[derive(Drop)]
struct Shown {
    before: String,
    marked: String,
    after: String,
}

fn shown_line(
    alloc: Global,
    text: &[u8],
    offset: usize,
    length: usize,
) -> Result<Shown, AllocError> {
    let rest = first_line(text.get(offset..).unwrap_or(&[]));
    let (marked, after) = match rest.get(length..) {
        Some(after) => (rest.get(..length).unwrap_or(rest), after),
        None => (rest, rest.get(rest.len()..).unwrap_or(rest)),
    };
    let mut line = Shown {
        before: String::new(alloc),
        marked: String::new(alloc),
        after: String::new(alloc),
    };
    push_end(
        &mut line.before,
        visible_text(alloc, last_line(before(text, offset)))?.as_str(),
    )?;
    push_begin(&mut line.marked, visible_text(alloc, marked)?.as_str())?;
    push_begin(&mut line.after, visible_text(alloc, after)?.trim_end())?;
    Ok(line)
}

/// Writes the line of a text in which a part of it stands, with its number, and below it a mark under that part, with a
/// label beside it. Of a long line what stands round the part is written.
pub fn write_marked(
    alloc: Global,
    out: &mut String,
    text: &[u8],
    offset: usize,
    length: usize,
    label: &str,
) -> Result<(), AllocError> {
    let number = place_of(text, offset).line;
    let line = shown_line(alloc, text, offset, length)?;
    let (before, marked, after) = (
        line.before.as_str(),
        line.marked.as_str(),
        line.after.as_str(),
    );
    let digits = format!(in alloc; "{number}")?;
    writeln!(out, "  {digits} | {before}{marked}{after}")?;
    out.push_str("  ")?;
    push_under(out, digits.as_str(), ' ')?;
    out.push_str(" | ")?;
    push_under(out, before, ' ')?;
    push_under(out, if marked.is_empty() { "^" } else { marked }, '^')?;
    if label.is_empty() {
        return writeln!(out, "");
    }
    writeln!(out, " {label}")
}
