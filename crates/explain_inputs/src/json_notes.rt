//! Why bytes are no JSON, and where.

use explain_faults::Faults;
use explain_notes::{Input, Note, first_character};
use serde_json::{Category, Error, Value};
use std::alloc::{AllocError, Global};

/// The byte at a line and a column, both from 1.
fn offset_of(bytes: &[u8], line: usize, column: usize) -> usize {
    let mut lines = 1usize;
    let mut start = 0;
    for (index, byte) in bytes.iter().enumerate() {
        if lines >= line {
            break;
        }
        if *byte == b'\n' {
            lines += 1;
            start = index + 1;
        }
    }
    start
        .saturating_add(column.saturating_sub(1))
        .min(bytes.len())
}

/// Where the reading of JSON stopped.
fn offset_of_error(bytes: &[u8], error: &Error) -> usize {
    match str::from_utf8(bytes) {
        Ok(_) if error.is_eof() => bytes.len(),
        Ok(_) => offset_of(bytes, error.line(), error.column()),
        Err(error) => error.valid_up_to(),
    }
}

/// Says why bytes are no JSON, if they aren't.
pub(crate) fn explain_json<'n>(
    alloc: Global,
    out: &mut Faults,
    input: Input<'n>,
    fault: &'n str,
) -> Result<(), AllocError> {
    let Err(error) = Value::from_slice(alloc, input.bytes) else {
        return Ok(());
    };
    let (label, help) = match error.classify() {
        Category::Memory => return Err(AllocError),
        Category::Eof => ("the text ends too early", ""),
        _ if str::from_utf8(input.bytes).is_err() => ("this isn't UTF-8", "save the file as UTF-8"),
        _ if input.bytes.starts_with("\u{feff}".as_bytes()) => (
            "a byte order mark stands here",
            "save the file without a byte order mark",
        ),
        _ => (
            "this can't stand here",
            "JSON has its names and texts in double quotes, a comma between two members, and none after the last",
        ),
    };
    let offset = offset_of_error(input.bytes, &error);
    let rest = input.bytes.get(offset..).unwrap_or(&[]);
    let note = Note {
        input,
        offset,
        length: first_character(rest).len().max(1),
        message: "this is no JSON",
        fault,
        label,
        help,
    };
    out.add_note(alloc, &note)
}
