//! Cells of a table in a file that spreadsheets open.

ghost use Rattle.std.specs.Prelude.{◌≡◌, ◌++◌, OnOk};
ghost use Rattle.std.specs.List.{flat_map};
ghost use Rattle.report_summary.specs.Cells.{
  begins_formula,
  guard,
  wants_quotes,
  needs_quotes,
  quoted_byte,
  quoted,
  table_cell,
};

use crate::pieces::put;
use std::alloc::AllocError;

/// Whether a spreadsheet takes a cell for a formula, by its first byte.
fn begins_formula(text: &[u8]) -> bool
    ensures { result ≡ begins_formula text.now }
{
    match text {
        [first, ..] => matches!(*first, b'=' | b'+' | b'-' | b'@' | b'\t' | b'\r'),
        [] => false,
    }
}

fn wants_quotes(byte: u8) -> bool
    ensures { result ≡ wants_quotes byte }
{
    matches!(byte, b',' | b'"' | b'\r' | b'\n')
}

/// Whether a cell has to be in quotes, since some byte of it would end it.
fn needs_quotes(text: &[u8]) -> bool
    ensures { result ≡ needs_quotes text.now }
{
    text.iter().any(|byte| wants_quotes(*byte))
}

fn put_quoted_byte(out: &mut Vec<u8>, byte: u8) -> Result<(), AllocError>
    ensures { OnOk result (out.new.items ≡ out.old.items ++ quoted_byte byte) }
{
    if byte == b'"' {
        return put(out, "\"\"");
    }
    out.extend_from_slice(&[byte])
}

fn put_quoted_bytes(out: &mut Vec<u8>, text: &[u8]) -> Result<(), AllocError>
    ensures { OnOk result (out.new.items ≡ out.old.items ++ flat_map quoted_byte text.now) }
{
    for byte in text {
        put_quoted_byte(out, *byte)?;
    }
    Ok(())
}

/// Puts an apostrophe where a spreadsheet would take the text for a formula.
fn put_guard(out: &mut Vec<u8>, text: &[u8]) -> Result<(), AllocError>
    ensures { OnOk result (out.new.items ≡ out.old.items ++ guard text.now) }
{
    if begins_formula(text) {
        return put(out, "'");
    }
    Ok(())
}

/// Puts a cell: in quotes where that is needed, and never as a formula.
pub(crate) fn put_cell(out: &mut Vec<u8>, text: &[u8]) -> Result<(), AllocError>
    ensures { OnOk result (out.new.items ≡ out.old.items ++ table_cell text.now) }
{
    if !needs_quotes(text) {
        put_guard(out, text)?;
        return out.extend_from_slice(text);
    }
    put(out, "\"")?;
    put_guard(out, text)?;
    put_quoted_bytes(out, text)?;
    put(out, "\"")
}
