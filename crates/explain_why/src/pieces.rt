//! Pieces of text, one after another.

ghost use Rattle.std.specs.Prelude.{◌≡◌, ◌++◌, OnOk, string_bytes};
ghost use Rattle.std.specs.Fmt.{decimal, signed_decimal};
ghost use Rattle.explain_why.specs.Explanation.{indent, more_line};

use ocl_base::OutOfMemory;
use std::alloc::Global;

/// Puts a text at the end.
pub fn put(out: &mut String, text: &str) -> Result<(), OutOfMemory>
    ensures { OnOk result (string_bytes out.new ≡ string_bytes out.old ++ text.now) }
{
    out.push_str(text)?;
    Ok(())
}

/// Puts a number at the end, in decimal digits.
pub(crate) fn put_count(alloc: Global, out: &mut String, count: usize) -> Result<(), OutOfMemory>
    ensures { OnOk result (string_bytes out.new ≡ string_bytes out.old ++ decimal count) }
{
    let digits = format!(in alloc; "{count}")?;
    put(out, &digits)
}

/// Puts a whole number at the end, with its sign where it is negative.
pub(crate) fn put_number(alloc: Global, out: &mut String, number: i64) -> Result<(), OutOfMemory>
    ensures { OnOk result (string_bytes out.new ≡ string_bytes out.old ++ signed_decimal number) }
{
    let digits = format!(in alloc; "{number}")?;
    put(out, &digits)
}

/// Puts two spaces for each level at the end.
pub(crate) fn put_indent(out: &mut String, level: usize) -> Result<(), OutOfMemory>
    ensures { OnOk result (string_bytes out.new ≡ string_bytes out.old ++ indent level) }
{
    for _ in 0..level {
        put(out, "  ")?;
    }
    Ok(())
}

/// Puts a line that says how many more there are, if there are more.
pub(crate) fn put_more(
    alloc: Global,
    out: &mut String,
    level: usize,
    more: usize,
) -> Result<(), OutOfMemory>
    ensures { OnOk result (string_bytes out.new ≡ string_bytes out.old ++ more_line level more) }
{
    if more == 0 {
        return Ok(());
    }
    put_indent(out, level)?;
    put(out, "and ")?;
    put_count(alloc, out, more)?;
    put(out, " more\n")
}
