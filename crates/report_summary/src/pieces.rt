//! Pieces of an output, one after another.

ghost use Rattle.std.specs.Prelude.{◌≡◌, ◌++◌, OnOk};
ghost use Rattle.std.specs.Fmt.{decimal};

use std::alloc::{AllocError, Global};

/// Puts a text at the end.
pub(crate) fn put(out: &mut Vec<u8>, text: &str) -> Result<(), AllocError>
    ensures { OnOk result (out.new.items ≡ out.old.items ++ text.now) }
{
    out.extend_from_slice(text.as_bytes())
}

/// Puts a number at the end, in decimal digits.
pub(crate) fn put_number(alloc: Global, out: &mut Vec<u8>, number: u64) -> Result<(), AllocError>
    ensures { OnOk result (out.new.items ≡ out.old.items ++ decimal number) }
{
    let digits = format!(in alloc; "{number}")?;
    put(out, &digits)
}

/// Puts words, and the number behind them.
pub(crate) fn put_count(
    alloc: Global,
    out: &mut Vec<u8>,
    words: &str,
    count: u64,
) -> Result<(), AllocError> {
    put(out, words)?;
    put_number(alloc, out, count)
}
