//! The lines of a report, or of a refusal, and their words.

ghost use Rattle.std.specs.Prelude.{◌≡◌, ◌++◌, IfOk, OnOk, map};
ghost use Rattle.report_forms.specs.ReportRows.{lines_in, words_in, word_at, ended_line};

use std::alloc::{AllocError, Global};

/// The numbers in the line of a rule.
#[derive(Clone, Copy)]
pub(crate) struct Counts<'t> {
    pub(crate) objects: &'t [u8],
    pub(crate) holds: &'t [u8],
    pub(crate) fails: &'t [u8],
    pub(crate) undecided: &'t [u8],
}

/// The lines of a report, and after the last line feed an empty one.
pub fn lines_in(alloc: Global, text: &[u8]) -> Result<Vec<&[u8]>, AllocError>
    ensures { IfOk result (λ v. map (λ l. l.now) v.items ≡ lines_in text.now) }
{
    text.split(|b| *b == b'\n').collect(alloc)
}

/// The words of a line of a report, between its spaces.
pub fn words_in(alloc: Global, line: &[u8]) -> Result<Vec<&[u8]>, AllocError>
    ensures { IfOk result (λ v. map (λ w. w.now) v.items ≡ words_in line.now) }
{
    line.split(|b| *b == b' ').collect(alloc)
}

/// The word of a number; none is empty.
pub fn word_at<'w>(words: &[&'w [u8]], number: usize) -> &'w [u8]
    ensures { result.now ≡ word_at (map (λ w. w.now) words.now) number }
{
    match words.get(number) {
        Some(word) => word,
        None => &[],
    }
}

/// Puts a line with its end; nothing for what comes after the last line.
pub fn put_ended(out: &mut Vec<u8>, line: &[u8]) -> Result<(), AllocError>
    ensures { OnOk result (out.new.items ≡ out.old.items ++ ended_line line.now) }
{
    if line.is_empty() {
        return Ok(());
    }
    out.extend_from_slice(line)?;
    out.extend_from_slice(b"\n")
}
