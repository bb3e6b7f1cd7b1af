//! The first lines of a long text.

ghost use Rattle.std.specs.Prelude.{◌≡◌, ◌≤◌, ◌++◌, ◌-◌, length, take, IfOk, string_bytes};
ghost use Rattle.explain_notes.specs.Lines.{line_count, first_lines, lines_word, more_lines, cut_text};

use std::alloc::{AllocError, Global};

/// How many lines a text has.
fn line_count(text: &[u8]) -> usize
    ensures { result ≡ line_count text.now }
{
    text.iter().filter(|byte| **byte == b'\n').count()
}

/// Where the first lines of a text end, in bytes from 0.
fn end_of_lines(text: &[u8], lines: usize) -> usize
    ensures lines { take result text.now ≡ first_lines lines text.now }
    ensures inside { result ≤ length text.now }
{
    let mut left = lines;
    for index in 0..text.len() {
        if left == 0 {
            return index;
        }
        if text[index] == b'\n' {
            left -= 1;
        }
    }
    text.len()
}

fn lines_word(count: usize) -> &'static str
    ensures { result.now ≡ lines_word count }
{
    if count == 1 {
        " more line\n"
    } else {
        " more lines\n"
    }
}

/// How many more lines there are, if there are more.
fn more_lines(alloc: Global, more: usize) -> Result<String, AllocError>
    ensures { IfOk result (λ s. string_bytes s ≡ more_lines more) }
{
    let mut out = String::new(alloc);
    if more > 0 {
        let digits = format!(in alloc; "{more}")?;
        out.push_str("and ")?;
        out.push_str(&digits)?;
        out.push_str(lines_word(more))?;
    }
    Ok(out)
}

/// The first lines of a text, and how many more there are.
pub fn cut_text(alloc: Global, text: &[u8], lines: usize) -> Result<Vec<u8>, AllocError>
    ensures { IfOk result (λ v. v.items ≡ cut_text lines text.now) }
{
    let mut out = Vec::from_slice(alloc, &text[..end_of_lines(text, lines)])?;
    let more = more_lines(alloc, line_count(text).saturating_sub(lines))?;
    out.extend_from_slice(more.as_bytes())?;
    Ok(out)
}
