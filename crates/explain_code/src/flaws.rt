//! Why bytes are no code file.

use crate::fields::field_at;
use explain_notes::Input;
use rule_code::CodeFlaw;
use std::alloc::{AllocError, Global};

/// The most bytes that are shown.
const MAX_SHOWN: usize = 8;

/// What is wrong with a field, in words.
fn words_of(flaw: CodeFlaw) -> &'static str {
    match flaw {
        CodeFlaw::Magic => "isn't there",
        CodeFlaw::Version => "is neither 1 nor 2",
        CodeFlaw::Truncated => "is cut off",
        CodeFlaw::BadOpcode => "is no opcode",
        CodeFlaw::BadText => {
            "isn't UTF-8, or no name of a rule: an identifier that isn't reserved and stands on no earlier rule"
        }
        CodeFlaw::BadNumber => "names nothing that may stand there",
        CodeFlaw::Limit => "is above its limit",
        CodeFlaw::Trailing => "shouldn't be there",
    }
}

/// The bytes at an offset, as hexadecimal digits.
fn digits_at(alloc: Global, bytes: &[u8], offset: usize) -> Result<String, AllocError> {
    let mut out = String::new(alloc);
    let rest = bytes.get(offset..).unwrap_or(&[]);
    for byte in rest.iter().take(MAX_SHOWN) {
        write!(&mut out, " {byte:02x}")?;
    }
    if rest.len() > MAX_SHOWN {
        out.push_str(" ..")?;
    }
    Ok(out)
}

/// Whether bytes look like a rule text: they begin as one, white space and comments left out.
fn looks_like_text(bytes: &[u8]) -> bool {
    let Ok(text) = str::from_utf8(bytes) else {
        return false;
    };
    let text = text.trim_start();
    text.starts_with("context") || text.starts_with("--") || text.starts_with("/*")
}

/// Writes why bytes are no code file that have this flaw at an offset.
pub fn explain_code_flaw(
    alloc: Global,
    out: &mut String,
    input: Input<'_>,
    flaw: CodeFlaw,
    offset: usize,
) -> Result<(), AllocError> {
    let (path, bytes) = (input.path, input.bytes);
    let number = flaw.number();
    if looks_like_text(bytes) {
        writeln!(
            out,
            "{path}: this is a rule text, and no code file (code {number})"
        )?;
        return writeln!(out, "  give --text, or compile it to a code file first");
    }
    let field = field_at(alloc, bytes, offset)?;
    let words = words_of(flaw);
    let digits = digits_at(alloc, bytes, offset)?;
    writeln!(
        out,
        "{path}: byte {offset} (0x{offset:x}): {field} {words} (code {number})"
    )?;
    if digits.is_empty() {
        return writeln!(out, "  the file ends here");
    }
    writeln!(out, "  here:{digits}")
}
