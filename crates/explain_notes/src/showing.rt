//! Bytes of an input as a terminal can show them.

ghost use Rattle.std.specs.Prelude.{◌≡◌, ◌++◌, OnOk, string_bytes, encode_utf8};
ghost use Rattle.explain_notes.specs.Showing.{
  steers,
  is_other_space,
  is_ignorable_above,
  is_ignorable,
  is_escaped,
  hexadecimal_digit,
  escape_of,
  shown_character,
};

use std::alloc::{AllocError, Global};

/// The longest value that is quoted whole, in characters.
const MAX_QUOTED: usize = 60;

/// Whether a character moves a terminal's cursor, colours its text, or turns the direction of what follows.
pub fn steers(character: char) -> bool
    ensures { result ≡ steers character }
{
    let code = u32::from(character);
    code < 32
        || (127 <= code && code < 160)
        || code == 1564
        || (8206 <= code && code <= 8207)
        || (8232 <= code && code <= 8238)
        || (8294 <= code && code <= 8297)
}

/// Whether a character is a space that isn't U+0020, and looks like it.
fn is_other_space(character: char) -> bool
    ensures { result ≡ is_other_space character }
{
    let code = u32::from(character);
    code == 160
        || code == 5760
        || (8192 <= code && code <= 8202)
        || code == 8239
        || code == 8287
        || code == 12288
}

/// `is_ignorable`, of a number above U+FFFF.
fn is_ignorable_above(code: u32) -> bool
    ensures { result ≡ is_ignorable_above code }
{
    (113824 <= code && code <= 113827)
        || (119155 <= code && code <= 119162)
        || (917504 <= code && code <= 921599)
}

/// Whether nothing is shown of a character: Unicode's Default_Ignorable_Code_Point, and the marks of annotations.
fn is_ignorable(character: char) -> bool
    ensures { result ≡ is_ignorable character }
{
    let code = u32::from(character);
    code == 173
        || code == 847
        || (4447 <= code && code <= 4448)
        || (6068 <= code && code <= 6069)
        || (6155 <= code && code <= 6159)
        || (8203 <= code && code <= 8207)
        || (8288 <= code && code <= 8303)
        || code == 12644
        || (65024 <= code && code <= 65039)
        || code == 65279
        || code == 65440
        || (65520 <= code && code <= 65531)
        || is_ignorable_above(code)
}

/// Writes a hexadecimal digit: the last one of a number.
fn push_digit(out: &mut String, number: u32) -> Result<(), AllocError>
    ensures { OnOk result (string_bytes out.new ≡ string_bytes out.old ++
        encode_utf8 (hexadecimal_digit number)) }
{
    out.push(char::from(b"0123456789abcdef"[number as usize % 16]))
}

/// Writes `\u{..}` with the number of a character in four hexadecimal digits, or five.
fn push_escape(out: &mut String, character: char) -> Result<(), AllocError>
    ensures { OnOk result (string_bytes out.new ≡ string_bytes out.old ++ escape_of character) }
{
    let number = u32::from(character);
    out.push_str("\\u{")?;
    if 65536 <= number {
        push_digit(out, number / 65536)?;
    }
    push_digit(out, number / 4096)?;
    push_digit(out, number / 256)?;
    push_digit(out, number / 16)?;
    push_digit(out, number)?;
    out.push_str("}")
}

/// Writes a character, or its escape where it would steer a terminal, isn't seen, or looks like the space.
pub fn push_shown(out: &mut String, character: char) -> Result<(), AllocError>
    ensures { OnOk result (string_bytes out.new ≡ string_bytes out.old ++
        shown_character character) }
{
    if steers(character) || is_other_space(character) || is_ignorable(character) {
        return push_escape(out, character);
    }
    out.push(character)
}

/// The first character of some bytes; nothing where they begin with none.
pub fn first_character(bytes: &[u8]) -> &str {
    for length in 1..5usize {
        if let Some(front) = bytes.get(..length)
            && let Ok(text) = str::from_utf8(front)
        {
            return text;
        }
    }
    ""
}

/// A part of a line as it is shown, character by character: a tab as a space, and what would steer a terminal or isn't
/// seen as an escape. Where it isn't UTF-8, every byte that isn't ASCII is a question mark.
pub fn visible_text(alloc: Global, bytes: &[u8]) -> Result<String, AllocError> {
    let mut out = String::new(alloc);
    match str::from_utf8(bytes) {
        Ok(text) => {
            for character in text.chars() {
                push_in_line(&mut out, character)?;
            }
        }
        Err(_) => {
            for byte in bytes {
                let shown = if byte.is_ascii() {
                    char::from(*byte)
                } else {
                    '?'
                };
                push_in_line(&mut out, shown)?;
            }
        }
    }
    Ok(out)
}

/// Writes a character of a line: a tab as a space.
fn push_in_line(out: &mut String, character: char) -> Result<(), AllocError> {
    push_shown(out, if character == '\t' { ' ' } else { character })
}

/// A text as it is quoted in a message: what `visible_text` shows of it, cut after 60 characters.
pub fn quote(alloc: Global, text: &str) -> Result<String, AllocError> {
    let mut out = String::new(alloc);
    let mut left = MAX_QUOTED;
    for character in text.chars() {
        if left == 0 {
            out.push_str("..")?;
            return Ok(out);
        }
        left -= 1;
        push_in_line(&mut out, character)?;
    }
    Ok(out)
}
