//! The text that the spelling of a string denotes.

ghost use Rattle.std.specs.Prelude.{◌≡◌, IfOk, string_bytes};
ghost use Rattle.ocl_text.specs.Strings as spec;

use std::alloc::{AllocError, Global};

/// What stands after a backslash.
fn escape_value(character: char) -> char
    ensures { result ≡ spec.escape_value character }
{
    match character {
        'b' => '\x08',
        't' => '\t',
        'n' => '\n',
        'f' => '\x0c',
        'r' => '\r',
        other => other,
    }
}

/// The characters of a string, from its spelling with quotes and escapes.
pub(crate) fn string_value(alloc: Global, spelling: &str) -> Result<String, AllocError>
    ensures { IfOk result (λ value. string_bytes value ≡ spec.string_value spelling.now) }
{
    let mut value = String::new(alloc);
    let mut after_backslash = false;
    'characters: for character in spelling.chars() {
        if after_backslash {
            value.push(escape_value(character))?;
            after_backslash = false;
        } else if character == '\\' {
            after_backslash = true;
        } else if character != '\'' {
            value.push(character)?;
        }
    }
    Ok(value)
}
