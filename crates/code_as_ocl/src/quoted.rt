//! Texts within quotes, whole.

ghost use Rattle.std.specs.Prelude.{◌≡◌, ◌++◌, [], ◌∷◌, IfOk, OnOk, string_bytes};
ghost use Rattle.std.specs.List.{flat_map};
ghost use Rattle.std.specs.Str.{chars};
ghost use Rattle.explain_why.specs.Values.{quoted_character};
ghost use Rattle.code_as_ocl.specs.TypedTexts as typed;

use explain_why::{put, put_character};
use ocl_base::OutOfMemory;
use std::alloc::Global;

/// Puts all characters of a text.
fn put_characters(out: &mut String, text: &str) -> Result<(), OutOfMemory>
    ensures { OnOk result (string_bytes out.new ≡ string_bytes out.old ++
        flat_map quoted_character (chars text.now)) }
{
    'characters: for character in text.chars() {
        put_character(out, character)?;
    }
    Ok(())
}

/// A text within quotes, with all its characters.
pub(crate) fn whole_text(alloc: Global, text: &str) -> Result<String, OutOfMemory>
    ensures { IfOk result (λ s. string_bytes s ≡ typed.whole_text (chars text.now)) }
{
    let mut out = String::new(alloc);
    put(&mut out, "'")?;
    put_characters(&mut out, text)?;
    put(&mut out, "'")?;
    Ok(out)
}
