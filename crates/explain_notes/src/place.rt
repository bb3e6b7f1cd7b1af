//! The line and column of a byte of a text.

ghost use Rattle.std.specs.Prelude.{◌≡◌, take};
ghost use Rattle.explain_notes.specs.Places.{begins_character, text_line, text_column};

/// A line, and a column in characters; both from 1.
#[derive(Clone, Copy)]
pub struct Place {
    /// The line.
    pub line: usize,
    /// The column.
    pub column: usize,
}

/// Whether a character of UTF-8 begins with this byte.
fn begins_character(byte: u8) -> bool
    ensures { result ≡ begins_character byte }
{
    byte < 128 || 192 <= byte
}

/// What stands before an offset; the whole text where it is past the end.
pub(crate) fn before(text: &[u8], offset: usize) -> &[u8]
    ensures { result.now ≡ take offset text.now }
{
    match text.get(..offset) {
        Some(before) => before,
        None => text,
    }
}

/// Where the byte at an offset stands; the end of the text for an offset past it.
pub fn place_of(text: &[u8], offset: usize) -> Place
    ensures line { result.line ≡ text_line text.now offset }
    ensures column { result.column ≡ text_column text.now offset }
{
    let before = before(text, offset);
    let mut line = 1;
    let mut column = 1;
    'bytes: for byte in before {
        if *byte == b'\n' {
            line += 1;
            column = 1;
        } else if begins_character(*byte) {
            column += 1;
        }
    }
    Place { line, column }
}
