//! Identifiers, the reserved words of OCL, and names.

ghost use Rattle.std.specs.Prelude.{◌≡◌};
ghost use Rattle.std.specs.List.{list_all};
ghost use Rattle.ocl_base.specs.Words.{is_letter, is_letter_or_digit, begins_with_letter, is_identifier, is_reserved, is_name};

fn is_letter(byte: u8) -> bool
    ensures { result ≡ is_letter byte }
{
    byte.is_ascii_alphabetic() || byte == b'_'
}

fn is_letter_or_digit(byte: u8) -> bool
    ensures { result ≡ is_letter_or_digit byte }
{
    is_letter(byte) || byte.is_ascii_digit()
}

fn begins_with_letter(bytes: &[u8]) -> bool
    ensures { result ≡ begins_with_letter bytes.now }
{
    match bytes {
        [first, ..] => is_letter(*first),
        [] => false,
    }
}

fn are_letters_or_digits(bytes: &[u8]) -> bool
    ensures { result ≡ list_all is_letter_or_digit bytes.now }
{
    bytes.iter().all(|byte| is_letter_or_digit(*byte))
}

/// Whether a text is an identifier: an ASCII letter or `_`, then ASCII letters, digits and `_`, as many as there are.
#[tactic(auto, unfolding(crate::specs::Words::is_identifier))]
pub fn is_identifier(text: &str) -> bool
    ensures { result ≡ is_identifier text.now }
{
    let bytes = text.as_bytes();
    begins_with_letter(bytes) && are_letters_or_digits(bytes)
}

/// Whether a text is one of the twenty reserved words of OCL, which name nothing.
#[tactic(auto, unfolding(crate::specs::Words::is_reserved))]
pub fn is_reserved(text: &str) -> bool
    ensures { result ≡ is_reserved text.now }
{
    matches!(
        text,
        "and"
            | "context"
            | "div"
            | "else"
            | "endif"
            | "false"
            | "if"
            | "implies"
            | "in"
            | "inv"
            | "invalid"
            | "let"
            | "mod"
            | "not"
            | "null"
            | "or"
            | "self"
            | "then"
            | "true"
            | "xor"
    )
}

/// Whether a text may name something: an identifier that isn't reserved.
#[tactic(auto, unfolding(crate::specs::Words::is_name))]
pub fn is_name(text: &str) -> bool
    ensures { result ≡ is_name text.now }
{
    is_identifier(text) && !is_reserved(text)
}
