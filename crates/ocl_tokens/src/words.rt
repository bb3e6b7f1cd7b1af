//! Reserved terminals and marks.

ghost use Rattle.std.specs.Prelude.{◌≡◌};
ghost use Rattle.ocl_tokens.specs.Lexical as spec;

use crate::token::TokenKind;

/// The kind of a word: one of the reserved ones, else an identifier.
pub(crate) fn word_kind(text: &str) -> TokenKind
    ensures { result ≡ spec.word_kind text.now }
{
    match text {
        "and" => TokenKind::And,
        "context" => TokenKind::Context,
        "div" => TokenKind::Div,
        "else" => TokenKind::Else,
        "endif" => TokenKind::Endif,
        "false" => TokenKind::False,
        "if" => TokenKind::If,
        "implies" => TokenKind::Implies,
        "in" => TokenKind::In,
        "inv" => TokenKind::Inv,
        "invalid" => TokenKind::Invalid,
        "let" => TokenKind::Let,
        "mod" => TokenKind::Mod,
        "not" => TokenKind::Not,
        "null" => TokenKind::Null,
        "or" => TokenKind::Or,
        "self" => TokenKind::SelfObject,
        "then" => TokenKind::Then,
        "true" => TokenKind::True,
        "xor" => TokenKind::Xor,
        _ => TokenKind::Identifier,
    }
}

/// The mark of two bytes that these are, as `->`.
pub(crate) fn mark_of_two(first: u8, second: u8) -> Option<TokenKind>
    ensures { result ≡ spec.mark_of_two first second }
{
    match (first, second) {
        (b':', b':') => Some(TokenKind::ColonColon),
        (b'-', b'>') => Some(TokenKind::Arrow),
        (b'<', b'>') => Some(TokenKind::NotEqual),
        (b'<', b'=') => Some(TokenKind::LessEqual),
        (b'>', b'=') => Some(TokenKind::GreaterEqual),
        _ => None,
    }
}

/// The mark of one byte that this is, as `(`.
pub(crate) fn mark_of_one(first: u8) -> Option<TokenKind>
    ensures { result ≡ spec.mark_of_one first }
{
    match first {
        b'(' => Some(TokenKind::Open),
        b')' => Some(TokenKind::Close),
        b',' => Some(TokenKind::Comma),
        b'.' => Some(TokenKind::Dot),
        b':' => Some(TokenKind::Colon),
        b';' => Some(TokenKind::Semicolon),
        b'|' => Some(TokenKind::Bar),
        b'+' => Some(TokenKind::Plus),
        b'-' => Some(TokenKind::Minus),
        b'*' => Some(TokenKind::Star),
        b'=' => Some(TokenKind::Equal),
        b'<' => Some(TokenKind::Less),
        b'>' => Some(TokenKind::Greater),
        _ => None,
    }
}
