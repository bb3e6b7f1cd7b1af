//! What a text begins with.

ghost use Rattle.std.specs.Prelude.{◌≡◌, ◌≤◌, ◌<◌, ◌+◌, ◌-◌, ◌^◌, false, None, ◌∷◌, length, slice_index, IfSome};
ghost use Rattle.std.specs.List.{prefix_len};
ghost use Rattle.std.specs.Char.{is_ascii_digit};
ghost use Rattle.ocl_base.specs.Words as words;
ghost use Rattle.ocl_tokens.specs.Lexical as lexical;
ghost use Rattle.ocl_tokens.specs.FirstLexeme as spec;

use crate::fault::TextFlaw;
use crate::token::{MAX_NUMBER, TokenKind};
use crate::words::{mark_of_one, mark_of_two, word_kind};

/// What a text begins with, and how many bytes it has; of a flaw, how far from the beginning it lies.
#[derive(Clone, Copy)]
pub(crate) enum Lexeme {
    End,
    Blank(usize),
    Token(TokenKind, usize),
    Fault(TextFlaw, usize),
}

fn is_white(byte: u8) -> bool
    ensures { result ≡ lexical.is_white byte }
{
    matches!(byte, b' ' | b'\t' | b'\n' | b'\x0c' | b'\r')
}

fn is_letter(byte: u8) -> bool
    ensures { result ≡ words.is_letter byte }
{
    byte.is_ascii_alphabetic() || byte == b'_'
}

fn is_letter_or_digit(byte: u8) -> bool
    ensures { result ≡ words.is_letter_or_digit byte }
{
    is_letter(byte) || byte.is_ascii_digit()
}

fn word_len(bytes: &[u8]) -> usize
    ensures len { result ≡ prefix_len words.is_letter_or_digit bytes.now }
    ensures within { result ≤ length bytes.now }
{
    bytes.iter().take_while(|b| is_letter_or_digit(**b)).count()
}

fn line_len(bytes: &[u8]) -> usize
    ensures len { result ≡ prefix_len lexical.in_line bytes.now }
    ensures within { result ≤ length bytes.now }
{
    bytes.iter().take_while(|b| **b != b'\n').count()
}

fn digit_len(bytes: &[u8]) -> usize
    ensures len { result ≡ prefix_len is_ascii_digit bytes.now }
    ensures within { result ≤ length bytes.now }
{
    bytes.iter().take_while(|b| b.is_ascii_digit()).count()
}

fn starts_with(bytes: &[u8], byte: u8) -> bool
    ensures { result ≡ lexical.starts_with bytes.now byte }
{
    match bytes {
        [] => false,
        [first, ..] => *first == byte,
    }
}

/// Whether a comment ends with this byte and the next.
fn ends_comment(byte: u8, after: &[u8]) -> bool
    ensures { result ≡ lexical.ends_comment byte after.now }
{
    byte == b'*' && starts_with(after, b'/')
}

/// How many bytes there are through the end of a comment.
#[tactic(auto, using(crate::proofs::Runs::comment_end, crate::proofs::Runs::comment_stop, crate::proofs::Runs::comment_more))]
fn comment_len(bytes: &[u8]) -> Option<usize>
    ensures len { result ≡ spec.comment_from 0 bytes.now }
    ensures end { IfSome result (λ n.
        (1 < n) × (n ≤ length bytes.now) × (slice_index bytes.now (n - 1) ≡ 47)) }
{
    for (at, byte) in bytes.iter().enumerate() {
        if ends_comment(*byte, &bytes[at + 1..]) {
            return Some(at + 2);
        }
    }
    None
}

/// What the digits at the beginning write, up to the limit of a number.
#[tactic(auto, using(crate::proofs::Runs::digits_end, crate::proofs::Runs::digits_stop, crate::proofs::Runs::digits_large, crate::proofs::Runs::digits_more))]
fn number_value(bytes: &[u8]) -> Option<u64>
    ensures { result ≡ spec.number_value bytes.now }
{
    let mut value = 0u64;
    'digits: for byte in bytes {
        if !byte.is_ascii_digit() {
            return Some(value);
        }
        let next = u128::from(value) * 10 + u128::from(*byte - b'0');
        if next > u128::from(MAX_NUMBER) {
            return None;
        }
        value = next as u64;
    }
    Some(value)
}

fn is_escape(byte: u8) -> bool
    ensures { result ≡ lexical.is_escape byte }
{
    matches!(
        byte,
        b'b' | b't' | b'n' | b'f' | b'r' | b'"' | b'\'' | b'\\'
    )
}

/// The first bad escape, once this byte, which stands at `at`, was read too.
fn bad_after(escaped: bool, bad: Option<usize>, at: usize, byte: u8) -> Option<usize>
    ensures { result ≡ spec.bad_after escaped bad at byte }
{
    match bad {
        Some(first) => Some(first),
        None => {
            if escaped && !is_escape(byte) {
                Some(at)
            } else {
                None
            }
        }
    }
}

/// After an opening quote: how long the string is with both quotes, and where its first bad escape is.
#[tactic(auto, using(crate::proofs::Runs::string_end, crate::proofs::Runs::string_stop, crate::proofs::Runs::string_more))]
fn string_len(bytes: &[u8]) -> Option<(usize, Option<usize>)>
    ensures value { result ≡ spec.string_from false None 0 bytes.now }
    ensures end { IfSome result (λ x. (1 < x.0) × (x.0 ≤ length bytes.now + 1)
        × (slice_index bytes.now (x.0 - 2) ≡ 39) × IfSome x.1 (λ p. p < x.0)) }
{
    let mut escaped = false;
    let mut bad = None;
    'string: for (at, byte) in bytes.iter().enumerate() {
        let ends = !escaped && *byte == b'\'';
        if ends {
            return Some((at + 2, bad));
        }
        bad = bad_after(escaped, bad, at, *byte);
        escaped = !escaped && *byte == b'\\';
    }
    None
}

/// The mark of two bytes at the beginning.
fn mark_ahead(first: u8, rest: &[u8]) -> Option<TokenKind>
    ensures value { result ≡ lexical.mark_ahead first rest.now }
    ensures ends { IfSome result (λ kind. spec.LastIsAscii 2 (first ∷ rest.now)) }
{
    match rest {
        [] => None,
        [second, ..] => mark_of_two(first, *second),
    }
}

/// A token of one or two bytes.
fn mark(first: u8, rest: &[u8]) -> Lexeme
    ensures value { result ≡ spec.mark first rest.now }
    ensures ends { spec.EndsInAscii result (first ∷ rest.now) }
{
    if let Some(kind) = mark_ahead(first, rest) {
        return Lexeme::Token(kind, 2);
    }
    match mark_of_one(first) {
        Some(kind) => Lexeme::Token(kind, 1),
        None => Lexeme::Fault(TextFlaw::BadCharacter, 0),
    }
}

fn string(rest: &[u8]) -> Lexeme
    ensures value { result ≡ spec.string rest.now }
    ensures ends { spec.EndsInAscii result (39 ∷ rest.now) }
{
    match string_len(rest) {
        None => Lexeme::Fault(TextFlaw::OpenString, 0),
        Some((len, None)) => Lexeme::Token(TokenKind::String, len),
        Some((_, Some(at))) => Lexeme::Fault(TextFlaw::BadEscape, at),
    }
}

fn comment(rest: &[u8]) -> Lexeme
    ensures value { result ≡ spec.comment rest.now }
    ensures ends { spec.EndsInAscii result (47 ∷ 42 ∷ rest.now) }
{
    match comment_len(rest) {
        None => Lexeme::Fault(TextFlaw::OpenComment, 0),
        Some(len) => Lexeme::Blank(len + 2),
    }
}

fn number(bytes: &[u8]) -> Lexeme
    ensures { result ≡ spec.number_lexeme bytes.now }
{
    match number_value(bytes) {
        None => Lexeme::Fault(TextFlaw::NumberTooLarge, 0),
        Some(value) => Lexeme::Token(TokenKind::Number(value), digit_len(bytes)),
    }
}

fn word(text: &str) -> Lexeme
    ensures { result ≡ spec.a_word text.now }
{
    let len = word_len(text.as_bytes());
    Lexeme::Token(word_kind(&text[..len]), len)
}

/// What a text begins with.
#[tactic(auto, unfolding(crate::specs::FirstLexeme::first_lexeme))]
pub(crate) fn first_lexeme(text: &str) -> Lexeme
    ensures value { result ≡ spec.first_lexeme text.now }
    ensures ends { spec.EndsAtBoundary result text.now }
{
    let bytes = text.as_bytes();
    let Some((first, rest)) = bytes.split_first() else {
        return Lexeme::End;
    };
    if is_white(*first) {
        Lexeme::Blank(1)
    } else if *first == b'-' && starts_with(rest, b'-') {
        Lexeme::Blank(line_len(bytes))
    } else if *first == b'/' && starts_with(rest, b'*') {
        comment(&rest[1..])
    } else if *first == b'\'' {
        string(rest)
    } else if first.is_ascii_digit() {
        number(bytes)
    } else if is_letter(*first) {
        word(text)
    } else {
        mark(*first, rest)
    }
}
