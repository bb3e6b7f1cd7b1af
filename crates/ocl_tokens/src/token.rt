//! Tokens, and their ranges in the text.

ghost use Rattle.std.specs.Prelude.{◌≡◌, true};
ghost use Rattle.ocl_tokens.specs.Written.{is_written};

/// The largest number that a text may write: 2^63 - 1.
pub const MAX_NUMBER: u64 = 0x7fff_ffff_ffff_ffff;

/// What a token is.
#[derive(Clone, Copy)]
pub enum TokenKind {
    /// An ASCII letter or `_`, then ASCII letters, digits or `_`, and no reserved word.
    Identifier,
    /// A whole number with its value, at most `MAX_NUMBER`.
    Number(u64),
    /// A string, its quotes and escapes as they are written.
    String,
    /// `and`
    And,
    /// `context`
    Context,
    /// `div`
    Div,
    /// `else`
    Else,
    /// `endif`
    Endif,
    /// `false`
    False,
    /// `if`
    If,
    /// `implies`
    Implies,
    /// `in`
    In,
    /// `inv`
    Inv,
    /// `invalid`
    Invalid,
    /// `let`
    Let,
    /// `mod`
    Mod,
    /// `not`
    Not,
    /// `null`
    Null,
    /// `or`
    Or,
    /// `self`
    SelfObject,
    /// `then`
    Then,
    /// `true`
    True,
    /// `xor`
    Xor,
    /// `(`
    Open,
    /// `)`
    Close,
    /// `,`
    Comma,
    /// `.`
    Dot,
    /// `:`
    Colon,
    /// `::`
    ColonColon,
    /// `;`
    Semicolon,
    /// `|`
    Bar,
    /// `->`
    Arrow,
    /// `+`
    Plus,
    /// `-`
    Minus,
    /// `*`
    Star,
    /// `=`
    Equal,
    /// `<>`
    NotEqual,
    /// `<`
    Less,
    /// `<=`
    LessEqual,
    /// `>`
    Greater,
    /// `>=`
    GreaterEqual,
}

/// A part of the text, in bytes from 0.
#[derive(Clone, Copy)]
pub struct Span {
    /// The first byte.
    pub start: usize,
    /// The byte after the last.
    pub end: usize,
}

/// A token. An identifier is no reserved word, and a number is at most `MAX_NUMBER`.
#[derive(Clone, Copy)]
pub struct Token<'a> {
    /// What it is.
    pub kind: TokenKind,
    /// Where it stands.
    pub span: Span,
    /// How it is written: the slice of the text that its span cuts out.
    pub text: &'a str,
    ghost written: { is_written kind text.now ≡ true },
}
