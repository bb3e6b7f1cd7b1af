//! The tokens that the grammar allows at a place of a rule text: each is tried by parsing what is before it and that token.

use ocl_text::parse_rules;
use ocl_tokens::{TextFault, TextFlaw, Token, TokenKind};
use std::alloc::{AllocError, Global};

/// The longest part of a text that is parsed again, in bytes.
const MAX_PARSED: usize = 20_000;

/// Tokens that go on with something, each by itself.
static MARKS: [&str; 11] = [
    ")", ",", ":", ";", "|", "then", "else", "endif", "in", "inv", "context",
];

/// What begins an operand, or else binds a name.
static OPERANDS: [(&str, &str); 2] = [("1", "an expression"), ("x", "a name")];

/// What follows an operand, or else the name of a variable.
static OPERATORS: [(&str, &str); 2] = [("and", "an operator, `.`, `->`"), ("=", "`=`")];

/// What is before a place, from the last `context` on.
fn context_before<'t>(text: &'t str, tokens: &[Token<'_>], offset: usize) -> &'t [u8] {
    let mut start = 0;
    for token in tokens {
        if matches!(token.kind, TokenKind::Context) && token.span.start < offset {
            start = token.span.start;
        }
    }
    text.as_bytes().get(start..offset).unwrap_or(&[])
}

/// Whether a token can follow a part of a text.
fn can_follow(alloc: Global, part: &str, token: &str) -> Result<bool, AllocError> {
    let text = format!(in alloc; "{part}\n{token}")?;
    match parse_rules(alloc, text.as_str()) {
        Ok(_) => Ok(true),
        Err(TextFault::At { flaw, offset }) => Ok(match flaw {
            TextFlaw::Syntax => offset > part.len() && offset - part.len() > 1,
            TextFlaw::DuplicateRule => true,
            _ => false,
        }),
        Err(TextFault::OutOfMemory) => Err(AllocError),
    }
}

/// Adds one more to what could stand there.
fn add(out: &mut String, one: &str) -> Result<(), AllocError> {
    let before = if out.is_empty() { "wanted: " } else { ", " };
    out.push_str(before)?;
    out.push_str(one)
}

/// Adds the first of some tokens that can follow, in its words.
fn add_first(
    alloc: Global,
    out: &mut String,
    part: &str,
    tokens: &[(&str, &str)],
) -> Result<(), AllocError> {
    for (token, words) in tokens {
        if can_follow(alloc, part, *token)? {
            return add(out, *words);
        }
    }
    Ok(())
}

/// Adds the marks and words that can follow, as they are written.
fn add_marks(alloc: Global, out: &mut String, part: &str) -> Result<(), AllocError> {
    for mark in &MARKS {
        if can_follow(alloc, part, *mark)? {
            add(out, "`")?;
            out.push_str(*mark)?;
            out.push_str("`")?;
        }
    }
    Ok(())
}

/// Adds the end, if a part of a text can end there.
fn add_end(alloc: Global, out: &mut String, part: &str) -> Result<(), AllocError> {
    match parse_rules(alloc, part) {
        Ok(_) => add(out, "the end of the text"),
        Err(TextFault::At { .. }) => Ok(()),
        Err(TextFault::OutOfMemory) => Err(AllocError),
    }
}

/// Writes what can follow a part of a text, in words.
fn write_followers(alloc: Global, out: &mut String, part: &str) -> Result<(), AllocError> {
    add_first(alloc, out, part, &OPERANDS)?;
    add_first(alloc, out, part, &OPERATORS)?;
    if out.is_empty() && can_follow(alloc, part, "(")? {
        add(out, "`(`")?;
    }
    add_marks(alloc, out, part)?;
    add_end(alloc, out, part)
}

/// Writes what can stand at a place of a text with these tokens, in words; nothing where too much is before it to look.
pub(crate) fn write_wanted(
    alloc: Global,
    out: &mut String,
    text: &str,
    tokens: &[Token<'_>],
    offset: usize,
) -> Result<(), AllocError> {
    match str::from_utf8(context_before(text, tokens, offset)) {
        Ok(part) if part.len() <= MAX_PARSED => write_followers(alloc, out, part),
        _ => Ok(()),
    }
}
