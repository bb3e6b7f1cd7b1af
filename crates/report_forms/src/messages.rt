//! The messages of rules: the comment right above each, or else behind it on its line.

use crate::beside::RuleMessage;
use explain_notes::visible_text;
use ocl_tokens::{TextFault, Token, TokenKind, tokens};
use std::alloc::{AllocError, Global};

/// A part of a text; nothing where there is none.
fn part_of(text: &str, start: usize, end: usize) -> &str {
    match text.as_bytes().get(start..end) {
        Some(bytes) => str::from_utf8(bytes).unwrap_or(""),
        None => "",
    }
}

/// What a line of a comment has behind its dashes, without the white space round it. `None` for another line.
fn comment_in(line: &str) -> Option<&str> {
    let comment = line.trim().strip_prefix("--")?;
    Some(comment.trim_start_matches('-').trim())
}

/// Puts one more line of a message behind what is there, with a space between them. XML has no U+FFFE and no U+FFFF.
fn push_message(alloc: Global, message: &mut String, line: &str) -> Result<(), AllocError> {
    if !message.is_empty() {
        message.push_str(" ")?;
    }
    for character in visible_text(alloc, line.as_bytes())?.chars() {
        let is_in_xml = !matches!(character, '\u{fffe}' | '\u{ffff}');
        message.push(if is_in_xml { character } else { '?' })?;
    }
    Ok(())
}

/// The comment right above what follows a gap between two tokens: the whole lines at the gap's end, before the line that what
/// follows stands on.
fn comment_above(alloc: Global, gap: &str) -> Result<String, AllocError> {
    let lines = gap.split('\n').collect::<Vec<&str>>(alloc)?;
    let whole = lines.len().saturating_sub(1);
    let mut message = String::new(alloc);
    for line in lines.iter().take(whole).skip(1) {
        match comment_in(line) {
            Some(comment) => push_message(alloc, &mut message, comment)?,
            None => message.clear(),
        }
    }
    Ok(message)
}

/// Where the line of an offset ends.
fn line_end(text: &str, offset: usize) -> usize {
    let rest = text.as_bytes().get(offset..).unwrap_or(&[]);
    match rest.iter().position(|byte| *byte == b'\n') {
        Some(length) => offset.saturating_add(length),
        None => text.len(),
    }
}

/// The comment behind tokens on the line of the first of them.
fn comment_behind(alloc: Global, text: &str, tokens: &[Token<'_>]) -> Result<String, AllocError> {
    let mut message = String::new(alloc);
    let Some(first) = tokens.first() else {
        return Ok(message);
    };
    let end = line_end(text, first.span.start);
    for (index, token) in tokens.iter().enumerate() {
        if token.span.end >= end {
            break;
        }
        let next = match tokens.get(index.saturating_add(1)) {
            Some(next) => next.span.start.min(end),
            None => end,
        };
        if let Some(comment) = comment_in(part_of(text, token.span.end, next)) {
            push_message(alloc, &mut message, comment)?;
        }
    }
    Ok(message)
}

/// The message of the rule whose `inv` is the token of this index.
fn message_at(
    alloc: Global,
    text: &str,
    tokens: &[Token<'_>],
    index: usize,
) -> Result<String, AllocError> {
    let rest = tokens.get(index..).unwrap_or(&[]);
    let start = rest.first().map_or(0, |token| token.span.start);
    let before = tokens
        .get(index.saturating_sub(1))
        .map_or(0, |token| token.span.end);
    let message = comment_above(alloc, part_of(text, before, start))?;
    if message.is_empty() {
        return comment_behind(alloc, text, rest);
    }
    Ok(message)
}

/// The messages of the rules of a text that has tokens; none of another.
pub fn rule_messages(alloc: Global, text: &[u8]) -> Result<Vec<RuleMessage>, AllocError> {
    let mut messages = Vec::new(alloc);
    let text = str::from_utf8(text).unwrap_or("");
    let tokens = match tokens(alloc, text) {
        Ok(tokens) => tokens,
        Err(TextFault::At { .. }) => return Ok(messages),
        Err(TextFault::OutOfMemory) => return Err(AllocError),
    };
    for (index, token) in tokens.iter().enumerate() {
        if let TokenKind::Inv = token.kind
            && let Some(name) = tokens.get(index.saturating_add(1))
        {
            let message = message_at(alloc, text, &tokens, index)?;
            let rule = String::from_str(alloc, name.text)?;
            messages.push(RuleMessage { rule, message })?;
        }
    }
    Ok(messages)
}
