//! Some rules of a text.

use explain_notes::{Input, Nearest};
use explain_refusals::Words;
use ocl_tokens::{TextFault, Token, TokenKind, tokens};
use std::alloc::{AllocError, Global};

/// A rule, or what stands above the rules of a context, by its tokens.
#[derive(Clone, Copy, Drop)]
struct Part<'t> {
    tokens: &'t [Token<'t>],
    /// The rule's name; none of a context.
    name: Option<&'t str>,
}

/// The tokens between two indexes.
fn tokens_between<'t>(tokens: &'t [Token<'t>], begin: usize, end: usize) -> &'t [Token<'t>] {
    tokens.get(begin..end).unwrap_or(tokens)
}

/// The part that begins with a token, if one does.
fn part_at<'t>(tokens: &'t [Token<'t>], begin: usize) -> Option<Part<'t>> {
    let rest = tokens.get(begin..).unwrap_or(tokens);
    let name = match rest.first()?.kind {
        TokenKind::Context => None,
        TokenKind::Inv => Some(rest.get(1).map_or("", |name| name.text)),
        _ => return None,
    };
    let length = rest
        .iter()
        .skip(1)
        .take_while(|token| !matches!(token.kind, TokenKind::Context | TokenKind::Inv))
        .count();
    Some(Part {
        tokens: tokens_between(rest, 0, length.saturating_add(1)),
        name,
    })
}

/// The parts of a text, in their order.
fn parts_of<'t>(alloc: Global, tokens: &'t [Token<'t>]) -> Result<Vec<Part<'t>>, AllocError> {
    let mut parts = Vec::new(alloc);
    for begin in 0..tokens.len() {
        if let Some(part) = part_at(tokens, begin) {
            parts.push(part)?;
        }
    }
    Ok(parts)
}

/// Whether names that are separated by commas have one.
fn has_name(names: &str, name: &str) -> bool {
    names.split(',').any(|one| one == name)
}

/// Whether the part of an index stays: a rule of one of the names, or a context above one.
fn stays(parts: &[Part<'_>], index: usize, names: &str) -> bool {
    for (distance, part) in parts.iter().skip(index).enumerate() {
        match part.name {
            Some(name) if has_name(names, name) => return true,
            Some(_) if distance == 0 => return false,
            None if distance > 0 => return false,
            _ => (),
        }
    }
    false
}

/// What a text has from an offset on up to the end of that line.
fn rest_of_line(text: &str, offset: usize) -> &str {
    let rest = text.as_bytes().get(offset..).unwrap_or(&[]);
    let length = rest.iter().position(|byte| *byte == b'\n');
    let line = rest.get(..length.unwrap_or(rest.len())).unwrap_or(rest);
    str::from_utf8(line).unwrap_or("")
}

/// Where a part ends whose last token ends at an offset: behind the comment that follows on that line, if there is nothing else.
fn end_of(text: &str, end: usize) -> usize {
    let rest = rest_of_line(text, end);
    if rest.trim().starts_with("--") {
        return end.saturating_add(rest.len());
    }
    end
}

/// Puts spaces in place of a part of the whole text, and of the comment behind it on its last line, but for ends of lines. So that
/// comment isn't taken for the message of the next rule.
fn blank(text: &mut Vec<u8>, whole: &str, part: Part<'_>) {
    let (Some(first), Some(last)) = (part.tokens.first(), part.tokens.last()) else {
        return;
    };
    for index in first.span.start..end_of(whole, last.span.end) {
        if let Some(byte) = text.get_mut(index)
            && *byte != b'\n'
        {
            *byte = b' ';
        }
    }
}

/// The first of some names, separated by commas, that no rule has, in words.
fn unknown_name(
    alloc: Global,
    path: &str,
    parts: &[Part<'_>],
    names: &str,
) -> Result<Option<String>, AllocError> {
    for name in names.split(',') {
        if parts.iter().any(|part| part.name == Some(name)) {
            continue;
        }
        let mut nearest = Nearest::to(name);
        for part in parts {
            if let Some(other) = part.name {
                nearest.offer(alloc, other)?;
            }
        }
        return Ok(Some(no_rule(alloc, path, name, &nearest)?));
    }
    Ok(None)
}

/// That no rule of a text has a name, with the nearest that one has.
pub(crate) fn no_rule(alloc: Global, path: &str, name: &str, nearest: &Nearest<'_>) -> Words {
    match nearest.name() {
        Some(near) => {
            format!(in alloc; "{path}: no rule is named `{name}`; did you mean `{near}`?\n")
        }
        None => format!(in alloc; "{path}: no rule is named `{name}`\n"),
    }
}

/// Some rules of a text.
#[derive(Drop)]
pub enum Selected {
    /// The text with spaces in place of the other rules, so that each place stays.
    Text(Vec<u8>),
    /// No rule has one of the names, in words.
    Unknown(String),
}

/// Leaves the rules of some names in a text, which are separated by commas. A text that has no tokens stays as it is, and so
/// does each comment that stands on lines of its own.
pub fn select_rules(alloc: Global, rules: Input<'_>, names: &str) -> Result<Selected, AllocError> {
    let mut text = Vec::from_slice(alloc, rules.bytes)?;
    let whole = str::from_utf8(rules.bytes).unwrap_or("");
    let tokens = match tokens(alloc, whole) {
        Ok(tokens) => tokens,
        Err(TextFault::At { .. }) => return Ok(Selected::Text(text)),
        Err(TextFault::OutOfMemory) => return Err(AllocError),
    };
    let parts = parts_of(alloc, &tokens)?;
    if let Some(words) = unknown_name(alloc, rules.path, &parts, names)? {
        return Ok(Selected::Unknown(words));
    }
    for (index, part) in parts.iter().enumerate() {
        if !stays(&parts, index, names) {
            blank(&mut text, whole, *part);
        }
    }
    Ok(Selected::Text(text))
}
