//! Parts of a rule text between the places at which the reading goes on after a fault: each `context` and each `inv`.

use ocl_tokens::{Token, TokenKind};
use std::alloc::{AllocError, Global};

/// A part of a text: where it begins and ends, in bytes.
#[derive(Clone, Copy)]
pub(crate) struct Range {
    pub(crate) start: usize,
    pub(crate) end: usize,
}

impl Range {
    /// The part.
    pub(crate) fn of(self, text: &str) -> &str {
        part_of(text, self.start, self.end)
    }

    /// Whether one of these places is in it.
    pub(crate) fn has_one_of(self, places: &[usize]) -> bool {
        for place in places {
            if self.start <= *place && *place < self.end {
                return true;
            }
        }
        false
    }
}

/// A part of a text.
pub(crate) fn part_of(text: &str, start: usize, end: usize) -> &str {
    match text.as_bytes().get(start..end) {
        Some(own) => str::from_utf8(own).unwrap_or(""),
        None => "",
    }
}

/// A rule, from its `inv` on; or a heading: what stands before rules, from its `context` on or from the beginning of the text.
#[derive(Clone, Copy)]
pub(crate) struct Section {
    pub(crate) is_rule: bool,
    pub(crate) range: Range,
    /// The index of its first token.
    pub(crate) first: usize,
    /// The index behind its last token.
    pub(crate) last: usize,
}

impl Section {
    /// A heading or a rule that begins at an offset with the token of an index.
    fn begun(is_rule: bool, start: usize, first: usize) -> Section {
        let range = Range { start, end: start };
        Section {
            is_rule,
            range,
            first,
            last: first,
        }
    }

    /// The same, that ends before an offset and before the token of an index.
    fn ended(self, end: usize, last: usize) -> Section {
        let range = Range {
            start: self.range.start,
            end,
        };
        Section {
            range,
            last,
            ..self
        }
    }
}

/// The sections of a text of these tokens that ends at an offset. The first is a heading, which may have no token.
pub(crate) fn sections_of(
    alloc: Global,
    tokens: &[Token<'_>],
    end: usize,
) -> Result<Vec<Section>, AllocError> {
    let mut sections = Vec::new(alloc);
    let mut open = Section::begun(false, 0, 0);
    for (index, token) in tokens.iter().enumerate() {
        let is_rule = matches!(token.kind, TokenKind::Inv);
        if is_rule || matches!(token.kind, TokenKind::Context) {
            let start = token.span.start;
            sections.push(open.ended(start, index))?;
            open = Section::begun(is_rule, start, index);
        }
    }
    sections.push(open.ended(end, tokens.len()))?;
    Ok(sections)
}
