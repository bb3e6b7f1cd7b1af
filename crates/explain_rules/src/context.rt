//! The context with which a rule is read by itself, at its own place.

use imkl_model::ClassModel;
use ocl_tokens::{Token, TokenKind};
use std::alloc::{AllocError, Global};

/// How a context begins.
const WORD: &str = "context";

/// A context's word and its class.
#[derive(Clone, Copy)]
pub(crate) struct Context<'t> {
    /// Where the word is.
    start: usize,
    pub(crate) class: &'t str,
    /// Where the class is.
    offset: usize,
    /// Whether types of rules can be looked at: the class is the model's, and it is the one that was meant.
    pub(crate) is_typed: bool,
}

impl<'t> Context<'t> {
    /// One of some class, for rules whose own class isn't known.
    pub(crate) fn unknown() -> Context<'t> {
        Context {
            start: 0,
            class: "x",
            offset: 8,
            is_typed: false,
        }
    }

    /// One of a word and of a class.
    fn new(model: &ClassModel, word: &Token<'t>, class: &Token<'t>) -> Context<'t> {
        Context {
            start: word.span.start,
            class: class.text,
            offset: class.span.start,
            is_typed: model.class(class.text).is_some(),
        }
    }

    /// The context that these tokens are; none where they aren't one.
    pub(crate) fn of(model: &ClassModel, tokens: &[Token<'t>]) -> Option<Context<'t>> {
        match (tokens.get(0), tokens.get(1), tokens.get(2)) {
            (Some(word), Some(class), None)
                if matches!(word.kind, TokenKind::Context)
                    && matches!(class.kind, TokenKind::Identifier) => {
                Some(Context::new(model, word, class))
            }
            _ => None,
        }
    }

    /// The context that was meant by these tokens: that of the only class that they name.
    pub(crate) fn meant(model: &ClassModel, tokens: &[Token<'t>]) -> Context<'t> {
        match (tokens.first(), only_class(model, tokens)) {
            (Some(word), Some(class)) if matches!(word.kind, TokenKind::Context) => {
                Context::new(model, word, &class)
            }
            _ => Context::unknown(),
        }
    }

    /// A text with nothing but the context, right before an offset; none where there is no room for it.
    pub(crate) fn before(self, alloc: Global, end: usize) -> Result<Option<String>, AllocError> {
        let class = self.class;
        let context = format!(in alloc; "{WORD} {class} ")?;
        let Some(start) = end.checked_sub(context.len()) else {
            return Ok(None);
        };
        let mut text = String::new(alloc);
        put_spaces(&mut text, start)?;
        text.push_str(context.as_str())?;
        Ok(Some(text))
    }

    /// The same with the context at its own place.
    pub(crate) fn placed(self, alloc: Global, end: usize) -> Result<Option<String>, AllocError> {
        let mut text = String::new(alloc);
        put_spaces(&mut text, self.start)?;
        text.push_str(WORD)?;
        put_spaces(&mut text, self.offset)?;
        text.push_str(self.class)?;
        if text.len() >= end {
            return Ok(None);
        }
        put_spaces(&mut text, end)?;
        Ok(Some(text))
    }

    /// Where the class ends.
    pub(crate) fn end(self) -> usize {
        self.offset.saturating_add(self.class.len())
    }
}

/// Puts spaces up to an offset.
pub(crate) fn put_spaces(out: &mut String, end: usize) -> Result<(), AllocError> {
    for _ in out.len()..end {
        out.push(' ')?;
    }
    Ok(())
}

/// The only class of a model that is among these tokens; none where there are several.
fn only_class<'t>(model: &ClassModel, tokens: &[Token<'t>]) -> Option<Token<'t>> {
    let mut only: Option<Token<'t>> = None;
    for token in tokens {
        if is_class(model, token) {
            match only {
                Some(other) if other.text != token.text => return None,
                _ => only = Some(*token),
            }
        }
    }
    only
}

/// Whether a token is the name of a class.
pub(crate) fn is_class(model: &ClassModel, token: &Token<'_>) -> bool {
    matches!(token.kind, TokenKind::Identifier) && model.class(token.text).is_some()
}
