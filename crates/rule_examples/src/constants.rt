//! What a rule's text names, from which values are made.

use ocl_tokens::{Token, TokenKind};
use std::alloc::{AllocError, Global};

/// The greatest number of numbers that are taken from a rule, and of its strings.
const MAX_TAKEN: usize = 32;

/// The longest text that is made to have as many characters as a number of the rule says.
const MAX_MADE: i64 = 64;

/// What a rule names: numbers with their neighbours, texts, and its identifiers.
#[derive(Drop)]
pub struct Constants<'t> {
    pub(crate) numbers: Vec<i64>,
    /// The shortest first.
    pub(crate) texts: Vec<String>,
    tokens: &'t [Token<'t>],
}

/// The tokens of the rule of an index among those of a text: from its `inv` to the next `inv` or `context`.
pub fn rule_tokens<'t>(tokens: &'t [Token<'t>], rule: usize) -> &'t [Token<'t>] {
    let mut seen = 0usize;
    for (index, token) in tokens.iter().enumerate() {
        if !matches!(token.kind, TokenKind::Inv) {
            continue;
        }
        if seen == rule {
            return until_next(tokens.get(index..).unwrap_or(tokens));
        }
        seen = seen.saturating_add(1);
    }
    tokens
}

/// The tokens up to the second that begins a rule or a context.
fn until_next<'t>(tokens: &'t [Token<'t>]) -> &'t [Token<'t>] {
    let length = tokens
        .iter()
        .skip(1)
        .take_while(|token| !matches!(token.kind, TokenKind::Context | TokenKind::Inv))
        .count();
    tokens.get(..length.saturating_add(1)).unwrap_or(tokens)
}

/// The characters of a string, from how it is written. (An escape stands for its letter: a value need not be the rule's own.)
fn string_text(alloc: Global, written: &str) -> Result<String, AllocError> {
    let mut text = String::new(alloc);
    for character in written.chars() {
        if character != '\'' && character != '\\' {
            text.push(character)?;
        }
    }
    Ok(text)
}

/// A text of so many characters that begins with another.
fn padded(alloc: Global, begin: &str, length: usize) -> Result<String, AllocError> {
    let mut text = String::new(alloc);
    for character in begin.chars().take(length) {
        text.push(character)?;
    }
    for _ in begin.chars().take(length).count()..length {
        text.push('a')?;
    }
    Ok(text)
}

impl<'t> Constants<'t> {
    /// What the tokens of a rule name.
    pub fn new(alloc: Global, tokens: &'t [Token<'t>]) -> Result<Constants<'t>, AllocError> {
        let mut constants = Constants {
            numbers: Vec::from_slice(alloc, &[0i64, 1, -1, 2])?,
            texts: Vec::new(alloc),
            tokens,
        };
        constants.add_numbers()?;
        constants.add_texts(alloc)?;
        Ok(constants)
    }

    fn add_numbers(&mut self) -> Result<(), AllocError> {
        let tokens = self.tokens;
        for token in tokens {
            let TokenKind::Number(number) = token.kind else {
                continue;
            };
            if self.numbers.len() >= MAX_TAKEN.saturating_mul(4) {
                break;
            }
            let number = i64::try_from(number).unwrap_or(i64::MAX);
            self.numbers.push(number)?;
            self.numbers.push(number.saturating_sub(1))?;
            self.numbers.push(number.saturating_add(1))?;
            self.numbers.push(number.saturating_neg())?;
        }
        Ok(())
    }

    /// The rule's strings, each also with a letter more, and texts whose lengths are its numbers.
    fn add_texts(&mut self, alloc: Global) -> Result<(), AllocError> {
        self.texts.push(String::new(alloc))?;
        self.texts.push(String::from_str(alloc, "a")?)?;
        self.texts.push(String::from_str(alloc, "b")?)?;
        let tokens = self.tokens;
        let strings = tokens
            .iter()
            .filter(|token| matches!(token.kind, TokenKind::String));
        for token in strings.take(MAX_TAKEN) {
            self.add_text(alloc, string_text(alloc, token.text)?.as_str())?;
        }
        self.add_padded(alloc, "")?;
        self.texts.sort_by_key(|text| text.len())?;
        Ok(())
    }

    /// A text, also with a letter more, and in the lengths of the rule's numbers.
    fn add_text(&mut self, alloc: Global, text: &str) -> Result<(), AllocError> {
        self.texts.push(String::from_str(alloc, text)?)?;
        for letter in ["a", "b", "c", "d"] {
            self.texts.push(format!(in alloc; "{text}{letter}")?)?;
        }
        self.add_padded(alloc, text)
    }

    /// Texts that begin with another, in the lengths of the rule's numbers.
    fn add_padded(&mut self, alloc: Global, begin: &str) -> Result<(), AllocError> {
        for index in 4..self.numbers.len().min(MAX_TAKEN) {
            let length = self.numbers.get(index).copied().unwrap_or(0);
            if (0..=MAX_MADE).contains(&length) {
                self.texts.push(padded(alloc, begin, length as usize)?)?;
            }
        }
        Ok(())
    }

    /// Whether a name stands in the rule.
    pub(crate) fn has_name(&self, name: &str) -> bool {
        self.tokens.iter().any(|token| token.text == name)
    }

    /// A text, by its number.
    pub(crate) fn text(&self, number: usize) -> &str {
        self.texts.get(number).map_or("", |text| text.as_str())
    }
}
