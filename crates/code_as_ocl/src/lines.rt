//! Expressions in lines.

use std::alloc::{AllocError, Global};

/// The most columns of a line, where its pieces allow it.
const MAX_COLUMNS: usize = 100;

/// The columns before an expression.
const FIRST_INDENT: usize = 4;

/// What begins each line after its first.
const LINE_BREAK: &str = "\n      ";

/// The columns before each of these.
const INDENT: usize = 6;

/// Where a text is, as to strings in quotes.
#[derive(Clone, Copy)]
pub(crate) enum Quotes {
    Outside,
    Inside,
    /// Behind a backslash.
    Escape,
}

impl Quotes {
    /// Behind one more character.
    pub(crate) fn after(self, character: char) -> Quotes {
        match (self, character) {
            (Quotes::Outside, '\'') => Quotes::Inside,
            (Quotes::Inside, '\'') => Quotes::Outside,
            (Quotes::Inside, '\\') => Quotes::Escape,
            (Quotes::Escape, _) => Quotes::Inside,
            (quotes, _) => quotes,
        }
    }
}

/// Whether a line may end before a word: an operator between two operands, or the parts of an `if`.
fn begins_piece(word: &str) -> bool {
    matches!(
        word,
        "and"
            | "or"
            | "xor"
            | "implies"
            | "="
            | "<"
            | "<="
            | ">"
            | ">="
            | "+"
            | "-"
            | "*"
            | "div"
            | "mod"
            | "then"
            | "else"
            | "endif"
    )
}

/// Whether a line may end behind a word: what binds a variable.
fn ends_piece(word: &str) -> bool {
    matches!(word, "|" | "in")
}

/// Lines as far as they are made. A piece stands in one line.
#[derive(Drop)]
struct Lines {
    text: String,
    /// The columns of the last line.
    columns: usize,
    /// What comes behind them.
    piece: String,
}

impl Lines {
    /// Puts the piece, on a line of its own where the last one has no room for it.
    fn put_piece(&mut self, alloc: Global) -> Result<(), AllocError> {
        let piece = std::mem::replace(&mut self.piece, String::new(alloc));
        if piece.is_empty() {
            return Ok(());
        }
        let wanted = self.columns.saturating_add(1).saturating_add(piece.len());
        if self.text.is_empty() {
            self.columns = FIRST_INDENT.saturating_add(piece.len());
        } else if wanted <= MAX_COLUMNS {
            self.text.push_str(" ")?;
            self.columns = wanted;
        } else {
            self.text.push_str(LINE_BREAK)?;
            self.columns = INDENT.saturating_add(piece.len());
        }
        self.text.push_str(&piece)
    }

    /// Puts a word.
    fn put_word(&mut self, alloc: Global, word: &str) -> Result<(), AllocError> {
        if begins_piece(word) {
            self.put_piece(alloc)?;
        }
        if !self.piece.is_empty() {
            self.piece.push_str(" ")?;
        }
        self.piece.push_str(word)?;
        if ends_piece(word) {
            self.put_piece(alloc)?;
        }
        Ok(())
    }
}

/// The words of an expression: what stands between spaces. A space in a string is part of a word.
pub(crate) fn words_of(alloc: Global, expression: &str) -> Result<Vec<String>, AllocError> {
    let mut words = Vec::new(alloc);
    let mut word = String::new(alloc);
    let mut quotes = Quotes::Outside;
    for character in expression.chars() {
        if character == ' ' && matches!(quotes, Quotes::Outside) {
            words.push(word)?;
            word = String::new(alloc);
        } else {
            word.push(character)?;
        }
        quotes = quotes.after(character);
    }
    words.push(word)?;
    Ok(words)
}

/// An expression in lines of at most `MAX_COLUMNS` bytes where its pieces allow it.
pub(crate) fn in_lines(alloc: Global, words: &[String]) -> Result<String, AllocError> {
    let mut lines = Lines {
        text: String::new(alloc),
        columns: 0,
        piece: String::new(alloc),
    };
    for word in words {
        lines.put_word(alloc, word)?;
    }
    lines.put_piece(alloc)?;
    Ok(lines.text)
}
