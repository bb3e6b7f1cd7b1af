//! Words on a text that was joined, with the places of the texts that it was joined from.

use explain_notes::Input;
use std::alloc::{AllocError, Global};

/// Where a rule text is in the text that it was joined to.
#[derive(Clone, Copy, Drop)]
pub(crate) struct Part<'a> {
    /// The path of the rule text.
    pub(crate) path: &'a str,
    /// Where it begins, in bytes from 0.
    pub(crate) start: usize,
    /// Where it ends.
    pub(crate) end: usize,
    /// How many lines are before it.
    pub(crate) lines: usize,
}

impl<'a> Part<'a> {
    /// The rule text, of the whole text or of one that has spaces in place of some rules.
    pub(crate) fn input(self, whole: &'a [u8]) -> Input<'a> {
        Input {
            path: self.path,
            bytes: whole.get(self.start..self.end).unwrap_or(whole),
        }
    }
}

/// The path of a joined text, and where each text is in it; no text is, where none was joined.
#[derive(Clone, Copy, Drop)]
pub(crate) struct Places<'a> {
    /// The path.
    pub(crate) path: &'a str,
    /// Where each text is.
    pub(crate) parts: &'a [Part<'a>],
}

impl<'a> Places<'a> {
    /// Of a text that wasn't joined.
    pub(crate) fn none() -> Places<'a> {
        Places {
            path: "",
            parts: &[],
        }
    }

    /// The text that has a line of the joined text.
    fn part_of(self, line: usize) -> Option<Part<'a>> {
        self.parts
            .iter()
            .rev()
            .find(|part| part.lines < line)
            .copied()
    }
}

/// A number that a text begins with, and what follows it.
#[derive(Clone, Copy, Drop)]
struct Numbered<'w> {
    number: usize,
    digits: usize,
    rest: &'w str,
}

/// The number that a text begins with, if it does.
fn leading_number(text: &str) -> Option<Numbered<'_>> {
    let digits = text
        .bytes()
        .take_while(|byte| byte.is_ascii_digit())
        .count();
    Some(Numbered {
        number: text.get(..digits)?.parse::<usize>().ok()?,
        digits,
        rest: text.get(digits..)?,
    })
}

/// The place in a line that begins with the path of the joined text, a line and a column.
fn place_in<'w>(line: &'w str, path: &str) -> Option<Numbered<'w>> {
    let place = leading_number(line.strip_prefix(path)?.strip_prefix(':')?)?;
    if place.rest.starts_with(':') {
        Some(place)
    } else {
        None
    }
}

/// The number of a line that is shown.
fn shown_in(line: &str) -> Option<Numbered<'_>> {
    let shown = leading_number(line.strip_prefix("  ")?)?;
    if shown.rest.starts_with(" | ") {
        Some(shown)
    } else {
        None
    }
}

/// How many digits the number of a line has, and had in the joined text.
#[derive(Clone, Copy, Drop)]
struct Width {
    own: usize,
    joined: usize,
}

/// What was placed of some words, down to a line.
#[derive(Drop)]
struct Placing<'a> {
    places: Places<'a>,
    out: String,
    /// The text that the lines are about; none of words that are no note on the joined text.
    path: Option<&'a str>,
    /// Of the line above, if it shows a line of a text.
    width: Option<Width>,
}

impl<'a> Placing<'a> {
    /// Puts the first line of a note.
    fn put_place(&mut self, place: Numbered<'_>, part: Part<'a>) -> Result<(), AllocError> {
        let (path, rest) = (part.path, place.rest);
        let line = place.number.saturating_sub(part.lines);
        self.path = Some(path);
        self.width = None;
        writeln!(self.out, "{path}:{line}{rest}")
    }

    /// Puts a line of a text that is shown, and above it the path, where that isn't the path of the note.
    fn put_shown(
        &mut self,
        alloc: Global,
        shown: Numbered<'_>,
        part: Part<'a>,
    ) -> Result<(), AllocError> {
        let (path, rest) = (part.path, shown.rest);
        if self.path != Some(path) {
            writeln!(self.out, "  in {path}:")?;
        }
        let line = shown.number.saturating_sub(part.lines);
        let digits = format!(in alloc; "{line}")?;
        self.width = Some(Width {
            own: digits.len(),
            joined: shown.digits,
        });
        writeln!(self.out, "  {digits}{rest}")
    }

    /// Puts the marks under a line that is shown.
    fn put_marks(&mut self, line: &str, width: Width) -> Result<(), AllocError> {
        self.out.push_str("  ")?;
        for _ in 0..width.own {
            self.out.push(' ')?;
        }
        let marks = line.get(width.joined.saturating_add(2)..).unwrap_or(line);
        writeln!(self.out, "{marks}")
    }

    /// Puts a line that stays as it is.
    fn put_other(&mut self, line: &str) -> Result<(), AllocError> {
        if !line.starts_with("  ") {
            self.path = None;
        }
        writeln!(self.out, "{line}")
    }

    /// Puts a line.
    fn put(&mut self, alloc: Global, line: &str) -> Result<(), AllocError> {
        if let Some(place) = place_in(line, self.places.path)
            && let Some(part) = self.places.part_of(place.number)
        {
            return self.put_place(place, part);
        }
        if let Some(width) = self.width.take() {
            return self.put_marks(line, width);
        }
        if self.path.is_some()
            && let Some(shown) = shown_in(line)
            && let Some(part) = self.places.part_of(shown.number)
        {
            return self.put_shown(alloc, shown, part);
        }
        self.put_other(line)
    }
}

/// Words on a joined text, with the path and the line of the text that each place is in.
pub(crate) fn placed(alloc: Global, places: Places<'_>, words: &str) -> Result<String, AllocError> {
    let mut placing = Placing {
        places,
        out: String::new(alloc),
        path: None,
        width: None,
    };
    for line in words.lines() {
        placing.put(alloc, line)?;
    }
    Ok(placing.out)
}
