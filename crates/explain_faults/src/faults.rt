//! Why an input is refused: its faults, and the words.

use crate::fault::Fault;
use explain_notes::{Input, Note};
use std::alloc::{AllocError, Global};

/// The same note, of an input without so many bytes at its beginning.
fn behind<'a>(note: Note<'a>, skipped: usize) -> Note<'a> {
    let Input { path, bytes } = note.input;
    let bytes = bytes.get(skipped..).unwrap_or(&[]);
    Note {
        input: Input { path, bytes },
        offset: note.offset.saturating_sub(skipped),
        ..note
    }
}

/// The faults of inputs, and what is said of them in words.
#[derive(Drop)]
pub struct Faults {
    /// The words: the line of each fault, and what is said below it.
    pub words: String,
    /// The faults.
    pub list: Vec<Fault>,
    /// So many bytes at the beginning of an input are no part of it for those who read the notes.
    pub skipped: usize,
}

impl Faults {
    /// None yet.
    pub fn new(alloc: Global) -> Faults {
        Faults::behind(alloc, 0)
    }

    /// None yet, of an input of which so many bytes at its beginning are shown to nobody.
    pub fn behind(alloc: Global, skipped: usize) -> Faults {
        Faults {
            words: String::new(alloc),
            list: Vec::new(alloc),
            skipped,
        }
    }

    /// The words alone.
    pub fn into_words(self) -> String {
        let Faults {
            words,
            list: _,
            skipped: _,
        } = self;
        words
    }

    /// Adds a fault, and writes its line.
    pub fn add(&mut self, fault: Fault) -> Result<(), AllocError> {
        fault.write(&mut self.words)?;
        self.list.push(fault)?;
        Ok(())
    }

    /// Adds what a note is of, and writes the note.
    pub fn add_note(&mut self, alloc: Global, note: &Note<'_>) -> Result<(), AllocError> {
        let note = behind(*note, self.skipped);
        let (message, number) = (note.message, note.fault);
        let text = format!(in alloc; "{message} ({number})")?;
        let fault = Fault::at(alloc, note.input, note.offset, None, text)?;
        note.write(alloc, &mut self.words)?;
        self.list.push(fault)?;
        Ok(())
    }

    /// Adds the fault of an input as a whole that others wrote in words: it is their first line, behind the path.
    pub fn add_written(
        &mut self,
        alloc: Global,
        path: &str,
        words: &str,
    ) -> Result<(), AllocError> {
        self.words.push_str(words)?;
        let (first, _) = words.split_once('\n').unwrap_or((words, ""));
        if first.is_empty() {
            return Ok(());
        }
        let text = first.strip_prefix(path).unwrap_or(first);
        let text = text.strip_prefix(": ").unwrap_or(text);
        let text = String::from_str(alloc, text)?;
        self.list.push(Fault::of_whole(alloc, path, text)?)?;
        Ok(())
    }
}
