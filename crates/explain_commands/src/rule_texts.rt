//! Rule texts that are joined, and where each is in the whole.

use crate::files::{in_memory, read_file};
use crate::placing::{Part, Places};
use explain_notes::Input;
use ocl_check::{CommandFault, MAX_INPUT, Outcome, Telling};
use ocl_explain::answer_compile;
use std::alloc::{AllocError, Global};

/// How many lines end in a text.
fn line_ends(text: &[u8]) -> usize {
    text.iter().filter(|byte| **byte == b'\n').count()
}

/// Rule texts, joined in their order with a line feed between.
#[derive(Drop)]
pub(crate) struct JoinedTexts<'a> {
    path: String,
    bytes: Vec<u8>,
    lines: usize,
    parts: Vec<Part<'a>>,
}

impl<'a> JoinedTexts<'a> {
    fn new(alloc: Global) -> JoinedTexts<'a> {
        JoinedTexts {
            path: String::new(alloc),
            bytes: Vec::new(alloc),
            lines: 0,
            parts: Vec::new(alloc),
        }
    }

    /// The whole text. Its path is that of each, with commas between.
    pub(crate) fn input(&self) -> Input<'_> {
        Input {
            path: self.path.as_str(),
            bytes: &self.bytes,
        }
    }

    /// Where each text is.
    pub(crate) fn places(&self) -> Places<'_> {
        Places {
            path: self.path.as_str(),
            parts: &self.parts,
        }
    }

    /// Joins a text behind those that are there.
    fn add(&mut self, path: &'a str, bytes: &[u8]) -> Result<(), AllocError> {
        if !self.parts.is_empty() {
            self.path.push_str(", ")?;
            self.bytes.push(b'\n')?;
            self.lines = self.lines.saturating_add(1);
        }
        let start = self.bytes.len();
        self.path.push_str(path)?;
        self.bytes.extend_from_slice(bytes)?;
        self.parts.push(Part {
            path,
            start,
            end: self.bytes.len(),
            lines: self.lines,
        })?;
        self.lines = self.lines.saturating_add(line_ends(bytes));
        Ok(())
    }
}

/// Reads a rule text, and joins it behind those that are there. The whole may be no longer than one file.
fn add_file<'a>(
    rt: &HostRuntime,
    texts: &mut JoinedTexts<'a>,
    path: &'a str,
) -> Result<(), CommandFault> {
    let file = read_file(rt, path)?;
    in_memory(texts.add(path, file.input().bytes))?;
    if texts.bytes.len() as u64 <= MAX_INPUT {
        return Ok(());
    }
    let all = texts.path.as_str();
    let _ = eprintln!(rt; "{all}: together they have more than {MAX_INPUT} bytes");
    Err(CommandFault::Read)
}

/// Reads rule texts, and joins them.
pub(crate) fn read_texts<'a>(
    rt: &HostRuntime,
    first: &'a str,
    also: &[&'a str],
) -> Result<JoinedTexts<'a>, CommandFault> {
    let mut texts = JoinedTexts::new(rt.alloc());
    add_file(rt, &mut texts, first)?;
    for path in also {
        add_file(rt, &mut texts, path)?;
    }
    Ok(texts)
}

/// Whether a rule text is refused by itself, or the class model is.
fn is_refused<'i>(
    rt: &HostRuntime,
    model: Input<'i>,
    rules: Input<'i>,
) -> Result<bool, CommandFault> {
    let mut code = Telling::new(Vec::new(rt.alloc()));
    let mut said = Telling::new(Vec::new(rt.alloc()));
    match answer_compile(rt.alloc(), model, rules, &mut code, &mut said).outcome {
        Outcome::Status(status) => Ok(status != 0),
        // Memory takes all bytes that there is room for.
        Outcome::Failed(_) => Err(CommandFault::OutOfMemory),
    }
}

/// The first of several rule texts that is refused by itself, by where each is in the whole.
pub(crate) fn refused_part<'i>(
    rt: &HostRuntime,
    parts: &[Part<'i>],
    model: Input<'i>,
    whole: &'i [u8],
) -> Result<Option<Input<'i>>, CommandFault> {
    for part in parts {
        let alone = part.input(whole);
        if is_refused(rt, model, alone)? {
            return Ok(Some(alone));
        }
    }
    Ok(None)
}
