//! A fault of an input.

use explain_notes::{Input, place_of};
use std::alloc::{AllocError, Global};

/// Where a fault is in its input.
#[derive(Clone, Copy)]
pub struct FaultPlace {
    /// In bytes, from 0.
    pub offset: usize,
    /// The line, from 1.
    pub line: usize,
    /// The column in characters, from 1.
    pub column: usize,
}

/// A fault of an input.
#[derive(Drop)]
pub struct Fault {
    /// The path of the input.
    pub path: String,
    /// Where the fault is; none where it is of the input as a whole.
    pub place: Option<FaultPlace>,
    /// In a JSON document the pointer (RFC 6901) to the value that begins there.
    pub pointer: Option<String>,
    /// What is wrong, and at the end the fault by its document and number, as `(delivery 6)`.
    pub text: String,
}

impl Fault {
    /// What is wrong at an offset of an input.
    pub fn at(
        alloc: Global,
        input: Input<'_>,
        offset: usize,
        pointer: Option<String>,
        text: String,
    ) -> Result<Fault, AllocError> {
        let place = place_of(input.bytes, offset);
        Ok(Fault {
            path: String::from_str(alloc, input.path)?,
            place: Some(FaultPlace {
                offset,
                line: place.line,
                column: place.column,
            }),
            pointer,
            text,
        })
    }

    /// What is wrong with an input as a whole.
    pub fn of_whole(alloc: Global, path: &str, text: String) -> Result<Fault, AllocError> {
        Ok(Fault {
            path: String::from_str(alloc, path)?,
            place: None,
            pointer: None,
            text,
        })
    }

    /// Writes the line of the fault, as compilers do.
    pub fn write(&self, out: &mut String) -> Result<(), AllocError> {
        let (path, text) = (self.path.as_str(), self.text.as_str());
        match self.place {
            Some(FaultPlace { line, column, .. }) => {
                writeln!(out, "{path}:{line}:{column}: {text}")
            }
            None => writeln!(out, "{path}: {text}"),
        }
    }
}
