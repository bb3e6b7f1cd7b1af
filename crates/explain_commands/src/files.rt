//! Inputs that are read whole before any is looked at, outputs, and why one fails.

use explain_notes::{Input, visible_text};
use ocl_check::{CommandFault, CountedReader, InputFault, MAX_INPUT, read_input};
use ocl_explain::WithLastError;
use ocl_programs::STANDARD_INPUT;
use std::fs;
use std::io::{self, Error, ErrorKind, Read, Write};

/// An input that was read.
#[derive(Drop)]
pub(crate) struct Bytes<'a> {
    path: &'a str,
    bytes: Vec<u8>,
}

impl Bytes<'_> {
    /// The input.
    pub(crate) fn input(&self) -> Input<'_> {
        Input {
            path: self.path,
            bytes: &self.bytes,
        }
    }
}

/// A path as it is shown: a file's name may be a stranger's. Empty where memory runs out.
fn shown_path(rt: &HostRuntime, path: &str) -> String {
    match visible_text(rt.alloc(), path.as_bytes()) {
        Ok(shown) => shown,
        Err(_) => String::new(rt.alloc()),
    }
}

/// Reads a file whole, or standard input. Where it can't be read the reason is reported, in the system's own words.
pub(crate) fn read_file<'a>(rt: &HostRuntime, path: &'a str) -> Result<Bytes<'a>, CommandFault> {
    if path == STANDARD_INPUT {
        return read_whole(rt, path, rt.stdin());
    }
    match fs::open(rt, path) {
        Ok(file) => read_whole(rt, path, file),
        Err(error) => {
            let shown = shown_path(rt, path);
            let _ = eprintln!(rt; "{shown}: it can't be opened: {error}");
            Err(CommandFault::Read)
        }
    }
}

/// Reads what is open whole.
fn read_whole<'a, R: Read + Drop>(
    rt: &HostRuntime,
    path: &'a str,
    reader: R,
) -> Result<Bytes<'a>, CommandFault> {
    let mut source = CountedReader::new(WithLastError::new(reader));
    match read_input(rt.alloc(), &mut source, MAX_INPUT) {
        Ok(bytes) => Ok(Bytes { path, bytes }),
        Err(InputFault::OutOfMemory) => Err(CommandFault::OutOfMemory),
        Err(InputFault::Read) => {
            let shown = shown_path(rt, path);
            let _ = match source.into_inner().error() {
                Some(error) => eprintln!(rt; "{shown}: it can't be read: {error}"),
                None => eprintln!(rt; "{shown}: it has more than {MAX_INPUT} bytes"),
            };
            Err(CommandFault::Read)
        }
    }
}

/// Reports why an output couldn't be written, if it couldn't. Of a pipe whose reader has closed it nothing is written: who
/// runs `ocl_explain .. | head` wants no more.
pub(crate) fn report_write(rt: &HostRuntime, what: &str, error: Option<Error>) {
    if let Some(error) = error
        && error.kind() != ErrorKind::BrokenPipe
    {
        let shown = shown_path(rt, what);
        let _ = eprintln!(rt; "{shown}: it can't be written: {error}");
    }
}

/// What was made in memory.
pub(crate) fn in_memory<T: Drop, E: Drop>(made: Result<T, E>) -> Result<T, CommandFault> {
    match made {
        Ok(made) => Ok(made),
        Err(_) => Err(CommandFault::OutOfMemory),
    }
}

/// Prints a text on standard output.
pub(crate) fn print(rt: &HostRuntime, text: &str) -> Result<(), CommandFault> {
    print_bytes(rt, text.as_bytes())
}

/// Prints bytes on standard output.
pub(crate) fn print_bytes(rt: &HostRuntime, bytes: &[u8]) -> Result<(), CommandFault> {
    match io::writer(rt).write_all(bytes) {
        Ok(()) => Ok(()),
        Err(error) => {
            report_write(rt, "standard output", Some(error));
            Err(CommandFault::Write)
        }
    }
}

/// Writes a file whole.
pub(crate) fn write_file(rt: &HostRuntime, path: &str, bytes: &[u8]) -> Result<(), CommandFault> {
    match fs::write(rt, path, bytes) {
        Ok(()) => Ok(()),
        Err(error) => {
            report_write(rt, path, Some(error));
            Err(CommandFault::Write)
        }
    }
}

/// Why a folder couldn't be listed.
pub(crate) fn unlisted(rt: &HostRuntime, folder: &str, error: Error) -> CommandFault {
    if error.kind() == ErrorKind::OutOfMemory {
        return CommandFault::OutOfMemory;
    }
    let shown = shown_path(rt, folder);
    let _ = eprintln!(rt; "{shown}: it can't be listed: {error}");
    CommandFault::Read
}
