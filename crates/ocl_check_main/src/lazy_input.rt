//! Files that are opened when they are first read.

use ocl_programs::STANDARD_INPUT;
use std::fs::File;
use std::io::Read;
use std::{fs, io};

/// A file that is opened at its first read, so that no file is opened before the inputs named earlier have ended: a
/// writer that feeds several pipes in turn is not kept waiting. A file that can't be opened is a failed read. Standard
/// input, which is open already, is read as it is.
#[derive(Drop)]
pub struct LazyInput<'a> {
    rt: &'a HostRuntime,
    path: &'a str,
    file: Option<File>,
}

impl<'a> LazyInput<'a> {
    /// The file of this path, not opened yet.
    pub fn new(rt: &'a HostRuntime, path: &'a str) -> LazyInput<'a> {
        LazyInput {
            rt,
            path,
            file: None,
        }
    }
}

impl Read for LazyInput<'_> {
    fn read(&mut self, piece: &mut [u8]) -> io::Result<usize> {
        if self.path == STANDARD_INPUT {
            return self.rt.stdin().read(piece);
        }
        if let Some(file) = &mut self.file {
            return file.read(piece);
        }
        let mut file = fs::open(self.rt, self.path)?;
        let read = file.read(piece);
        self.file = Some(file);
        read
    }
}
