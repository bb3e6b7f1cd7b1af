//! Files that are created when they are first written.

use std::fs::File;
use std::io::Write;
use std::{fs, io};

/// A file that is created, or emptied, at its first write, so that it is untouched where nothing is written. A file
/// that can't be created is a failed write.
#[derive(Drop)]
pub struct LazyOutput<'a> {
    rt: &'a HostRuntime,
    path: &'a str,
    file: Option<File>,
}

impl<'a> LazyOutput<'a> {
    /// The file of this path, not created yet.
    pub fn new(rt: &'a HostRuntime, path: &'a str) -> LazyOutput<'a> {
        LazyOutput {
            rt,
            path,
            file: None,
        }
    }
}

impl Write for LazyOutput<'_> {
    fn write(&mut self, bytes: &[u8]) -> io::Result<usize> {
        if let Some(file) = &mut self.file {
            return file.write(bytes);
        }
        let mut file = fs::create(self.rt, self.path)?;
        let written = file.write(bytes);
        self.file = Some(file);
        written
    }

    fn flush(&mut self) -> io::Result<()> {
        match &mut self.file {
            Some(file) => file.flush(),
            None => Ok(()),
        }
    }
}
