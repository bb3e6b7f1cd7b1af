//! Readers and writers of which it is known why they failed.

ghost use Rattle.std.specs.Prelude.{◌≡◌, false, is_some};

use std::io;
use std::io::{Error, Read, Write};
use std::marker::Model;

/// A reader or a writer that keeps the last error that it returned. Contracts see the inner one, and whether an error is
/// kept. It reads what the inner one reads, and writes what that writes.
#[derive(Drop)]
pub struct WithLastError<T> {
    inner: T,
    error: Option<Error>,
}

impl<T> Model for WithLastError<T> {
    ghost use Rattle.std.specs.Prelude.{Bool, is_some};

    ghost Value = { T × Bool };

    ghost view = { λ k. (k.inner, is_some k.error) };
}

impl<T> WithLastError<T> {
    /// A reader or a writer that has returned no error yet.
    pub fn new(inner: T) -> WithLastError<T>
        ensures { result ≡ (inner, false) }
    {
        WithLastError { inner, error: None }
    }

    /// The last error that it returned, if there was one.
    pub fn error(&self) -> Option<Error>
        ensures { is_some result ≡ self.now.1 }
    {
        self.error
    }
}

impl<T: Read> Read for WithLastError<T> {
    ghost remaining = { λ k. T.remaining k.0 };

    fn read(&mut self, piece: &mut [u8]) -> io::Result<usize> {
        match self.inner.read(piece) {
            Ok(count) => Ok(count),
            Err(error) => {
                self.error = Some(error);
                Err(error)
            }
        }
    }
}

impl<T: Write> Write for WithLastError<T> {
    ghost contents = { λ k. T.contents k.0 };

    fn write(&mut self, bytes: &[u8]) -> io::Result<usize> {
        match self.inner.write(bytes) {
            Ok(count) => Ok(count),
            Err(error) => {
                self.error = Some(error);
                Err(error)
            }
        }
    }

    fn flush(&mut self) -> io::Result<()> {
        match self.inner.flush() {
            Ok(()) => Ok(()),
            Err(error) => {
                self.error = Some(error);
                Err(error)
            }
        }
    }
}
