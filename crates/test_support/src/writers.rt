//! Writers that are full after some bytes.

ghost use Rattle.std.specs.Prelude.{◌≡◌, IfOk};

use std::alloc::Global;
use std::io;
use std::io::{Error, ErrorKind, Write};

/// What a writer does when it is full.
#[derive(Clone, Copy)]
pub enum WhenFull {
    /// It fails.
    Fails,
    /// It takes nothing.
    TakesNothing,
    /// It fails once, and would then take any number of bytes.
    FailsOnce,
    /// It is interrupted once, and would then take any number of bytes.
    IsInterrupted,
}

impl WhenFull {
    /// Each of them.
    pub const EACH: [WhenFull; 4] = [
        WhenFull::Fails,
        WhenFull::TakesNothing,
        WhenFull::FailsOnce,
        WhenFull::IsInterrupted,
    ];
}

/// A writer that takes so many bytes, some at a time, until it is full; its flush may fail. It notes how often it was
/// flushed, and how much it had taken then.
#[derive(Drop)]
pub struct Narrow {
    taken: Vec<u8>,
    width: usize,
    left: usize,
    when_full: WhenFull,
    flush_fails: bool,
    flushed: u32,
    flushed_at: usize,
}

impl Narrow {
    /// A writer that takes so many bytes, at most seven at a time, until it is full; its flush doesn't fail.
    pub fn new(alloc: Global, left: usize, when_full: WhenFull) -> Narrow {
        Narrow {
            taken: Vec::new(alloc),
            width: 7,
            left,
            when_full,
            flush_fails: false,
            flushed: 0,
            flushed_at: 0,
        }
    }

    /// A writer that takes so many bytes until it is full, and fails to flush.
    pub fn without_flush(alloc: Global, left: usize) -> Narrow {
        Narrow {
            taken: Vec::new(alloc),
            width: 7,
            left,
            when_full: WhenFull::Fails,
            flush_fails: true,
            flushed: 0,
            flushed_at: 0,
        }
    }

    /// The same writer, which takes a byte at a time.
    pub fn byte_by_byte(self) -> Narrow {
        let mut writer = self;
        writer.width = 1;
        writer
    }

    /// Whether it took just these bytes, and was then flushed once.
    pub fn has_all(&self, bytes: &[u8]) -> bool {
        self.taken.as_slice() == bytes && self.flushed == 1 && self.flushed_at == bytes.len()
    }

    /// Whether it took more bytes than that, and was then flushed once.
    pub fn has_more_than(&self, count: usize) -> bool {
        self.taken.len() > count && self.flushed == 1 && self.flushed_at == self.taken.len()
    }

    /// Whether it took just so many of these bytes, and was not flushed.
    pub fn has_first(&self, count: usize, bytes: &[u8]) -> bool {
        self.taken.len() == count && bytes.starts_with(&self.taken) && self.flushed == 0
    }

    /// What a full writer answers.
    fn refuse(&mut self) -> io::Result<usize>
        ensures { IfOk result (λ n. n ≡ 0) }
    {
        match self.when_full {
            WhenFull::Fails => Err(Error::from(ErrorKind::Other)),
            WhenFull::TakesNothing => Ok(0),
            WhenFull::FailsOnce => {
                self.left = usize::MAX;
                Err(Error::from(ErrorKind::Other))
            }
            WhenFull::IsInterrupted => {
                self.left = usize::MAX;
                Err(Error::from(ErrorKind::Interrupted))
            }
        }
    }
}

impl Write for Narrow {
    fn write(&mut self, buf: &[u8]) -> io::Result<usize> {
        let count = buf.len().min(self.left).min(self.width);
        if count == 0 {
            return self.refuse();
        }
        if self.taken.extend_from_slice(&buf[..count]).is_err() {
            return Err(Error::from(ErrorKind::Other));
        }
        self.left -= count;
        Ok(count)
    }

    fn flush(&mut self) -> io::Result<()> {
        self.flushed = self.flushed.saturating_add(1);
        self.flushed_at = self.taken.len();
        if self.flush_fails {
            Err(Error::from(ErrorKind::Other))
        } else {
            Ok(())
        }
    }
}
