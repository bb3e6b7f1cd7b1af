//! Where inputs come from: readers that know whether they have failed.

ghost use Rattle.std.specs.Prelude.{◌≡◌, ◌≤◌, ◌<◌, ◌+◌, ◌^◌, ℕ, List, Option, Bool, false, length, IfOk, is_err};
ghost use Rattle.std.specs.Io.KnownBytes.{ReadConsumes};

use std::io;
use std::io::Read;
use std::marker::Model;

/// A reader that counts its reads and knows whether one has failed. After that none is made.
pub trait Source {
    ghost use Rattle.std.specs.Prelude.{ℕ, List, Option, Bool};

    /// The bytes that reads will give from here on, where they are known.
    ghost remaining: { Self → Option (List ℕ) };

    /// A read has failed.
    ghost has_failed: { Self → Bool };

    /// How many reads were made.
    ghost reads: { Self → ℕ };

    /// Gives the next bytes, and answers how many: none only at the end, or where there is no room.
    fn read(&mut self, piece: &mut [u8]) -> io::Result<usize>
        requires well { has_failed self.old ≡ false }
        requires few { reads self.old < 2 ^ 63 }
        ensures bound { IfOk result (λ n. n ≤ length piece.new) }
        ensures bytes { ReadConsumes (remaining self.old) (remaining self.new) result piece.new }
        ensures reads { reads self.new ≡ reads self.old + 1 }
        ensures failed { has_failed self.new ≡ is_err result };
}

/// Any reader as a source. Contracts see the reader, how many reads were made of it, and whether one has failed. Each call
/// of it is one call of the reader: that none is made again is shown by the tests `readers` of `ocl_tests`.
#[derive(Drop)]
pub struct CountedReader<R> {
    inner: R,
    reads: u64,
    failed: bool,
}

impl<R> Model for CountedReader<R> {
    ghost use Rattle.std.specs.Prelude.{ℕ, Bool};

    ghost Value = { R × ℕ × Bool };

    ghost view = { λ c. (c.inner, c.reads, c.failed) };
}

impl<R> CountedReader<R> {
    /// The reader as a source of which no read was made.
    pub fn new(inner: R) -> CountedReader<R>
        ensures { result ≡ (inner, 0, false) }
    {
        CountedReader {
            inner,
            reads: 0,
            failed: false,
        }
    }

    /// The reader.
    pub fn into_inner(self) -> R
        ensures { result ≡ self.0 }
    {
        let CountedReader {
            inner,
            reads: _,
            failed: _,
        } = self;
        inner
    }
}

impl<R: Read> Source for CountedReader<R> {
    ghost remaining = { λ c. R.remaining c.0 };

    ghost has_failed = { λ c. c.2 };

    ghost reads = { λ c. c.1 };

    fn read(&mut self, piece: &mut [u8]) -> io::Result<usize> {
        let read = self.inner.read(piece);
        self.reads += 1;
        self.failed = read.is_err();
        read
    }
}
