//! Reading an input whole.

ghost use Rattle.std.specs.Prelude.{◌≡◌, ◌≢◌, ◌≤◌, ◌<◌, ◌+◌, ◌^◌, false, true, Err, OnOk, IfOk, length};
ghost use Rattle.std.specs.Io.KnownBytes.{Consumes, IsAtEnd};
ghost use Rattle.ocl_check.specs.declared.input.InputFault.TheVariants as fault;
ghost use Rattle.ocl_check.specs.Input.{ConsumesAtMost, CantBeRead};
ghost use Rattle.ocl_check.specs.Answers.{IsUnread};
ghost use Rattle.ocl_check.specs.Ending.{IsInput};
ghost use Rattle.ocl_check.specs.Sources.{ReadsInOrder, none, ◌then◌, used, fails_for_read};

use crate::source::Source;
use std::alloc::Global;
use thiserror::Error;

/// The greatest number of bytes in an input.
pub const MAX_INPUT: u64 = 268_435_456;

/// At most so many bytes are asked of a source at once.
const PIECE_BYTES: usize = 65_536;

/// Why an input could not be read.
#[derive(Clone, Copy, Debug, PartialEq, Eq, Error)]
pub enum InputFault {
    /// A read failed, or the input is longer than the limit.
    #[error("the input can't be read")]
    Read,
    /// There is no memory for the bytes.
    #[error("out of memory")]
    OutOfMemory,
}

/// All bytes of a source that no read was made of, at most `limit`, which is below 2^63. `InputFault::Read`: a read
/// failed, or there are more bytes; `InputFault::OutOfMemory`: there is no memory for them. Whatever is returned, at most
/// `limit + 1` bytes were read, by at most `limit + 1` reads; and at most `limit` bytes, unless it is `Read`.
pub fn read_input<R: Source>(
    alloc: Global,
    source: &mut R,
    limit: u64,
) -> Result<Vec<u8>, InputFault>
    requires limit { limit < 2 ^ 63 }
    requires well { R.has_failed source.old ≡ false }
    requires unread { R.reads source.old ≡ 0 }
    ensures bytes { IfOk result (λ v. Consumes (R.remaining source.old)
        (R.remaining source.new) v.items) }
    ensures end { OnOk result (IsAtEnd (R.remaining source.new)) }
    ensures bound { IfOk result (λ v. length v.items ≤ limit) }
    ensures consumed { ConsumesAtMost (R.remaining source.old) (R.remaining source.new)
        (limit + 1) }
    ensures reads { R.reads source.new ≤ limit + 1 }
    // A failed read is returned only where one failed or there are more bytes.
    ensures read_fault { result ≡ Err fault.Read → CantBeRead limit (R.remaining source.old)
        (R.remaining source.new) (R.has_failed source.new) }
    // Unless it is returned, no more than the limit was read.
    ensures within { result ≢ Err fault.Read →
        ConsumesAtMost (R.remaining source.old) (R.remaining source.new) limit }
    // Where a read failed, that is returned.
    ensures failed { R.has_failed source.new ≡ true → result ≡ Err fault.Read }
{
    let mut found = Vec::new(alloc);
    let mut piece = [0u8; PIECE_BYTES];
    for _ in 0..limit + 1 {
        let room = (limit + 1 - found.len() as u64).min(PIECE_BYTES as u64) as usize;
        let Ok(n) = source.read(&mut piece[..room]) else {
            return Err(InputFault::Read);
        };
        if n == 0 {
            return Ok(found);
        }
        if limit < found.len() as u64 + n as u64 {
            return Err(InputFault::Read);
        }
        if found.extend_from_slice(&piece[..n]).is_err() {
            return Err(InputFault::OutOfMemory);
        }
    }
    // Each read gave a byte at least, so there were more than the limit before this.
    Err(InputFault::Read)
}

/// All bytes of two sources, the first read whole before the second is touched.
pub(crate) fn read_two<A: Source, B: Source>(
    alloc: Global,
    first: &mut A,
    second: &mut B,
) -> Result<(Vec<u8>, Vec<u8>), InputFault>
    requires first { IsUnread (A.has_failed first.old) (A.reads first.old) }
    requires second { IsUnread (B.has_failed second.old) (B.reads second.old) }
    ensures first { IfOk result (λ i. IsInput (A.remaining first.old) i.0.items) }
    ensures second { IfOk result (λ i. IsInput (B.remaining second.old) i.1.items) }
    ensures end { OnOk result (IsAtEnd (B.remaining second.new)) }
    ensures read { ReadsInOrder (none then used A.remaining A.has_failed A.reads first.old first.new
        then used B.remaining B.has_failed B.reads second.old second.new) (fails_for_read result) }
{
    let bytes = read_input(alloc, first, MAX_INPUT)?;
    let more = read_input(alloc, second, MAX_INPUT)?;
    Ok((bytes, more))
}
