//! Writing bytes whole.

ghost use Rattle.std.specs.Prelude.{◌≡◌, false, OnOk, OnErr, is_err};
ghost use Rattle.std.specs.Io.KnownBytes.{Appends};
ghost use Rattle.rule_report.specs.Sink.{WritesPrefix, IsWrittenSoFar, IsFlushedOnce};

use crate::sink::Sink;

/// Text is written once there are so many bytes of it.
const PIECE_BYTES: usize = 8_192;

/// A write that returned an error or took nothing, or a flush that returned an error. Neither is tried again, even if it
/// was interrupted, and after it the sink is neither written to nor flushed.
#[derive(Clone, Copy)]
pub struct WriteFailed;

/// Writes all the bytes, without a flush; where that fails, the sink took a prefix of them and has failed.
pub fn write_whole<S: Sink>(sink: &mut S, bytes: &[u8]) -> Result<(), WriteFailed>
    requires { S.has_failed sink.old ≡ false }
    ensures ok { OnOk result (Appends (S.contents sink.old) (S.contents sink.new) bytes.now) }
    ensures err { OnErr result
        (WritesPrefix (S.contents sink.old) (S.contents sink.new) bytes.now) }
    ensures failed { S.has_failed sink.new ≡ is_err result }
    ensures flushes { S.flushes sink.new ≡ S.flushes sink.old }
{
    let mut at = 0;
    while at < bytes.len() {
        match sink.write(&bytes[at..]) {
            Ok(0) => return Err(WriteFailed),
            Ok(n) => at += n,
            Err(_) => return Err(WriteFailed),
        }
    }
    Ok(())
}

/// Writes the text, and empties it, once there are 8,192 bytes of it; where that fails, the sink took a prefix of it and
/// has failed.
pub fn write_piece<S: Sink>(sink: &mut S, text: &mut Vec<u8>) -> Result<(), WriteFailed>
    requires { S.has_failed sink.old ≡ false }
    ensures ok { OnOk result (IsWrittenSoFar (S.contents sink.old) (S.contents sink.new)
        text.new.items text.old.items) }
    ensures err { OnErr result
        (WritesPrefix (S.contents sink.old) (S.contents sink.new) text.old.items) }
    ensures failed { S.has_failed sink.new ≡ is_err result }
    ensures flushes { S.flushes sink.new ≡ S.flushes sink.old }
{
    if text.len() >= PIECE_BYTES {
        write_whole(sink, text)?;
        text.clear();
    }
    Ok(())
}

/// Writes all the bytes, and then flushes the sink once. Where a write or the flush fails, the sink took a prefix of the
/// bytes and has failed.
pub fn write_and_flush<S: Sink>(sink: &mut S, bytes: &[u8]) -> Result<(), WriteFailed>
    requires { S.has_failed sink.old ≡ false }
    ensures ok { OnOk result (Appends (S.contents sink.old) (S.contents sink.new) bytes.now) }
    ensures err { OnErr result
        (WritesPrefix (S.contents sink.old) (S.contents sink.new) bytes.now) }
    ensures failed { S.has_failed sink.new ≡ is_err result }
    ensures flushed { OnOk result (IsFlushedOnce S.flushes S.has_pending sink.old sink.new) }
{
    write_whole(sink, bytes)?;
    match sink.flush() {
        Ok(()) => Ok(()),
        Err(_) => Err(WriteFailed),
    }
}
