//! Writing a text that was put together whole.

ghost use Rattle.std.specs.Prelude.{◌≡◌, Bool, false};
ghost use Rattle.ocl_check.specs.Ending.{IsEnding};

use ocl_check::{CommandFault, Outcome, Sink};
use rule_report::write_and_flush;

/// Writes an answer that has this status.
pub fn write_answer<S: Sink>(sink: &mut S, text: &[u8], status: u8) -> Outcome
    requires { S.has_failed sink.old ≡ false }
    ensures { (is_whole : Bool) → IsEnding S.contents S.has_failed S.flushes S.has_pending
        is_whole (text.now, status) sink.old result sink.new }
{
    match write_and_flush(sink, text) {
        Ok(()) => Outcome::Status(status),
        Err(_failed) => Outcome::Failed(CommandFault::Write),
    }
}
