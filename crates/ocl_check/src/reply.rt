//! What a command prints, and the status with which it ends.

ghost use Rattle.std.specs.Prelude.{◌≡◌, IfOk};
ghost use Rattle.ocl_check.specs.Reply.{said, accepted_reply, compiled_reply};
ghost use Rattle.ocl_check.specs.Given.{IsRefusedAs};

use ocl_base::OutOfMemory;
use ocl_pipeline::Stopped;
use std::alloc::Global;

/// The status of a command whose input is refused.
const REFUSED: u8 = 2;

/// What a command prints on standard output, and its exit status.
#[derive(Drop)]
pub struct Reply {
    /// What is printed, all of it.
    pub text: String,
    /// The exit status: 0, or 2 where an input is refused.
    pub status: u8,
}

/// The reply to a refused input. Running out of memory is not a refusal.
pub(crate) fn refusal_reply(alloc: Global, why: Stopped) -> Result<Reply, OutOfMemory>
    ensures { IfOk result (λ r. IsRefusedAs why (said r)) }
{
    match why {
        Stopped::Refused(refusal) => Ok(Reply {
            text: refusal.line(alloc)?,
            status: REFUSED,
        }),
        Stopped::OutOfMemory => Err(OutOfMemory),
    }
}

/// The reply to code that is accepted, by the number of its rules.
pub(crate) fn accepted_reply(alloc: Global, rules: usize) -> Result<Reply, OutOfMemory>
    ensures { IfOk result (λ r. said r ≡ accepted_reply rules) }
{
    Ok(Reply {
        text: format!(in alloc; "accepted {rules}\n")?,
        status: 0,
    })
}

/// The reply to a rule text that is compiled, by the number of its rules.
pub(crate) fn compiled_reply(alloc: Global, rules: usize) -> Result<Reply, OutOfMemory>
    ensures { IfOk result (λ r. said r ≡ compiled_reply rules) }
{
    Ok(Reply {
        text: format!(in alloc; "compiled {rules}\n")?,
        status: 0,
    })
}
