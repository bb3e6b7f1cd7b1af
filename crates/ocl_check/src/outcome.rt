//! How a command ends.

ghost use Rattle.std.specs.Prelude.{◌≡◌, Bool, false, IfOk};
ghost use Rattle.ocl_check.specs.declared.outcome.CommandFault.TheVariants as fault;
ghost use Rattle.ocl_check.specs.Reply.{Answer, said};
ghost use Rattle.ocl_check.specs.Answers.{exit_status, failure_line, input_failure};
ghost use Rattle.ocl_check.specs.Ending.{IsEnding};
ghost use Rattle.ocl_check.specs.Given.{IsDueFor};

use crate::input::InputFault;
use crate::reply::{Reply, refusal_reply};
use crate::watch::Watch;
use ocl_base::OutOfMemory;
use ocl_pipeline::{Place, Stopped};
use rule_report::{Sink, write_and_flush};
use std::alloc::Global;

/// Why a command failed.
#[derive(Clone, Copy, Debug, PartialEq, Eq)]
pub enum CommandFault {
    /// Memory ran out.
    OutOfMemory,
    /// An input can't be read.
    Read,
    /// The answer can't be written.
    Write,
}

/// How a command ended.
#[derive(Clone, Copy, Debug, PartialEq, Eq)]
pub enum Outcome {
    /// With its answer written, and this exit status: 0, 1 or 2.
    Status(u8),
    /// Before its answer was written whole.
    Failed(CommandFault),
}

impl CommandFault {
    /// The line on standard error that reports it, without its line feed.
    pub fn line(self) -> &'static str
        ensures { result.now ≡ failure_line self }
    {
        match self {
            CommandFault::OutOfMemory => "failed memory",
            CommandFault::Read => "failed read",
            CommandFault::Write => "failed write",
        }
    }
}

impl Outcome {
    /// The exit status: 3 where the command failed.
    pub fn status(self) -> u8
        ensures { result ≡ exit_status self }
    {
        match self {
            Outcome::Status(status) => status,
            Outcome::Failed(_) => 3,
        }
    }
}

impl From<InputFault> for CommandFault {
    ghost from_gives = { λ f c. c ≡ input_failure f };

    fn from(fault: InputFault) -> CommandFault {
        match fault {
            InputFault::Read => CommandFault::Read,
            InputFault::OutOfMemory => CommandFault::OutOfMemory,
        }
    }
}

impl From<OutOfMemory> for CommandFault {
    ghost from_gives = { λ _ c. c ≡ fault.OutOfMemory };

    fn from(_error: OutOfMemory) -> CommandFault {
        CommandFault::OutOfMemory
    }
}

/// Writes a reply, and then flushes the sink.
pub(crate) fn say<S: Sink>(sink: &mut S, reply: &Reply) -> Outcome
    requires { S.has_failed sink.old ≡ false }
    ensures { (is_whole : Bool) → IsEnding S.contents S.has_failed S.flushes S.has_pending
        is_whole (said reply.now) sink.old result sink.new }
{
    match write_and_flush(sink, reply.text.as_bytes()) {
        Ok(()) => Outcome::Status(reply.status),
        Err(_failed) => Outcome::Failed(CommandFault::Write),
    }
}

/// Writes a reply, if there was memory to make it.
pub(crate) fn answer<S: Sink>(sink: &mut S, reply: Result<Reply, OutOfMemory>) -> Outcome
    requires { S.has_failed sink.old ≡ false }
    ensures { (is_whole : Bool) (a : Answer) → IfOk reply (λ r. said r ≡ a) → IsEnding S.contents
        S.has_failed S.flushes S.has_pending is_whole a sink.old result sink.new }
{
    match reply {
        Ok(reply) => say(sink, &reply),
        Err(OutOfMemory) => Outcome::Failed(CommandFault::OutOfMemory),
    }
}

/// Writes the line of a refusal, if that is why there is no other answer.
pub fn stop<S: Sink, V: Watch>(
    alloc: Global,
    watch: &V,
    place: Place<'_>,
    why: Stopped,
    sink: &mut S,
) -> Outcome
    requires { S.has_failed sink.old ≡ false }
    ensures { (is_whole : Bool) (a : Answer) → IsDueFor why a → IsEnding S.contents S.has_failed
        S.flushes S.has_pending is_whole a sink.old result sink.new }
{
    watch.stop(alloc, place, &why);
    answer(sink, refusal_reply(alloc, why))
}
