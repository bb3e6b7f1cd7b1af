//! The calls of a script, one after another.

ghost use Rattle.std.specs.Prelude.{◌≡◌, false, OnOk, OnErr, IfErr};
ghost use Rattle.std.specs.Io.KnownBytes.{Appends};
ghost use Rattle.rule_cost.specs.Admission.{Fits};
ghost use Rattle.rule_report.specs.declared.fault.ReportFault.TheVariants as fault;
ghost use Rattle.rule_report.specs.Sink.{WritesPrefix, IsFlushedOnce};
ghost use Rattle.rule_report.specs.Writing.{is_write_fault};
ghost use Rattle.desk_replies.specs.Replies.{script_replies};

use crate::reply::reply;
use desk_script::Call;
use imkl_population::Population;
use rule_cost::Admitted;
use rule_desk::Desk;
use rule_report::{ReportFault, Sink, write_and_flush, write_piece};
use std::alloc::Global;

/// Makes the calls of a script on a desk without jobs, each job being the report on a population that fits the admitted
/// code, writes what is replied, and then flushes the sink once. Where memory runs out or a write fails, the sink took a
/// prefix of the replies; it has failed exactly where the result is `Write`.
pub fn answer_calls<'a, S: Sink>(
    alloc: Global,
    admitted: &'a Admitted<'a>,
    population: &'a Population<'a>,
    calls: &[Call],
    sink: &mut S,
) -> Result<(), ReportFault>
    requires fits { Fits admitted.now population.now.content }
    requires well { S.has_failed sink.old ≡ false }
    ensures replies { OnOk result (Appends (S.contents sink.old) (S.contents sink.new)
        (script_replies admitted.entry.now population.entry.now.content calls.now)) }
    ensures prefix { OnErr result (WritesPrefix (S.contents sink.old) (S.contents sink.new)
        (script_replies admitted.entry.now population.entry.now.content calls.now)) }
    ensures write { S.has_failed sink.new ≡ is_write_fault result }
    ensures flushed { OnOk result (IsFlushedOnce S.flushes S.has_pending sink.old sink.new) }
    // Where memory runs out there is no flush.
    ensures unflushed { IfErr result (λ e. e ≡ fault.OutOfMemory →
        S.flushes sink.new ≡ S.flushes sink.old) }
{
    let mut desk = Desk::new(alloc);
    let mut text = Vec::new(alloc);
    for call in calls {
        reply(alloc, &mut desk, admitted, population, *call, &mut text)?;
        write_piece(sink, &mut text)?;
    }
    write_and_flush(sink, &text)?;
    Ok(())
}
