//! Writing a report as it goes: pair by pair, in pieces.

ghost use Rattle.std.specs.Prelude.{◌≡◌, ◌<◌, false, length, Some, OnOk, OnErr, IfOk, IfErr};
ghost use Rattle.std.specs.Io.KnownBytes.{Appends};
ghost use Rattle.imkl_population.specs.Population.{IsInstance};
ghost use Rattle.rule_cost.specs.Admission.{Fits};
ghost use Rattle.rule_machine.specs.Contract.{SameTask};
ghost use Rattle.rule_machine.specs.Machine.{setting_of};
ghost use Rattle.rule_report.specs.Cursor.{due};
ghost use Rattle.rule_report.specs.Pieces.{IsReportedMore};
ghost use Rattle.rule_report.specs.Sink.{WritesPrefix, IsFlushedOnce};
ghost use Rattle.rule_report.specs.Report.{report_of, summary_of};
ghost use Rattle.rule_report.specs.declared.fault.ReportFault.TheVariants as fault;
ghost use Rattle.rule_report.specs.Writing.{is_write_fault};

use crate::cursor::ReportCursor;
use crate::fault::ReportFault;
use crate::put::{write_and_flush, write_piece};
use crate::sink::Sink;
use crate::summary::Summary;
use imkl_population::{ObjectNo, Population};
use ocl_base::OutOfMemory;
use rule_cost::Admitted;
use rule_machine::Machine;
use std::alloc::Global;

/// Judges the pair that is due, and appends its line and all up to the next pair's.
fn report_pair(
    machine: &mut Machine<'_>,
    cursor: &mut ReportCursor<'_>,
    pair: (usize, ObjectNo),
    text: &mut Vec<u8>,
) -> Result<(), OutOfMemory>
    requires unit { machine.old.unit ≡ cursor.old.unit }
    requires population { machine.old.population ≡ cursor.old.population }
    requires due { due cursor.old ≡ Some pair }
    requires rule { pair.0 < length cursor.old.unit.rules }
    requires object { IsInstance cursor.old.population
        (setting_of cursor.old.unit cursor.old.population pair.0).context pair.1 }
    ensures task { SameTask machine.old machine.new }
    ensures reported { OnOk result
        (IsReportedMore cursor.old text.old.items cursor.new text.new.items) }
{
    let (rule, object) = pair;
    let verdict = machine.judge(rule, object)?;
    cursor.tell(verdict, text)
}

/// Writes the report on a population that fits the admitted code, so that no run is charged more than the budget, and
/// then flushes the sink once. It is written as it goes, and only some lines of it are kept in memory. Where a write, the
/// flush or memory fails, the sink took a prefix of the report, and takes no more.
pub fn write_report<S: Sink>(
    alloc: Global,
    admitted: &Admitted<'_>,
    population: &Population<'_>,
    sink: &mut S,
) -> Result<Summary, ReportFault>
    requires fits { Fits admitted.now population.now.content }
    requires well { S.has_failed sink.old ≡ false }
    ensures report { OnOk result (Appends (S.contents sink.old) (S.contents sink.new)
        (report_of admitted.now.resolved.unit population.now.content)) }
    ensures summary { IfOk result (λ s. s ≡
        summary_of admitted.now.resolved.unit population.now.content) }
    ensures prefix { OnErr result (WritesPrefix (S.contents sink.old) (S.contents sink.new)
        (report_of admitted.now.resolved.unit population.now.content)) }
    ensures write { S.has_failed sink.new ≡ is_write_fault result }
    ensures flushed { OnOk result (IsFlushedOnce S.flushes S.has_pending sink.old sink.new) }
    // Where memory runs out there is no flush.
    ensures unflushed { IfErr result (λ e. e ≡ fault.OutOfMemory →
        S.flushes sink.new ≡ S.flushes sink.old) }
{
    let mut text = Vec::new(alloc);
    let mut cursor = ReportCursor::new(admitted, population, &mut text)?;
    let mut machine = Machine::new(alloc, admitted.accepted(), population)?;
    while let Some(pair) = cursor.next() {
        report_pair(&mut machine, &mut cursor, pair, &mut text)?;
        write_piece(sink, &mut text)?;
    }
    write_and_flush(sink, &text)?;
    Ok(cursor.summary())
}
