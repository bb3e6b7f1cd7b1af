//! Reports into writers that fail, and how often they are flushed.

ghost use Rattle.rule_cost.specs.Admission.{Fits};

use crate::asked::{Asked, Inputs, is_answered};
use imkl_population::Population;
use rule_cost::Admitted;
use rule_report::{ReportFault, Summary, Telling, write_report};
use std::alloc::Global;
use std::test::*;
use test_support::{CATALOGUE, DUCT, DUCT_DEPTH, Narrow, WhenFull};

/// The report on a duct that holds a cable 600 deep and one without a depth.
const REPORT: &str =
    "undecided d M1\nrule d checked 1 holds 0 fails 0 undecided 1\ntotal fails 0 undecided 1\n";

/// What it counts.
const SUMMARY: Summary = Summary {
    holds: 0,
    fails: 0,
    undecided: 1,
};

/// What is answered where the report goes into a writer, and the writer afterwards.
fn written_into(
    alloc: Global,
    admitted: &Admitted<'_>,
    population: &Population<'_>,
    writer: Narrow,
) -> (Result<Summary, ReportFault>, Narrow)
    requires { Fits admitted.now population.now.content }
{
    let mut sink = Telling::new(writer);
    let answer = write_report(alloc, admitted, population, &mut sink);
    (answer, sink.into_inner())
}

/// Whether a writer of so much room has taken just the beginning of the report, and neither a byte more nor a flush.
fn fails_after(
    alloc: Global,
    admitted: &Admitted<'_>,
    population: &Population<'_>,
    left: usize,
    writer: Narrow,
) -> bool
    requires { Fits admitted.now population.now.content }
{
    let (answer, writer) = written_into(alloc, admitted, population, writer);
    answer == Err(ReportFault::Write) && writer.has_first(left, REPORT.as_bytes())
}

/// Whether writers of so much room, of each kind, are left alone once they have failed.
fn are_left_alone_after(
    alloc: Global,
    admitted: &Admitted<'_>,
    population: &Population<'_>,
    left: usize,
) -> bool
    requires { Fits admitted.now population.now.content }
{
    for when_full in WhenFull::EACH {
        let writer = Narrow::new(alloc, left, when_full);
        let slow = Narrow::new(alloc, left, when_full).byte_by_byte();
        if !fails_after(alloc, admitted, population, left, writer)
            || !fails_after(alloc, admitted, population, left, slow)
        {
            return false;
        }
    }
    true
}

/// Writers that are full before each byte of the report.
pub(crate) fn full_writers(
    alloc: Global,
    admitted: &Admitted<'_>,
    population: &Population<'_>,
) -> Option<String>
    requires { Fits admitted.now population.now.content }
{
    for left in 0..REPORT.len() {
        if !are_left_alone_after(alloc, admitted, population, left) {
            return format!(in alloc; "full after {left}, and not left alone").ok();
        }
    }
    String::from_str(alloc, "left alone").ok()
}

/// Whether a writer takes the report whole, is then flushed once, and this is answered.
fn takes_it_whole(
    alloc: Global,
    admitted: &Admitted<'_>,
    population: &Population<'_>,
    writer: Narrow,
    answer: Result<Summary, ReportFault>,
) -> bool
    requires { Fits admitted.now population.now.content }
{
    let (answered, writer) = written_into(alloc, admitted, population, writer);
    answered == answer && writer.has_all(REPORT.as_bytes())
}

/// Writers that take the whole report, of which the last fails to flush.
pub(crate) fn whole_reports(
    alloc: Global,
    admitted: &Admitted<'_>,
    population: &Population<'_>,
) -> Option<String>
    requires { Fits admitted.now population.now.content }
{
    let wide = Narrow::new(alloc, REPORT.len(), WhenFull::Fails);
    let wide = takes_it_whole(alloc, admitted, population, wide, Ok(SUMMARY));
    let slow = Narrow::new(alloc, REPORT.len(), WhenFull::Fails).byte_by_byte();
    let slow = takes_it_whole(alloc, admitted, population, slow, Ok(SUMMARY));
    let stuck = Narrow::without_flush(alloc, REPORT.len());
    let stuck = takes_it_whole(alloc, admitted, population, stuck, Err(ReportFault::Write));
    format!(in alloc; "flushed {wide}, byte by byte {slow}, without flush {stuck}").ok()
}

const INPUTS: Inputs<'static> = Inputs {
    model: CATALOGUE,
    delivery: DUCT,
    code: DUCT_DEPTH,
    budget: 1_000,
};

#[test]
fn a_writer_that_failed_is_left_alone(rt: HostRuntime) {
    assert!(rt; is_answered(rt.alloc(), INPUTS, Asked::FullWriters, "left alone"));
}

#[test]
fn a_whole_report_is_flushed_once(rt: HostRuntime) {
    let words = "flushed true, byte by byte true, without flush true";
    assert!(rt; is_answered(rt.alloc(), INPUTS, Asked::WholeReports, words));
}
