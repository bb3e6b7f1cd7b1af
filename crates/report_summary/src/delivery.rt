//! What is known of a delivery by the files that its run left.

ghost use Rattle.std.specs.Prelude.{◌≡◌, true, option_map, IfNone, IfOk};
ghost use Rattle.report_summary.specs.Tallies.{counts_in};
ghost use Rattle.report_summary.specs.Deliveries.{has_whole_counts, has_no_findings, may_be_said, report_bytes};

use crate::status::Status;
use crate::tally::{LineCounts, RuleCounts, Tally, tally_of};
use std::alloc::{AllocError, Global};

/// The files that the run on a delivery left, as far as they are there.
#[derive(Clone, Copy)]
pub struct DeliveryFiles<'t> {
    /// Its status.
    pub status: Option<&'t [u8]>,
    /// What it wrote on standard output.
    pub report: Option<&'t [u8]>,
    /// What it wrote on standard error.
    pub failure: Option<&'t [u8]>,
}

/// Why nothing is known of a delivery.
#[derive(Clone, Copy)]
pub enum Lack {
    /// There is no status.
    NoStatus,
    /// The status is none of the program's.
    OtherStatus,
    /// There is no report.
    NoReport,
    /// The report has no end.
    EndsEarly,
    /// So many lines are no lines of a report.
    OtherLines(usize),
    /// The counts of the report aren't those of its lines.
    Disagrees,
    /// The report isn't one of that status.
    WrongStatus,
}

/// What is known of a delivery.
#[derive(Drop)]
pub enum Known<'t> {
    /// Every rule holds.
    Holds(Tally<'t>),
    /// Some rule doesn't.
    Findings(Tally<'t>),
    /// The line by which an input is refused.
    Refused(&'t [u8]),
    /// The run failed: the first line of why.
    Failed(&'t [u8]),
    /// It has to be judged again.
    Incomplete(Lack),
}

/// A delivery, by the files that its run left.
#[derive(Drop)]
pub struct Delivery<'t> {
    /// The status.
    pub status: Status,
    /// What is known.
    pub known: Known<'t>,
}

impl<'t> Delivery<'t> {
    /// The counts of the rules, where the report is whole.
    pub(crate) fn rules(&self) -> &[RuleCounts<'t>] {
        match &self.known {
            Known::Holds(tally) | Known::Findings(tally) => &tally.rules,
            Known::Refused(_) | Known::Failed(_) | Known::Incomplete(_) => &[],
        }
    }
}

/// The first line of a text.
fn first_line(text: &[u8]) -> &[u8] {
    match text.iter().position(|byte| *byte == b'\n') {
        Some(end) => &text[..end],
        None => text,
    }
}

/// What a report lacks; nothing where it is whole.
fn lack_of(text: &[u8], tally: &Tally<'_>) -> Option<Lack>
    ensures whole { IfNone result (has_whole_counts tally.now.lines ≡ true) }
{
    if text.is_empty() {
        return Some(Lack::NoReport);
    }
    if !text.ends_with(b"\n") {
        return Some(Lack::EndsEarly);
    }
    let lines = tally.lines;
    if lines.others > 0 || lines.empty > 1 {
        let blank = lines.empty.saturating_sub(1);
        return Some(Lack::OtherLines(lines.others.saturating_add(blank)));
    }
    if !tally.ends {
        return Some(Lack::EndsEarly);
    }
    if tally.agrees && lines.totals == 1 {
        None
    } else {
        Some(Lack::Disagrees)
    }
}

/// Whether no line is that of an object for which a rule doesn't hold.
fn has_no_findings(lines: LineCounts) -> bool
    ensures { result ≡ has_no_findings lines }
{
    lines.fails == 0 && lines.undecided == 0
}

/// What is known by a whole report.
fn whole<'t>(status: Status, tally: Tally<'t>) -> Known<'t>
    requires { has_whole_counts tally.lines ≡ true }
    ensures { may_be_said tally.entry.lines result ≡ true }
{
    let is_clean = has_no_findings(tally.lines);
    match status {
        Status::Holds if is_clean => Known::Holds(tally),
        Status::Breaks if !is_clean => Known::Findings(tally),
        _ => Known::Incomplete(Lack::WrongStatus),
    }
}

/// What is known by the report of status 0 or 1.
fn judged<'t>(alloc: Global, status: Status, text: &'t [u8]) -> Result<Known<'t>, AllocError>
    ensures { IfOk result (λ k. may_be_said (counts_in text.now) k ≡ true) }
{
    let tally = tally_of(alloc, text)?;
    match lack_of(text, &tally) {
        Some(lack) => Ok(Known::Incomplete(lack)),
        None => Ok(whole(status, tally)),
    }
}

/// A refusal: one line that begins with its word.
fn refused(text: &[u8]) -> Known<'_>
    ensures { may_be_said (counts_in text.now) result ≡ true }
{
    if text.is_empty() {
        return Known::Incomplete(Lack::NoReport);
    }
    let Some(line) = text.strip_suffix(b"\n") else {
        return Known::Incomplete(Lack::EndsEarly);
    };
    if line.contains(&b'\n') || !line.starts_with(b"refused ") {
        return Known::Incomplete(Lack::WrongStatus);
    }
    Known::Refused(line)
}

/// The bytes of a report; none where it isn't there.
fn report_bytes<'t>(report: Option<&'t [u8]>) -> &'t [u8]
    ensures { result.now ≡ report_bytes (option_map (λ r. r.now) report.entry) }
{
    match report {
        Some(bytes) => bytes,
        None => &[],
    }
}

/// What is known of a delivery. It is said to hold, or to have findings, only by a report with lines of a report alone, which
/// has no finding, or has some.
pub fn read_delivery<'t>(
    alloc: Global,
    files: DeliveryFiles<'t>,
) -> Result<Delivery<'t>, AllocError>
    ensures said { IfOk result (λ d. may_be_said
        (counts_in (report_bytes (option_map (λ r. r.now) files.entry.report))) d.known ≡ true) }
{
    let status = Status::of_file(files.status);
    let report = report_bytes(files.report);
    let known = match status {
        Status::Holds | Status::Breaks => judged(alloc, status, report)?,
        Status::Refused => refused(report),
        Status::Failed => Known::Failed(first_line(files.failure.unwrap_or(&[]))),
        Status::Other => Known::Incomplete(Lack::OtherStatus),
        Status::Missing => Known::Incomplete(Lack::NoStatus),
    };
    Ok(Delivery { status, known })
}
