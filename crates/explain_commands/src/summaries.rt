//! A summary of a folder of reports.

use crate::files::{Bytes, in_memory, print_bytes, read_file};
use crate::report_files::{Found, Part, found_in, senders_in};
use explain_command_line::SummaryWords;
use ocl_check::{CommandFault, Outcome};
use report_summary::{Delivery, DeliveryFiles, DeliveryName, Summary, Sums, Table, read_delivery};

/// A folder of reports: all are of one sender, or of none.
#[derive(Clone, Copy, Drop)]
struct Source<'a> {
    folder: &'a str,
    sender: Option<&'a str>,
    /// The table whose rows are printed, if one is asked for.
    table: Option<Table>,
}

impl<'a> Source<'a> {
    /// The delivery of a name.
    fn delivery(self, name: &'a str) -> DeliveryName<'a> {
        DeliveryName {
            sender: self.sender,
            name,
        }
    }
}

/// The path of a file of a delivery.
fn path_of(rt: &HostRuntime, folder: &str, name: &str, part: Part) -> Result<String, CommandFault> {
    let ending = part.ending();
    in_memory(format!(in rt.alloc(); "{folder}/{name}{ending}"))
}

/// Reads a file of a delivery, if it is there.
fn read_part<'a>(
    rt: &HostRuntime,
    is_there: bool,
    path: &'a str,
) -> Result<Option<Bytes<'a>>, CommandFault> {
    if is_there {
        Ok(Some(read_file(rt, path)?))
    } else {
        Ok(None)
    }
}

/// The bytes of a file that was read.
fn bytes_of<'a>(file: &'a Option<Bytes<'_>>) -> Option<&'a [u8]> {
    match file {
        Some(bytes) => Some(bytes.input().bytes),
        None => None,
    }
}

/// Prints the rows of a delivery in a table, and above the first what stands at the head.
fn print_rows(
    rt: &HostRuntime,
    table: Table,
    is_first: bool,
    name: DeliveryName<'_>,
    delivery: &Delivery<'_>,
) -> Result<(), CommandFault> {
    let mut rows = Vec::new(rt.alloc());
    if is_first {
        in_memory(table.put_head(&mut rows))?;
    }
    in_memory(table.put_rows(rt.alloc(), &mut rows, name, delivery))?;
    print_bytes(rt, &rows)
}

/// Counts a delivery, in the summary and among those of its folder.
fn add_delivery(
    rt: &HostRuntime,
    summary: &mut Summary,
    sums: &mut Sums,
    source: Source<'_>,
    name: &str,
    delivery: &Delivery<'_>,
) -> Result<(), CommandFault> {
    let name = source.delivery(name);
    if let Some(table) = source.table {
        print_rows(rt, table, summary.is_empty(), name, delivery)?;
    }
    in_memory(sums.add(rt.alloc(), delivery))?;
    in_memory(summary.add(rt.alloc(), name, delivery))
}

/// Reads the files of a delivery, and sums it.
fn add_files(
    rt: &HostRuntime,
    summary: &mut Summary,
    sums: &mut Sums,
    source: Source<'_>,
    name: &str,
    found: Found,
) -> Result<(), CommandFault> {
    let status_path = path_of(rt, source.folder, name, Part::Status)?;
    let report_path = path_of(rt, source.folder, name, Part::Report)?;
    let failure_path = path_of(rt, source.folder, name, Part::Failure)?;
    let status = read_part(rt, found.status, status_path.as_str())?;
    let report = read_part(rt, found.report, report_path.as_str())?;
    let failure = read_part(rt, found.failure, failure_path.as_str())?;
    let files = DeliveryFiles {
        status: bytes_of(&status),
        report: bytes_of(&report),
        failure: bytes_of(&failure),
    };
    let delivery = in_memory(read_delivery(rt.alloc(), files))?;
    add_delivery(rt, summary, sums, source, name, &delivery)
}

/// Counts the deliveries of a folder, and returns the sums over them alone.
fn add_folder(
    rt: &HostRuntime,
    summary: &mut Summary,
    source: Source<'_>,
) -> Result<Sums, CommandFault> {
    let found = found_in(rt, source.folder)?;
    let mut sums = Sums::new(rt.alloc());
    for (name, files) in &found {
        add_files(rt, summary, &mut sums, source, name.as_str(), *files)?;
    }
    Ok(sums)
}

/// Counts the deliveries of a sender.
fn add_sender(
    rt: &HostRuntime,
    summary: &mut Summary,
    words: SummaryWords<'_>,
    sender: &str,
) -> Result<(), CommandFault> {
    let above = words.folder;
    let folder = in_memory(format!(in rt.alloc(); "{above}/{sender}"))?;
    let source = Source {
        folder: folder.as_str(),
        sender: Some(sender),
        table: words.table,
    };
    let sums = add_folder(rt, summary, source)?;
    in_memory(summary.add_sender(rt.alloc(), sender, &sums))
}

/// Counts the deliveries of a folder, those of no sender first.
fn add_all(
    rt: &HostRuntime,
    summary: &mut Summary,
    words: SummaryWords<'_>,
) -> Result<(), CommandFault> {
    let source = Source {
        folder: words.folder,
        sender: None,
        table: words.table,
    };
    let _sums = add_folder(rt, summary, source)?;
    for sender in &senders_in(rt, words.folder)? {
        add_sender(rt, summary, words, sender.as_str())?;
    }
    Ok(())
}

/// Prints what was summed up, unless the rows of a table are printed already.
fn print_summary(
    rt: &HostRuntime,
    summary: &Summary,
    table: Option<Table>,
) -> Result<(), CommandFault> {
    if table.is_some() {
        return Ok(());
    }
    let mut text = Vec::new(rt.alloc());
    in_memory(summary.put(rt.alloc(), &mut text))?;
    print_bytes(rt, &text)
}

/// Sums up a folder.
fn sum_up_folder(rt: &HostRuntime, words: SummaryWords<'_>) -> Result<Outcome, CommandFault> {
    let folder = words.folder;
    let mut summary = Summary::new(rt.alloc());
    add_all(rt, &mut summary, words)?;
    if summary.is_empty() {
        let _ = eprintln!(rt; "{folder}: it has no report, status or failure");
        return Ok(Outcome::Status(2));
    }
    print_summary(rt, &summary, words.table)?;
    Ok(Outcome::Status(if summary.is_complete() { 0 } else { 1 }))
}

/// Prints a summary of a folder of reports.
pub fn sum_up(rt: &HostRuntime, words: SummaryWords<'_>) -> Outcome {
    match sum_up_folder(rt, words) {
        Ok(outcome) => outcome,
        Err(fault) => Outcome::Failed(fault),
    }
}
