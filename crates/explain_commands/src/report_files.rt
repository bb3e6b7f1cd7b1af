//! The files that a folder of reports has, and the folders of senders in it.

use crate::files::{in_memory, unlisted};
use ocl_check::CommandFault;
use std::alloc::AllocError;
use std::collections::BTreeMap;
use std::fs;
use std::io::ErrorKind;

/// Which files a folder has of a delivery.
#[derive(Clone, Copy)]
pub(crate) struct Found {
    /// Whether there is a status.
    pub(crate) status: bool,
    /// Whether there is a report.
    pub(crate) report: bool,
    /// Whether there is what was written on standard error.
    pub(crate) failure: bool,
}

/// A file of a delivery.
#[derive(Clone, Copy)]
pub(crate) enum Part {
    /// What its run ended with.
    Status,
    /// What it wrote on standard output.
    Report,
    /// What it wrote on standard error.
    Failure,
}

impl Part {
    /// How the names of these files end.
    pub(crate) fn ending(self) -> &'static str {
        match self {
            Part::Status => ".status",
            Part::Report => ".report",
            Part::Failure => ".failure",
        }
    }
}

impl Found {
    fn nothing() -> Found {
        Found {
            status: false,
            report: false,
            failure: false,
        }
    }

    /// With one more file.
    fn with(self, part: Part) -> Found {
        let mut found = self;
        match part {
            Part::Status => found.status = true,
            Part::Report => found.report = true,
            Part::Failure => found.failure = true,
        }
        found
    }
}

/// The name of a delivery and which file of it this is, by the file's name.
fn part_of(file: &str) -> Option<(&str, Part)> {
    for part in [Part::Status, Part::Report, Part::Failure] {
        if let Some(name) = file.strip_suffix(part.ending()) {
            return Some((name, part));
        }
    }
    None
}

/// Notes a file of a folder.
fn note(
    rt: &HostRuntime,
    found: &mut BTreeMap<String, Found>,
    file: &str,
) -> Result<(), AllocError> {
    if let Some((name, part)) = part_of(file) {
        let name = String::from_str(rt.alloc(), name)?;
        let files = found.entry(name)?.or_insert(Found::nothing());
        *files = files.with(part);
    }
    Ok(())
}

/// The deliveries of which a folder has files, in the order of their names.
pub(crate) fn found_in(
    rt: &HostRuntime,
    folder: &str,
) -> Result<BTreeMap<String, Found>, CommandFault> {
    let entries = match fs::read_dir(rt, folder) {
        Ok(entries) => entries,
        Err(error) => return Err(unlisted(rt, folder, error)),
    };
    let mut found = BTreeMap::new(rt.alloc());
    for entry in entries {
        match entry {
            Ok(entry) => in_memory(note(rt, &mut found, entry.file_name()))?,
            Err(error) => return Err(unlisted(rt, folder, error)),
        }
    }
    Ok(found)
}

/// Whether there is a folder at a path.
fn is_folder(rt: &HostRuntime, path: &str) -> Result<bool, CommandFault> {
    match fs::metadata(rt, path) {
        Ok(metadata) => Ok(metadata.is_dir()),
        Err(error) if error.kind() == ErrorKind::NotFound => Ok(false),
        Err(error) => Err(unlisted(rt, path, error)),
    }
}

/// Notes the folder of a sender: one whose name isn't that of a delivery's file.
fn note_sender(
    rt: &HostRuntime,
    senders: &mut Vec<String>,
    folder: &str,
    name: &str,
) -> Result<(), CommandFault> {
    if part_of(name).is_some() {
        return Ok(());
    }
    let path = in_memory(format!(in rt.alloc(); "{folder}/{name}"))?;
    if is_folder(rt, path.as_str())? {
        let sender = in_memory(String::from_str(rt.alloc(), name))?;
        in_memory(senders.push(sender))?;
    }
    Ok(())
}

/// The senders of which a folder has folders, in the order of their names.
pub(crate) fn senders_in(rt: &HostRuntime, folder: &str) -> Result<Vec<String>, CommandFault> {
    let entries = match fs::read_dir(rt, folder) {
        Ok(entries) => entries,
        Err(error) => return Err(unlisted(rt, folder, error)),
    };
    let mut senders = Vec::new(rt.alloc());
    for entry in entries {
        match entry {
            Ok(entry) => note_sender(rt, &mut senders, folder, entry.file_name())?,
            Err(error) => return Err(unlisted(rt, folder, error)),
        }
    }
    senders.sort_unstable();
    Ok(senders)
}
