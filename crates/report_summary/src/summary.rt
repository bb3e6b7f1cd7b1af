//! What a folder of reports comes to, in words.

use crate::delivery::{Delivery, Known, Lack};
use crate::name::DeliveryName;
use crate::pieces::{put, put_count, put_number};
use crate::sums::Sums;
use explain_notes::visible_text;
use std::alloc::{AllocError, Global};

/// What the deliveries of a folder come to.
#[derive(Drop)]
pub struct Summary {
    all: Sums,
    /// The lines of deliveries of which something is to be said.
    deliveries: Vec<u8>,
    /// The lines of the senders.
    senders: Vec<u8>,
}

/// What is said of a report that isn't whole.
pub(crate) fn put_lack(alloc: Global, out: &mut Vec<u8>, lack: Lack) -> Result<(), AllocError> {
    match lack {
        Lack::NoStatus => put(out, "no status"),
        Lack::OtherStatus => put(out, "another status"),
        Lack::NoReport => put(out, "no report"),
        Lack::EndsEarly => put(out, "the report ends early"),
        Lack::OtherLines(count) => {
            put(out, "lines that are no report's: ")?;
            put_number(alloc, out, count as u64)
        }
        Lack::Disagrees => put(out, "counts that aren't those of the lines"),
        Lack::WrongStatus => put(out, "not the report of its status"),
    }
}

/// Puts what is said of a delivery's findings.
fn put_findings(
    alloc: Global,
    out: &mut Vec<u8>,
    fails: usize,
    undecided: usize,
) -> Result<(), AllocError> {
    put_count(alloc, out, "fails ", fails as u64)?;
    put_count(alloc, out, " undecided ", undecided as u64)
}

/// Puts a part of a file as it is shown.
fn put_shown(alloc: Global, out: &mut Vec<u8>, text: &[u8]) -> Result<(), AllocError> {
    put(out, visible_text(alloc, text)?.as_str())
}

/// Puts the name of a delivery, behind that of its sender.
fn put_name(alloc: Global, out: &mut Vec<u8>, name: DeliveryName<'_>) -> Result<(), AllocError> {
    if let Some(sender) = name.sender {
        put_shown(alloc, out, sender.as_bytes())?;
        put(out, "/")?;
    }
    put_shown(alloc, out, name.name.as_bytes())
}

/// Puts what is known of a delivery: nothing where every rule holds.
fn put_known(alloc: Global, out: &mut Vec<u8>, known: &Known<'_>) -> Result<(), AllocError> {
    match known {
        Known::Holds(_) => Ok(()),
        Known::Findings(tally) => {
            put_findings(alloc, out, tally.lines.fails, tally.lines.undecided)
        }
        Known::Refused(line) => put_shown(alloc, out, line),
        Known::Failed(line) => {
            put(out, "status 3: ")?;
            put_shown(alloc, out, line)
        }
        Known::Incomplete(lack) => {
            put(out, "incomplete: ")?;
            put_lack(alloc, out, *lack)
        }
    }
}

/// Puts the line of a delivery: none where every rule holds.
fn put_delivery(
    alloc: Global,
    out: &mut Vec<u8>,
    name: DeliveryName<'_>,
    known: &Known<'_>,
) -> Result<(), AllocError> {
    if let Known::Holds(_) = known {
        return Ok(());
    }
    put(out, "delivery ")?;
    put_name(alloc, out, name)?;
    put(out, " ")?;
    put_known(alloc, out, known)?;
    put(out, "\n")
}

impl Summary {
    /// Of no deliveries.
    pub fn new(alloc: Global) -> Summary {
        Summary {
            all: Sums::new(alloc),
            deliveries: Vec::new(alloc),
            senders: Vec::new(alloc),
        }
    }

    /// Sums a delivery.
    pub fn add(
        &mut self,
        alloc: Global,
        name: DeliveryName<'_>,
        delivery: &Delivery<'_>,
    ) -> Result<(), AllocError> {
        self.all.add(alloc, delivery)?;
        put_delivery(alloc, &mut self.deliveries, name, &delivery.known)
    }

    /// Adds the lines of a sender, by the sums over its deliveries.
    pub fn add_sender(
        &mut self,
        alloc: Global,
        sender: &str,
        sums: &Sums,
    ) -> Result<(), AllocError> {
        let shown = visible_text(alloc, sender.as_bytes())?;
        let head = format!(in alloc; "sender {shown} ")?;
        sums.put(alloc, &mut self.senders, head.as_str())
    }

    /// Whether there is no delivery.
    pub fn is_empty(&self) -> bool {
        self.all.is_empty()
    }

    /// Whether nothing is to be judged again: no run failed, and no report is incomplete.
    pub fn is_complete(&self) -> bool {
        self.all.is_complete()
    }

    /// Puts the summary in words.
    pub fn put(&self, alloc: Global, out: &mut Vec<u8>) -> Result<(), AllocError> {
        self.all.put(alloc, out, "")?;
        out.extend_from_slice(&self.deliveries)?;
        out.extend_from_slice(&self.senders)
    }
}
