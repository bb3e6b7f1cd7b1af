//! Tables for spreadsheets: a row for each delivery, or for each rule of a delivery.

use crate::cells::put_cell;
use crate::delivery::{Delivery, Known};
use crate::name::DeliveryName;
use crate::pieces::{put, put_number};
use crate::summary::put_lack;
use crate::tally::RuleCounts;
use explain_notes::visible_text;
use std::alloc::{AllocError, Global};

/// A table.
#[derive(Clone, Copy)]
pub enum Table {
    /// A row for each delivery.
    Deliveries,
    /// A row for each rule of each delivery that was judged.
    Rules,
}

/// The counts of a delivery, over all rules.
#[derive(Clone, Copy)]
struct DeliveryCounts {
    checked: u64,
    holds: u64,
    fails: u64,
    undecided: u64,
}

impl DeliveryCounts {
    fn of(rules: &[RuleCounts<'_>]) -> DeliveryCounts {
        let mut counts = DeliveryCounts {
            checked: 0,
            holds: 0,
            fails: 0,
            undecided: 0,
        };
        for rule in rules {
            counts.checked = counts.checked.saturating_add(rule.checked);
            counts.holds = counts.holds.saturating_add(rule.holds);
            counts.fails = counts.fails.saturating_add(rule.fails);
            counts.undecided = counts.undecided.saturating_add(rule.undecided);
        }
        counts
    }

    /// Puts four cells, each behind a comma.
    fn put(&self, alloc: Global, out: &mut Vec<u8>) -> Result<(), AllocError> {
        for count in [self.checked, self.holds, self.fails, self.undecided] {
            put(out, ",")?;
            put_number(alloc, out, count)?;
        }
        Ok(())
    }
}

/// Puts a cell of a part of a file as it is shown.
fn put_shown_cell(alloc: Global, out: &mut Vec<u8>, text: &[u8]) -> Result<(), AllocError> {
    put_cell(out, visible_text(alloc, text)?.as_bytes())
}

/// Puts the cells of a delivery's sender and of its name.
fn put_name_cells(
    alloc: Global,
    out: &mut Vec<u8>,
    name: DeliveryName<'_>,
) -> Result<(), AllocError> {
    put_shown_cell(alloc, out, name.sender_bytes())?;
    put(out, ",")?;
    put_shown_cell(alloc, out, name.name.as_bytes())
}

/// The word of what is known of a delivery.
fn result_word(known: &Known<'_>) -> &'static str {
    match known {
        Known::Holds(_) => "holds",
        Known::Findings(_) => "findings",
        Known::Refused(_) => "refused",
        Known::Failed(_) => "failed",
        Known::Incomplete(_) => "incomplete",
    }
}

/// Puts the cells behind the status: the counts, or why there are none.
fn put_known(alloc: Global, out: &mut Vec<u8>, delivery: &Delivery<'_>) -> Result<(), AllocError> {
    match &delivery.known {
        Known::Holds(_) | Known::Findings(_) => {
            DeliveryCounts::of(delivery.rules()).put(alloc, out)?;
            put(out, ",")
        }
        Known::Refused(line) | Known::Failed(line) => {
            put(out, ",,,,,")?;
            put_shown_cell(alloc, out, line)
        }
        Known::Incomplete(lack) => {
            put(out, ",,,,,")?;
            put_lack(alloc, out, *lack)
        }
    }
}

fn put_delivery_row(
    alloc: Global,
    out: &mut Vec<u8>,
    name: DeliveryName<'_>,
    delivery: &Delivery<'_>,
) -> Result<(), AllocError> {
    put_name_cells(alloc, out, name)?;
    put(out, ",")?;
    put(out, result_word(&delivery.known))?;
    put(out, ",")?;
    put(out, delivery.status.word())?;
    put_known(alloc, out, delivery)?;
    put(out, "\n")
}

fn put_rule_rows(
    alloc: Global,
    out: &mut Vec<u8>,
    name: DeliveryName<'_>,
    delivery: &Delivery<'_>,
) -> Result<(), AllocError> {
    let mut first = Vec::new(alloc);
    put_name_cells(alloc, &mut first, name)?;
    for counts in delivery.rules() {
        out.extend_from_slice(&first)?;
        put(out, ",")?;
        put_shown_cell(alloc, out, counts.rule)?;
        DeliveryCounts::of(&[*counts]).put(alloc, out)?;
        put(out, "\n")?;
    }
    Ok(())
}

impl Table {
    /// Puts the names of the columns.
    pub fn put_head(self, out: &mut Vec<u8>) -> Result<(), AllocError> {
        match self {
            Table::Deliveries => put(
                out,
                "sender,delivery,result,status,checked,holds,fails,undecided,reason\n",
            ),
            Table::Rules => put(out, "sender,delivery,rule,checked,holds,fails,undecided\n"),
        }
    }

    /// Puts the rows of a delivery.
    pub fn put_rows(
        self,
        alloc: Global,
        out: &mut Vec<u8>,
        name: DeliveryName<'_>,
        delivery: &Delivery<'_>,
    ) -> Result<(), AllocError> {
        match self {
            Table::Deliveries => put_delivery_row(alloc, out, name, delivery),
            Table::Rules => put_rule_rows(alloc, out, name, delivery),
        }
    }
}
