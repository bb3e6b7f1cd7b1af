//! What deliveries come to: how many there are of each status, which refusals there are, and what is found of each rule.

use crate::delivery::{Delivery, Known};
use crate::pieces::{put, put_count};
use crate::status::{STATUSES, Status};
use crate::tally::RuleCounts;
use explain_notes::visible_text;
use std::alloc::{AllocError, Global};
use std::collections::BTreeMap;

/// What is known of a delivery, without its report.
#[derive(Clone, Copy, PartialEq, Eq)]
enum Outcome {
    Holds,
    Findings,
    Refused,
    Failed,
    Incomplete,
}

/// The counts of a rule over deliveries.
#[derive(Clone, Copy)]
struct RuleTotals {
    /// In how many deliveries it has findings.
    deliveries: u64,
    checked: u64,
    holds: u64,
    fails: u64,
    undecided: u64,
}

impl RuleTotals {
    fn none() -> RuleTotals {
        RuleTotals {
            deliveries: 0,
            checked: 0,
            holds: 0,
            fails: 0,
            undecided: 0,
        }
    }

    /// With the counts of one more delivery.
    fn with(self, counts: RuleCounts<'_>) -> RuleTotals {
        let has_findings = counts.fails > 0 || counts.undecided > 0;
        RuleTotals {
            deliveries: self.deliveries.saturating_add(u64::from(has_findings)),
            checked: self.checked.saturating_add(counts.checked),
            holds: self.holds.saturating_add(counts.holds),
            fails: self.fails.saturating_add(counts.fails),
            undecided: self.undecided.saturating_add(counts.undecided),
        }
    }
}

/// Puts the end of a rule's line.
fn put_totals(alloc: Global, out: &mut Vec<u8>, totals: RuleTotals) -> Result<(), AllocError> {
    put_count(alloc, out, " deliveries ", totals.deliveries)?;
    put_count(alloc, out, " checked ", totals.checked)?;
    put_count(alloc, out, " holds ", totals.holds)?;
    put_count(alloc, out, " fails ", totals.fails)?;
    put_count(alloc, out, " undecided ", totals.undecided)?;
    put(out, "\n")
}

/// What deliveries come to.
#[derive(Drop)]
pub struct Sums {
    outcomes: Vec<Outcome>,
    statuses: Vec<Status>,
    refusals: BTreeMap<String, u64>,
    rules: BTreeMap<String, RuleTotals>,
}

/// The outcome of what is known.
fn outcome_of(known: &Known<'_>) -> Outcome {
    match known {
        Known::Holds(_) => Outcome::Holds,
        Known::Findings(_) => Outcome::Findings,
        Known::Refused(_) => Outcome::Refused,
        Known::Failed(_) => Outcome::Failed,
        Known::Incomplete(_) => Outcome::Incomplete,
    }
}

impl Sums {
    /// Of no deliveries.
    pub fn new(alloc: Global) -> Sums {
        Sums {
            outcomes: Vec::new(alloc),
            statuses: Vec::new(alloc),
            refusals: BTreeMap::new(alloc),
            rules: BTreeMap::new(alloc),
        }
    }

    /// Sums a delivery.
    pub fn add(&mut self, alloc: Global, delivery: &Delivery<'_>) -> Result<(), AllocError> {
        self.outcomes.push(outcome_of(&delivery.known))?;
        self.statuses.push(delivery.status)?;
        for counts in delivery.rules() {
            self.add_rule(alloc, *counts)?;
        }
        if let Known::Refused(line) = &delivery.known {
            let count = self
                .refusals
                .entry(visible_text(alloc, line)?)?
                .or_insert(0);
            *count = count.saturating_add(1);
        }
        Ok(())
    }

    fn add_rule(&mut self, alloc: Global, counts: RuleCounts<'_>) -> Result<(), AllocError> {
        let name = visible_text(alloc, counts.rule)?;
        let totals = self.rules.entry(name)?.or_insert(RuleTotals::none());
        *totals = totals.with(counts);
        Ok(())
    }

    /// Whether there is no delivery.
    pub(crate) fn is_empty(&self) -> bool {
        self.outcomes.is_empty()
    }

    /// Whether nothing is to be judged again: no run failed, and no report is incomplete.
    pub(crate) fn is_complete(&self) -> bool {
        self.count(Outcome::Failed) == 0 && self.count(Outcome::Incomplete) == 0
    }

    fn count(&self, wanted: Outcome) -> u64 {
        self.outcomes.iter().filter(|it| **it == wanted).count() as u64
    }

    fn count_status(&self, wanted: Status) -> u64 {
        self.statuses.iter().filter(|it| **it == wanted).count() as u64
    }

    fn put_outcomes(&self, alloc: Global, out: &mut Vec<u8>, head: &str) -> Result<(), AllocError> {
        put(out, head)?;
        put_count(alloc, out, "deliveries ", self.outcomes.len() as u64)?;
        put_count(alloc, out, " holds ", self.count(Outcome::Holds))?;
        put_count(alloc, out, " findings ", self.count(Outcome::Findings))?;
        put_count(alloc, out, " refused ", self.count(Outcome::Refused))?;
        put_count(alloc, out, " failed ", self.count(Outcome::Failed))?;
        put_count(alloc, out, " incomplete ", self.count(Outcome::Incomplete))?;
        put(out, "\n")
    }

    /// The statuses that occur.
    fn put_statuses(&self, alloc: Global, out: &mut Vec<u8>, head: &str) -> Result<(), AllocError> {
        for status in STATUSES {
            let count = self.count_status(status);
            if count > 0 {
                put(out, head)?;
                put(out, "status ")?;
                put(out, status.word())?;
                put_count(alloc, out, " deliveries ", count)?;
                put(out, "\n")?;
            }
        }
        Ok(())
    }

    fn put_refusals(&self, alloc: Global, out: &mut Vec<u8>, head: &str) -> Result<(), AllocError> {
        for (line, count) in &self.refusals {
            put(out, head)?;
            put_count(alloc, out, "refusals ", *count)?;
            put(out, " ")?;
            put(out, line.as_str())?;
            put(out, "\n")?;
        }
        Ok(())
    }

    /// The rules, those with the most findings first.
    fn put_rules(&self, alloc: Global, out: &mut Vec<u8>, head: &str) -> Result<(), AllocError> {
        let mut rows: Vec<(&String, RuleTotals)> = Vec::new(alloc);
        for (name, totals) in &self.rules {
            rows.push((name, *totals))?;
        }
        rows.sort_by_key(|row| u64::MAX - row.1.fails.saturating_add(row.1.undecided))?;
        for (name, totals) in &rows {
            put(out, head)?;
            put(out, "rule ")?;
            put(out, name.as_str())?;
            put_totals(alloc, out, *totals)?;
        }
        Ok(())
    }

    /// Puts the counts in words; each line begins with a text, which may be empty.
    pub(crate) fn put(
        &self,
        alloc: Global,
        out: &mut Vec<u8>,
        head: &str,
    ) -> Result<(), AllocError> {
        self.put_outcomes(alloc, out, head)?;
        self.put_statuses(alloc, out, head)?;
        self.put_refusals(alloc, out, head)?;
        self.put_rules(alloc, out, head)
    }
}
