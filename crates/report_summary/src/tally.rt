//! What is counted of a report.

ghost use Rattle.std.specs.Prelude.{◌≡◌, IfOk, length, map};
ghost use Rattle.report_summary.specs.Tallies.{
  text_lines,
  words_of,
  line_kind,
  lines_of_kind,
  counts_of_kinds,
  counts_in,
  all_lines_counted,
};

use crate::kinds::{LineKind, kind_by, word_in};
use std::alloc::{AllocError, Global};

/// The counts in the line of a rule.
#[derive(Clone, Copy)]
pub struct RuleCounts<'t> {
    /// The rule's name.
    pub rule: &'t [u8],
    /// How many objects it was judged for.
    pub checked: u64,
    /// For how many it holds.
    pub holds: u64,
    /// For how many it fails.
    pub fails: u64,
    /// For how many it is undecided.
    pub undecided: u64,
}

impl RuleCounts<'_> {
    /// Whether each object that was judged has one verdict.
    fn is_sum(&self) -> bool {
        self.checked
            == self
                .holds
                .saturating_add(self.fails)
                .saturating_add(self.undecided)
    }
}

/// How many lines of a text are of each kind.
#[derive(Clone, Copy)]
pub struct LineCounts {
    /// Lines of objects for which a rule fails.
    pub fails: usize,
    /// Lines of objects for which a rule is undecided.
    pub undecided: usize,
    /// Lines of rules.
    pub rules: usize,
    /// Lines with the total.
    pub totals: usize,
    /// Lines without a byte; one where the text ends with a line feed.
    pub empty: usize,
    /// Lines that are no line of a report.
    pub others: usize,
}

/// What is counted of a report.
#[derive(Drop)]
pub struct Tally<'t> {
    /// The counts of each rule, in the report's order.
    pub rules: Vec<RuleCounts<'t>>,
    /// How many lines there are of each kind.
    pub lines: LineCounts,
    /// Whether the last line that has bytes is the total.
    pub ends: bool,
    /// Whether the counts of each rule, and the total, are those of the lines above them.
    pub agrees: bool,
}

/// The lines of a text, and behind the last line feed an empty one.
fn text_lines(alloc: Global, text: &[u8]) -> Result<Vec<&[u8]>, AllocError>
    ensures { IfOk result (λ v. map (λ l. l.now) v.items ≡ text_lines text.now) }
{
    text.split(|byte| *byte == b'\n').collect(alloc)
}

/// The words of a line, between its spaces.
fn words_of(alloc: Global, line: &[u8]) -> Result<Vec<&[u8]>, AllocError>
    ensures { IfOk result (λ v. map (λ w. w.now) v.items ≡ words_of line.now) }
{
    line.split(|byte| *byte == b' ').collect(alloc)
}

fn line_kind(alloc: Global, line: &[u8]) -> Result<LineKind, AllocError>
    ensures { IfOk result (λ k. k ≡ line_kind line.now) }
{
    let words = words_of(alloc, line)?;
    Ok(kind_by(&words))
}

/// What each line is.
fn line_kinds(alloc: Global, lines: &[&[u8]]) -> Result<Vec<LineKind>, AllocError>
    ensures { IfOk result (λ v. v.items ≡ map (λ l. line_kind l.now) lines.now) }
{
    let mut kinds = Vec::new(alloc);
    for line in lines {
        kinds.push(line_kind(alloc, line)?)?;
    }
    Ok(kinds)
}

/// How many lines are of a kind.
fn lines_of_kind(wanted: LineKind, kinds: &[LineKind]) -> usize
    ensures { result ≡ lines_of_kind wanted kinds.now }
{
    kinds.iter().filter(|kind| **kind == wanted).count()
}

/// How many lines are of each kind: each is counted once.
#[tactic(auto, using(crate::proofs::Counts::each_once))]
fn line_counts(kinds: &[LineKind]) -> LineCounts
    ensures counts { result ≡ counts_of_kinds kinds.now }
    ensures each_once { all_lines_counted result ≡ length kinds.now }
{
    LineCounts {
        fails: lines_of_kind(LineKind::Fail, kinds),
        undecided: lines_of_kind(LineKind::Undecided, kinds),
        rules: lines_of_kind(LineKind::Rule, kinds),
        totals: lines_of_kind(LineKind::Total, kinds),
        empty: lines_of_kind(LineKind::Empty, kinds),
        others: lines_of_kind(LineKind::Other, kinds),
    }
}

/// What digits write; the greatest number where that is more.
fn number_in(digits: &[u8]) -> u64 {
    let mut number = 0u64;
    for digit in digits {
        let value = u64::from(digit.saturating_sub(b'0'));
        number = number.saturating_mul(10).saturating_add(value);
    }
    number
}

/// The counts in the line of a rule.
fn rule_counts<'t>(words: &[&'t [u8]]) -> RuleCounts<'t> {
    RuleCounts {
        rule: word_in(words, 1),
        checked: number_in(word_in(words, 3)),
        holds: number_in(word_in(words, 5)),
        fails: number_in(word_in(words, 7)),
        undecided: number_in(word_in(words, 9)),
    }
}

/// How many findings there are of each verdict, of one rule where there is one.
#[derive(Clone, Copy)]
struct Findings<'t> {
    rule: &'t [u8],
    fails: u64,
    undecided: u64,
}

impl<'t> Findings<'t> {
    fn none() -> Findings<'t> {
        Findings {
            rule: &[],
            fails: 0,
            undecided: 0,
        }
    }

    fn is_none(&self) -> bool {
        self.rule.is_empty() && self.fails == 0 && self.undecided == 0
    }

    /// Whether they may be findings of a rule.
    fn may_be_of(&self, rule: &[u8]) -> bool {
        self.rule.is_empty() || self.rule == rule
    }

    /// With more of a rule.
    fn with(self, rule: &'t [u8], fails: u64, undecided: u64) -> Findings<'t> {
        Findings {
            rule,
            fails: self.fails.saturating_add(fails),
            undecided: self.undecided.saturating_add(undecided),
        }
    }
}

/// What was read of a report down to a line.
#[derive(Drop)]
struct Reading<'t> {
    rules: Vec<RuleCounts<'t>>,
    /// The findings since the last line of a rule.
    here: Findings<'t>,
    /// Those of all rules above.
    before: Findings<'t>,
    ends: bool,
    agrees: bool,
}

impl<'t> Reading<'t> {
    /// Reads the line of an object.
    fn read_finding(&mut self, rule: &'t [u8], fails: u64, undecided: u64) {
        self.agrees = self.agrees && self.here.may_be_of(rule);
        self.here = self.here.with(rule, fails, undecided);
    }

    /// Reads the line of a rule.
    fn read_rule(&mut self, counts: RuleCounts<'t>) -> Result<(), AllocError> {
        let here = self.here;
        let is_same = here.fails == counts.fails && here.undecided == counts.undecided;
        self.agrees = self.agrees && here.may_be_of(counts.rule) && is_same && counts.is_sum();
        self.before = self.before.with(&[], counts.fails, counts.undecided);
        self.here = Findings::none();
        self.rules.push(counts)?;
        Ok(())
    }

    /// Reads the last line.
    fn read_total(&mut self, fails: u64, undecided: u64) {
        let before = self.before;
        let is_same = before.fails == fails && before.undecided == undecided;
        self.agrees = self.agrees && self.here.is_none() && is_same;
    }

    /// Reads a line of a kind, of which these are the words. Nothing may be below the total.
    fn read(&mut self, kind: LineKind, words: &[&'t [u8]]) -> Result<(), AllocError> {
        if kind == LineKind::Empty {
            return Ok(());
        }
        self.agrees = self.agrees && !self.ends;
        self.ends = kind == LineKind::Total;
        match kind {
            LineKind::Fail => self.read_finding(word_in(words, 1), 1, 0),
            LineKind::Undecided => self.read_finding(word_in(words, 1), 0, 1),
            LineKind::Rule => self.read_rule(rule_counts(words))?,
            LineKind::Total => {
                self.read_total(number_in(word_in(words, 2)), number_in(word_in(words, 4)));
            }
            LineKind::Empty | LineKind::Other => {}
        }
        Ok(())
    }
}

/// Reads lines, of which these are the kinds.
fn reading_of<'t>(
    alloc: Global,
    lines: &[&'t [u8]],
    kinds: &[LineKind],
) -> Result<Reading<'t>, AllocError> {
    let mut reading = Reading {
        rules: Vec::new(alloc),
        here: Findings::none(),
        before: Findings::none(),
        ends: false,
        agrees: true,
    };
    for (line, kind) in lines.iter().zip(kinds.iter()) {
        let words = words_of(alloc, line)?;
        reading.read(*kind, &words)?;
    }
    Ok(reading)
}

/// What is counted of a report, or of any text.
pub(crate) fn tally_of(alloc: Global, text: &[u8]) -> Result<Tally<'_>, AllocError>
    ensures lines { IfOk result (λ t. t.lines ≡ counts_in text.now) }
    ensures each_once { IfOk result (λ t. all_lines_counted t.lines ≡ length (text_lines text.now)) }
{
    let lines = text_lines(alloc, text)?;
    let kinds = line_kinds(alloc, &lines)?;
    let reading = reading_of(alloc, &lines, &kinds)?;
    Ok(Tally {
        rules: reading.rules,
        lines: line_counts(&kinds),
        ends: reading.ends,
        agrees: reading.agrees,
    })
}
