//! A report with the explanation of each finding below its line.

ghost use Rattle.std.specs.Prelude.{◌≡◌, ◌++◌, map, option_map, IfOk, OnOk, Some, string_bytes};
ghost use Rattle.report_forms.specs.ReportRows.{words_in, word_at};
ghost use Rattle.ocl_explain.specs.FindingView.{finding_text};
ghost use Rattle.ocl_explain.specs.ExplainedReport.{after_line, parts_shown, left_after, is_line_wanted, explained_line, explained_report};

use crate::explainer::{Explainer, Finding};
use explain_notes::cut_text;
use imkl_population::Population;
use ocl_base::OutOfMemory;
use report_forms::{lines_in, put_ended, word_at, words_in};
use std::alloc::Global;

/// How much is shown of the explanations of a report.
#[derive(Clone, Copy)]
pub struct Shown {
    /// The greatest number of findings of a rule that are explained.
    pub findings: usize,
    /// The greatest number of lines of an explanation.
    pub lines: usize,
}

/// How much is printed of a finding.
#[derive(Clone, Copy)]
pub enum Detail {
    /// Its verdict.
    Verdict,
    /// Its verdict, and below that why: the parts of the rule's expression with their values.
    Why(Shown),
}

/// What is wanted of a report with explanations.
#[derive(Clone, Copy)]
pub(crate) struct Wanted<'w> {
    /// How much is shown.
    pub(crate) shown: Shown,
    /// The name of the rule whose lines are wanted, if only those are.
    pub(crate) rule: Option<&'w [u8]>,
}

/// Where a report is gone over.
#[derive(Clone, Copy)]
struct Progress {
    /// How many findings of the rule may still be explained.
    left: usize,
    /// The object from which on the next one is looked for.
    first: usize,
}

/// What comes after the first line.
fn after_line(text: &[u8]) -> &[u8]
    ensures { result.now ≡ after_line text.now }
{
    for index in 0..text.len() {
        if text[index] == b'\n' {
            return &text[index + 1..];
        }
    }
    &[]
}

/// Puts so many lines of an explanation, without its first.
fn put_parts(
    alloc: Global,
    out: &mut Vec<u8>,
    text: &String,
    lines: usize,
) -> Result<(), OutOfMemory>
    ensures { OnOk result (out.new.items ≡
        out.old.items ++ parts_shown lines (Some (string_bytes text.now))) }
{
    let parts = cut_text(alloc, after_line(text.as_bytes()), lines)?;
    out.extend_from_slice(&parts)?;
    Ok(())
}

/// Puts the explanation of a finding, if there is one; returns where the next object is looked for.
fn put_finding(
    alloc: Global,
    out: &mut Vec<u8>,
    finding: Option<Finding>,
    lines: usize,
    first: usize,
) -> Result<usize, OutOfMemory>
    ensures { OnOk result (out.new.items ≡ out.old.items ++
        parts_shown lines (option_map finding_text finding)) }
{
    match finding {
        Some(Finding { text, object }) => {
            put_parts(alloc, out, &text, lines)?;
            Ok(object.index())
        }
        None => Ok(first),
    }
}

/// Whether a line of these words is wanted.
fn is_line_wanted(rule: Option<&[u8]>, words: &[&[u8]]) -> bool
    ensures { result ≡ is_line_wanted (option_map (λ r. r.now) rule.entry)
        (map (λ w. w.now) words.now) }
{
    match rule {
        Some(name) => word_at(words, 0) != b"total".as_slice() && word_at(words, 1) == name,
        None => true,
    }
}

/// Puts a line of a report, and below that of a finding its explanation, if it may be explained; returns how it goes on.
fn put_line<E: Explainer>(
    alloc: Global,
    out: &mut Vec<u8>,
    explainer: &E,
    population: &Population<'_>,
    wanted: Wanted<'_>,
    progress: Progress,
    line: &[u8],
) -> Result<Progress, OutOfMemory>
    requires { E.can_explain explainer.now population.now.content }
    ensures left { IfOk result (λ g. g.left ≡
        left_after wanted.entry.shown.findings progress.left line.now) }
    ensures text { OnOk result (out.new.items ≡ out.old.items ++ explained_line
        (E.explains explainer.now population.now.content) wanted.entry.shown
        (option_map (λ r. r.now) wanted.entry.rule) progress.left line.now) }
{
    let words = words_in(alloc, line)?;
    let is_wanted = is_line_wanted(wanted.rule, &words);
    if is_wanted {
        put_ended(out, line)?;
    }
    if words.len() != 3 {
        return Ok(Progress {
            left: wanted.shown.findings,
            first: 0,
        });
    }
    if progress.left == 0 || !is_wanted {
        return Ok(Progress {
            left: progress.left.saturating_sub(1),
            first: progress.first,
        });
    }
    let finding = explainer.explain(alloc, population, words[1], progress.first, words[2])?;
    let first = put_finding(alloc, out, finding, wanted.shown.lines, progress.first)?;
    Ok(Progress {
        left: progress.left - 1,
        first,
    })
}

/// A report with the explanation of each finding below its line, or what it has of the rule of a name.
pub(crate) fn explained_report<E: Explainer>(
    alloc: Global,
    explainer: &E,
    population: &Population<'_>,
    wanted: Wanted<'_>,
    text: &[u8],
) -> Result<Vec<u8>, OutOfMemory>
    requires { E.can_explain explainer.now population.now.content }
    ensures { IfOk result (λ v. v.items ≡ explained_report
        (E.explains explainer.now population.now.content) wanted.entry.shown
        (option_map (λ r. r.now) wanted.entry.rule) text.now) }
{
    let lines = lines_in(alloc, text)?;
    let mut progress = Progress {
        left: wanted.shown.findings,
        first: 0,
    };
    let mut out = Vec::new(alloc);
    'lines: for line in &lines {
        progress = put_line(
            alloc, &mut out, explainer, population, wanted, progress, line,
        )?;
    }
    Ok(out)
}
