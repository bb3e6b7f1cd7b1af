//! What each line of a report, and of the explanations in it, gives by itself.

ghost use Rattle.std.specs.Prelude.{◌≡◌, ◌++◌, IfOk, OnOk, map};
ghost use Rattle.report_forms.specs.Findings.{context_of, finding_view};
ghost use Rattle.report_forms.specs.ReportRows.{words_in};
ghost use Rattle.report_forms.specs.Lines.{finding_by, other_by, report_line_by, line_by, lines_by};

use crate::beside::Beside;
use crate::explanations::{is_explanation, put_explanation};
use crate::finding::{Finding, finding_of, next_first, object_in};
use crate::github::put_annotation;
use crate::html::{put_html_finding, put_html_words};
use crate::json::{put_json_finding, put_json_words};
use crate::rows::{lines_in, put_ended, words_in};
use crate::sarif::{put_result, put_rule_of};
use std::alloc::{AllocError, Global};

/// A part of a form, which is put together line by line.
#[derive(Clone, Copy)]
pub(crate) enum Part {
    /// The report, each finding with its place.
    Text,
    /// JSON lines.
    Json,
    /// The report, each finding as an annotation.
    Github,
    /// The rules of SARIF, each behind a comma.
    SarifRules,
    /// The results of SARIF, each behind a comma.
    SarifResults,
    /// The rows of rules of a page.
    HtmlRules,
    /// The rows of findings of a page.
    HtmlFindings,
}

/// Puts what a finding gives.
fn put_finding(
    alloc: Global,
    out: &mut Vec<u8>,
    part: Part,
    beside: Beside<'_, '_>,
    finding: Finding<'_, '_, '_>,
) -> Result<(), AllocError>
    ensures { OnOk result (out.new.items ≡ out.old.items ++
        finding_by part (context_of beside.entry) (finding_view finding.entry)) }
{
    match part {
        Part::Text => finding.put_placed(alloc, out, beside.path),
        Part::Json => put_json_finding(alloc, out, finding),
        Part::Github => put_annotation(alloc, out, beside.path, finding),
        Part::SarifResults => put_result(alloc, out, beside.path, finding),
        Part::HtmlFindings => put_html_finding(alloc, out, finding),
        Part::SarifRules | Part::HtmlRules => Ok(()),
    }
}

/// Puts what another line gives, of which these are the words.
fn put_other(
    out: &mut Vec<u8>,
    part: Part,
    beside: Beside<'_, '_>,
    line: &[u8],
    words: &[&[u8]],
) -> Result<(), AllocError>
    requires { map (λ w. w.now) words.now ≡ words_in line.now }
    ensures { OnOk result (out.new.items ≡
        out.old.items ++ other_by part (context_of beside.entry) line.now) }
{
    match part {
        Part::Text | Part::Github => put_ended(out, line),
        Part::Json => put_json_words(out, words),
        Part::SarifRules => put_rule_of(out, beside, words),
        Part::HtmlRules => put_html_words(out, beside, words),
        Part::SarifResults | Part::HtmlFindings => Ok(()),
    }
}

/// Puts what a line of the report gives; returns where the next object is looked for.
fn put_report_line(
    alloc: Global,
    out: &mut Vec<u8>,
    part: Part,
    beside: Beside<'_, '_>,
    first: usize,
    line: &[u8],
) -> Result<usize, AllocError>
    ensures { OnOk result (out.new.items ≡
        out.old.items ++ report_line_by part (context_of beside.entry) line.now) }
{
    let words = words_in(alloc, line)?;
    if words.len() != 3 {
        put_other(out, part, beside, line, &words)?;
        return Ok(0);
    }
    let object = object_in(beside.population, first, &words);
    let finding = finding_of(beside, &words, object);
    put_finding(alloc, out, part, beside, finding)?;
    Ok(next_first(first, object))
}

/// Puts what a line of the report or of an explanation gives; returns where the next object is looked for.
fn put_line(
    alloc: Global,
    out: &mut Vec<u8>,
    part: Part,
    beside: Beside<'_, '_>,
    first: usize,
    line: &[u8],
) -> Result<usize, AllocError>
    ensures { OnOk result (out.new.items ≡
        out.old.items ++ line_by part (context_of beside.entry) line.now) }
{
    if is_explanation(line) {
        put_explanation(out, part, line)?;
        return Ok(first);
    }
    put_report_line(alloc, out, part, beside, first, line)
}

/// What the lines of a report and of the explanations in it give. Where memory runs out there is nothing.
pub(crate) fn lines_by(
    alloc: Global,
    part: Part,
    beside: Beside<'_, '_>,
    text: &[u8],
) -> Result<Vec<u8>, AllocError>
    ensures { IfOk result (λ v. v.items ≡ lines_by part (context_of beside.entry) text.now) }
{
    let lines = lines_in(alloc, text)?;
    let mut out = Vec::new(alloc);
    let mut first = 0;
    for line in &lines {
        first = put_line(alloc, &mut out, part, beside, first, line)?;
    }
    Ok(out)
}
