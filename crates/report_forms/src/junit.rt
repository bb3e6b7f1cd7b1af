//! A report as a test suite in JUnit's XML.

ghost use Rattle.std.specs.Prelude.{◌≡◌, ◌++◌, false, IfOk, OnOk, map};
ghost use Rattle.report_forms.specs.Findings.{context_of, finding_view};
ghost use Rattle.report_forms.specs.ReportRows.{words_in};
ghost use Rattle.report_forms.specs.JunitForm.{junit_begin, junit_end, junit_case, junit_failure, junit_finding, junit_rule, junit_words, junit_line, is_open_after_words, is_open_after, junit_lines, junit_report, junit_refusal};

use crate::beside::Beside;
use crate::escapes::put_xml;
use crate::explanations::{is_explanation, put_junit_explanation};
use crate::finding::{Finding, finding_of, next_first, object_in};
use crate::pieces::put;
use crate::rows::{lines_in, word_at, words_in};
use std::alloc::{AllocError, Global};

/// Puts what stands before the first test case.
fn put_begin(out: &mut Vec<u8>, path: &str) -> Result<(), AllocError>
    ensures { OnOk result (out.new.items ≡ out.old.items ++ junit_begin path.now) }
{
    put(
        out,
        "<?xml version=\"1.0\" encoding=\"UTF-8\"?>\n<testsuites>\n<testsuite name=\"",
    )?;
    put_xml(out, path.as_bytes())?;
    put(out, "\">\n")?;
    Ok(())
}

/// Puts what stands after the last test case.
fn put_end(out: &mut Vec<u8>) -> Result<(), AllocError>
    ensures { OnOk result (out.new.items ≡ out.old.items ++ junit_end) }
{
    put(out, "</testsuite>\n</testsuites>\n")
}

/// Puts the beginning of a test case, up to its name.
fn put_case(out: &mut Vec<u8>, rule: &[u8]) -> Result<(), AllocError>
    ensures { OnOk result (out.new.items ≡ out.old.items ++ junit_case rule.now) }
{
    put(out, "<testcase classname=\"ocl_check\" name=\"")?;
    out.extend_from_slice(rule)?;
    put(out, "\"")
}

/// Puts what stands before the first finding of a rule.
fn put_failure(out: &mut Vec<u8>, finding: Finding<'_, '_, '_>) -> Result<(), AllocError>
    ensures { OnOk result (out.new.items ≡
        out.old.items ++ junit_failure (finding_view finding.entry)) }
{
    put_case(out, finding.rule)?;
    put(out, "><failure message=\"")?;
    put_xml(out, finding.message.as_bytes())?;
    put(out, "\">\n")?;
    Ok(())
}

/// Puts a finding.
fn put_finding(
    alloc: Global,
    out: &mut Vec<u8>,
    is_open: bool,
    path: &str,
    finding: Finding<'_, '_, '_>,
) -> Result<(), AllocError>
    ensures { OnOk result (out.new.items ≡
        out.old.items ++ junit_finding is_open path.now (finding_view finding.entry)) }
{
    if !is_open {
        put_failure(out, finding)?;
    }
    let mut line = Vec::new(alloc);
    finding.put_placed(alloc, &mut line, path)?;
    put_xml(out, &line)
}

/// Puts the end of a rule's test case, or the whole of it where it has no finding.
fn put_rule(out: &mut Vec<u8>, is_open: bool, rule: &[u8]) -> Result<(), AllocError>
    ensures { OnOk result (out.new.items ≡ out.old.items ++ junit_rule is_open rule.now) }
{
    if is_open {
        return put(out, "</failure></testcase>\n");
    }
    put_case(out, rule)?;
    put(out, "/>\n")
}

/// Where a report is gone over.
#[derive(Clone, Copy)]
struct Progress {
    /// Whether a test case has begun and not ended.
    is_open: bool,
    /// The object from which on the next one is looked for.
    first: usize,
}

/// Puts what a line of the report gives; returns how it goes on.
fn put_report_line(
    alloc: Global,
    out: &mut Vec<u8>,
    beside: Beside<'_, '_>,
    progress: Progress,
    line: &[u8],
) -> Result<Progress, AllocError>
    ensures open { IfOk result (λ g. g.is_open ≡
        is_open_after_words progress.is_open (words_in line.now)) }
    ensures text { OnOk result (out.new.items ≡ out.old.items ++
        junit_words (context_of beside.entry) progress.is_open (words_in line.now)) }
{
    let words = words_in(alloc, line)?;
    let Progress { is_open, first } = progress;
    if words.len() == 3 {
        let object = object_in(beside.population, first, &words);
        let finding = finding_of(beside, &words, object);
        put_finding(alloc, out, is_open, beside.path, finding)?;
        return Ok(Progress {
            is_open: true,
            first: next_first(first, object),
        });
    }
    if words.len() == 10 {
        put_rule(out, is_open, word_at(&words, 1))?;
        return Ok(Progress {
            is_open: false,
            first: 0,
        });
    }
    Ok(progress)
}

/// Puts what a line of the report or of an explanation gives; returns how it goes on.
fn put_line(
    alloc: Global,
    out: &mut Vec<u8>,
    beside: Beside<'_, '_>,
    progress: Progress,
    line: &[u8],
) -> Result<Progress, AllocError>
    ensures open { IfOk result (λ g. g.is_open ≡ is_open_after progress.is_open line.now) }
    ensures text { OnOk result (out.new.items ≡
        out.old.items ++ junit_line (context_of beside.entry) progress.is_open line.now) }
{
    if is_explanation(line) {
        put_junit_explanation(out, line)?;
        return Ok(progress);
    }
    put_report_line(alloc, out, beside, progress, line)
}

/// Puts the test cases.
fn put_lines(
    alloc: Global,
    out: &mut Vec<u8>,
    beside: Beside<'_, '_>,
    lines: &[&[u8]],
) -> Result<(), AllocError>
    ensures { OnOk result (out.new.items ≡ out.old.items ++ junit_lines
        (context_of beside.entry) false (map (λ l. l.now) lines.now)) }
{
    let mut progress = Progress {
        is_open: false,
        first: 0,
    };
    'lines: for line in lines {
        progress = put_line(alloc, out, beside, progress, line)?;
    }
    Ok(())
}

/// The report as a test suite. Where memory runs out there is none.
pub(crate) fn junit_report(
    alloc: Global,
    beside: Beside<'_, '_>,
    text: &[u8],
) -> Result<Vec<u8>, AllocError>
    ensures { IfOk result (λ v. v.items ≡ junit_report (context_of beside.entry) text.now) }
{
    let lines = lines_in(alloc, text)?;
    let mut out = Vec::new(alloc);
    put_begin(&mut out, beside.path)?;
    put_lines(alloc, &mut out, beside, &lines)?;
    put_end(&mut out)?;
    Ok(out)
}

/// The line of a refusal as a test case that couldn't be tried.
pub(crate) fn junit_refusal(alloc: Global, path: &str, line: &[u8]) -> Result<Vec<u8>, AllocError>
    ensures { IfOk result (λ v. v.items ≡ junit_refusal path.now line.now) }
{
    let mut out = Vec::new(alloc);
    put_begin(&mut out, path)?;
    put_case(&mut out, b"inputs")?;
    put(&mut out, "><error message=\"")?;
    out.extend_from_slice(line)?;
    put(&mut out, "\"/></testcase>\n")?;
    put_end(&mut out)?;
    Ok(out)
}
