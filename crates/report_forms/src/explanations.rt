//! Lines of explanations, below the finding that they explain.

ghost use Rattle.std.specs.Prelude.{◌≡◌, ◌++◌, OnOk};
ghost use Rattle.report_forms.specs.ExplanationLines.{is_explanation, json_explanation, html_explanation, junit_explanation, explanation_by};

use crate::escapes::{put_json, put_xml};
use crate::lines::Part;
use crate::pieces::put;
use crate::rows::put_ended;
use std::alloc::AllocError;

/// Whether a line is of an explanation: no line of a report begins as one.
pub(crate) fn is_explanation(line: &[u8]) -> bool
    ensures { result ≡ is_explanation line.now }
{
    match line {
        [first, ..] => *first == b' ' || *first == b'a',
        [] => false,
    }
}

/// Puts an object of JSON.
fn put_json_explanation(out: &mut Vec<u8>, line: &[u8]) -> Result<(), AllocError>
    ensures { OnOk result (out.new.items ≡ out.old.items ++ json_explanation line.now) }
{
    put(out, "{\"why\":\"")?;
    put_json(out, line)?;
    put(out, "\"}\n")
}

/// Puts a line of the cell of a finding's message.
fn put_html_explanation(out: &mut Vec<u8>, line: &[u8]) -> Result<(), AllocError>
    ensures { OnOk result (out.new.items ≡ out.old.items ++ html_explanation line.now) }
{
    put(out, "<code>")?;
    put_xml(out, line)?;
    put(out, "</code>\n")
}

/// Puts a line of a test case's failure.
pub(crate) fn put_junit_explanation(out: &mut Vec<u8>, line: &[u8]) -> Result<(), AllocError>
    ensures { OnOk result (out.new.items ≡ out.old.items ++ junit_explanation line.now) }
{
    put_xml(out, line)?;
    put(out, "\n")
}

/// Puts what a line of an explanation gives.
pub(crate) fn put_explanation(out: &mut Vec<u8>, part: Part, line: &[u8]) -> Result<(), AllocError>
    ensures { OnOk result (out.new.items ≡ out.old.items ++ explanation_by part line.now) }
{
    match part {
        Part::Text => put_ended(out, line),
        Part::Json => put_json_explanation(out, line),
        Part::HtmlFindings => put_html_explanation(out, line),
        Part::Github | Part::SarifRules | Part::SarifResults | Part::HtmlRules => Ok(()),
    }
}
