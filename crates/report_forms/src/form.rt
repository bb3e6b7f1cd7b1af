//! The forms of a report.

ghost use Rattle.std.specs.Prelude.{◌≡◌, ◌++◌, IfOk, codes};
ghost use Rattle.report_forms.specs.declared.form.Form.TheVariants as form;
ghost use Rattle.report_forms.specs.Findings.{context_of};
ghost use Rattle.report_forms.specs.Forms.{form_of_line, form_of_refusal, form_of_report};

use crate::beside::Beside;
use crate::github::github_refusal;
use crate::html::{html_page, html_refusal};
use crate::json::json_refusal;
use crate::junit::{junit_refusal, junit_report};
use crate::lines::{Part, lines_by};
use crate::rows::{lines_in, word_at};
use crate::sarif::{sarif_refusal, sarif_run};
use explain_faults::Fault;
use std::alloc::{AllocError, Global};

/// A form of a report.
#[derive(Clone, Copy)]
pub enum Form {
    /// A line for each finding, as compilers write them.
    Text,
    /// JSON lines.
    Json,
    /// Annotations of GitHub Actions.
    Github,
    /// JUnit's XML.
    Junit,
    /// SARIF 2.1.0.
    Sarif,
    /// A page of HTML.
    Html,
}

/// A report in SARIF.
fn sarif_report(alloc: Global, beside: Beside<'_, '_>, text: &[u8]) -> Result<Vec<u8>, AllocError>
    ensures { IfOk result (λ v. v.items ≡
        form_of_report form.Sarif (context_of beside.entry) text.now) }
{
    let rules = lines_by(alloc, Part::SarifRules, beside, text)?;
    let results = lines_by(alloc, Part::SarifResults, beside, text)?;
    sarif_run(alloc, &rules, &results)
}

/// A report as a page of HTML.
fn html_report(alloc: Global, beside: Beside<'_, '_>, text: &[u8]) -> Result<Vec<u8>, AllocError>
    ensures { IfOk result (λ v. v.items ≡
        form_of_report form.Html (context_of beside.entry) text.now) }
{
    let rules = lines_by(alloc, Part::HtmlRules, beside, text)?;
    let findings = lines_by(alloc, Part::HtmlFindings, beside, text)?;
    html_page(alloc, beside.path, &rules, &findings)
}

/// A report in a form. Where memory runs out there is none.
pub fn form_of_report(
    alloc: Global,
    form: Form,
    beside: Beside<'_, '_>,
    text: &[u8],
) -> Result<Vec<u8>, AllocError>
    ensures { IfOk result (λ v. v.items ≡ form_of_report form (context_of beside.entry) text.now) }
{
    match form {
        Form::Text => lines_by(alloc, Part::Text, beside, text),
        Form::Json => lines_by(alloc, Part::Json, beside, text),
        Form::Github => lines_by(alloc, Part::Github, beside, text),
        Form::Junit => junit_report(alloc, beside, text),
        Form::Sarif => sarif_report(alloc, beside, text),
        Form::Html => html_report(alloc, beside, text),
    }
}

/// The line of a refusal as text.
fn text_refusal(alloc: Global, line: &[u8]) -> Result<Vec<u8>, AllocError>
    ensures { IfOk result (λ v. v.items ≡ line.now ++ codes "\n") }
{
    let mut out = Vec::new(alloc);
    out.extend_from_slice(line)?;
    out.extend_from_slice(b"\n")?;
    Ok(out)
}

/// The line of a refusal in a form, with its faults where the form lists them.
fn form_of_line(
    alloc: Global,
    form: Form,
    path: &str,
    faults: &[Fault],
    line: &[u8],
) -> Result<Vec<u8>, AllocError>
    ensures { IfOk result (λ v. v.items ≡ form_of_line form path.now faults.now line.now) }
{
    match form {
        Form::Text => text_refusal(alloc, line),
        Form::Json => json_refusal(alloc, faults, line),
        Form::Github => github_refusal(alloc, faults, line),
        Form::Junit => junit_refusal(alloc, path, line),
        Form::Sarif => sarif_refusal(alloc, faults, line),
        Form::Html => html_refusal(alloc, path, faults, line),
    }
}

/// What is printed of a refusal, in a form: of its first line, which is the only one, and of the faults. Where memory runs out
/// there is none.
pub fn form_of_refusal(
    alloc: Global,
    form: Form,
    path: &str,
    faults: &[Fault],
    text: &[u8],
) -> Result<Vec<u8>, AllocError>
    ensures { IfOk result (λ v. v.items ≡ form_of_refusal form path.now faults.now text.now) }
{
    let lines = lines_in(alloc, text)?;
    form_of_line(alloc, form, path, faults, word_at(&lines, 0))
}
