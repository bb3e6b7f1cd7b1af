//! Annotations of GitHub Actions.

ghost use Rattle.std.specs.Prelude.{◌≡◌, ◌++◌, IfOk, OnOk};
ghost use Rattle.report_forms.specs.Findings.{finding_view};
ghost use Rattle.report_forms.specs.GithubForm.{annotation_level, github_properties, github_finding, github_refusal};

use crate::escapes::{put_message, put_property};
use crate::faults::{FaultPart, faults_by};
use crate::finding::Finding;
use crate::pieces::{put, put_number};
use explain_faults::Fault;
use std::alloc::{AllocError, Global};

/// How bad a verdict is.
pub(crate) fn annotation_level(verdict: &[u8]) -> &'static str
    ensures { result.now ≡ annotation_level verdict.now }
{
    if verdict == b"fails".as_slice() {
        "error"
    } else {
        "warning"
    }
}

/// Puts the file, the place, and the rule as title.
fn put_properties(
    alloc: Global,
    out: &mut Vec<u8>,
    path: &str,
    finding: Finding<'_, '_, '_>,
) -> Result<(), AllocError>
    ensures { OnOk result (out.new.items ≡
        out.old.items ++ github_properties path.now (finding_view finding.entry)) }
{
    put(out, " file=")?;
    put_property(out, path.as_bytes())?;
    put(out, ",line=")?;
    put_number(alloc, out, finding.line)?;
    put(out, ",col=")?;
    put_number(alloc, out, finding.column)?;
    put(out, ",title=")?;
    out.extend_from_slice(finding.rule)?;
    Ok(())
}

/// Puts a finding.
pub(crate) fn put_annotation(
    alloc: Global,
    out: &mut Vec<u8>,
    path: &str,
    finding: Finding<'_, '_, '_>,
) -> Result<(), AllocError>
    ensures { OnOk result (out.new.items ≡
        out.old.items ++ github_finding path.now (finding_view finding.entry)) }
{
    put(out, "::")?;
    put(out, annotation_level(finding.verdict))?;
    put_properties(alloc, out, path, finding)?;
    put(out, "::")?;
    let text = finding.described(alloc)?;
    put_message(out, &text)?;
    put(out, "\n")?;
    Ok(())
}

/// The line of a refusal and its faults as annotations.
pub(crate) fn github_refusal(
    alloc: Global,
    faults: &[Fault],
    line: &[u8],
) -> Result<Vec<u8>, AllocError>
    ensures { IfOk result (λ v. v.items ≡ github_refusal faults.now line.now) }
{
    let faults = faults_by(alloc, FaultPart::Github, faults)?;
    let mut out = Vec::new(alloc);
    put(&mut out, "::error title=refused::")?;
    out.extend_from_slice(line)?;
    put(&mut out, "\n")?;
    out.extend_from_slice(&faults)?;
    Ok(out)
}
