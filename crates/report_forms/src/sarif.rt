//! SARIF 2.1.0.

ghost use Rattle.std.specs.Prelude.{◌≡◌, ◌++◌, IfOk, OnOk, map};
ghost use Rattle.report_forms.specs.Findings.{context_of, finding_view};
ghost use Rattle.report_forms.specs.SarifForm.{
  sarif_begin,
  sarif_description,
  sarif_message,
  sarif_rule,
  sarif_location,
  sarif_result,
  sarif_rule_of,
  sarif_run,
  sarif_refusal,
};

use crate::beside::Beside;
use crate::escapes::{put_json, put_uri};
use crate::faults::{FaultPart, faults_by};
use crate::finding::{Finding, message_of};
use crate::github::annotation_level;
use crate::pieces::{put, put_number, without_first};
use explain_faults::Fault;
use std::alloc::{AllocError, Global};

/// Puts what stands before the rules.
fn put_begin(out: &mut Vec<u8>) -> Result<(), AllocError>
    ensures { OnOk result (out.new.items ≡ out.old.items ++ sarif_begin) }
{
    put(
        out,
        "{\"$schema\":\"https://json.schemastore.org/sarif-2.1.0.json\",\"version\":\"2.1.0\",\"runs\":[{\"columnKind\":\"unicodeCodePoints\",\"tool\":{\"driver\":{\"name\":\"ocl_check\",\"rules\":[",
    )
}

/// Puts a message of a rule.
fn put_description(out: &mut Vec<u8>, message: &str) -> Result<(), AllocError>
    ensures { OnOk result (out.new.items ≡ out.old.items ++ sarif_description message.now) }
{
    put(out, ",\"shortDescription\":{\"text\":\"")?;
    put_json(out, message.as_bytes())?;
    put(out, "\"}")?;
    Ok(())
}

/// Puts the message of a rule, if it has one.
fn put_rule_message(out: &mut Vec<u8>, message: &str) -> Result<(), AllocError>
    ensures { OnOk result (out.new.items ≡ out.old.items ++ sarif_message message.now) }
{
    if message.is_empty() {
        return Ok(());
    }
    put_description(out, message)
}

/// Puts a rule.
fn put_rule(out: &mut Vec<u8>, beside: Beside<'_, '_>, name: &[u8]) -> Result<(), AllocError>
    ensures { OnOk result (out.new.items ≡
        out.old.items ++ sarif_rule (context_of beside.entry) name.now) }
{
    put(out, ",{\"id\":\"")?;
    out.extend_from_slice(name)?;
    put(out, "\"")?;
    put_rule_message(out, message_of(beside.messages, name))?;
    put(out, "}")
}

/// Puts where an object's entry begins.
fn put_location(
    alloc: Global,
    out: &mut Vec<u8>,
    path: &str,
    finding: Finding<'_, '_, '_>,
) -> Result<(), AllocError>
    ensures { OnOk result (out.new.items ≡
        out.old.items ++ sarif_location path.now (finding_view finding.entry)) }
{
    put(
        out,
        "{\"physicalLocation\":{\"artifactLocation\":{\"uri\":\"",
    )?;
    put_uri(out, path.as_bytes())?;
    put(out, "\"},\"region\":{\"startLine\":")?;
    put_number(alloc, out, finding.line)?;
    put(out, ",\"startColumn\":")?;
    put_number(alloc, out, finding.column)?;
    put(out, "}}}")?;
    Ok(())
}

/// Puts a finding.
pub(crate) fn put_result(
    alloc: Global,
    out: &mut Vec<u8>,
    path: &str,
    finding: Finding<'_, '_, '_>,
) -> Result<(), AllocError>
    ensures { OnOk result (out.new.items ≡
        out.old.items ++ sarif_result path.now (finding_view finding.entry)) }
{
    put(out, ",{\"ruleId\":\"")?;
    out.extend_from_slice(finding.rule)?;
    put(out, "\",\"level\":\"")?;
    put(out, annotation_level(finding.verdict))?;
    put(out, "\",\"message\":{\"text\":\"")?;
    let text = finding.described(alloc)?;
    put_json(out, &text)?;
    put(out, "\"},\"locations\":[")?;
    put_location(alloc, out, path, finding)?;
    put(out, "]}")?;
    Ok(())
}

/// Puts what the line of a rule gives.
pub(crate) fn put_rule_of(
    out: &mut Vec<u8>,
    beside: Beside<'_, '_>,
    words: &[&[u8]],
) -> Result<(), AllocError>
    ensures { OnOk result (out.new.items ≡ out.old.items ++ sarif_rule_of
        (context_of beside.entry) (map (λ w. w.now) words.now)) }
{
    if words.len() == 10 {
        return put_rule(out, beside, words[1]);
    }
    Ok(())
}

/// The run of rules and results, each behind a comma. Where memory runs out there is none.
pub(crate) fn sarif_run(alloc: Global, rules: &[u8], results: &[u8]) -> Result<Vec<u8>, AllocError>
    ensures { IfOk result (λ v. v.items ≡ sarif_run rules.now results.now) }
{
    let mut out = Vec::new(alloc);
    put_begin(&mut out)?;
    out.extend_from_slice(without_first(rules))?;
    put(&mut out, "]}},\"results\":[")?;
    out.extend_from_slice(without_first(results))?;
    put(&mut out, "]}]}\n")?;
    Ok(out)
}

/// The line of a refusal as a run that didn't succeed, with its faults as results.
pub(crate) fn sarif_refusal(
    alloc: Global,
    faults: &[Fault],
    line: &[u8],
) -> Result<Vec<u8>, AllocError>
    ensures { IfOk result (λ v. v.items ≡ sarif_refusal faults.now line.now) }
{
    let faults = faults_by(alloc, FaultPart::Sarif, faults)?;
    let mut out = Vec::new(alloc);
    put_begin(&mut out)?;
    put(&mut out, "]}},\"results\":[")?;
    out.extend_from_slice(without_first(&faults))?;
    put(
        &mut out,
        "],\"invocations\":[{\"executionSuccessful\":false,\"toolExecutionNotifications\":[{\"level\":\"error\",\"message\":{\"text\":\"",
    )?;
    out.extend_from_slice(line)?;
    put(&mut out, "\"}}]}]}]}\n")?;
    Ok(out)
}
