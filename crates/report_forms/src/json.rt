//! JSON lines.

ghost use Rattle.std.specs.Prelude.{◌≡◌, ◌++◌, IfOk, OnOk, map, drop};
ghost use Rattle.report_forms.specs.Findings.{finding_view};
ghost use Rattle.report_forms.specs.JsonForm.{json_of_entry, json_of_finding, json_of_counts, json_of_rule, json_of_total, json_of_words, json_refusal};

use crate::escapes::put_json;
use crate::faults::{FaultPart, faults_by};
use crate::finding::Finding;
use crate::pieces::{put, put_number, without_first};
use crate::rows::Counts;
use explain_faults::Fault;
use std::alloc::{AllocError, Global};

/// Puts the class of a finding's object, and where its entry begins.
fn put_entry(
    alloc: Global,
    out: &mut Vec<u8>,
    finding: Finding<'_, '_, '_>,
) -> Result<(), AllocError>
    ensures { OnOk result (out.new.items ≡
        out.old.items ++ json_of_entry (finding_view finding.entry)) }
{
    put(out, "\",\"class\":\"")?;
    put(out, finding.class)?;
    put(out, "\",\"line\":")?;
    put_number(alloc, out, finding.line)?;
    put(out, ",\"column\":")?;
    put_number(alloc, out, finding.column)?;
    put(out, ",\"offset\":")?;
    put_number(alloc, out, finding.offset)?;
    Ok(())
}

/// Puts a finding.
pub(crate) fn put_json_finding(
    alloc: Global,
    out: &mut Vec<u8>,
    finding: Finding<'_, '_, '_>,
) -> Result<(), AllocError>
    ensures { OnOk result (out.new.items ≡
        out.old.items ++ json_of_finding (finding_view finding.entry)) }
{
    put(out, "{\"rule\":\"")?;
    out.extend_from_slice(finding.rule)?;
    put(out, "\",\"object\":\"")?;
    out.extend_from_slice(finding.object)?;
    put(out, "\",\"verdict\":\"")?;
    out.extend_from_slice(finding.verdict)?;
    put_entry(alloc, out, finding)?;
    put(out, ",\"message\":\"")?;
    put_json(out, finding.message.as_bytes())?;
    put(out, "\"}\n")?;
    Ok(())
}

/// Puts a number behind its key.
fn put_count(out: &mut Vec<u8>, key: &str, number: &[u8]) -> Result<(), AllocError>
    ensures { OnOk result (out.new.items ≡ (out.old.items ++ key.now) ++ number.now) }
{
    put(out, key)?;
    out.extend_from_slice(number)
}

/// Puts the numbers of a rule, behind its name.
fn put_counts(out: &mut Vec<u8>, counts: Counts<'_>) -> Result<(), AllocError>
    ensures { OnOk result (out.new.items ≡ out.old.items ++ json_of_counts
        counts.entry.objects.now counts.entry.holds.now counts.entry.fails.now
        counts.entry.undecided.now) }
{
    put_count(out, "\",\"checked\":", counts.objects)?;
    put_count(out, ",\"holds\":", counts.holds)?;
    put_count(out, ",\"fails\":", counts.fails)?;
    put_count(out, ",\"undecided\":", counts.undecided)?;
    put(out, "}\n")?;
    Ok(())
}

/// Puts the line of a rule.
fn put_rule(out: &mut Vec<u8>, name: &[u8], counts: Counts<'_>) -> Result<(), AllocError>
    ensures { OnOk result (out.new.items ≡ out.old.items ++ json_of_rule name.now
        counts.entry.objects.now counts.entry.holds.now counts.entry.fails.now
        counts.entry.undecided.now) }
{
    put(out, "{\"rule\":\"")?;
    out.extend_from_slice(name)?;
    put_counts(out, counts)
}

/// Puts the line of all rules.
fn put_total(out: &mut Vec<u8>, fails: &[u8], undecided: &[u8]) -> Result<(), AllocError>
    ensures { OnOk result (out.new.items ≡
        out.old.items ++ json_of_total fails.now undecided.now) }
{
    put_count(out, "{\"total\":{\"fails\":", fails)?;
    put_count(out, ",\"undecided\":", undecided)?;
    put(out, "}}\n")
}

/// Puts what a line that isn't an object's gives.
pub(crate) fn put_json_words(out: &mut Vec<u8>, words: &[&[u8]]) -> Result<(), AllocError>
    ensures { OnOk result (out.new.items ≡
        out.old.items ++ json_of_words (map (λ w. w.now) words.now)) }
{
    match words.len() {
        10 => {
            let counts = Counts {
                objects: words[3],
                holds: words[5],
                fails: words[7],
                undecided: words[9],
            };
            put_rule(out, words[1], counts)
        }
        5 => put_total(out, words[2], words[4]),
        _ => Ok(()),
    }
}

/// A line without its first eight bytes: `refused` and a space.
fn without_refused(line: &[u8]) -> &[u8]
    ensures { result.now ≡ drop 8 line.now }
{
    if line.len() < 8 {
        return &[];
    }
    &line[8..]
}

/// The line of a refusal and its faults as JSON.
pub(crate) fn json_refusal(
    alloc: Global,
    faults: &[Fault],
    line: &[u8],
) -> Result<Vec<u8>, AllocError>
    ensures { IfOk result (λ v. v.items ≡ json_refusal faults.now line.now) }
{
    let faults = faults_by(alloc, FaultPart::Json, faults)?;
    let mut out = Vec::new(alloc);
    put(&mut out, "{\"refused\":\"")?;
    out.extend_from_slice(without_refused(line))?;
    put(&mut out, "\",\"faults\":[")?;
    out.extend_from_slice(without_first(&faults))?;
    put(&mut out, "]}\n")?;
    Ok(out)
}
