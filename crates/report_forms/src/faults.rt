//! The faults of a refused input.

ghost use Rattle.std.specs.Prelude.{◌≡◌, ◌++◌, IfOk, OnOk};
ghost use Rattle.report_forms.specs.FaultForms.{
  json_fault_place,
  json_pointer,
  json_fault,
  github_fault_place,
  github_fault,
  sarif_region,
  sarif_fault,
  html_fault_place,
  html_fault,
  fault_by,
  faults_by,
};

use crate::escapes::{put_json, put_message, put_property, put_uri, put_xml};
use crate::pieces::{put, put_number};
use explain_faults::{Fault, FaultPlace};
use std::alloc::{AllocError, Global};

/// A form that lists faults.
#[derive(Clone, Copy)]
pub(crate) enum FaultPart {
    /// Objects of JSON, each behind a comma.
    Json,
    /// Annotations.
    Github,
    /// The results of SARIF, each behind a comma.
    Sarif,
    /// The rows of findings of a page.
    Html,
}

/// Puts where a fault is, in JSON.
fn put_json_place(
    alloc: Global,
    out: &mut Vec<u8>,
    place: Option<FaultPlace>,
) -> Result<(), AllocError>
    ensures { OnOk result (out.new.items ≡ out.old.items ++ json_fault_place place) }
{
    let Some(place) = place else {
        return Ok(());
    };
    put(out, ",\"line\":")?;
    put_number(alloc, out, place.line)?;
    put(out, ",\"column\":")?;
    put_number(alloc, out, place.column)?;
    put(out, ",\"offset\":")?;
    put_number(alloc, out, place.offset)?;
    Ok(())
}

/// Puts a pointer in JSON.
fn put_json_pointer(out: &mut Vec<u8>, pointer: &Option<String>) -> Result<(), AllocError>
    ensures { OnOk result (out.new.items ≡ out.old.items ++ json_pointer pointer.now) }
{
    let Some(pointer) = pointer else {
        return Ok(());
    };
    put(out, ",\"pointer\":\"")?;
    put_json(out, pointer.as_bytes())?;
    put(out, "\"")?;
    Ok(())
}

/// Puts a fault as an object of JSON.
fn put_json_fault(alloc: Global, out: &mut Vec<u8>, fault: &Fault) -> Result<(), AllocError>
    ensures { OnOk result (out.new.items ≡ out.old.items ++ json_fault fault.now) }
{
    put(out, ",{\"path\":\"")?;
    put_json(out, fault.path.as_bytes())?;
    put(out, "\"")?;
    put_json_place(alloc, out, fault.place)?;
    put_json_pointer(out, &fault.pointer)?;
    put(out, ",\"text\":\"")?;
    put_json(out, fault.text.as_bytes())?;
    put(out, "\"}")?;
    Ok(())
}

/// Puts where a fault is, in an annotation.
fn put_github_place(
    alloc: Global,
    out: &mut Vec<u8>,
    place: Option<FaultPlace>,
) -> Result<(), AllocError>
    ensures { OnOk result (out.new.items ≡ out.old.items ++ github_fault_place place) }
{
    let Some(place) = place else {
        return Ok(());
    };
    put(out, ",line=")?;
    put_number(alloc, out, place.line)?;
    put(out, ",col=")?;
    put_number(alloc, out, place.column)?;
    Ok(())
}

/// Puts a fault as an annotation.
fn put_github_fault(alloc: Global, out: &mut Vec<u8>, fault: &Fault) -> Result<(), AllocError>
    ensures { OnOk result (out.new.items ≡ out.old.items ++ github_fault fault.now) }
{
    put(out, "::error file=")?;
    put_property(out, fault.path.as_bytes())?;
    put_github_place(alloc, out, fault.place)?;
    put(out, ",title=refused::")?;
    put_message(out, fault.text.as_bytes())?;
    put(out, "\n")?;
    Ok(())
}

/// Puts where a fault is, as a region of SARIF.
fn put_region(alloc: Global, out: &mut Vec<u8>, place: Option<FaultPlace>) -> Result<(), AllocError>
    ensures { OnOk result (out.new.items ≡ out.old.items ++ sarif_region place) }
{
    let Some(place) = place else {
        return Ok(());
    };
    put(out, ",\"region\":{\"startLine\":")?;
    put_number(alloc, out, place.line)?;
    put(out, ",\"startColumn\":")?;
    put_number(alloc, out, place.column)?;
    put(out, "}")?;
    Ok(())
}

/// Puts a fault as a result of SARIF.
fn put_sarif_fault(alloc: Global, out: &mut Vec<u8>, fault: &Fault) -> Result<(), AllocError>
    ensures { OnOk result (out.new.items ≡ out.old.items ++ sarif_fault fault.now) }
{
    put(
        out,
        ",{\"ruleId\":\"refused\",\"level\":\"error\",\"message\":{\"text\":\"",
    )?;
    put_json(out, fault.text.as_bytes())?;
    put(
        out,
        "\"},\"locations\":[{\"physicalLocation\":{\"artifactLocation\":{\"uri\":\"",
    )?;
    put_uri(out, fault.path.as_bytes())?;
    put(out, "\"}")?;
    put_region(alloc, out, fault.place)?;
    put(out, "}}]}")?;
    Ok(())
}

/// Puts where a fault is, on a page.
fn put_html_place(
    alloc: Global,
    out: &mut Vec<u8>,
    place: Option<FaultPlace>,
) -> Result<(), AllocError>
    ensures { OnOk result (out.new.items ≡ out.old.items ++ html_fault_place place) }
{
    let Some(place) = place else {
        return Ok(());
    };
    put(out, ":")?;
    put_number(alloc, out, place.line)?;
    put(out, ":")?;
    put_number(alloc, out, place.column)?;
    Ok(())
}

/// Puts a fault as a row of a page.
fn put_html_fault(alloc: Global, out: &mut Vec<u8>, fault: &Fault) -> Result<(), AllocError>
    ensures { OnOk result (out.new.items ≡ out.old.items ++ html_fault fault.now) }
{
    put(out, "<tr><td class=\"fails\">refused<td><td><td><td>")?;
    put_xml(out, fault.path.as_bytes())?;
    put_html_place(alloc, out, fault.place)?;
    put(out, "<td>")?;
    put_xml(out, fault.text.as_bytes())?;
    put(out, "\n")?;
    Ok(())
}

/// Puts a fault.
fn put_fault(
    alloc: Global,
    out: &mut Vec<u8>,
    part: FaultPart,
    fault: &Fault,
) -> Result<(), AllocError>
    ensures { OnOk result (out.new.items ≡ out.old.items ++ fault_by part fault.now) }
{
    match part {
        FaultPart::Json => put_json_fault(alloc, out, fault),
        FaultPart::Github => put_github_fault(alloc, out, fault),
        FaultPart::Sarif => put_sarif_fault(alloc, out, fault),
        FaultPart::Html => put_html_fault(alloc, out, fault),
    }
}

/// Faults, one after another. Where memory runs out there is nothing.
pub(crate) fn faults_by(
    alloc: Global,
    part: FaultPart,
    faults: &[Fault],
) -> Result<Vec<u8>, AllocError>
    ensures { IfOk result (λ v. v.items ≡ faults_by part faults.now) }
{
    let mut out = Vec::new(alloc);
    for fault in faults {
        put_fault(alloc, &mut out, part, fault)?;
    }
    Ok(out)
}
