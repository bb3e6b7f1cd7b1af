//! Why a delivery is refused.

use crate::entries::{Entry, entries_of, offsets_of};
use crate::holders::Holders;
use crate::json_notes::explain_json;
use crate::objects::{Document, look_at_object};
use crate::places::{located_document, located_member};
use crate::report::Report;
use crate::shapes::delivery_shape;
use explain_faults::Faults;
use explain_notes::{Input, quote};
use imkl_delivery::DeliveryFault;
use imkl_model::ClassModel;
use serde_json::Value;
use std::alloc::{AllocError, Global};
use std::collections::BTreeMap;

/// The first object of each id.
fn ids_of<'v>(
    alloc: Global,
    entries: &[Entry<'v>],
) -> Result<BTreeMap<&'v str, usize>, AllocError> {
    let mut ids = BTreeMap::new(alloc);
    for (index, entry) in entries.iter().enumerate() {
        if !ids.contains_key(entry.id) {
            ids.insert(entry.id, index)?;
        }
    }
    Ok(ids)
}

/// Says all that is wrong with the objects of a document.
fn look_at_objects(
    alloc: Global,
    report: &mut Report<'_>,
    document: Document<'_, '_>,
) -> Result<(), AllocError> {
    let offsets = offsets_of(alloc, report.bytes())?;
    for (index, entry) in document.entries.iter().enumerate() {
        if report.is_full() {
            return Ok(());
        }
        let offset = offsets.get(index).copied().unwrap_or(0);
        look_at_object(alloc, report, document, entry, index, offset)?;
    }
    Ok(())
}

/// Says all that is wrong with objects, once the first of each id is known.
fn look_with_ids<'v>(
    alloc: Global,
    report: &mut Report<'_>,
    model: &ClassModel,
    entries: &[Entry<'v>],
    ids: &BTreeMap<&'v str, usize>,
) -> Result<(), AllocError> {
    let holders = Holders::of_entries(alloc, model, entries, ids)?;
    let document = Document {
        model,
        entries,
        ids,
        holders: &holders,
    };
    look_at_objects(alloc, report, document)
}

/// Says all that is wrong with objects.
fn look_at_entries(
    alloc: Global,
    report: &mut Report<'_>,
    model: &ClassModel,
    entries: &[Entry<'_>],
) -> Result<(), AllocError> {
    let ids = ids_of(alloc, entries)?;
    look_with_ids(alloc, report, model, entries, &ids)
}

/// Adds all faults of the objects of a delivery, and writes how many they are; the fault that is known where none is found.
fn explain_objects(
    alloc: Global,
    out: &mut Faults,
    input: Input<'_>,
    model: &ClassModel,
    document: &Value,
    fault: &DeliveryFault,
) -> Result<(), AllocError> {
    let mut report = Report::new(alloc, input);
    let entries = entries_of(alloc, document)?;
    look_at_entries(alloc, &mut report, model, &entries)?;
    let known = format!(in alloc; "{fault}")?;
    report.end(alloc, out, known.as_str())
}

/// Adds that a delivery is for another class model.
fn explain_other_model(
    alloc: Global,
    out: &mut Faults,
    input: Input<'_>,
    model: &ClassModel,
    document: &Value,
) -> Result<(), AllocError> {
    let wanted = quote(alloc, model.name())?;
    let given = match document.get("model").and_then(Value::as_str) {
        Some(name) => quote(alloc, name)?,
        None => String::new(alloc),
    };
    let message = format!(in alloc;
        "this delivery is for the class model `{given}`, and not for `{wanted}`"
    )?;
    let whole = located_document(alloc, input.bytes)?;
    let at = match located_member(alloc, input.bytes, &whole, "model")? {
        Some(member) => member,
        None => whole,
    };
    let mut report = Report::new(alloc, input);
    report.tell(alloc, at, message.as_str(), "delivery 3")?;
    report.end(alloc, out, "")
}

/// Says why a delivery is refused that has this fault: all faults of its objects, at most 100, unless it is no JSON, has
/// another shape, or is for another class model.
pub fn explain_delivery(
    alloc: Global,
    out: &mut Faults,
    input: Input<'_>,
    model: &ClassModel,
    fault: &DeliveryFault,
) -> Result<(), AllocError> {
    if let DeliveryFault::NotJson = fault {
        return explain_json(alloc, out, input, "delivery 1");
    }
    let Ok(document) = Value::from_slice(alloc, input.bytes) else {
        return Err(AllocError);
    };
    match fault {
        DeliveryFault::Shape => delivery_shape(alloc, out, input, &document),
        DeliveryFault::OtherModel => explain_other_model(alloc, out, input, model, &document),
        _ => explain_objects(alloc, out, input, model, &document, fault),
    }
}
