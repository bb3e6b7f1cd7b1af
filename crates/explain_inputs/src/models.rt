//! Why a class model is refused.

use crate::json_notes::explain_json;
use crate::model_faults::look_for_fault;
use crate::places::located_part;
use crate::shapes::model_shape;
use crate::stop::{Flaw, Stop};
use explain_faults::{Fault, Faults};
use explain_notes::Input;
use imkl_model::ModelFault;
use serde_json::Value;
use std::alloc::{AllocError, Global};

/// What is wrong with a value of a class model, by the number of its fault.
fn fault_at(alloc: Global, input: Input<'_>, flaw: &Flaw, number: u8) -> Result<Fault, AllocError> {
    let words = flaw.words.as_str();
    let text = format!(in alloc; "{words} (model {number})")?;
    let at = located_part(alloc, input.bytes, &flaw.steps)?;
    Fault::at(alloc, input, at.offset, at.pointer, text)
}

/// Says what is wrong with a class model that has the shape of one.
fn explain_content(
    alloc: Global,
    out: &mut Faults,
    input: Input<'_>,
    document: &Value,
    fault: ModelFault,
) -> Result<(), AllocError> {
    let number = fault.number();
    let fault = match look_for_fault(alloc, document, fault) {
        Err(Stop::Flaw(flaw)) => fault_at(alloc, input, &flaw, number)?,
        Err(Stop::OutOfMemory) => return Err(AllocError),
        Ok(()) => {
            let text = format!(in alloc; "{fault} (model {number})")?;
            Fault::of_whole(alloc, input.path, text)?
        }
    };
    out.add(fault)
}

/// Says why a class model is refused that has this fault.
pub fn explain_model(
    alloc: Global,
    out: &mut Faults,
    input: Input<'_>,
    fault: ModelFault,
) -> Result<(), AllocError> {
    if fault == ModelFault::NotJson {
        return explain_json(alloc, out, input, "model 1");
    }
    let Ok(document) = Value::from_slice(alloc, input.bytes) else {
        return Err(AllocError);
    };
    match fault {
        ModelFault::Shape => model_shape(alloc, out, input, &document),
        _ => explain_content(alloc, out, input, &document, fault),
    }
}
