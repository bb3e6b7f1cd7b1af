//! The JSON Schema of the deliveries of a class model.

ghost use Rattle.std.specs.Prelude.{◌≡◌, false};

use explain_notes::Input;
use explain_refusals::{Ending, failed, model_refusal, refused, write_answer};
use explain_schema::schema_of;
use imkl_model::ClassModel;
use ocl_check::{CommandFault, Sink};
use ocl_pipeline::{Stopped, read_model};
use std::alloc::Global;

/// Prints the schema of a class model's deliveries.
fn print_for<S: Sink>(alloc: Global, model: &ClassModel, sink: &mut S) -> Ending
    requires { S.has_failed sink.old ≡ false }
{
    let Ok(schema) = schema_of(alloc, model) else {
        return failed(alloc, CommandFault::OutOfMemory);
    };
    Ending {
        outcome: write_answer(sink, schema.as_bytes(), 0),
        words: Ok(String::new(alloc)),
    }
}

/// Prints the JSON Schema of the deliveries of a class model. Status 2: the class model is refused.
pub fn print_schema<S: Sink>(alloc: Global, model: Input<'_>, sink: &mut S) -> Ending
    requires { S.has_failed sink.old ≡ false }
{
    match read_model(alloc, model.bytes) {
        Ok(read) => print_for(alloc, &read, sink),
        Err(Stopped::Refused(refusal)) => refused(alloc, model_refusal(alloc, model, &refusal)),
        Err(Stopped::OutOfMemory) => failed(alloc, CommandFault::OutOfMemory),
    }
}
