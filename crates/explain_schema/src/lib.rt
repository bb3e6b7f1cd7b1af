//! The JSON Schema of the deliveries of a class model.
#![tactic(auto)]

mod classes;
mod features;
mod objects;
mod superclasses;
mod text;

pub use text::{schema_of, visible_json};
