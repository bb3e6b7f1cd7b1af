//! The pipeline: from the bytes of the inputs to what is asked about them, or to the first reason why an input is
//! refused.
#![tactic(auto)]

mod adapters;
mod admission;
mod asker;
mod chain;
pub mod laws;
mod place;
mod refusal;
mod rules;
mod stopped;
mod text_reading;

pub use adapters::{OfCode, OfText};
pub use admission::ask_admitted;
pub use asker::{AdmittedAsker, CodeAsker, PopulationAsker, TextAsker};
pub use chain::{ask_inputs, read_delivery, read_model};
pub use place::{Place, SizedCode};
pub use refusal::Refusal;
pub use rules::{Rejected, accept, accept_code, compile_text, type_text};
pub use stopped::Stopped;
pub use text_reading::read_text;
