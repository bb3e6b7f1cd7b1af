//! Deliveries: JSON documents of objects, loaded into populations of a class model.
#![tactic(auto)]

mod detour;
mod document;
mod fault;
mod features;
mod guesses;
pub mod laws;
mod loading;
pub mod members;
mod outline;
mod pending_value;
mod scalars;
mod straight;
mod taking;
mod tokens;
mod writing;

pub use fault::DeliveryFault;
pub use loading::load;
