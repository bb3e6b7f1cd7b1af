//! Populations: objects of a class model with their values and links.
#![tactic(auto)]

mod answers;
mod builder;
mod checks;
mod column;
mod column_ranges;
mod ends;
mod entries;
mod fault;
mod finishing;
mod given;
mod id_index;
mod instances;
pub mod laws;
mod layout;
mod limits;
mod numbers;
mod object;
mod order;
mod population;
mod ranks;
mod repeats;
mod required;
mod scalar;
mod sharing;
mod sizes;
mod store;

pub use builder::PopulationBuilder;
pub use fault::PopulationFault;
pub use limits::{MAX_ID_LENGTH, MAX_OBJECTS};
pub use numbers::ObjectNo;
pub use population::Population;
pub use required::{RequiredFeatures, Side};
pub use scalar::{Scalar, ScalarText};
pub use sizes::Sizes;
