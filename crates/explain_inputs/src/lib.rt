//! Why a class model or a delivery is refused: it is no JSON, it has another shape, or a delivery
//! has faults. All faults of a delivery are listed, object by object.
#![tactic(auto)]

mod deliveries;
mod drafts;
mod entries;
mod holders;
mod json_notes;
mod members;
mod model_faults;
mod models;
mod objects;
mod old_names;
mod places;
mod report;
mod shapes;
mod stop;
mod values;
mod walk;

pub use deliveries::explain_delivery;
pub use models::explain_model;
