//! What a folder of reports comes to: deliveries by their statuses, refusals by their lines, and findings by rule.
#![tactic(auto)]

mod cells;
mod delivery;
mod kinds;
mod name;
mod pieces;
mod status;
mod summary;
mod sums;
mod tables;
mod tally;

pub use delivery::{Delivery, DeliveryFiles, Known, Lack, read_delivery};
pub use name::DeliveryName;
pub use status::Status;
pub use summary::Summary;
pub use sums::Sums;
pub use tables::Table;
pub use tally::{RuleCounts, Tally};
