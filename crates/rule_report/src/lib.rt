//! The report on a population: how it is made, counted and written, and the sinks that take it.
#![tactic(auto)]

mod between;
mod cursor;
mod fault;
pub mod laws;
mod lines;
mod longest;
mod put;
mod sink;
mod summary;
mod writing;

pub use cursor::ReportCursor;
pub use fault::ReportFault;
pub use put::{WriteFailed, write_and_flush, write_piece, write_whole};
pub use sink::{Sink, Telling};
pub use summary::Summary;
pub use writing::write_report;
