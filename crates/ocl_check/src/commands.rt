//! The commands, one file each: what each asks of the pipeline, and how its inputs are read.

pub mod bound;
pub mod compile;
pub mod desk;
pub mod judge;
pub mod verify;
