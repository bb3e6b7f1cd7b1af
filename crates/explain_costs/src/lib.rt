//! Why a rule may be charged so much: its iterations, and the instructions that go over collections.
#![tactic(auto)]

mod parts;
mod words;

pub use words::explain_charges;
