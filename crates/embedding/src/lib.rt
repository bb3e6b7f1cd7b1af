//! How other code uses the crates: which objects of a delivery break which rule of a stranger's code file. The page
//! `docs/use/embedding.md` goes through it.
#![tactic(auto)]

mod judging;

pub use judging::{Broken, broken_rules};
