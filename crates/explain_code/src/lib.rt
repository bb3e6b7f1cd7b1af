//! Code files in words: a listing, which field of a file is wrong, and which instruction isn't accepted.
#![tactic(auto)]

mod fields;
mod flaws;
mod instructions;
mod kinds;
mod listing;
mod missing;
mod seen;
mod symbols;
mod verifying;

pub use flaws::explain_code_flaw;
pub use instructions::instruction_words;
pub use listing::{list_counts, list_rule};
pub use symbols::symbol_words;
pub use verifying::{Refused, explain_verify_flaw};
