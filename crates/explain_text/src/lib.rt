//! Why a text spells no rules: its bytes, its tokens, its grammar and the names of its rules. And what to write in place of
//! what other OCL has.
#![tactic(auto)]

mod foreign;
mod habits;
mod text_flaws;
mod wanted;

pub use foreign::{instead_of_name, instead_of_type, instead_on_collection, instead_on_value};
pub use habits::is_iteration;
pub use text_flaws::{explain_flaw_in, explain_text_flaw, is_code_file, length_of_token};
