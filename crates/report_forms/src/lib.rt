//! The report, or a refusal, in the forms that programs and terminals read: each finding with the place of its object, the
//! class and the rule's own message.
#![tactic(auto)]

mod beside;
mod escapes;
mod explanations;
mod faults;
mod finding;
mod form;
mod github;
mod html;
mod json;
mod junit;
pub mod laws;
mod lines;
mod messages;
mod pieces;
mod places;
mod rows;
mod sarif;
mod search;

pub use beside::{Beside, RuleMessage};
pub use form::{Form, form_of_refusal, form_of_report};
pub use messages::rule_messages;
pub use places::{EntryPlace, entry_places};
pub use rows::{lines_in, put_ended, word_at, words_in};
pub use search::object_named;
