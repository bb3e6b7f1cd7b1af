//! What every part shares: identifiers and reserved words, texts, kinds of collections, steps that may fail, memory
//! that runs out, and stacks.
#![tactic(auto)]

mod collection_kind;
mod memory;
mod stack;
mod text;
mod words;

pub use collection_kind::CollectionKind;
pub use memory::{OutOfMemory, push};
pub use stack::Stack;
pub use text::Text;
pub use words::{is_identifier, is_name, is_reserved};
