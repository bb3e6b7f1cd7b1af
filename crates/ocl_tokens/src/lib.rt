//! The tokens of rule texts, and the faults that a rule text may have.
#![tactic(auto)]

mod fault;
mod laws;
mod lexeme;
mod scan;
mod token;
mod words;

pub use fault::{TextFault, TextFlaw};
pub use laws::{each_text_has_tokens_or_a_fault, reserved_words_are_tokens, tokens_are_determined};
pub use scan::tokens;
pub use token::{MAX_NUMBER, Span, Token, TokenKind};
