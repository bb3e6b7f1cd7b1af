//! Rule texts: the rules that their tokens spell.
#![tactic(auto)]

mod cursor;
mod duplicates;
mod laws;
mod name;
mod nodes;
mod parser;
mod pending;
mod rule_text;
mod rules;
mod strings;
mod tree;
mod types;

pub use laws::{each_list_spells_or_is_refused, rules_are_determined, trees_are_viewed};
pub use name::{Name, OperationName, WholeNumber};
pub use rule_text::{MAX_CHAIN, MAX_NESTING, parse_rules};
pub use tree::{
    BinaryOperator, Binding, DeclaredType, Expression, IteratorKind, Keyword, Link, Navigation,
    PrefixOperator, SurfaceRule, Variable, Variables,
};
