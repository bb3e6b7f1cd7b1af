//! Types of rules: surface trees elaborated to core trees.
#![tactic(auto)]

mod all_rules;
mod arguments;
mod boxed;
mod branches;
mod calls;
mod declared;
mod environment;
mod fault;
mod features;
mod folds;
mod iterations;
mod lets;
mod names;
mod nodes;
mod operators;
mod requirements;
mod rules;
mod rules_fault;
mod scope;
mod table;
mod typed;
mod walk;

pub use all_rules::check_rules;
pub use fault::{TypeFault, TypeFlaw};
pub use rules::check;
pub use rules_fault::RulesFault;
pub use table::{Effect, Operation, Source, class_operator, operations};
