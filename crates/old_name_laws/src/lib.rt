//! Old names change nothing where present names do: laws of the definitions of all layers, up to the output of the
//! commands.
#![tactic(auto)]

pub mod laws;
