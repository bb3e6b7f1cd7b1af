//! Laws of compiled rules.

ghost use Rattle.ocl_compile.specs.CompileLaws.{CompiledIsAccepted, CompiledKeepsRules, RunsEndWithMeaning, VerdictsAreMeant};

/// Typed rules that compile are accepted in their class model.
pub fn compiled_is_accepted()
    ensures { CompiledIsAccepted }
{}

/// Compiled rules keep their order, their names and their context classes.
pub fn compiled_keeps_rules()
    ensures { CompiledKeepsRules }
{}

/// A run of compiled code ends with one operand: the value that the rule's expression means.
pub fn runs_end_with_meaning()
    ensures { RunsEndWithMeaning }
{}

/// The machine's verdict on compiled code is the one that the rule's text means.
pub fn verdicts_are_meant()
    ensures { VerdictsAreMeant }
{}
