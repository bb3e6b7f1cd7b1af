//! Laws of the core trees of code.

ghost use Rattle.rule_trees.specs.Laws.{AcceptedRulesHaveTrees, TreesAreResolved, RunsEndWithTrees, VerdictsAreOfTrees, TranslatingIsUndone, CompiledRulesKeepTrees};

/// Each rule of an accepted unit has a core tree.
pub fn accepted_rules_have_trees()
    ensures { AcceptedRulesHaveTrees }
{}

/// Each class, feature and literal that it names is one of the class model.
pub fn trees_are_resolved()
    ensures { TreesAreResolved }
{}

/// A run of accepted code ends with one operand: the value that the rule's tree means.
pub fn runs_end_with_trees()
    ensures { RunsEndWithTrees }
{}

/// The machine's verdict on accepted code is that of the tree's meaning.
pub fn verdicts_are_of_trees()
    ensures { VerdictsAreOfTrees }
{}

/// The code of a typed tree has this very tree.
pub fn translating_is_undone()
    ensures { TranslatingIsUndone }
{}

/// A rule of a compiled unit has the very tree that was compiled.
pub fn compiled_rules_keep_trees()
    ensures { CompiledRulesKeepTrees }
{}
