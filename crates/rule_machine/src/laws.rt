//! Laws of runs: what holds of accepted code, whoever made it.

ghost use Rattle.rule_machine.specs.Laws.{NeverStuck, EndsWithin, EndsWithinBudget, StandsInKinds, StaysWithinDepths, PlacesAreByRules};

/// No configuration that a run of accepted code reaches is stuck, for any object of the context class in any
/// consistent population of the class model: it has a verdict, or a next step.
pub fn never_stuck()
    ensures { NeverStuck }
{}

/// A run of accepted code comes to a verdict, and is charged at most the bound that follows from its code and
/// the population's sizes.
pub fn ends_within()
    ensures { EndsWithin }
{}

/// A run of an admitted unit comes to a verdict, and is charged at most the budget, in each population of just the sizes
/// for which it is admitted.
pub fn ends_within_budget()
    ensures { EndsWithinBudget }
{}

/// In each configuration that a run of accepted code reaches, every variable and operand is in the kind that the rules of
/// kinds give its place, and each collection, those that open iterations hold too, is no longer than its greatest
/// length there.
pub fn stands_in_kinds()
    ensures { StandsInKinds }
{}

/// Each configuration that a run of accepted code reaches has no more operands and variables than the depths of its
/// rule, and at most two pending pieces for each open block and one more.
pub fn stays_within_depths()
    ensures { StaysWithinDepths }
{}

/// The places of operands after code have the kinds that the rules of kinds give, and the greatest lengths that bounds
/// are computed from.
pub fn places_are_by_rules()
    ensures { PlacesAreByRules }
{}
