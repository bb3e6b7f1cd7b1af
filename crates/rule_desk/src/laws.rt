//! Laws of the desk's world.

ghost use Rattle.rule_desk.specs.Laws.{EachJobAlone, EachJobFromItsEntry, NumbersInOrder, NeverPastItsCost, CostsWithinBounds};
ghost use Rattle.rule_desk.specs.Events.{EntersAreEvents, GrantsAreEvents, WithdrawalsAreEvents};

/// Each job, and the answers to it, are those of its own events alone, whatever comes between them.
pub fn each_job_alone()
    ensures { EachJobAlone }
{}

/// In a desk that was empty, a job is what its own events since its entry make it.
pub fn each_job_from_its_entry()
    ensures { EachJobFromItsEntry }
{}

/// The next number rises by one with each entry, and with nothing else.
pub fn numbers_in_order()
    ensures { NumbersInOrder }
{}

/// No job is ever past its cost.
pub fn never_past_its_cost()
    ensures { NeverPastItsCost }
{}

/// Each call that enters a job is an event of the world.
pub fn enters_are_events()
    ensures { EntersAreEvents }
{}

/// Each call that grants something to a job is an event of the world.
pub fn grants_are_events()
    ensures { GrantsAreEvents }
{}

/// Each call that withdraws a job is an event of the world.
pub fn withdrawals_are_events()
    ensures { WithdrawalsAreEvents }
{}

/// What a job costs is at most its bound.
pub fn costs_within_bounds()
    ensures { CostsWithinBounds }
{}
