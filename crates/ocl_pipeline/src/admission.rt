//! From accepted code to what is asked about it within a budget.

ghost use Rattle.std.specs.Prelude.{◌≡◌};
ghost use Rattle.imkl_population.specs.Sizes.{sizes_of};
ghost use Rattle.ocl_pipeline.specs.Asked.{admitted_in};

use crate::asker::AdmittedAsker;
use crate::place::{Place, SizedCode};
use crate::stopped::Stopped;
use imkl_population::{Population, Sizes};
use rule_cost::admit;
use rule_verify::Accepted;
use std::alloc::Global;

/// Asks about code that is admitted for populations of these sizes.
fn ask_sized<W, A: AdmittedAsker<W>>(
    alloc: Global,
    asker: &A,
    budget: u64,
    population: &Population<'_>,
    sizes: &Sizes<'_>,
    accepted: &Accepted<'_>,
    into: &mut W,
) -> A::Output
    requires one_model { population.now.content.model ≡ accepted.now.model }
    requires sizes { sizes.now ≡ sizes_of population.now.content }
    requires can { A.can_ask into.old }
    ensures { A.answers asker.now population.now.content
        (admitted_in budget population.now.content accepted.now.unit) into.old result into.new }
{
    match admit(alloc, accepted, sizes, budget) {
        Ok(admitted) => asker.ask(alloc, population, &admitted, into),
        Err(fault) => {
            let place = Place::Cost(SizedCode::new(accepted, sizes));
            asker.stop(alloc, place, Stopped::from(fault), into)
        }
    }
}

/// Admits accepted code within a budget for each rule and object of a population, and asks about it.
pub fn ask_admitted<W, A: AdmittedAsker<W>>(
    alloc: Global,
    asker: &A,
    budget: u64,
    population: &Population<'_>,
    accepted: &Accepted<'_>,
    into: &mut W,
) -> A::Output
    requires one_model { population.now.content.model ≡ accepted.now.model }
    requires can { A.can_ask into.old }
    ensures { A.answers asker.now population.now.content
        (admitted_in budget population.now.content accepted.now.unit) into.old result into.new }
{
    match population.sizes(alloc) {
        Ok(sizes) => ask_sized(alloc, asker, budget, population, &sizes, accepted, into),
        Err(_failed) => asker.stop(alloc, Place::AfterRules, Stopped::OutOfMemory, into),
    }
}
