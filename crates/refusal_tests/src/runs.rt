//! From a delivery and code in words to what is tried: machines and desks.

ghost use Rattle.std.specs.Prelude.{◌≡◌};
ghost use Rattle.imkl_population.specs.Sizes.{sizes_of};

use crate::desks::{Script, answer_again};
use crate::judging::{Runs, run_all_again};
use crate::met::Met;
use imkl_delivery::{DeliveryFault, load};
use imkl_model::{ClassModel, ModelFault};
use imkl_population::{Population, Sizes};
use rule_code::{CodeFault, Unit, read_unit, write_unit};
use rule_cost::{CostFault, admit};
use rule_verify::{Accepted, VerifyFault, verify};
use std::alloc::Global;
use test_support::{CATALOGUE, file_of_rules};

/// Nets and the pipes in them: how many nets the pipes of all nets are in. Of each net it holds, for 26 charges where two nets
/// have three pipes together: 23 steps, of which two that gather pipes are charged 3 more.
pub(crate) const NETS_OF_PIPES: &str = "\
Utiliteitsnet t: all Utiliteitsnet; collectflat 2; get 1; attr Utiliteitsnet.leidingen; collect 2; \
get 1; attr KabelOfLeiding.net; size; int 0; ge";

/// What is tried.
#[derive(Clone, Copy)]
pub(crate) enum Tried<'t> {
    /// Runs of the first rule for each object of its context class.
    Machine(Runs),
    /// A desk that answers a script.
    Desk(Script<'t>),
}

fn admit_again<'t>(
    alloc: Global,
    population: &Population<'_>,
    sizes: &Sizes<'_>,
    accepted: &Accepted<'_>,
    script: Script<'t>,
) -> Met
    requires one_model { population.now.content.model ≡ accepted.now.model }
    requires sizes { sizes.now ≡ sizes_of population.now.content }
{
    match admit(alloc, accepted, sizes, 1_000) {
        Ok(admitted) => answer_again(alloc, &admitted, population, script),
        Err(CostFault::OutOfMemory) => match admit(alloc, accepted, sizes, 1_000) {
            Ok(admitted) => answer_again(alloc, &admitted, population, script).after_refusal(),
            Err(_) => Met::Fault,
        },
        Err(_) => Met::Fault,
    }
}

fn size_again(
    alloc: Global,
    population: &Population<'_>,
    accepted: &Accepted<'_>,
    script: Script<'_>,
) -> Met
    requires one_model { population.now.content.model ≡ accepted.now.model }
{
    match population.sizes(alloc) {
        Ok(sizes) => admit_again(alloc, population, &sizes, accepted, script),
        Err(_) => match population.sizes(alloc) {
            Ok(sizes) => {
                admit_again(alloc, population, &sizes, accepted, script).after_refusal()
            }
            Err(_) => Met::Fault,
        },
    }
}

fn try_accepted(
    alloc: Global,
    population: &Population<'_>,
    accepted: &Accepted<'_>,
    tried: Tried<'_>,
) -> Met
    requires one_model { population.now.content.model ≡ accepted.now.model }
{
    match tried {
        Tried::Machine(runs) => run_all_again(alloc, accepted, population, runs),
        Tried::Desk(script) => size_again(alloc, population, accepted, script),
    }
}

/// Verifies a unit that was handed back, whose code file is this.
fn verify_returned(
    alloc: Global,
    population: &Population<'_>,
    unit: Unit,
    code: &[u8],
    tried: Tried<'_>,
) -> Met {
    match write_unit(alloc, &unit) {
        Ok(written) if written.as_slice() == code => {}
        _ => return Met::Fault,
    }
    match verify(alloc, population.model(), unit) {
        Ok(accepted) => try_accepted(alloc, population, &accepted, tried),
        Err(_) => Met::Fault,
    }
}

fn verify_again(
    alloc: Global,
    population: &Population<'_>,
    unit: Unit,
    code: &[u8],
    tried: Tried<'_>,
) -> Met {
    match verify(alloc, population.model(), unit) {
        Ok(accepted) => try_accepted(alloc, population, &accepted, tried),
        Err((VerifyFault::OutOfMemory, unit)) => {
            verify_returned(alloc, population, unit, code, tried).after_refusal()
        }
        Err(_) => Met::Fault,
    }
}

fn read_unit_again(
    alloc: Global,
    population: &Population<'_>,
    code: &[u8],
    tried: Tried<'_>,
) -> Met {
    match read_unit(alloc, code) {
        Ok(unit) => verify_again(alloc, population, unit, code, tried),
        Err(CodeFault::OutOfMemory) => match read_unit(alloc, code) {
            Ok(unit) => verify_again(alloc, population, unit, code, tried).after_refusal(),
            Err(_) => Met::Fault,
        },
        Err(_) => Met::Fault,
    }
}

fn try_over(alloc: Global, population: &Population<'_>, rules: &str, tried: Tried<'_>) -> Met {
    match file_of_rules(alloc, rules) {
        Ok(code) => read_unit_again(alloc, population, &code, tried),
        Err(_) => Met::RefusalElsewhere,
    }
}

fn try_in(alloc: Global, model: &ClassModel, delivery: &str, rules: &str, tried: Tried<'_>) -> Met {
    match load(alloc, delivery.as_bytes(), model) {
        Ok(population) => try_over(alloc, &population, rules, tried),
        Err(DeliveryFault::OutOfMemory) => Met::RefusalElsewhere,
        Err(_) => Met::Fault,
    }
}

/// Tries rules, each a line `CLASS NAME: CODE`, over a delivery for the catalogue.
pub(crate) fn try_rules(alloc: Global, delivery: &str, rules: &str, tried: Tried<'_>) -> Met {
    match ClassModel::read(alloc, CATALOGUE.as_bytes()) {
        Ok(model) => try_in(alloc, &model, delivery, rules, tried),
        Err(ModelFault::OutOfMemory) => Met::RefusalElsewhere,
        Err(_) => Met::Fault,
    }
}
