//! From a class model, a delivery and a code file to the results that rows ask for. This file alone reads class models,
//! and each function owns one thing, since proofs of functions that own several take long.

ghost use Rattle.std.specs.Prelude.{◌≡◌};
ghost use Rattle.imkl_population.specs.Sizes.{sizes_of};
ghost use Rattle.rule_cost.specs.Admission.{Fits};

use crate::desks::{desk_replies, grant_with_room};
use crate::machines::runs;
use crate::reads::{accepted_words, admitted_words};
use crate::reports::{full_writers, whole_reports};
use imkl_delivery::load;
use imkl_model::ClassModel;
use imkl_population::{Population, Sizes};
use rule_code::{Unit, read_unit};
use rule_cost::{Admitted, CostFault, admit};
use rule_verify::{Accepted, verify};
use std::alloc::Global;

/// What is judged, and the most that a rule may be charged for an object.
#[derive(Clone, Copy)]
pub(crate) struct Inputs<'t> {
    pub(crate) model: &'t str,
    pub(crate) delivery: &'t str,
    pub(crate) code: &'t [u8],
    pub(crate) budget: u64,
}

/// What is asked of them.
#[derive(Clone, Copy)]
pub(crate) enum Asked<'t> {
    /// What is read of accepted code.
    Accepted,
    /// What is read of admitted code, or which rule isn't within the budget.
    Admitted,
    /// Whether another delivery is for the same class model, and fits.
    Fits { model: &'t str, delivery: &'t str },
    /// Runs of one machine that stop, and others that begin then.
    Runs,
    /// What is left of writers that are full before the end of a report.
    FullWriters,
    /// Reports into writers that have room for them.
    WholeReports,
    /// The replies of a desk to calls that scripts don't have.
    DeskReplies,
    /// A grant to a job that has room for its lines.
    GrantWithRoom,
}

/// Whether another population is of the same class model, and whether it fits.
fn fits_words(alloc: Global, admitted: &Admitted<'_>, other: &Population<'_>) -> Option<String> {
    let model = if admitted.accepted().same_model(other) {
        "the same class model"
    } else {
        "another class model"
    };
    let sizes = if admitted.fits(other) {
        "fits"
    } else {
        "doesn't fit"
    };
    format!(in alloc; "{model}, {sizes}").ok()
}

fn other_delivery(
    alloc: Global,
    admitted: &Admitted<'_>,
    model: &ClassModel,
    delivery: &str,
) -> Option<String> {
    match load(alloc, delivery.as_bytes(), model) {
        Ok(other) => fits_words(alloc, admitted, &other),
        Err(_refused) => None,
    }
}

fn other_model(
    alloc: Global,
    admitted: &Admitted<'_>,
    model: &str,
    delivery: &str,
) -> Option<String> {
    match ClassModel::read(alloc, model.as_bytes()) {
        Ok(model) => other_delivery(alloc, admitted, &model, delivery),
        Err(_refused) => None,
    }
}

fn of_admitted<'a>(
    alloc: Global,
    admitted: &'a Admitted<'a>,
    population: &'a Population<'a>,
    asked: Asked<'_>,
) -> Option<String>
    requires { Fits admitted.now population.now.content }
{
    match asked {
        Asked::Fits { model, delivery } => other_model(alloc, admitted, model, delivery),
        Asked::FullWriters => full_writers(alloc, admitted, population),
        Asked::WholeReports => whole_reports(alloc, admitted, population),
        Asked::DeskReplies => desk_replies(alloc, admitted, population),
        Asked::GrantWithRoom => grant_with_room(alloc, admitted, population),
        Asked::Accepted | Asked::Admitted | Asked::Runs => admitted_words(alloc, admitted),
    }
}

fn of_sizes(
    alloc: Global,
    population: &Population<'_>,
    accepted: &Accepted<'_>,
    sizes: &Sizes<'_>,
    budget: u64,
    asked: Asked<'_>,
) -> Option<String>
    requires one_model { population.now.content.model ≡ accepted.now.model }
    requires sizes { sizes.now ≡ sizes_of population.now.content }
{
    match admit(alloc, accepted, sizes, budget) {
        Ok(admitted) => of_admitted(alloc, &admitted, population, asked),
        Err(CostFault::TooCostly { rule }) => {
            format!(in alloc; "rule {rule} is too costly").ok()
        }
        Err(CostFault::OutOfMemory) => None,
    }
}

fn of_accepted(
    alloc: Global,
    population: &Population<'_>,
    accepted: &Accepted<'_>,
    budget: u64,
    asked: Asked<'_>,
) -> Option<String>
    requires one_model { population.now.content.model ≡ accepted.now.model }
{
    match asked {
        Asked::Accepted => return accepted_words(alloc, accepted),
        Asked::Runs => return runs(alloc, accepted, population),
        _ => {}
    }
    match population.sizes(alloc) {
        Ok(sizes) => of_sizes(alloc, population, accepted, &sizes, budget, asked),
        Err(_refused) => None,
    }
}

fn of_unit(
    alloc: Global,
    population: &Population<'_>,
    unit: Unit,
    budget: u64,
    asked: Asked<'_>,
) -> Option<String> {
    match verify(alloc, population.model(), unit) {
        Ok(accepted) => of_accepted(alloc, population, &accepted, budget, asked),
        Err(_refused) => None,
    }
}

fn of_population(
    alloc: Global,
    population: &Population<'_>,
    inputs: Inputs<'_>,
    asked: Asked<'_>,
) -> Option<String> {
    match read_unit(alloc, inputs.code) {
        Ok(unit) => of_unit(alloc, population, unit, inputs.budget, asked),
        Err(_refused) => None,
    }
}

fn of_model(
    alloc: Global,
    model: &ClassModel,
    inputs: Inputs<'_>,
    asked: Asked<'_>,
) -> Option<String> {
    match load(alloc, inputs.delivery.as_bytes(), model) {
        Ok(population) => of_population(alloc, &population, inputs, asked),
        Err(_refused) => None,
    }
}

/// What is said of what is asked; `None` where an input is refused.
pub(crate) fn answer(alloc: Global, inputs: Inputs<'_>, asked: Asked<'_>) -> Option<String> {
    match ClassModel::read(alloc, inputs.model.as_bytes()) {
        Ok(model) => of_model(alloc, &model, inputs, asked),
        Err(_refused) => None,
    }
}

/// Whether that is said.
pub(crate) fn is_answered(
    alloc: Global,
    inputs: Inputs<'_>,
    asked: Asked<'_>,
    words: &str,
) -> bool {
    match answer(alloc, inputs, asked) {
        Some(found) => found.as_str() == words,
        None => false,
    }
}
