//! From the bytes of a class model and a delivery to what is asked about the population.

ghost use Rattle.std.specs.Prelude.{◌≡◌, IfOk};
ghost use Rattle.ocl_base.specs.Steps.{Gives};
ghost use Rattle.ocl_pipeline.specs.Steps.{inputs_in, model_in, population_in};
ghost use Rattle.ocl_pipeline.specs.Stops.{stopped};

use crate::asker::PopulationAsker;
use crate::place::Place;
use crate::stopped::Stopped;
use imkl_delivery::load;
use imkl_model::ClassModel;
use imkl_population::Population;
use std::alloc::Global;

/// The class model that bytes describe.
pub fn read_model(alloc: Global, bytes: &[u8]) -> Result<ClassModel, Stopped>
    ensures { Gives stopped (λ m. m) result (model_in bytes.now) }
{
    match ClassModel::read(alloc, bytes) {
        Ok(model) => Ok(model),
        Err(fault) => Err(Stopped::from(fault)),
    }
}

/// The population that a delivery describes.
pub fn read_delivery<'m>(
    alloc: Global,
    model: &'m ClassModel,
    bytes: &[u8],
) -> Result<Population<'m>, Stopped>
    ensures gives { Gives stopped (λ p. p.content) result
        (population_in bytes.now model.entry.now) }
    ensures model { IfOk result (λ p. p.content.model ≡ model.entry.now) }
{
    match load(alloc, bytes, model) {
        Ok(population) => Ok(population),
        Err(fault) => Err(Stopped::from(fault)),
    }
}

/// Asks about the population of a delivery.
fn ask_delivery<W, A: PopulationAsker<W>>(
    alloc: Global,
    asker: &A,
    model: &ClassModel,
    delivery: &[u8],
    into: &mut W,
) -> A::Output
    requires { A.can_ask into.old }
    ensures { A.answers asker.now (population_in delivery.now model.now) into.old result into.new }
{
    match read_delivery(alloc, model, delivery) {
        Ok(population) => asker.ask(alloc, &population, into),
        Err(why) => asker.stop(alloc, Place::Delivery(model), why, into),
    }
}

/// Reads a class model and a delivery, and asks about the population.
pub fn ask_inputs<W, A: PopulationAsker<W>>(
    alloc: Global,
    asker: &A,
    model: &[u8],
    delivery: &[u8],
    into: &mut W,
) -> A::Output
    requires { A.can_ask into.old }
    ensures { A.answers asker.now (inputs_in model.now delivery.now) into.old result into.new }
{
    match read_model(alloc, model) {
        Ok(model) => ask_delivery(alloc, asker, &model, delivery, into),
        Err(why) => asker.stop(alloc, Place::Model, why, into),
    }
}
