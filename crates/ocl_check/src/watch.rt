//! What watches a command, for explanations.

ghost use Rattle.rule_cost.specs.Admission.{Fits};

use imkl_model::ClassModel;
use imkl_population::Population;
use ocl_pipeline::{Place, Stopped};
use rule_cost::Admitted;
use std::alloc::Global;

/// Sees what a command comes to, before its answer is written, and changes nothing of it.
pub trait Watch {
    /// Rules are admitted for a population, and its report is written next.
    fn admit(&self, alloc: Global, population: &Population<'_>, admitted: &Admitted<'_>)
        requires { Fits admitted.now population.now.content };

    /// A rule text is compiled for a class model.
    fn compile(&self, alloc: Global, model: &ClassModel);

    /// An input is refused, or memory ran out.
    fn stop(&self, alloc: Global, place: Place<'_>, why: &Stopped);
}

/// Watches nothing.
#[derive(Clone, Copy)]
pub struct Unwatched;

impl Watch for Unwatched {
    fn admit(&self, _alloc: Global, _population: &Population<'_>, _admitted: &Admitted<'_>) {}

    fn compile(&self, _alloc: Global, _model: &ClassModel) {}

    fn stop(&self, _alloc: Global, _place: Place<'_>, _why: &Stopped) {}
}
