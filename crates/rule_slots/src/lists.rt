//! What slots index.

ghost use Rattle.std.specs.Prelude.{◌≡◌};
ghost use Rattle.rule_slots.specs.Slots.{lists_in};

use imkl_population::{ObjectNo, Population, Scalar};
use rule_code::Unit;

/// What slots index, beside the pool: the texts of a unit, and a population's values and the instances of its classes.
#[derive(Clone, Copy)]
pub struct Lists<'a> {
    /// The unit.
    pub unit: &'a Unit,
    /// The population.
    pub population: &'a Population<'a>,
}

impl<'a> Lists<'a> {
    /// The values of the population.
    pub fn scalars(self) -> &'a [Scalar]
        ensures { result.now ≡ (lists_in self.entry).scalars }
    {
        self.population.scalars()
    }

    /// The instances of the classes.
    pub fn instances(self) -> &'a [ObjectNo]
        ensures { result.now ≡ (lists_in self.entry).instances }
    {
        self.population.instance_list()
    }
}
