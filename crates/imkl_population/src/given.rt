//! Values that are put at a feature.

ghost use Rattle.std.specs.Prelude.{◌≡◌, length};
ghost use Rattle.imkl_population.specs.Given.{given_values};

use crate::scalar::Scalar;

/// The values that are put at a feature: one, for which no list is made, or those of a list.
#[derive(Drop)]
pub enum GivenValues {
    /// One value.
    One(Scalar),
    /// The values of a list.
    Many(Vec<Scalar>),
}

impl GivenValues {
    /// How many there are.
    pub(crate) fn len(&self) -> usize
        ensures { result ≡ length (given_values self.now) }
    {
        match self {
            GivenValues::One(_) => 1,
            GivenValues::Many(values) => values.len(),
        }
    }
}
