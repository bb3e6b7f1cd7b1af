//! From a builder to a finished population.

ghost use Rattle.std.specs.Prelude.{◌≡◌, IfOk};
ghost use Rattle.imkl_population.specs.Consistency.{IsConsistent};
ghost use Rattle.imkl_population.specs.Ends.{AreEnds};
ghost use Rattle.imkl_population.specs.Store.{maps_of};

use crate::builder::PopulationBuilder;
use crate::instances::instances;
use crate::population::Population;
use crate::store::Store;
use std::alloc::AllocError;

/// The population of the builder, with its opposite ends. The values of all columns move into one list, for which room is made
/// at once.
pub(crate) fn lay_out<'m>(
    builder: PopulationBuilder<'m>,
    ends: Store,
) -> Result<Population<'m>, AllocError>
    requires consistent { IsConsistent builder }
    requires ends { AreEnds builder (maps_of ends) }
    ensures { IfOk result (λ p. p.content ≡ builder.entry) }
{
    let alloc = builder.alloc();
    let (instances, ranges) = instances(alloc, &builder)?;
    let (model, heads, written) = builder.into_parts();
    written.within();
    ends.within();
    let count = written.value_count().saturating_add(ends.value_count());
    let mut scalars = Vec::with_capacity(alloc, count)?;
    let written = written.into_ranges(alloc, &mut scalars)?;
    let ends = ends.into_ranges(alloc, &mut scalars)?;
    Ok(Population {
        model,
        heads,
        scalars,
        written,
        ends,
        instances,
        ranges,
    })
}
