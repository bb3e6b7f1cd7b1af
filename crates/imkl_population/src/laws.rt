//! Laws of the definitions: what they mean.

ghost use Rattle.std.specs.Prelude.{◌≡◌, ◌<◌, ℕ, length};
ghost use Rattle.imkl_model.specs.declared.feature.Role.TheVariants.{SourceEnd};
ghost use Rattle.imkl_model.specs.ClassModel.{feature_at};
ghost use Rattle.imkl_population.specs.Building.{as_objects};
ghost use Rattle.imkl_population.specs.Consistency.{IsConsistent};
ghost use Rattle.imkl_population.specs.Population.{Population, source_end, values_of};

/// The values at a source end are the targets of the association's pairs that begin with the object. (Those at an
/// opposite end are, by definition, the holders of the pairs that end at it.)
pub fn source_ends()
    ensures { (p : Population) (source g o : ℕ) → IsConsistent p →
        (feature_at p.model source).role ≡ SourceEnd g → o < length p.objects →
        values_of p o source ≡ as_objects (source_end p source o) }
{}
