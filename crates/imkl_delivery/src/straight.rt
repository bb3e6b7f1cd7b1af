//! A delivery loaded straight from its tokens, in two passes.

ghost use Rattle.std.specs.Prelude.{◌≡◌, List, Some, Ok, IfOk};
ghost use Rattle.serde_json.specs.Data.{Data, Items};
ghost use Rattle.serde_json.specs.Read.{read};
ghost use Rattle.token_tree.specs.Tokens.{items_at};
ghost use Rattle.imkl_json.specs.Json.{IsTree, elements_of};
ghost use Rattle.ocl_base.specs.Steps.{each};
ghost use Rattle.imkl_population.specs.Population.{Population as SpecPopulation};
ghost use Rattle.imkl_population.specs.Finishing.{finish_outcome};
ghost use Rattle.imkl_delivery.specs.Document.{Written, entry_from};
ghost use Rattle.imkl_delivery.specs.Loading.{put_entries, describes_population};

use crate::detour::Detour;
use crate::features::none_pending;
use crate::guesses::Guesses;
use crate::outline::outline;
use crate::tokens::{closes, opens};
use crate::writing::put_all;
use imkl_model::ClassModel;
use imkl_population::{Population, PopulationBuilder, PopulationFault, RequiredFeatures, Side};
use json::{Reader, Scratch};
use std::alloc::Global;

/// Writes on each object what its entry says, up to the end of the entries' list.
fn put_objects(
    builder: &mut PopulationBuilder<'_>,
    alloc: Global,
    reader: &mut Reader<'_>,
    model: &ClassModel,
) -> Result<(), Detour>
    requires { builder.old.model ≡ model.now }
    ensures { IfOk result (λ x. (all : Items) ×
        (items_at 125 reader.old ≡ Some (all, reader.new)) ×
        ((ws : List Written) → each entry_from (elements_of all) ≡ Ok ws →
        put_entries ws builder.old ≡ Ok builder.new)) }
{
    let mut required = RequiredFeatures::new(alloc, model, Side::Written);
    let mut guesses = Guesses::new(alloc, model.class_count())?;
    let mut pending = none_pending(alloc, model)?;
    put_all(
        builder,
        alloc,
        reader,
        &mut pending,
        &mut required,
        &mut guesses,
    )
}

/// A builder of the population that a delivery's text describes, with all that is written.
fn written_straight<'m>(
    alloc: Global,
    text: &str,
    model: &'m ClassModel,
) -> Result<PopulationBuilder<'m>, Detour>
    ensures { IfOk result (λ b. (d : Data) × (read text.now ≡ Some d) ×
        ((p : SpecPopulation) → finish_outcome b ≡ Ok p →
        describes_population model.now d ≡ Ok p)) }
{
    let mut scratch = Scratch::new(alloc);
    let mut builder = outline(alloc, text, model, &mut scratch)?;
    let mut reader = Reader::new(text, &mut scratch)?;
    opens(&mut reader, model)?;
    put_objects(&mut builder, alloc, &mut reader, model)?;
    closes(&mut reader)?;
    Ok(builder)
}

/// The population that a delivery's text describes, loaded straight from its tokens. What reading needs is given
/// back before the population is finished.
pub(crate) fn load_straight<'m>(
    alloc: Global,
    text: &str,
    model: &'m ClassModel,
) -> Result<Population<'m>, Detour>
    ensures described { IfOk result (λ p. (d : Data) × (read text.now ≡ Some d) ×
        (describes_population model.now d ≡ Ok p.content)) }
    ensures model { IfOk result (λ p. p.content.model ≡ model.now) }
{
    let builder = written_straight(alloc, text, model)?;
    match builder.finish() {
        Ok(population) => Ok(population),
        Err(PopulationFault::OutOfMemory) => Err(Detour::OutOfMemory),
        Err(_) => Err(Detour::ByTree),
    }
}

/// The same of a delivery's bytes.
pub(crate) fn load_straight_from<'m>(
    alloc: Global,
    bytes: &[u8],
    model: &'m ClassModel,
) -> Result<Population<'m>, Detour>
    ensures described { IfOk result (λ p. (d : Data) × IsTree bytes.now d ×
        (describes_population model.now d ≡ Ok p.content)) }
    ensures model { IfOk result (λ p. p.content.model ≡ model.now) }
{
    match simdutf8::compat::from_utf8(bytes) {
        Ok(text) => load_straight(alloc, text, model),
        Err(_) => Err(Detour::ByTree),
    }
}
