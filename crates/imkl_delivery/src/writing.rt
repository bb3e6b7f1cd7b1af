//! The second pass over a delivery's tokens: what each entry says is written on its object.

ghost use Rattle.std.specs.Prelude.{◌≡◌, ◌<◌, ◌∷◌, ℕ, List, Some, Ok, All, codes, length, slice_set, IfOk, OnOk};
ghost use Rattle.json.specs.Token.{Token};
ghost use Rattle.json.specs.Json.{read_key};
ghost use Rattle.serde_json.specs.Data.{Data, Items, Members, no_members};
ghost use Rattle.serde_json.specs.Find.{get_member};
ghost use Rattle.token_tree.specs.Tokens.{data_at, items_at, members_at};
ghost use Rattle.imkl_json.specs.Json.{elements_of};
ghost use Rattle.ocl_base.specs.Steps.{each};
ghost use Rattle.imkl_population.specs.Building.{KeepsObjects};
ghost use Rattle.imkl_delivery.specs.Document.{Written, entry_from};
ghost use Rattle.imkl_delivery.specs.Loading.{put_members, put_entries};
ghost use Rattle.imkl_delivery.specs.Named.{written_requirements};
ghost use Rattle.imkl_delivery.specs.Pending.{NonePending, IsPendingOnly, ArePending};
ghost use Rattle.imkl_delivery.specs.Straight.{StopsBefore, EndsWith, IsEntryPut};

use crate::detour::{Detour, detour_of};
use crate::features::{feature_of, put_pending};
use crate::guesses::Guesses;
use crate::pending_value::{Pending, read_pending};
use crate::tokens::{opens_object, string};
use imkl_model::{ClassModel, ClassNo, FeatureNo};
use imkl_population::{ObjectNo, PopulationBuilder, RequiredFeatures};
use json::Reader;
use std::alloc::{AllocError, Global};

/// Passes over members up to the name of the features. Refused where one that isn't a string comes first.
fn skip_before(reader: &mut Reader<'_>) -> Result<(), Detour>
    ensures { IfOk result (λ x. StopsBefore reader.old reader.new) }
{
    for _ in 0..3 {
        match reader.next_key() {
            Ok(Some(name)) => {
                if name == "features" {
                    return Ok(());
                }
                string(reader)?;
            }
            _ => return Err(Detour::ByTree),
        }
    }
    Err(Detour::ByTree)
}

/// Passes over the members behind the features. Refused where one isn't a string, or is named as these are.
fn skip_behind(reader: &mut Reader<'_>) -> Result<(), Detour>
    ensures { IfOk result (λ x. (found : Members) → EndsWith found reader.old reader.new) }
{
    for _ in 0..3 {
        match reader.next_key() {
            Ok(None) => return Ok(()),
            Ok(Some(name)) => {
                if name == "features" {
                    return Err(Detour::ByTree);
                }
                string(reader)?;
            }
            Err(_) => return Err(Detour::ByTree),
        }
    }
    Err(Detour::ByTree)
}

/// Has a value pending at a feature, in the place of any before it. The feature is named where nothing was pending, so that
/// a name that is repeated takes no memory.
fn keep_last<'a>(
    pending: &mut [Option<Pending<'a>>],
    named: &mut Vec<FeatureNo>,
    feature: FeatureNo,
    value: Pending<'a>,
) -> Result<(), AllocError>
    requires { feature < length pending.old }
    ensures put { OnOk result (pending.new ≡ slice_set pending.old feature (Some value.entry)) }
    ensures only { OnOk result (IsPendingOnly named.old.items pending.old →
        IsPendingOnly named.new.items pending.new) }
    ensures in_range { OnOk result ((n : ℕ) → feature < n →
        All (λ f. f < n) named.old.items → All (λ f. f < n) named.new.items) }
    ensures room { length pending.new ≡ length pending.old }
{
    let place = &mut pending[feature.index()];
    if place.is_some() {
        *place = Some(value);
        return Ok(());
    }
    *place = Some(value);
    named.push(feature)?;
    Ok(())
}

/// Reads the members of an entry's features up to their end. What they write is pending then; of a name that stands twice the
/// last value is. The features are written to a list of which only the room is used again.
fn read_members<'a>(
    pending: &mut [Option<Pending<'a>>],
    alloc: Global,
    reader: &mut Reader<'a>,
    model: &ClassModel,
    class: ClassNo,
    guesses: &[FeatureNo],
    list: Vec<FeatureNo>,
) -> Result<Vec<FeatureNo>, Detour>
    requires class { class < length model.now.classes }
    requires room { length pending.old ≡ length model.now.features }
    requires none { NonePending pending.old }
    ensures there { IfOk result (λ fs. (ms : Members) ×
        (members_at 123 no_members reader.old ≡ Some (ms, reader.new)) ×
        ArePending model.now class ms pending.new) }
    ensures only { IfOk result (λ fs. IsPendingOnly fs.items pending.new) }
    ensures in_range { IfOk result (λ fs. All (λ f. f < length model.now.features) fs.items) }
    ensures room { length pending.new ≡ length pending.old }
{
    model.well_formed();
    let mut named = list;
    named.clear();
    for _ in 0..u64::MAX {
        match reader.next_key() {
            Ok(None) => return Ok(named),
            Ok(Some(name)) => {
                let Some(feature) = feature_of(model, class, guesses, named.len(), name) else {
                    return Err(Detour::ByTree);
                };
                let value = read_pending(alloc, reader)?;
                keep_last(pending, &mut named, feature, value)?;
            }
            Err(_) => return Err(Detour::ByTree),
        }
    }
    Err(Detour::ByTree)
}

/// Writes on an object what the entry that comes next says.
fn put_entry<'a>(
    builder: &mut PopulationBuilder<'_>,
    alloc: Global,
    object: ObjectNo,
    reader: &mut Reader<'a>,
    pending: &mut [Option<Pending<'a>>],
    required: &mut RequiredFeatures<'_>,
    guesses: &mut Guesses,
) -> Result<(), Detour>
    requires object { object < length builder.old.objects }
    requires room { length pending.old ≡ length builder.old.model.features }
    requires none { NonePending pending.old }
    requires required { required.old ≡ written_requirements builder.old.model }
    ensures put { IfOk result (λ x.
        IsEntryPut object reader.old builder.old reader.new builder.new) }
    ensures kept { KeepsObjects builder.old builder.new }
    ensures room { length pending.new ≡ length pending.old }
    ensures none { OnOk result (NonePending pending.new) }
    ensures same { required.new ≡ required.old }
{
    opens_object(reader)?;
    skip_before(reader)?;
    opens_object(reader)?;
    let model = builder.model();
    let class = builder.class_of(object);
    let list = guesses.take_list(alloc);
    let named = read_members(
        pending,
        alloc,
        reader,
        model,
        class,
        guesses.of(class),
        list,
    )?;
    let written = put_pending(builder, alloc, object, named, pending, required, guesses);
    if written.is_err() {
        return Err(detour_of(&written));
    }
    skip_behind(reader)?;
    Ok(())
}

/// Writes on each object what its entry says, up to the end of the entries' list.
pub(crate) fn put_all<'a>(
    builder: &mut PopulationBuilder<'_>,
    alloc: Global,
    reader: &mut Reader<'a>,
    pending: &mut [Option<Pending<'a>>],
    required: &mut RequiredFeatures<'_>,
    guesses: &mut Guesses,
) -> Result<(), Detour>
    requires room { length pending.old ≡ length builder.old.model.features }
    requires none { NonePending pending.old }
    requires required { required.old ≡ written_requirements builder.old.model }
    ensures { IfOk result (λ x. (all : Items) ×
        (items_at 125 reader.old ≡ Some (all, reader.new)) ×
        ((ws : List Written) → each entry_from (elements_of all) ≡ Ok ws →
        put_entries ws builder.old ≡ Ok builder.new)) }
{
    builder.within_limit();
    let objects = builder.objects();
    for place in 0..objects {
        if reader.take_end_array() {
            return Err(Detour::ByTree);
        }
        put_entry(
            builder,
            alloc,
            ObjectNo::new(place),
            reader,
            pending,
            required,
            guesses,
        )?;
    }
    if reader.take_end_array() {
        return Ok(());
    }
    Err(Detour::ByTree)
}
