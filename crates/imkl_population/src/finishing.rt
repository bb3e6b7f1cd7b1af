//! What is looked for when a population is finished.

ghost use Rattle.std.specs.Prelude.{◌≡◌, ◌<◌, ℕ, false, length, All, IfOk};
ghost use Rattle.imkl_population.specs.Numbers.{first_below};
ghost use Rattle.imkl_population.specs.Finishing.{gap, end_fault, first_object_fault};
ghost use Rattle.imkl_population.specs.Ends.{AreEnds, IsUncrowdedBelow};
ghost use Rattle.imkl_population.specs.Order.{first_in};
ghost use Rattle.imkl_population.specs.Required.{is_one_of};
ghost use Rattle.imkl_population.specs.Store.{maps_of};
ghost use Rattle.imkl_population.specs.declared.required.Side.TheVariants as side;

use crate::builder::PopulationBuilder;
use crate::checks::bounds_fault;
use crate::fault::PopulationFault;
use crate::numbers::ObjectNo;
use crate::required::{RequiredFeatures, Side};
use crate::store::Store;
use imkl_model::FeatureNo;
use std::alloc::AllocError;

/// An attribute or source end of an object, where it has fewer values than its lower bound.
fn gap(
    builder: &PopulationBuilder<'_>,
    object: ObjectNo,
    feature: FeatureNo,
) -> Option<PopulationFault>
    requires object { object < length builder.now.objects }
    requires feature { feature < length builder.now.model.features }
    ensures { result ≡ gap builder.now object feature }
{
    let model = builder.model();
    let info = model.feature_info(feature);
    let is_gap = model.belongs(builder.class_of(object), feature)
        && !info.role.is_opposite()
        && builder.values_of(object, feature).len() < info.lower as usize;
    if is_gap {
        Some(PopulationFault::TooFew { object, feature })
    } else {
        None
    }
}

/// The first gap of an object at some features.
fn first_gap_at(
    builder: &PopulationBuilder<'_>,
    object: ObjectNo,
    features: &[FeatureNo],
) -> Option<PopulationFault>
    requires object { object < length builder.now.objects }
    requires features { All (λ f. f < length builder.now.model.features) features.now }
    ensures { result ≡ first_in (gap builder.now object) features.now }
{
    for feature in features {
        let found = gap(builder, object, *feature);
        if found.is_some() {
            return found;
        }
    }
    None
}

/// The first gap of an object: only at what its class requires can there be one.
fn first_gap_of(
    builder: &PopulationBuilder<'_>,
    required: &mut RequiredFeatures<'_>,
    object: ObjectNo,
) -> Result<Option<PopulationFault>, AllocError>
    requires object { object < length builder.now.objects }
    requires required { required.old ≡ record { model = builder.now.model; side = side.Written } }
    ensures first { IfOk result (λ fault. fault ≡
        first_below (gap builder.now object) (length builder.now.model.features)) }
    ensures same { required.new ≡ required.old }
{
    let class = builder.class_of(object);
    if let Some(features) = required.features_of(class) {
        return Ok(first_gap_at(builder, object, features));
    }
    let features = required.with_required(class, Vec::new(builder.alloc()))?;
    Ok(first_gap_at(builder, object, &features))
}

/// The first object, and its first feature, that was never set and needs a value.
pub(crate) fn first_gap(
    builder: &PopulationBuilder<'_>,
) -> Result<Option<PopulationFault>, AllocError>
    ensures { IfOk result (λ fault. fault ≡ first_object_fault gap builder.now) }
{
    builder.within_limit();
    let mut required = RequiredFeatures::new(builder.alloc(), builder.model(), Side::Written);
    for object in 0..builder.objects() {
        let found = first_gap_of(builder, &mut required, ObjectNo::new(object))?;
        if found.is_some() {
            return Ok(found);
        }
    }
    Ok(None)
}

/// An opposite end of an object against its bounds.
fn end_fault(
    builder: &PopulationBuilder<'_>,
    ends: &Store,
    object: ObjectNo,
    feature: FeatureNo,
) -> Option<PopulationFault>
    requires ends { AreEnds builder.now (maps_of ends.now) }
    requires object { object < length builder.now.objects }
    requires feature { feature < length builder.now.model.features }
    ensures { result ≡ end_fault builder.now object feature }
{
    let model = builder.model();
    let info = model.feature_info(feature);
    if model.belongs(builder.class_of(object), feature) && info.role.is_opposite() {
        let holders = ends.get(feature.index(), object.index());
        bounds_fault(info, object, feature, holders.len())
    } else {
        None
    }
}

/// The first object that has too many holders at an end, or an earlier object.
fn first_crowded_at(builder: &PopulationBuilder<'_>, ends: &Store, feature: FeatureNo) -> usize
    requires ends { AreEnds builder.now (maps_of ends.now) }
    requires feature { feature < length builder.now.model.features }
    ensures { IsUncrowdedBelow builder.now result feature }
{
    let info = builder.model().feature_info(feature);
    ends.first_over(feature.index(), info.upper)
}

/// The first object that has too many holders at some end, or an earlier object.
fn first_crowded(builder: &PopulationBuilder<'_>, ends: &Store) -> usize
    requires ends { AreEnds builder.now (maps_of ends.now) }
    ensures { (f : ℕ) → f < length builder.now.model.features →
        IsUncrowdedBelow builder.now result f }
{
    let mut first = usize::MAX;
    for feature in 0..builder.model().feature_count() {
        first = first.min(first_crowded_at(builder, ends, FeatureNo::new(feature)));
    }
    first
}

/// Features outside which an object has no opposite end with too many holders: none before the first object that may have
/// one, else all.
fn suspects(
    builder: &PopulationBuilder<'_>,
    object: ObjectNo,
    crowded: usize,
) -> Result<Vec<FeatureNo>, AllocError>
    ensures known { IfOk result (λ v. All (λ f. f < length builder.now.model.features) v.items) }
    ensures others { IfOk result (λ v. (f : ℕ) → f < length builder.now.model.features →
        is_one_of v.items f ≡ false → object < crowded) }
{
    let mut features = Vec::new(builder.alloc());
    if object.index() < crowded {
        return Ok(features);
    }
    for feature in 0..builder.model().feature_count() {
        features.push(FeatureNo::new(feature))?;
    }
    Ok(features)
}

/// The first fault of an object's opposite ends at some of them.
fn first_end_fault_at(
    builder: &PopulationBuilder<'_>,
    ends: &Store,
    object: ObjectNo,
    features: &[FeatureNo],
) -> Option<PopulationFault>
    requires ends { AreEnds builder.now (maps_of ends.now) }
    requires object { object < length builder.now.objects }
    requires features { All (λ f. f < length builder.now.model.features) features.now }
    ensures { result ≡ first_in (end_fault builder.now object) features.now }
{
    for feature in features {
        let found = end_fault(builder, ends, object, *feature);
        if found.is_some() {
            return found;
        }
    }
    None
}

/// The first fault of an object's opposite ends. Before the first crowded object it is at what the
/// class requires.
fn first_end_fault_of(
    builder: &PopulationBuilder<'_>,
    ends: &Store,
    required: &mut RequiredFeatures<'_>,
    object: ObjectNo,
    crowded: usize,
) -> Result<Option<PopulationFault>, AllocError>
    requires ends { AreEnds builder.now (maps_of ends.now) }
    requires object { object < length builder.now.objects }
    requires required { required.old ≡ record { model = builder.now.model; side = side.Opposite } }
    requires uncrowded { (f : ℕ) → f < length builder.now.model.features →
        IsUncrowdedBelow builder.now crowded f }
    ensures first { IfOk result (λ fault. fault ≡
        first_below (end_fault builder.now object) (length builder.now.model.features)) }
    ensures same { required.new ≡ required.old }
{
    let class = builder.class_of(object);
    if object.index() < crowded
        && let Some(features) = required.features_of(class)
    {
        return Ok(first_end_fault_at(builder, ends, object, features));
    }
    let extra = suspects(builder, object, crowded)?;
    let features = required.with_required(class, extra)?;
    Ok(first_end_fault_at(builder, ends, object, &features))
}

/// The first object, and its first opposite end, out of its bounds.
pub(crate) fn first_end_fault(
    builder: &PopulationBuilder<'_>,
    ends: &Store,
) -> Result<Option<PopulationFault>, AllocError>
    requires { AreEnds builder.now (maps_of ends.now) }
    ensures { IfOk result (λ fault. fault ≡ first_object_fault end_fault builder.now) }
{
    builder.within_limit();
    let crowded = first_crowded(builder, ends);
    let mut required = RequiredFeatures::new(builder.alloc(), builder.model(), Side::Opposite);
    for object in 0..builder.objects() {
        let object = ObjectNo::new(object);
        let found = first_end_fault_of(builder, ends, &mut required, object, crowded)?;
        if found.is_some() {
            return Ok(found);
        }
    }
    Ok(None)
}
