//! What is written at the features of one object.

ghost use Rattle.std.specs.Prelude.{◌≡◌, ◌<◌, true, false, List, [], ◌∷◌, Option, Some, None, All, length, option_map, slice_set, IfOk, IfSome, OnOk};
ghost use Rattle.serde_json.specs.Data.{Data, string, Members};
ghost use Rattle.serde_json.specs.Find.{as_str};
ghost use Rattle.serde_json.specs.View.{view, members_view};
ghost use Rattle.imkl_model.specs.ClassModel.{feature_at, feature_number};
ghost use Rattle.imkl_population.specs.Population.{Population, class_of};
ghost use Rattle.imkl_population.specs.Building.{KeepsObjects};
ghost use Rattle.imkl_delivery.specs.Steps.{Leaves, placed_fault};
ghost use Rattle.imkl_delivery.specs.Scalars.{is_absent, values_from, scalar_from, all_found};
ghost use Rattle.imkl_delivery.specs.Loading.{are_features, put_values, put_targets, put_by, put_member, put_members};
ghost use Rattle.imkl_delivery.specs.Seen.{texts_view};
ghost use Rattle.imkl_delivery.specs.Named.{written_requirements};
ghost use Rattle.imkl_delivery.specs.Pending.{pending_view, pending_at, NonePending, IsPendingOnly, IsPendingAt, ArePending};

use crate::fault::DeliveryFault;
use crate::guesses::Guesses;
use crate::pending_value::Pending;
use crate::scalars::{
    objects_of, scalar_of, scalar_of_single, scalars_of, scalars_of_singles, texts_of,
    texts_of_singles, values_of,
};
use imkl_model::{ClassModel, ClassNo, FeatureInfo, FeatureNo, Role};
use imkl_population::{ObjectNo, PopulationBuilder, PopulationFault, RequiredFeatures, Scalar};
use serde_json::{Map, Value};
use std::alloc::{AllocError, Global};
use std::slice;
use token_tree::Single;

/// The delivery's fault for a fault that a call on the population answered at an object: out of memory is the delivery's
/// own.
pub(crate) fn placed_fault(object: usize, fault: PopulationFault) -> DeliveryFault
    ensures { result ≡ placed_fault object fault }
{
    match fault {
        PopulationFault::OutOfMemory => DeliveryFault::OutOfMemory,
        fault => DeliveryFault::Population { object, fault },
    }
}

/// Puts values on an object, if each is of the attribute's type.
#[tactic(auto, unfolding(crate::specs::Loading::put_values))]
fn put_scalars(
    builder: &mut PopulationBuilder<'_>,
    object: ObjectNo,
    feature: FeatureNo,
    scalars: Option<Vec<Scalar>>,
) -> Result<(), DeliveryFault>
    requires object { object < length builder.old.objects }
    requires feature { feature < length builder.old.model.features }
    ensures leaves { (ds : List Data) → option_map (λ v. v.items) scalars ≡
        all_found (scalar_from builder.old.model (feature_at builder.old.model feature).element)
        ds → Leaves result (put_values object feature ds builder.old) builder.new }
    ensures kept { KeepsObjects builder.old builder.new }
{
    let Some(scalars) = scalars else {
        return Err(placed_fault(object.index(), PopulationFault::WrongKind));
    };
    match builder.set_value(object, feature, scalars) {
        Ok(()) => Ok(()),
        Err(fault) => Err(placed_fault(object.index(), fault)),
    }
}

/// Puts the one value of an attribute on an object, for which no list is made, if it is of the attribute's type.
#[inline(always)]
#[tactic(auto, unfolding(crate::specs::Loading::put_values))]
fn put_scalar(
    builder: &mut PopulationBuilder<'_>,
    object: ObjectNo,
    feature: FeatureNo,
    scalar: Option<Scalar>,
) -> Result<(), DeliveryFault>
    requires object { object < length builder.old.objects }
    requires feature { feature < length builder.old.model.features }
    ensures leaves { (d : Data) → scalar ≡
        scalar_from builder.old.model (feature_at builder.old.model feature).element d →
        Leaves result (put_values object feature (d ∷ []) builder.old) builder.new }
    ensures kept { KeepsObjects builder.old builder.new }
{
    let Some(scalar) = scalar else {
        return Err(placed_fault(object.index(), PopulationFault::WrongKind));
    };
    match builder.set_one(object, feature, scalar) {
        Ok(()) => Ok(()),
        Err(fault) => Err(placed_fault(object.index(), fault)),
    }
}

/// Puts the values of an attribute that a JSON value writes on an object.
fn put_tree(
    builder: &mut PopulationBuilder<'_>,
    alloc: Global,
    object: ObjectNo,
    feature: FeatureNo,
    value: Value,
) -> Result<(), DeliveryFault>
    requires object { object < length builder.old.objects }
    requires feature { feature < length builder.old.model.features }
    ensures leaves { Leaves result (put_values object feature (values_from (view value))
        builder.old) builder.new }
    ensures kept { KeepsObjects builder.old builder.new }
{
    let model = builder.model();
    model.well_formed();
    let info = model.feature_info(feature);
    match value {
        Value::Null => put_scalars(builder, object, feature, Some(Vec::new(alloc))),
        Value::Array(values) => {
            let scalars = scalars_of(alloc, model, info, values)?;
            put_scalars(builder, object, feature, scalars)
        }
        value => {
            let scalar = scalar_of(model, info.element, value);
            put_scalar(builder, object, feature, scalar)
        }
    }
}

/// Puts the values of an attribute that a member writes on an object.
fn put_values(
    builder: &mut PopulationBuilder<'_>,
    alloc: Global,
    object: ObjectNo,
    feature: FeatureNo,
    value: Pending<'_>,
) -> Result<(), DeliveryFault>
    requires object { object < length builder.old.objects }
    requires feature { feature < length builder.old.model.features }
    ensures leaves { Leaves result (put_values object feature (values_from
        (pending_view value.entry)) builder.old) builder.new }
    ensures kept { KeepsObjects builder.old builder.new }
{
    let model = builder.model();
    model.well_formed();
    let info = model.feature_info(feature);
    match value {
        Pending::Nothing => put_scalars(builder, object, feature, Some(Vec::new(alloc))),
        Pending::One(single) => {
            let scalar = scalar_of_single(alloc, model, info.element, single)?;
            put_scalar(builder, object, feature, scalar)
        }
        Pending::Many(singles) => {
            let scalars = scalars_of_singles(alloc, model, info, &singles)?;
            put_scalars(builder, object, feature, scalars)
        }
        Pending::Tree(value) => put_tree(builder, alloc, object, feature, value),
    }
}

/// Puts the targets of a source end on an object: the objects of these ids. Where there are none, some value isn't a string.
#[tactic(auto, unfolding(crate::specs::Loading::put_targets))]
fn put_targets(
    builder: &mut PopulationBuilder<'_>,
    alloc: Global,
    object: ObjectNo,
    feature: FeatureNo,
    ids: Option<Vec<&str>>,
) -> Result<(), DeliveryFault>
    requires object { object < length builder.old.objects }
    requires feature { feature < length builder.old.model.features }
    ensures leaves { (ds : List Data) → option_map (λ v. texts_view v.items) ids.entry ≡
        all_found as_str ds → Leaves result (put_targets object feature ds builder.old)
        builder.new }
    ensures kept { KeepsObjects builder.old builder.new }
{
    let Some(ids) = ids else {
        return Err(placed_fault(object.index(), PopulationFault::WrongKind));
    };
    let first = object.index().saturating_add(1);
    let Some(targets) = objects_of(alloc, builder, first, &ids)? else {
        return Err(DeliveryFault::UnknownTarget {
            object: object.index(),
        });
    };
    match builder.link(object, feature, &targets) {
        Ok(()) => Ok(()),
        Err(fault) => Err(placed_fault(object.index(), fault)),
    }
}

/// Puts the one target of a source end on an object, for which no list is made: the object of this id.
#[tactic(auto, unfolding(crate::specs::Loading::put_targets))]
fn put_target(
    builder: &mut PopulationBuilder<'_>,
    object: ObjectNo,
    feature: FeatureNo,
    id: &str,
) -> Result<(), DeliveryFault>
    requires object { object < length builder.old.objects }
    requires feature { feature < length builder.old.model.features }
    ensures leaves { Leaves result (put_targets object feature (string id.now ∷ []) builder.old)
        builder.new }
    ensures kept { KeepsObjects builder.old builder.new }
{
    let Some(target) = builder.object(id) else {
        return Err(DeliveryFault::UnknownTarget {
            object: object.index(),
        });
    };
    match builder.link(object, feature, slice::from_ref(&target)) {
        Ok(()) => Ok(()),
        Err(fault) => Err(placed_fault(object.index(), fault)),
    }
}

/// Puts the targets of a source end that a member writes on an object.
fn put_ends(
    builder: &mut PopulationBuilder<'_>,
    alloc: Global,
    object: ObjectNo,
    feature: FeatureNo,
    value: Pending<'_>,
) -> Result<(), DeliveryFault>
    requires object { object < length builder.old.objects }
    requires feature { feature < length builder.old.model.features }
    ensures leaves { Leaves result (put_targets object feature (values_from
        (pending_view value.entry)) builder.old) builder.new }
    ensures kept { KeepsObjects builder.old builder.new }
{
    match value {
        Pending::Nothing => { put_targets(builder, alloc, object, feature, Some(Vec::new(alloc))) }
        Pending::One(Single::Text(id)) => put_target(builder, object, feature, id),
        Pending::One(_) => put_targets(builder, alloc, object, feature, None),
        Pending::Many(singles) => {
            let ids = texts_of_singles(alloc, &singles)?;
            put_targets(builder, alloc, object, feature, ids)
        }
        Pending::Tree(value) => {
            let ids = texts_of(alloc, values_of(&value))?;
            put_targets(builder, alloc, object, feature, ids)
        }
    }
}

/// Puts what a member writes at a feature of the object's class. No member, or null, writes nothing.
fn put_written(
    builder: &mut PopulationBuilder<'_>,
    alloc: Global,
    object: ObjectNo,
    feature: FeatureNo,
    value: Option<Pending<'_>>,
) -> Result<(), DeliveryFault>
    requires object { object < length builder.old.objects }
    requires feature { feature < length builder.old.model.features }
    ensures leaves { Leaves result (put_by (feature_at builder.old.model feature).role object
        feature (option_map pending_view value.entry) builder.old) builder.new }
    ensures kept { KeepsObjects builder.old builder.new }
{
    let info = builder.model().feature_info(feature);
    let value = match value {
        Some(value) if !value.is_nothing() => value,
        _ => return left_out(object, feature, info),
    };
    match info.role {
        Role::Attribute => put_values(builder, alloc, object, feature, value),
        Role::SourceEnd { .. } => put_ends(builder, alloc, object, feature, value),
        Role::OppositeEnd { .. } => Err(placed_fault(object.index(), PopulationFault::Derived)),
    }
}

/// What comes of a feature at which nothing is written: too few values, if the feature needs some and is no opposite end.
fn left_out(object: ObjectNo, feature: FeatureNo, info: &FeatureInfo) -> Result<(), DeliveryFault>
    ensures { (p : Population) (v : Option Data) → feature_at p.model feature ≡ info.now →
        is_absent v ≡ true → Leaves result (put_by info.now.role object feature v p) p }
{
    if info.role.is_opposite() || info.lower == 0 {
        return Ok(());
    }
    Err(placed_fault(object.index(), PopulationFault::TooFew { object, feature }))
}

/// Puts what is pending at a feature, where it belongs to the object's class.
fn put_member(
    builder: &mut PopulationBuilder<'_>,
    alloc: Global,
    object: ObjectNo,
    feature: FeatureNo,
    pending: &mut [Option<Pending<'_>>],
) -> Result<(), DeliveryFault>
    requires object { object < length builder.old.objects }
    requires feature { feature < length builder.old.model.features }
    requires room { feature < length pending.old }
    ensures leaves { (ms : Members) →
        IsPendingAt builder.old.model (class_of builder.old object) ms pending.old feature →
        Leaves result (put_member object ms feature builder.old) builder.new }
    ensures kept { KeepsObjects builder.old builder.new }
    ensures taken { pending.new ≡ slice_set pending.old feature None }
{
    let value = pending[feature.index()].take();
    let model = builder.model();
    if !model.belongs(builder.class_of(object), feature) {
        return Ok(());
    }
    put_written(builder, alloc, object, feature, value)
}

/// Whether a feature is the one that a class has of a name.
fn is_feature(model: &ClassModel, class: ClassNo, feature: FeatureNo, name: &str) -> bool
    requires { class < length model.now.classes }
    ensures number { result ≡ true → feature_number model.now class name.now ≡ Some feature }
    ensures in_range { result ≡ true → feature < length model.now.features }
{
    model.well_formed();
    if feature.index() >= model.feature_count() || !model.belongs(class, feature) {
        return false;
    }
    model.feature_info(feature).name.as_str() == name
}

/// A guess of the feature that a class has of a name, if it is right.
#[inline(always)]
fn right_guess(
    model: &ClassModel,
    class: ClassNo,
    guess: Option<&FeatureNo>,
    name: &str,
) -> Option<FeatureNo>
    requires { class < length model.now.classes }
    ensures number { IfSome result (λ f. feature_number model.now class name.now ≡ Some f) }
    ensures in_range { IfSome result (λ f. f < length model.now.features) }
{
    match guess {
        Some(feature) if is_feature(model, class, *feature, name) => Some(*feature),
        _ => None,
    }
}

/// The feature that a class has of a name. Where a guess, the one at a place or the next, is right, nothing is searched.
pub(crate) fn feature_of(
    model: &ClassModel,
    class: ClassNo,
    guesses: &[FeatureNo],
    place: usize,
    name: &str,
) -> Option<FeatureNo>
    requires { class < length model.now.classes }
    ensures number { result ≡ feature_number model.now class name.now }
    ensures in_range { IfSome result (λ f. f < length model.now.features) }
{
    if let Some(feature) = right_guess(model, class, guesses.get(place), name) {
        return Some(feature);
    }
    if let Some(feature) = right_guess(model, class, guesses.get(place.saturating_add(1)), name) {
        return Some(feature);
    }
    model.feature(class, name)
}

/// Puts all that is pending on an object, in the class model's order of features. A feature that no member names and that
/// the class doesn't require is passed over, since there is nothing to put.
pub(crate) fn put_pending(
    builder: &mut PopulationBuilder<'_>,
    alloc: Global,
    object: ObjectNo,
    named: Vec<FeatureNo>,
    pending: &mut [Option<Pending<'_>>],
    required: &mut RequiredFeatures<'_>,
    guesses: &mut Guesses,
) -> Result<(), DeliveryFault>
    requires object { object < length builder.old.objects }
    requires named { All (λ f. f < length builder.old.model.features) named.items }
    requires room { length pending.old ≡ length builder.old.model.features }
    requires only { IsPendingOnly named.items pending.old }
    requires required { required.old ≡ written_requirements builder.old.model }
    ensures leaves { (ms : Members) →
        ArePending builder.old.model (class_of builder.old object) ms pending.old →
        Leaves result (put_members object ms builder.old) builder.new }
    ensures kept { KeepsObjects builder.old builder.new }
    ensures room { length pending.new ≡ length pending.old }
    ensures none { OnOk result (NonePending pending.new) }
    ensures same { required.new ≡ required.old }
{
    let model = builder.model();
    model.well_formed();
    let class = builder.class_of(object);
    guesses.keep(alloc, class, &named)?;
    let features = required.with_required(class, named)?;
    for feature in &features {
        let put = put_member(builder, alloc, object, *feature, pending);
        if put.is_err() {
            return put;
        }
    }
    guesses.give_back(features);
    Ok(())
}

/// Takes the members of an object's features. What they write is pending then. `None` where one names no feature of the class.
/// The features are written to a list of which only the room is used again.
fn take_members(
    pending: &mut [Option<Pending<'_>>],
    model: &ClassModel,
    class: ClassNo,
    members: Map<String, Value>,
    guesses: &[FeatureNo],
    list: Vec<FeatureNo>,
) -> Result<Option<Vec<FeatureNo>>, AllocError>
    requires class { class < length model.now.classes }
    requires room { length pending.old ≡ length model.now.features }
    requires none { NonePending pending.old }
    ensures there { IfOk result (λ r. IfSome r (λ fs.
        ArePending model.now class (members_view members.entries) pending.new)) }
    ensures only { IfOk result (λ r. IfSome r (λ fs. IsPendingOnly fs.items pending.new)) }
    ensures in_range { IfOk result (λ r. IfSome r (λ fs. All (λ f.
        f < length model.now.features) fs.items)) }
    ensures unnamed { IfOk result (λ r. r ≡ None →
        are_features model.now class (members_view members.entries) ≡ false) }
    ensures room { length pending.new ≡ length pending.old }
{
    model.well_formed();
    let mut named = list;
    named.clear();
    for (name, value) in members {
        let Some(feature) = feature_of(model, class, guesses, named.len(), name.as_str()) else {
            return Ok(None);
        };
        keep_first(pending, feature, value);
        named.push(feature)?;
    }
    Ok(Some(named))
}

/// Has a value pending at a feature, if nothing is.
fn keep_first(pending: &mut [Option<Pending<'_>>], feature: FeatureNo, value: Value)
    requires { feature < length pending.old }
    ensures kept { (d : Data) → pending_at pending.old feature ≡ Some d →
        pending.new ≡ pending.old }
    ensures put { pending_at pending.old feature ≡ None →
        pending.new ≡ slice_set pending.old feature (Some (Pending.Tree value)) }
{
    if pending[feature.index()].is_none() {
        pending[feature.index()] = Some(Pending::Tree(value));
    }
}

/// Puts all that the members of an object's features write.
pub(crate) fn put_members(
    builder: &mut PopulationBuilder<'_>,
    alloc: Global,
    object: ObjectNo,
    members: Map<String, Value>,
    pending: &mut [Option<Pending<'_>>],
    required: &mut RequiredFeatures<'_>,
    guesses: &mut Guesses,
) -> Result<(), DeliveryFault>
    requires object { object < length builder.old.objects }
    requires room { length pending.old ≡ length builder.old.model.features }
    requires none { NonePending pending.old }
    requires required { required.old ≡ written_requirements builder.old.model }
    ensures leaves { Leaves result
        (put_members object (members_view members.entries) builder.old) builder.new }
    ensures kept { KeepsObjects builder.old builder.new }
    ensures room { length pending.new ≡ length pending.old }
    ensures none { OnOk result (NonePending pending.new) }
    ensures same { required.new ≡ required.old }
{
    let model = builder.model();
    let class = builder.class_of(object);
    let list = guesses.take_list(alloc);
    let Some(named) = take_members(pending, model, class, members, guesses.of(class), list)? else {
        return Err(DeliveryFault::UnknownFeature {
            object: object.index(),
        });
    };
    put_pending(builder, alloc, object, named, pending, required, guesses)
}

/// For each feature of a class model nothing.
pub(crate) fn none_pending<'a>(
    alloc: Global,
    model: &ClassModel,
) -> Result<Vec<Option<Pending<'a>>>, AllocError>
    ensures none { IfOk result (λ v. NonePending v.items) }
    ensures room { IfOk result (λ v. length v.items ≡ length model.now.features) }
{
    let mut pending = Vec::with_capacity(alloc, model.feature_count())?;
    for _ in 0..model.feature_count() {
        pending.push(None)?;
    }
    Ok(pending)
}
