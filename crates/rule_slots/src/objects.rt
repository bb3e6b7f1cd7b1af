//! Operations on objects: tests of their classes, and what is read of them. A feature's values and a class's instances
//! are ranges of the population's lists.

ghost use Rattle.std.specs.Prelude.{◌≡◌, ◌<◌, List, length, true, Some};
ghost use Rattle.rule_values.specs.Value.{Value};
ghost use Rattle.rule_values.specs.Operations.{kind_test, type_test, cast, feature_value, value_read, all_instances};
ghost use Rattle.imkl_model.specs.ClassModel.{feature_at, belongs};
ghost use Rattle.imkl_population.specs.Population.{class_of, values_of};
ghost use Rattle.rule_slots.specs.Slots.{Lists as Indexed, SlotIs, lists_in};
ghost use Rattle.rule_slots.specs.declared.slot.Slot.{Slot as Held};
ghost use Rattle.rule_slots.specs.Operands.{MakesOfOne, is_object_operand, IsObjectOf, HasFeature};

use crate::lists::Lists;
use crate::reading::scalar_slot;
use crate::slot::{Slot, invalid_slot, null_slot, part_slot, truth_slot};
use imkl_model::{ClassNo, FeatureNo};
use imkl_population::{ObjectNo, Population};

/// The object of a slot.
fn object(population: &Population<'_>, v: Slot) -> ObjectNo
    requires { v.index < length population.now.content.objects }
    ensures { result ≡ v.index }
{
    population.consistent();
    ObjectNo::new(v.index)
}

/// Whether an object's class is a class or a subclass of it.
#[inline(always)]
pub fn kind_test(population: &Population<'_>, class: ClassNo, v: Slot) -> Slot
    requires class { class < length population.now.content.model.classes }
    requires object { IsObjectOf population.now.content v }
    ensures { (l : Indexed) (pool : List Held) →
        MakesOfOne l pool is_object_operand (kind_test population.now.content class) v result }
{
    if v.is_plain() {
        let own = population.class_of(object(population, v));
        truth_slot(population.model().conforms(own, class))
    } else {
        invalid_slot()
    }
}

/// Whether an object's class is a class itself.
#[inline(always)]
pub fn type_test(population: &Population<'_>, class: ClassNo, v: Slot) -> Slot
    requires object { IsObjectOf population.now.content v }
    ensures { (l : Indexed) (pool : List Held) →
        MakesOfOne l pool is_object_operand (type_test population.now.content class) v result }
{
    if v.is_plain() {
        let own = population.class_of(object(population, v));
        truth_slot(own.index() == class.index())
    } else {
        invalid_slot()
    }
}

/// The object, invalid where it isn't of a class.
#[inline(always)]
pub fn cast(population: &Population<'_>, class: ClassNo, v: Slot) -> Slot
    requires class { class < length population.now.content.model.classes }
    requires object { IsObjectOf population.now.content v }
    ensures { (l : Indexed) (pool : List Held) →
        MakesOfOne l pool is_object_operand (cast population.now.content class) v result }
{
    if v.is_plain() {
        let own = population.class_of(object(population, v));
        if population.model().conforms(own, class) {
            v
        } else {
            invalid_slot()
        }
    } else {
        invalid_slot()
    }
}

/// The value of a feature: the value itself where its upper bound is 1, null where there is none; else a collection.
#[inline(always)]
fn feature_value(lists: Lists<'_>, object: ObjectNo, feature: FeatureNo) -> Slot
    requires object { object < length lists.population.now.content.objects }
    requires feature { feature < length lists.population.now.content.model.features }
    requires belongs { belongs lists.population.now.content.model
        (class_of lists.population.now.content object) feature ≡ true }
    ensures { (pool : List Held) → SlotIs (lists_in lists.entry) pool (length pool) result
        (feature_value (feature_at lists.entry.population.now.content.model feature)
        (values_of lists.entry.population.now.content object feature)) }
{
    let (start, end) = lists.population.range(object, feature);
    if !lists.population.model().feature_info(feature).is_single() {
        return part_slot(0, start, end - start);
    }
    if start < end {
        scalar_slot(start, &lists.scalars()[start])
    } else {
        null_slot()
    }
}

/// A feature of an object; of null and invalid it is invalid.
#[inline(always)]
pub fn value_read(lists: Lists<'_>, feature: FeatureNo, v: Slot) -> Slot
    requires feature { feature < length lists.population.now.content.model.features }
    requires has { HasFeature lists.population.now.content feature v }
    ensures { (pool : List Held) (x r : Value) →
        SlotIs (lists_in lists.entry) pool (length pool) v x →
        value_read lists.entry.population.now.content feature x ≡ Some r →
        SlotIs (lists_in lists.entry) pool (length pool) result r }
{
    if !v.is_plain() {
        return invalid_slot();
    }
    feature_value(lists, object(lists.population, v), feature)
}

/// The Set of a class's instances.
#[inline(always)]
pub fn all_instances(lists: Lists<'_>, class: ClassNo) -> Slot
    requires { class < length lists.population.now.content.model.classes }
    ensures { (pool : List Held) → SlotIs (lists_in lists.entry) pool (length pool) result
        (all_instances lists.entry.population.now.content class) }
{
    let (start, end) = lists.population.instance_range(class);
    part_slot(1, start, end - start)
}
