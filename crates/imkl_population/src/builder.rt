//! Building a population object by object.

ghost use Rattle.std.specs.Prelude.{◌≡◌, ◌<◌, ◌≤◌, ℕ, [], ◌∷◌, true, length, ◌+◌, All, IfOk, OnOk, IfSome, Ok, Some};
ghost use Rattle.imkl_model.specs.ClassModel.{feature_at};
ghost use Rattle.imkl_population.specs.Population.{class_of, written_at, object_number, pairs};
ghost use Rattle.std.specs.List.{list_all};
ghost use Rattle.imkl_population.specs.Draft.{is_sound};
ghost use Rattle.imkl_population.specs.Values.{is_target_of};
ghost use Rattle.imkl_population.specs.Finishing.{finish_outcome, Finishes};
ghost use Rattle.imkl_population.specs.declared.fault.PopulationFault.{PopulationFault};
ghost use Rattle.imkl_population.specs.Store.{maps_of, object_row};
ghost use Rattle.imkl_population.specs.Layout.{stored_content};
ghost use Rattle.imkl_population.specs.Adding.{AddsNew};
ghost use Rattle.imkl_population.specs.Building.{BuilderAnswers, KeepsObjects, object_fault, add_outcome, set_outcome, link_outcome, attribute_fault, list_fault, source_fault, targets_fault, value_fault, with_values, as_objects};
ghost use Rattle.imkl_population.specs.Given.{given_values};

use crate::checks::{are_of_type, bounds_fault, is_id};
use crate::ends::opposite_ends;
use crate::fault::PopulationFault;
use crate::finishing::{first_end_fault, first_gap};
use crate::given::GivenValues;
use crate::id_index::{HashedId, IdIndex, has_id};
use crate::layout::lay_out;
use crate::limits::MAX_OBJECTS;
use crate::numbers::ObjectNo;
use crate::object::Head;
use crate::population::Population;
use crate::repeats::repeats;
use crate::scalar::Scalar;
use crate::store::{Cell, Store, StoreSize};
use imkl_model::{ClassModel, ClassNo, ElementType, FeatureNo};
use ocl_base::Text;
use std::alloc::{AllocError, Global};
use std::marker::Model;
use std::slice;

/// A population in the making. Contracts see the population of what was added so far.
#[derive(Drop)]
pub struct PopulationBuilder<'m> {
    alloc: Global,
    model: &'m ClassModel,
    heads: Vec<Head>,
    written: Store,
    ids: IdIndex,
}

impl<'m> Model for PopulationBuilder<'m> {
    ghost use Rattle.std.specs.BTreeMap.{get_by_text};
    ghost use Rattle.imkl_population.specs.IdIndex.{number_found};
    ghost use Rattle.imkl_population.specs.Population.{Population};
    ghost use Rattle.imkl_population.specs.Store.{maps_of};
    ghost use Rattle.imkl_population.specs.Layout.{stored_content, IsInMaking};

    ghost Value = { Population };

    ghost view = { λ b. stored_content b.model.now b.heads.items (maps_of b.written) };

    ghost invariant = { λ b. IsInMaking b.model.now b.heads.items (maps_of b.written)
        (number_found b.ids.slots.items (get_by_text b.ids.others) b.heads.items) };
}

impl<'m> PopulationBuilder<'m> {
    /// A builder of a population of this class model, without objects. Takes no memory.
    pub fn new(alloc: Global, model: &'m ClassModel) -> PopulationBuilder<'m>
        ensures { result ≡ record { model = model.now; objects = [] } }
    {
        PopulationBuilder {
            alloc,
            model,
            heads: Vec::new(alloc),
            written: Store::new(alloc),
            ids: IdIndex::new(alloc),
        }
    }

    /// A builder of a population of this class model, without objects, and with room for so many. Up to then
    /// they are added without moving what was added before. An error means that memory ran out.
    pub fn with_capacity(
        alloc: Global,
        model: &'m ClassModel,
        objects: usize,
    ) -> Result<PopulationBuilder<'m>, AllocError>
        ensures { IfOk result (λ b. b ≡ record { model = model.now; objects = [] }) }
    {
        let objects = objects.min(MAX_OBJECTS);
        Ok(PopulationBuilder {
            alloc,
            model,
            heads: Vec::with_capacity(alloc, objects)?,
            written: Store::new(alloc),
            ids: IdIndex::with_capacity(alloc, objects)?,
        })
    }

    /// Adds an object, and answers its number. Refused with `BadId`, `DuplicateId`, `AbstractClass`
    /// or `Limit`, in this order, before anything is allocated; refused, it changes nothing.
    pub fn add_object(&mut self, id: &str, class: ClassNo) -> Result<ObjectNo, PopulationFault>
        requires { class < length self.old.model.classes }
        ensures answers { BuilderAnswers result (add_outcome self.old id.now class) self.old
            self.new }
        ensures refused { (fault : PopulationFault) →
            add_outcome self.old id.now class ≡ Err fault → result ≡ Err fault }
        ensures number { IfOk result (λ n. n ≡ length self.old.objects) }
        ensures count { OnOk result (length self.new.objects ≡ length self.old.objects + 1) }
        ensures model { self.new.model ≡ self.old.model }
    {
        let id = HashedId::new(id);
        if let Some(fault) = self.object_fault(id, class) {
            return Err(fault);
        }
        Ok(self.add_new(id, class)?)
    }

    /// What is wrong with one more object of an id and a class.
    fn object_fault(&self, id: HashedId<'_>, class: ClassNo) -> Option<PopulationFault>
        requires { class < length self.now.model.classes }
        ensures { result ≡ object_fault self.now id.entry.text.now class }
    {
        if !is_id(id.text) {
            return Some(PopulationFault::BadId);
        }
        if self.object_of(id).is_some() {
            return Some(PopulationFault::DuplicateId);
        }
        if self.model.is_abstract(class) {
            return Some(PopulationFault::AbstractClass);
        }
        if self.objects() >= MAX_OBJECTS {
            return Some(PopulationFault::Limit);
        }
        None
    }

    /// Adds an object with which nothing is wrong.
    fn add_new(&mut self, id: HashedId<'_>, class: ClassNo) -> Result<ObjectNo, AllocError>
        requires class { class < length self.old.model.classes }
        requires sound { object_fault self.old id.text.now class ≡ None }
        ensures { AddsNew result self.old id.entry.text.now class self.new }
    {
        let text = String::from_str(self.alloc, id.text)?;
        let number = self.objects();
        self.heads.reserve(1)?;
        self.ids.add(self.alloc, id, number)?;
        let id = Text::new(text);
        self.heads.push_reserved(Head { id, class });
        Ok(ObjectNo::new(number))
    }

    /// There are at most 1,000,000 objects.
    pub fn within_limit(&self)
        ensures { length self.now.objects ≤ MAX_OBJECTS }
    {
        let _heads = &self.heads;
    }

    /// How many objects were added.
    pub fn objects(&self) -> usize
        ensures { result ≡ length self.now.objects }
    {
        self.heads.len()
    }

    /// The object that has an id.
    pub fn object(&self, id: &str) -> Option<ObjectNo>
        ensures number { result ≡ object_number self.now id.now }
        ensures known { IfSome result (λ o. o < length self.now.objects) }
    {
        self.object_of(HashedId::new(id))
    }

    /// The object that has an id. Where it is the one that is guessed, nothing is searched.
    pub fn object_guessed(&self, id: &str, guess: usize) -> Option<ObjectNo>
        ensures number { result ≡ object_number self.now id.now }
        ensures known { IfSome result (λ o. o < length self.now.objects) }
    {
        self.within_limit();
        if self.is_object_of(guess, id) {
            return Some(ObjectNo::new(guess));
        }
        self.object(id)
    }

    /// Whether an object is there and has an id.
    fn is_object_of(&self, number: usize, id: &str) -> bool
        ensures number { result ≡ true → object_number self.now id.now ≡ Some number }
        ensures known { result ≡ true → number < length self.now.objects }
    {
        has_id(&self.heads, number, id)
    }

    /// The object that has an id whose hash is known.
    fn object_of(&self, id: HashedId<'_>) -> Option<ObjectNo>
        ensures number { result ≡ object_number self.now id.entry.text.now }
        ensures known { IfSome result (λ o. o < length self.now.objects) }
    {
        self.within_limit();
        let number = self.ids.find(&self.heads, id)?;
        Some(ObjectNo::new(number))
    }

    /// The class that an object is directly of.
    pub fn class_of(&self, object: ObjectNo) -> ClassNo
        requires { object < length self.now.objects }
        ensures class { result ≡ class_of self.now object }
        ensures known { result < length self.now.model.classes }
    {
        let head = &self.heads[object.index()];
        head.class
    }

    /// The class model.
    pub fn model(&self) -> &'m ClassModel
        ensures { result.now ≡ self.now.model }
    {
        self.model
    }

    pub(crate) fn alloc(&self) -> Global {
        self.alloc
    }

    /// The class model, the objects' ids and classes, and what is written on them.
    pub(crate) fn into_parts(self) -> (&'m ClassModel, Vec<Head>, Store)
        ensures content { stored_content result.0.now result.1.items (maps_of result.2) ≡
            self.entry }
        ensures idle { (o : ℕ) → length self.entry.objects ≤ o →
            object_row (maps_of result.2) o ≡ [] }
    {
        let PopulationBuilder {
            alloc: _,
            model,
            heads,
            written,
            ids: _,
        } = self;
        (model, heads, written)
    }

    /// Gives back the memory of values that were replaced.
    fn give_back(&mut self) -> Result<(), AllocError>
        ensures { self.new ≡ self.old }
    {
        self.written.give_back(self.alloc)
    }

    /// Has what is written found without a search from now on.
    fn rank(&mut self) -> Result<(), AllocError>
        ensures { self.new ≡ self.old }
    {
        self.written.rank(self.alloc)
    }

    /// What is written at a feature of an object.
    pub(crate) fn values_of(&self, object: ObjectNo, feature: FeatureNo) -> &[Scalar]
        requires { object < length self.now.objects }
        ensures { result.now ≡ written_at self.now object feature }
    {
        self.written.get(feature.index(), object.index())
    }

    /// The pairs of an association, named by its source end, in the order of the holders.
    pub(crate) fn pairs(&self, source: FeatureNo) -> Result<Vec<(usize, usize)>, AllocError>
        ensures { IfOk result (λ v. v.items ≡ pairs self.now source) }
    {
        self.written.pairs(self.alloc, source.index())
    }

    /// What is wrong with the feature or the types of values at an attribute.
    fn attribute_fault(
        &self,
        object: ObjectNo,
        feature: FeatureNo,
        values: &[Scalar],
    ) -> Option<PopulationFault>
        requires object { object < length self.now.objects }
        requires feature { feature < length self.now.model.features }
        ensures { result ≡ attribute_fault self.now object feature (feature_at self.now.model
            feature)
            values.now }
    {
        self.model.well_formed();
        let info = self.model.feature_info(feature);
        if !(self.model.belongs(self.class_of(object), feature) && info.role.is_attribute()) {
            return Some(PopulationFault::WrongFeature);
        }
        if !are_of_type(self.model, info.element, values) {
            return Some(PopulationFault::WrongKind);
        }
        None
    }

    /// What is wrong with a list, which may not hold a value twice if it is unique.
    fn list_fault(
        &self,
        object: ObjectNo,
        feature: FeatureNo,
        unique: bool,
        values: &[Scalar],
    ) -> Result<Option<PopulationFault>, AllocError>
        requires { feature < length self.now.model.features }
        ensures { IfOk result (λ fault. fault ≡
            list_fault unique (feature_at self.now.model feature) object feature values.now) }
    {
        if unique && repeats(self.alloc, values)? {
            return Ok(Some(PopulationFault::DuplicateTarget));
        }
        let info = self.model.feature_info(feature);
        Ok(bounds_fault(info, object, feature, values.len()))
    }

    /// Whether a value is an object whose class conforms to a class.
    fn is_target(&self, class: ClassNo, value: &Scalar) -> bool
        requires { class < length self.now.model.classes }
        ensures { result ≡ is_target_of self.now (ElementType.Class class) value.now }
    {
        let Scalar::Object(object) = value else {
            return false;
        };
        object.index() < self.objects() && self.model.conforms(self.class_of(*object), class)
    }

    /// Whether all values are objects whose classes conform to the feature's class.
    fn are_targets(&self, feature: FeatureNo, values: &[Scalar]) -> bool
        requires { feature < length self.now.model.features }
        ensures { result ≡ list_all (is_target_of self.now (feature_at self.now.model
            feature).element) values.now }
    {
        self.model.well_formed();
        match self.model.feature_info(feature).element {
            ElementType::Class(class) => values.iter().all(|v| self.is_target(class, v)),
            _ => values.is_empty(),
        }
    }

    /// What is wrong with a feature that is linked, whatever the targets.
    fn source_fault(&self, object: ObjectNo, feature: FeatureNo) -> Option<PopulationFault>
        requires object { object < length self.now.objects }
        requires feature { feature < length self.now.model.features }
        ensures { result ≡ source_fault self.now object feature (feature_at self.now.model
            feature) }
    {
        let info = self.model.feature_info(feature);
        if !(self.model.belongs(self.class_of(object), feature) && !info.role.is_attribute()) {
            return Some(PopulationFault::WrongFeature);
        }
        if info.role.is_opposite() {
            return Some(PopulationFault::Derived);
        }
        None
    }

    /// What is wrong with targets at a source end.
    fn targets_fault(
        &self,
        object: ObjectNo,
        feature: FeatureNo,
        targets: &[Scalar],
    ) -> Result<Option<PopulationFault>, AllocError>
        requires object { object < length self.now.objects }
        requires feature { feature < length self.now.model.features }
        ensures { IfOk result (λ fault. fault ≡
            targets_fault self.now object feature (feature_at self.now.model feature) targets.now) }
    {
        if !self.are_targets(feature, targets) {
            return Ok(Some(PopulationFault::WrongClass));
        }
        self.list_fault(object, feature, true, targets)
    }

    /// Puts values at a feature, in the place of those that stood there.
    fn put(
        &mut self,
        object: ObjectNo,
        feature: FeatureNo,
        values: GivenValues,
    ) -> Result<(), PopulationFault>
        requires object { object < length self.old.objects }
        requires feature { feature < length self.old.model.features }
        requires sound { is_sound self.old object (feature, given_values values) ≡ true }
        ensures answers { BuilderAnswers result
            (Ok (with_values self.old object feature (given_values values))) self.old self.new }
        ensures kept { KeepsObjects self.old self.new }
    {
        let size = StoreSize {
            objects: self.objects(),
            features: self.model.feature_count(),
        };
        let cell = Cell {
            object: object.index(),
            feature: feature.index(),
        };
        self.written.put(self.alloc, size, cell, values)?;
        Ok(())
    }

    /// Sets the values of an attribute; a second call replaces the first. Refused with
    /// `WrongFeature`, `WrongKind`, `DuplicateTarget`, `TooFew` or `TooMany`, in this order, the
    /// first two before anything is allocated; refused, it changes nothing and the list is dropped.
    pub fn set_value(
        &mut self,
        object: ObjectNo,
        feature: FeatureNo,
        values: Vec<Scalar>,
    ) -> Result<(), PopulationFault>
        requires object { object < length self.old.objects }
        requires feature { feature < length self.old.model.features }
        ensures answers { BuilderAnswers result (set_outcome self.old object feature values.items)
            self.old self.new }
        ensures refused { (fault : PopulationFault) → attribute_fault self.old object feature
            (feature_at self.old.model feature) values.items ≡ Some fault → result ≡ Err fault }
        ensures kept { KeepsObjects self.old self.new }
    {
        if let Some(fault) = self.attribute_fault(object, feature, &values) {
            return Err(fault);
        }
        let unique = self.model.feature_info(feature).is_unique();
        match self.list_fault(object, feature, unique, &values)? {
            Some(fault) => Err(fault),
            None => self.put(object, feature, GivenValues::Many(values)),
        }
    }

    /// What is wrong with a single value at an attribute.
    fn one_fault(
        &self,
        object: ObjectNo,
        feature: FeatureNo,
        value: &Scalar,
    ) -> Option<PopulationFault>
        requires object { object < length self.now.objects }
        requires feature { feature < length self.now.model.features }
        ensures { result ≡ value_fault self.now object feature (feature_at self.now.model
            feature) (value.now ∷ []) }
    {
        if let Some(fault) = self.attribute_fault(object, feature, slice::from_ref(value)) {
            return Some(fault);
        }
        bounds_fault(self.model.feature_info(feature), object, feature, 1)
    }

    /// Sets the single value of an attribute, as `set_value` does with a list of it alone, but
    /// without one. All its faults come before anything is allocated; refused, it changes nothing.
    #[inline(always)]
    pub fn set_one(
        &mut self,
        object: ObjectNo,
        feature: FeatureNo,
        value: Scalar,
    ) -> Result<(), PopulationFault>
        requires object { object < length self.old.objects }
        requires feature { feature < length self.old.model.features }
        ensures answers { BuilderAnswers result (set_outcome self.old object feature (value ∷ []))
            self.old self.new }
        ensures refused { (fault : PopulationFault) →
            set_outcome self.old object feature (value ∷ []) ≡ Err fault → result ≡ Err fault }
        ensures kept { KeepsObjects self.old self.new }
    {
        if let Some(fault) = self.one_fault(object, feature, &value) {
            return Err(fault);
        }
        self.put(object, feature, GivenValues::One(value))
    }

    /// Sets the targets of a source end; a second call replaces the first. Refused with
    /// `WrongFeature`, `Derived`, `WrongClass`, `DuplicateTarget`, `TooFew` or `TooMany`, in this
    /// order, the first two before anything is allocated; refused, it changes nothing.
    pub fn link(
        &mut self,
        object: ObjectNo,
        feature: FeatureNo,
        targets: &[ObjectNo],
    ) -> Result<(), PopulationFault>
        requires object { object < length self.old.objects }
        requires feature { feature < length self.old.model.features }
        ensures answers { BuilderAnswers result (link_outcome self.old object feature targets.now)
            self.old self.new }
        ensures refused { (fault : PopulationFault) → source_fault self.old object feature
            (feature_at self.old.model feature) ≡ Some fault → result ≡ Err fault }
        ensures kept { KeepsObjects self.old self.new }
    {
        if let Some(fault) = self.source_fault(object, feature) {
            return Err(fault);
        }
        let targets = as_objects(self.alloc, targets)?;
        match self.targets_fault(object, feature, &targets)? {
            Some(fault) => Err(fault),
            None => self.put(object, feature, GivenValues::Many(targets)),
        }
    }

    /// The population of what was added. Refused with `TooFew` at the first object, and its first
    /// feature, that was never set and needs a value; else with `TooFew` or `TooMany` at the first
    /// object, and its first opposite end, that has too few or too many holders. Values that were
    /// replaced are given back.
    pub fn finish(self) -> Result<Population<'m>, PopulationFault>
        ensures finished { Finishes (finish_outcome self.entry) result }
        ensures same { IfOk result (λ p. p.content ≡ self.entry) }
    {
        let mut builder = self;
        builder.give_back()?;
        builder.rank()?;
        builder.finish_ranked()
    }

    fn finish_ranked(self) -> Result<Population<'m>, PopulationFault>
        ensures finished { Finishes (finish_outcome self.entry) result }
        ensures same { IfOk result (λ p. p.content ≡ self.entry) }
    {
        self.model.well_formed();
        if let Some(fault) = first_gap(&self)? {
            return Err(fault);
        }
        let ends = opposite_ends(self.alloc, &self)?;
        if let Some(fault) = first_end_fault(&self, &ends)? {
            return Err(fault);
        }
        Ok(lay_out(self, ends)?)
    }
}

/// Objects as values.
fn as_objects(alloc: Global, objects: &[ObjectNo]) -> Result<Vec<Scalar>, AllocError>
    ensures { IfOk result (λ v. v.items ≡ as_objects objects.now) }
{
    let mut values = Vec::with_capacity(alloc, objects.len())?;
    for object in objects {
        values.push(Scalar::Object(*object))?;
    }
    Ok(values)
}
