//! The features that a class needs values at.

ghost use Rattle.std.specs.Prelude.{◌≡◌, ◌<◌, ◌++◌, ◌==◌, ◌&&◌, ℕ, [], ◌∷◌, length, slice_index_or, if◌then◌else◌, All, IfOk, IfSome, OnErr, OnOk};
ghost use Rattle.imkl_population.specs.Required.{is_on, required, with_required};
ghost use Rattle.imkl_population.specs.Owners.{is_needed, inherited, AreListedByOwner, AreListedIfAny};

use crate::answers::Answers;
use crate::order::in_order;
use imkl_model::{ClassModel, ClassNo, FeatureInfo, FeatureNo, Role};
use std::alloc::{AllocError, Global};
use std::collections::BTreeMap;
use std::marker::Model;

/// Some of a class's features: those that may be written, or those that follow from what is written.
#[derive(Clone, Copy)]
pub enum Side {
    /// Attributes and source ends.
    Written,
    /// Opposite ends.
    Opposite,
}

/// Features of a class. Contracts see them as a list.
#[derive(Drop)]
pub struct FeatureList {
    items: Vec<FeatureNo>,
}

impl Model for FeatureList {
    ghost use Rattle.std.specs.Prelude.{List, ℕ};

    ghost Value = { List ℕ };

    ghost view = { λ l. l.items.items };
}

impl FeatureList {
    fn new(items: Vec<FeatureNo>) -> FeatureList
        ensures { result ≡ items.items }
    {
        FeatureList { items }
    }

    fn as_slice(&self) -> &[FeatureNo]
        ensures { result.now ≡ self.now }
    {
        self.items.as_slice()
    }

    fn push(&mut self, feature: FeatureNo) -> Result<(), AllocError>
        ensures { OnOk result (self.new ≡ self.old ++ feature ∷ []) }
    {
        self.items.push(feature)?;
        Ok(())
    }
}

/// For each class of a model the features on one side that have a lower bound above zero. A class's are listed when it
/// is first asked for, and what each class itself owns is listed when the first class is. What was last asked of a class
/// is kept, since deliveries have many objects of one class with the same features.
#[derive(Drop)]
pub struct RequiredFeatures<'m> {
    alloc: Global,
    model: &'m ClassModel,
    side: Side,
    owned: Vec<FeatureList>,
    lists: BTreeMap<usize, FeatureList>,
    answers: Answers,
}

impl<'m> Model for RequiredFeatures<'m> {
    ghost use Rattle.std.specs.BTreeMap.{get};
    ghost use Rattle.std.specs.Ordering.{nat_cmp};
    ghost use Rattle.imkl_population.specs.Required.{Requirements};
    ghost use Rattle.imkl_population.specs.Owners.{AreRequired, AreListedIfAny};
    ghost use Rattle.imkl_population.specs.Answered.{AreAnswers};

    ghost Value = { Requirements };

    ghost view = { λ r. record { model = r.model.now; side = r.side } };

    ghost invariant = { λ r.
        AreRequired (record { model = r.model.now; side = r.side }) (get nat_cmp r.lists) ×
        AreListedIfAny (record { model = r.model.now; side = r.side }) r.owned.items ×
        AreAnswers (record { model = r.model.now; side = r.side }) r.answers };
}

fn is_on(side: Side, role: Role) -> bool
    ensures { result ≡ is_on side role }
{
    match side {
        Side::Written => !role.is_opposite(),
        Side::Opposite => role.is_opposite(),
    }
}

/// Whether a feature is on a side and has a lower bound above zero.
fn is_needed(side: Side, info: &FeatureInfo) -> bool
    ensures { result ≡ is_needed side info.now }
{
    0 < info.lower && is_on(side, info.role)
}

/// As many lists without features.
fn no_features(alloc: Global, count: usize) -> Result<Vec<FeatureList>, AllocError>
    ensures { IfOk result (λ v. (length v.items ≡ count) ×
        ((c : ℕ) → slice_index_or v.items c [] ≡ [])) }
{
    let mut lists = Vec::with_capacity(alloc, count)?;
    for _ in 0..count {
        lists.push(FeatureList::new(Vec::new(alloc)))?;
    }
    Ok(lists)
}

/// Adds a feature to the list of its owner, if it is needed on a side.
fn add_needed(
    lists: &mut [FeatureList],
    side: Side,
    info: &FeatureInfo,
    feature: FeatureNo,
) -> Result<(), AllocError>
    requires { info.now.owner < length lists.old }
    ensures same { length lists.new ≡ length lists.old }
    ensures added { OnOk result ((c : ℕ) → slice_index_or lists.new c [] ≡
        slice_index_or lists.old c [] ++
        (if is_needed side info.now && info.now.owner == c then feature ∷ [] else [])) }
{
    if !is_needed(side, info) {
        return Ok(());
    }
    lists[info.owner.index()].push(feature)
}

/// For each class the features on a side that it owns and that have a lower bound above zero.
fn list_owned(alloc: Global, model: &ClassModel, side: Side) -> Result<Vec<FeatureList>, AllocError>
    ensures { IfOk result (λ v. AreListedByOwner (record { model = model.now; side = side })
        (length model.now.features) v.items) }
{
    model.well_formed();
    let mut lists = no_features(alloc, model.class_count())?;
    for feature in 0..model.feature_count() {
        let feature = FeatureNo::new(feature);
        add_needed(&mut lists, side, model.feature_info(feature), feature)?;
    }
    Ok(lists)
}

/// Makes the lists of what each class owns, if there are none yet.
fn fill_owned(
    owned: &mut Vec<FeatureList>,
    alloc: Global,
    model: &ClassModel,
    side: Side,
) -> Result<(), AllocError>
    requires { AreListedIfAny (record { model = model.now; side = side }) owned.old.items }
    ensures filled { OnOk result (AreListedByOwner (record { model = model.now; side = side })
        (length model.now.features) owned.new.items) }
    ensures kept { OnErr result (owned.new ≡ owned.old) }
{
    if owned.is_empty() {
        *owned = list_owned(alloc, model, side)?;
    }
    Ok(())
}

/// What a class inherits and what it owns, owner by owner.
fn gather(
    alloc: Global,
    model: &ClassModel,
    class: ClassNo,
    owned: &[FeatureList],
) -> Result<Vec<FeatureNo>, AllocError>
    requires class { class < length model.now.classes }
    requires owned { length owned.now ≡ length model.now.classes }
    ensures { IfOk result (λ v. v.items ≡
        inherited model.now class owned.now (length model.now.classes)) }
{
    let mut features = Vec::new(alloc);
    for owner in 0..model.class_count() {
        if model.conforms(class, ClassNo::new(owner)) {
            features.extend_from_slice(owned[owner].as_slice())?;
        }
    }
    Ok(features)
}

impl<'m> RequiredFeatures<'m> {
    /// What the classes of a model require. Takes no memory.
    pub fn new(alloc: Global, model: &'m ClassModel, side: Side) -> RequiredFeatures<'m>
        ensures { result ≡ record { model = model.now; side = side } }
    {
        RequiredFeatures {
            alloc,
            model,
            side,
            owned: Vec::new(alloc),
            lists: BTreeMap::new(alloc),
            answers: Answers::new(alloc),
        }
    }

    /// The features that a class requires. When it is first called it lists what each class owns, so that all features
    /// are looked at once and not for each class.
    fn list_required(&mut self, class: ClassNo) -> Result<Vec<FeatureNo>, AllocError>
        requires { class < length self.old.model.classes }
        ensures list { IfOk result (λ v. v.items ≡ required self.old class) }
        ensures same { self.new ≡ self.old }
    {
        self.model.well_formed();
        fill_owned(&mut self.owned, self.alloc, self.model, self.side)?;
        let features = gather(self.alloc, self.model, class, &self.owned)?;
        Ok(in_order(features))
    }

    /// The features that a class requires, in the model's order, once `with_required` has listed
    /// them.
    pub(crate) fn features_of(&self, class: ClassNo) -> Option<&[FeatureNo]>
        ensures list { IfSome result (λ fs. fs.now ≡ required self.now class) }
        ensures known { IfSome result (λ fs. All (λ f. f < length self.now.model.features)
            fs.now) }
    {
        match self.lists.get(&class.index()) {
            Some(list) => Some(list.as_slice()),
            None => None,
        }
    }

    /// Adds the features that a class requires to a list.
    fn add_required(
        &mut self,
        class: ClassNo,
        features: &mut Vec<FeatureNo>,
    ) -> Result<(), AllocError>
        requires { class < length self.old.model.classes }
        ensures added { OnOk result (features.new.items ≡ features.old.items ++
            required self.old class) }
        ensures same { self.new ≡ self.old }
    {
        if let Some(list) = self.features_of(class) {
            return features.extend_from_slice(list);
        }
        let list = self.list_required(class)?;
        features.extend_from_slice(&list)?;
        self.lists.insert(class.index(), FeatureList::new(list))?;
        Ok(())
    }

    /// Some features and those that a class requires, each once, in the model's order. That is kept for the next time.
    fn find_required(
        &mut self,
        class: ClassNo,
        features: Vec<FeatureNo>,
    ) -> Result<Vec<FeatureNo>, AllocError>
        requires class { class < length self.old.model.classes }
        requires features { All (λ f. f < length self.old.model.features) features.items }
        ensures list { IfOk result (λ v. v.items ≡ with_required self.old class features.items) }
        ensures known { IfOk result (λ v. All (λ f. f < length self.old.model.features) v.items) }
        ensures same { self.new ≡ self.old }
    {
        let classes = self.model.class_count();
        let named = self
            .answers
            .list_named(self.alloc, classes, class, &features)?;
        let mut features = features;
        self.add_required(class, &mut features)?;
        let all = in_order(features);
        self.answers.keep(class, named, &all)?;
        Ok(all)
    }

    /// Some features and those that a class requires, each once, in the model's order. An error means that memory ran
    /// out.
    pub fn with_required(
        &mut self,
        class: ClassNo,
        features: Vec<FeatureNo>,
    ) -> Result<Vec<FeatureNo>, AllocError>
        requires class { class < length self.old.model.classes }
        requires features { All (λ f. f < length self.old.model.features) features.items }
        ensures list { IfOk result (λ v. v.items ≡ with_required self.old class features.items) }
        ensures known { IfOk result (λ v. All (λ f. f < length self.old.model.features) v.items) }
        ensures same { self.new ≡ self.old }
    {
        let Some(all) = self.answers.of(class, &features) else {
            return self.find_required(class, features);
        };
        let mut features = features;
        features.clear();
        features.extend_from_slice(all)?;
        Ok(features)
    }
}
