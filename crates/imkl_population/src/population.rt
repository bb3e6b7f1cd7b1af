//! Finished populations.

ghost use Rattle.std.specs.Prelude.{◌≡◌, ◌<◌, ◌≤◌, true, false, length, slice_range, All, IfOk};
ghost use Rattle.imkl_model.specs.ClassModel.{feature_at, belongs};
ghost use Rattle.imkl_model.specs.Features.{is_opposite};
ghost use Rattle.imkl_population.specs.Population.{object_at, class_of, values_of, instances, IsInstance};
ghost use Rattle.imkl_population.specs.Consistency.{IsConsistent};
ghost use Rattle.imkl_population.specs.FinishedPopulation.{AreValueRanges, AreInstanceRanges, range_at, instance_range_at};
ghost use Rattle.imkl_population.specs.Sizes.{list_below, count_of, longest_below, longest_of, sizes_of};

use crate::column_ranges::{ColumnRanges, longest_at, range_at};
use crate::numbers::ObjectNo;
use crate::object::Head;
use crate::scalar::Scalar;
use crate::sizes::{Sizes, is_unbounded};
use crate::store::Segment;
use imkl_model::{ClassModel, ClassNo, FeatureNo};
use std::alloc::{AllocError, Global};
use std::marker::Model;

/// A consistent population of a class model. Contracts see its content, which is its objects with what is written on
/// them, and the two lists that its values and its instances are parts of.
#[derive(Drop)]
pub struct Population<'m> {
    pub(crate) model: &'m ClassModel,
    pub(crate) heads: Vec<Head>,
    pub(crate) scalars: Vec<Scalar>,
    pub(crate) written: Vec<ColumnRanges>,
    pub(crate) ends: Vec<ColumnRanges>,
    pub(crate) instances: Vec<ObjectNo>,
    pub(crate) ranges: Vec<Segment>,
}

impl<'m> Model for Population<'m> {
    ghost use Rattle.imkl_population.specs.FinishedPopulation.{FinishedPopulation};
    ghost use Rattle.imkl_population.specs.Store.{maps_in};
    ghost use Rattle.imkl_population.specs.Layout.{stored_content, finished_of, IsFinished};

    ghost Value = { FinishedPopulation };

    ghost view = { λ p. finished_of p.model.now p.heads.items p.scalars.items p.written.items
        p.ends.items p.instances.items p.ranges.items };

    ghost invariant = { λ p. IsFinished
        (stored_content p.model.now p.heads.items (maps_in p.scalars.items p.written.items))
        p.scalars.items p.written.items p.ends.items p.instances.items p.ranges.items };
}

impl<'m> Population<'m> {
    /// Every finished population is consistent.
    pub fn consistent(&self)
        ensures { IsConsistent self.now.content }
    {
        let _heads = &self.heads;
    }

    /// The values of each feature of each object are a part of one list, and the instances of each class a part of another.
    pub fn ranges(&self)
        ensures values { AreValueRanges self.now }
        ensures instances { AreInstanceRanges self.now }
    {
        let _scalars = &self.scalars;
    }

    /// The class model.
    pub fn model(&self) -> &'m ClassModel
        ensures { result.now ≡ self.now.content.model }
    {
        self.model
    }

    /// How many objects there are.
    pub fn objects(&self) -> usize
        ensures { result ≡ length self.now.content.objects }
    {
        self.heads.len()
    }

    /// The id of an object.
    pub fn id(&self, object: ObjectNo) -> &str
        requires { object < length self.now.content.objects }
        ensures { result.now ≡ (object_at self.now.content object).id }
    {
        let head = &self.heads[object.index()];
        head.id.as_str()
    }

    /// The class that an object is directly of.
    pub fn class_of(&self, object: ObjectNo) -> ClassNo
        requires { object < length self.now.content.objects }
        ensures class { result ≡ class_of self.now.content object }
        ensures known { result < length self.now.content.model.classes }
    {
        let head = &self.heads[object.index()];
        head.class
    }

    /// The values of a feature that belongs to the object's class: of an attribute as they were
    /// set, of a source end its targets, of an opposite end the objects that hold this one, in
    /// their order.
    pub fn values(&self, object: ObjectNo, feature: FeatureNo) -> &[Scalar]
        requires object { object < length self.now.content.objects }
        requires feature { feature < length self.now.content.model.features }
        requires belongs { belongs self.now.content.model (class_of self.now.content object)
            feature ≡ true }
        ensures { result.now ≡ values_of self.now.content object feature }
    {
        self.ranges();
        part_of(&self.scalars, self.values_range(object, feature))
    }

    /// The values of all features of all objects, and no others: the tests in `model_tests` count them.
    pub fn scalars(&self) -> &[Scalar]
        ensures { result.now ≡ self.now.scalars }
    {
        self.scalars.as_slice()
    }

    /// Where the values of a feature that belongs to the object's class stand among all values:
    /// from the first place to before the second.
    pub fn range(&self, object: ObjectNo, feature: FeatureNo) -> (usize, usize)
        requires object { object < length self.now.content.objects }
        requires feature { feature < length self.now.content.model.features }
        requires belongs { belongs self.now.content.model (class_of self.now.content object)
            feature ≡ true }
        ensures start { result.0 ≡ (range_at self.now object feature).start }
        ensures end { result.1 ≡ (range_at self.now object feature).end }
        ensures ordered { result.0 ≤ result.1 }
        ensures within { result.1 ≤ length self.now.scalars }
        ensures values { slice_range self.now.scalars result.0 result.1 ≡
            values_of self.now.content object feature }
    {
        self.ranges();
        let range = self.values_range(object, feature);
        (range.start, range.end)
    }

    fn values_range(&self, object: ObjectNo, feature: FeatureNo) -> Segment
        requires object { object < length self.now.content.objects }
        requires feature { feature < length self.now.content.model.features }
        ensures { result ≡ range_at self.now object feature }
    {
        if self.model.feature_info(feature).role.is_opposite() {
            range_at(&self.ends, feature.index(), object.index())
        } else {
            range_at(&self.written, feature.index(), object.index())
        }
    }

    /// The objects of a class, those of its subclasses included, in their order.
    pub fn instances(&self, class: ClassNo) -> &[ObjectNo]
        requires { class < length self.now.content.model.classes }
        ensures objects { result.now ≡ instances self.now.content class }
        ensures each { All (IsInstance self.now.content class) result.now }
    {
        self.ranges();
        part_of(&self.instances, self.class_range(class))
    }

    /// The instances of all classes. Classes with the same instances may share a part.
    pub fn instance_list(&self) -> &[ObjectNo]
        ensures { result.now ≡ self.now.instance_list }
    {
        self.instances.as_slice()
    }

    /// Where the instances of a class stand among those of all classes: from the first place to
    /// before the second.
    pub fn instance_range(&self, class: ClassNo) -> (usize, usize)
        requires { class < length self.now.content.model.classes }
        ensures start { result.0 ≡ (instance_range_at self.now class).start }
        ensures end { result.1 ≡ (instance_range_at self.now class).end }
        ensures ordered { result.0 ≤ result.1 }
        ensures within { result.1 ≤ length self.now.instance_list }
        ensures instances { slice_range self.now.instance_list result.0 result.1 ≡
            instances self.now.content class }
    {
        self.ranges();
        let range = self.class_range(class);
        (range.start, range.end)
    }

    fn class_range(&self, class: ClassNo) -> Segment
        requires { class < length self.now.content.model.classes }
        ensures { result ≡ instance_range_at self.now class }
    {
        self.ranges[class.index()]
    }

    /// The sizes of the population: how many objects each class has, and how long the values of
    /// each attribute without upper bound are. An error means that memory ran out.
    pub fn sizes(&self, alloc: Global) -> Result<Sizes<'m>, AllocError>
        ensures { IfOk result (λ s. s ≡ sizes_of self.now.content) }
    {
        let counts = self.counts(alloc)?;
        let longest = self.longest(alloc)?;
        Ok(Sizes {
            model: self.model,
            counts,
            longest,
        })
    }

    /// How many objects each class has.
    fn counts(&self, alloc: Global) -> Result<Vec<u64>, AllocError>
        ensures { IfOk result (λ v. v.items ≡
            list_below (count_of self.now.content) (length self.now.content.model.classes)) }
    {
        let classes = self.model().class_count();
        let mut counts = Vec::with_capacity(alloc, classes)?;
        for class in 0..classes {
            let count = self.instances(ClassNo::new(class)).len();
            counts.push(count as u64)?;
        }
        Ok(counts)
    }

    /// Of an attribute without upper bound the greatest length of its value over all objects, of
    /// every other feature 0.
    pub(crate) fn longest_of(&self, feature: FeatureNo) -> u64
        requires { feature < length self.now.content.model.features }
        ensures { result ≡ longest_of self.now.content feature }
    {
        if is_unbounded(self.model().feature_info(feature)) {
            self.longest_written(feature) as u64
        } else {
            0
        }
    }

    /// The greatest length of what is written at a feature.
    fn longest_written(&self, feature: FeatureNo) -> usize
        requires { is_opposite (feature_at self.now.content.model feature).role ≡ false }
        ensures { result ≡ longest_below self.now.content feature (length
            self.now.content.objects) }
    {
        longest_at(&self.written, feature.index())
    }

    /// The greatest length of each attribute without upper bound.
    fn longest(&self, alloc: Global) -> Result<Vec<u64>, AllocError>
        ensures { IfOk result (λ v. v.items ≡
            list_below (longest_of self.now.content) (length self.now.content.model.features)) }
    {
        let features = self.model().feature_count();
        let mut longest = Vec::with_capacity(alloc, features)?;
        for feature in 0..features {
            longest.push(self.longest_of(FeatureNo::new(feature)))?;
        }
        Ok(longest)
    }
}

fn part_of<T>(list: &[T], range: Segment) -> &[T]
    requires { (range.start ≤ range.end) × (range.end ≤ length list.now) }
    ensures { result.now ≡ slice_range list.now range.start range.end }
{
    &list[range.start..range.end]
}
