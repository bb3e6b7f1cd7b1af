//! How many objects the classes of a population have, and how many values an object has at most.

ghost use Rattle.std.specs.Prelude.{◌≡◌, ◌<◌, length, slice_index, Decides};
ghost use Rattle.imkl_population.specs.Sizes.{is_unbounded, list_below, count_of, longest_of, sizes_of};

use crate::population::Population;
use imkl_model::{ClassModel, ClassNo, FeatureInfo, FeatureNo};
use std::marker::Model;

/// The sizes of a population. Contracts see its class model, a number for each class and a number
/// for each feature.
#[derive(Drop)]
pub struct Sizes<'m> {
    pub(crate) model: &'m ClassModel,
    pub(crate) counts: Vec<u64>,
    pub(crate) longest: Vec<u64>,
}

impl<'m> Model for Sizes<'m> {
    ghost use Rattle.std.specs.Prelude.{◌≡◌, length};
    ghost use Rattle.imkl_population.specs.Sizes.{Sizes};

    ghost Value = { Sizes };

    ghost view = { λ s. record {
      model = s.model.now;
      counts = s.counts.items;
      longest =
          s.longest.items;
    } };

    ghost invariant = { λ s. (length s.counts.items ≡ length s.model.now.classes) ×
        (length s.longest.items ≡ length s.model.now.features) };
}

impl<'m> Sizes<'m> {
    /// The class model.
    pub fn model(&self) -> &'m ClassModel
        ensures { result.now ≡ self.now.model }
    {
        self.model
    }

    /// How many objects a class has, those of its subclasses included.
    pub fn count(&self, class: ClassNo) -> u64
        requires { class < length self.now.model.classes }
        ensures { result ≡ slice_index self.now.counts class }
    {
        self.counts[class.index()]
    }

    /// Of an attribute without upper bound the greatest number of values that an object has there, 0
    /// without objects; of every other feature 0.
    pub fn longest(&self, feature: FeatureNo) -> u64
        requires { feature < length self.now.model.features }
        ensures { result ≡ slice_index self.now.longest feature }
    {
        self.longest[feature.index()]
    }

    /// Whether they are the sizes of a population, of a class model of equal content. No memory is
    /// taken.
    pub fn are_of(&self, population: &Population<'_>) -> bool
        ensures { Decides result (sizes_of population.now.content ≡ self.now) }
    {
        self.model.same_as(population.model())
            && self.counts_are_of(population)
            && self.lengths_are_of(population)
    }

    /// Whether a population has as many objects of each class.
    fn counts_are_of(&self, population: &Population<'_>) -> bool
        requires { self.now.model ≡ population.now.content.model }
        ensures { Decides result (list_below (count_of population.now.content)
            (length population.now.content.model.classes) ≡ self.now.counts) }
    {
        for class in 0..self.model.class_count() {
            let class_number = ClassNo::new(class);
            let count = population.instances(class_number).len();
            if count as u64 != self.count(class_number) {
                return false;
            }
        }
        true
    }

    /// Whether the values of a population are as long, of each attribute without upper bound.
    fn lengths_are_of(&self, population: &Population<'_>) -> bool
        requires { self.now.model ≡ population.now.content.model }
        ensures { Decides result (list_below (longest_of population.now.content)
            (length population.now.content.model.features) ≡ self.now.longest) }
    {
        for feature in 0..self.model.feature_count() {
            let feature_number = FeatureNo::new(feature);
            if population.longest_of(feature_number) != self.longest(feature_number) {
                return false;
            }
        }
        true
    }
}

/// Whether a feature is an attribute without upper bound.
pub(crate) fn is_unbounded(info: &FeatureInfo) -> bool
    ensures { result ≡ is_unbounded info.now }
{
    info.role.is_attribute() && info.upper.is_none()
}
