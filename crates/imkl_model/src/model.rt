//! A class model and its look-ups.

ghost use Rattle.std.specs.Prelude.{◌≡◌, ◌<◌, [], true, length, Decides, IfOk, IfSome, slice_index_or};
ghost use Rattle.imkl_model.specs.ClassModel.{Conforms, conforms, belongs, enumeration_at, class_at, feature_at, class_number, enumeration_number, literal_number, feature_number};
ghost use Rattle.imkl_model.specs.Renames.{linked_class, linked_feature};
ghost use Rattle.imkl_model.specs.WellFormed.{IsClassModel};
ghost use Rattle.ocl_base.specs.Steps.{Gives};
ghost use Rattle.imkl_model.specs.Faults.{model_fault};
ghost use Rattle.imkl_model.specs.Drafts.{IsNumbered, model_of_draft};
ghost use Rattle.imkl_model.specs.Description.{ModelAnswers, checked_model};

use crate::belonging::feature_of;
use crate::checks::have_multiplicities;
use crate::clash::names_clash;
use crate::class_table::ClassTable;
use crate::draft::Draft;
use crate::enumeration_table::EnumerationTable;
use crate::fault::ModelFault;
use crate::feature::FeatureInfo;
use crate::feature_table::FeatureTable;
use crate::items::Items;
use crate::numbers::{ClassNo, EnumNo, FeatureNo, LiteralNo};
use crate::reading::read;
use crate::rename_table::RenameTable;
use crate::same::all_same;
use ocl_base::Text;
use std::alloc::Global;
use std::marker::Model;

/// A class model: enumerations, classes with superclasses, attributes and associations.
///
/// A number that is handed to a query is one of this class model: a class's is below `class_count`, an enumeration's below
/// `enumeration_count`, a feature's below `feature_count`, a literal's below the count of its enumeration's literals.
/// No query takes memory; `read` makes the class model.
#[derive(Drop)]
pub struct ClassModel {
    name: Text,
    enumerations: EnumerationTable,
    classes: ClassTable,
    features: FeatureTable,
    associations: Items<Text>,
    renames: RenameTable,
}

impl Model for ClassModel {
    ghost use Rattle.imkl_model.specs.ClassModel.{Model};
    ghost use Rattle.imkl_model.specs.WellFormed.{IsClassModel};

    ghost Value = { Model };

    ghost view = { λ m. record {
      name = m.name;
      enumerations = m.enumerations;
      classes = m.classes;
      features = m.features;
      associations = m.associations;
      renames = m.renames;
    } };

    ghost invariant = { λ m. IsClassModel (record {
      name = m.name;
      enumerations = m.enumerations;
      classes = m.classes;
      features = m.features;
      associations = m.associations;
      renames = m.renames;
    }) };
}

impl ClassModel {
    /// What every class model keeps: names are names and differ where they must, numbers are in range, bounds are in
    /// order, ends are paired, no class is above itself, no features clash, by old names either, and counts are within
    /// their limits.
    pub fn well_formed(&self)
        ensures { IsClassModel self.now }
    {
        let _name = &self.name;
    }

    /// The class model's own name.
    pub fn name(&self) -> &str
        ensures { result.now ≡ self.now.name }
    {
        self.name.as_str()
    }

    /// How many classes there are.
    pub fn class_count(&self) -> usize
        ensures { result ≡ length self.now.classes }
    {
        self.classes.len()
    }

    /// How many enumerations there are.
    pub fn enumeration_count(&self) -> usize
        ensures { result ≡ length self.now.enumerations }
    {
        self.enumerations.len()
    }

    /// How many features there are, attributes and both ends of each association.
    pub fn feature_count(&self) -> usize
        ensures { result ≡ length self.now.features }
    {
        self.features.len()
    }

    /// The name of a class.
    pub fn class_name(&self, class: ClassNo) -> &str
        requires { class < length self.now.classes }
        ensures { result.now ≡ (class_at self.now class).name }
    {
        self.classes.at(class).name.as_str()
    }

    /// The name of an enumeration.
    pub fn enum_name(&self, enumeration: EnumNo) -> &str
        requires { enumeration < length self.now.enumerations }
        ensures { result.now ≡ (enumeration_at self.now enumeration).name }
    {
        self.enumerations.at(enumeration).name.as_str()
    }

    /// How many literals an enumeration has.
    pub fn literal_count(&self, enumeration: EnumNo) -> usize
        requires { enumeration < length self.now.enumerations }
        ensures { result ≡ length (enumeration_at self.now enumeration).literals }
    {
        self.enumerations.at(enumeration).literals.len()
    }

    /// The name of a literal.
    pub fn literal_name(&self, enumeration: EnumNo, literal: LiteralNo) -> &str
        requires enumeration { enumeration < length self.now.enumerations }
        requires literal { literal < length (enumeration_at self.now enumeration).literals }
        ensures { result.now
            ≡ slice_index_or (enumeration_at self.now enumeration).literals literal [] }
    {
        self.enumerations
            .at(enumeration)
            .literals
            .at(literal.index())
    }

    /// Whether a class is abstract.
    pub fn is_abstract(&self, class: ClassNo) -> bool
        requires { class < length self.now.classes }
        ensures { result ≡ (class_at self.now class).is_abstract }
    {
        self.classes.at(class).is_abstract
    }

    /// The class of this name.
    pub fn class(&self, name: &str) -> Option<ClassNo>
        ensures number { result ≡ class_number self.now name.now }
        ensures in_range { IfSome result (λ c. c < length self.now.classes) }
    {
        self.classes.number_of(name)
    }

    /// The enumeration of this name.
    pub fn enumeration(&self, name: &str) -> Option<EnumNo>
        ensures number { result ≡ enumeration_number self.now name.now }
        ensures in_range { IfSome result (λ e. e < length self.now.enumerations) }
    {
        self.enumerations.number_of(name)
    }

    /// The literal of this name.
    pub fn literal(&self, enumeration: EnumNo, name: &str) -> Option<LiteralNo>
        requires { enumeration < length self.now.enumerations }
        ensures number { result ≡ literal_number self.now enumeration name.now }
        ensures in_range { IfSome result
            (λ l. l < length (enumeration_at self.now enumeration).literals) }
    {
        match self.enumerations.at(enumeration).literals.number_of(name) {
            Some(index) => Some(LiteralNo::new(index)),
            None => None,
        }
    }

    /// Whether a chain of zero or more superclass steps leads from one class to the other.
    pub fn conforms(&self, from: ClassNo, to: ClassNo) -> bool
        requires from { from < length self.now.classes }
        requires to { to < length self.now.classes }
        ensures value { result ≡ conforms self.now from to }
        ensures chain { Decides result (Conforms self.now from to) }
    {
        self.classes.conforms(from, to)
    }

    /// A feature, with its owner, element type, bounds, kind and role.
    pub fn feature_info(&self, feature: FeatureNo) -> &FeatureInfo
        requires { feature < length self.now.features }
        ensures { result.now ≡ feature_at self.now feature }
    {
        self.features.at(feature)
    }

    /// Whether a feature belongs to a class: to its owner, and to each class that conforms to its owner.
    pub fn belongs(&self, class: ClassNo, feature: FeatureNo) -> bool
        requires class { class < length self.now.classes }
        requires feature { feature < length self.now.features }
        ensures { result ≡ belongs self.now class feature }
    {
        self.classes
            .conforms(class, self.feature_info(feature).owner)
    }

    /// The feature of this name that belongs to the class: its own, or else that of a class above it.
    pub fn feature(&self, class: ClassNo, name: &str) -> Option<FeatureNo>
        requires { class < length self.now.classes }
        ensures number { result ≡ feature_number self.now class name.now }
        ensures in_range { IfSome result (λ f. f < length self.now.features) }
        ensures belongs { IfSome result (λ f. belongs self.now class f ≡ true) }
        ensures named { IfSome result (λ f. (feature_at self.now f).name ≡ name.now) }
    {
        feature_of(&self.classes, &self.features, class, name)
    }

    /// The class of this name, which may be an old one.
    pub fn linked_class(&self, name: &str) -> Option<ClassNo>
        ensures number { result ≡ linked_class self.now name.now }
        ensures in_range { IfSome result (λ c. c < length self.now.classes) }
    {
        match self.renames.class(name) {
            Some(class) => Some(class),
            None => self.class(name),
        }
    }

    /// The feature of this name that belongs to the class of this name. Either name may be an old one; an old name of a
    /// feature holds for its owner and for each class that conforms to the owner.
    pub fn linked_feature(&self, class: &str, name: &str) -> Option<FeatureNo>
        ensures number { result ≡ linked_feature self.now class.now name.now }
        ensures in_range { IfSome result (λ f. f < length self.now.features) }
    {
        let class = self.linked_class(class)?;
        match self.renames.feature(&self.classes, class, name) {
            Some(feature) => Some(feature),
            None => self.feature(class, name),
        }
    }

    /// Whether two class models have equal content.
    pub fn same_as(&self, other: &ClassModel) -> bool
        ensures { Decides result (self.now ≡ other.now) }
    {
        self.name.same_as(&other.name)
            && all_same(self.enumerations.entries(), other.enumerations.entries())
            && all_same(self.classes.entries(), other.classes.entries())
            && all_same(self.features.entries(), other.features.entries())
            && all_same(self.associations.as_slice(), other.associations.as_slice())
            && all_same(self.renames.classes(), other.renames.classes())
            && all_same(self.renames.features(), other.renames.features())
    }

    /// The class model of a draft, after the checks over numbers.
    #[tactic(auto, unfolding(crate::specs::Description::checked_model))]
    pub(crate) fn new(alloc: Global, draft: Draft) -> Result<ClassModel, ModelFault>
        requires { IsNumbered (model_of_draft draft) }
        ensures { Gives model_fault (λ m. m) result (checked_model (model_of_draft draft)) }
    {
        if draft.classes.is_cyclic() {
            return Err(ModelFault::Cycle);
        }
        if names_clash(alloc, &draft.classes, &draft.features, &draft.renames)? {
            return Err(ModelFault::FeatureClash);
        }
        if !have_multiplicities(draft.features.entries()) {
            return Err(ModelFault::BadMultiplicity);
        }
        Ok(ClassModel {
            name: draft.name,
            enumerations: draft.enumerations,
            classes: draft.classes,
            features: draft.features,
            associations: draft.associations,
            renames: draft.renames,
        })
    }

    /// The class model that a JSON text describes, or its first fault.
    ///
    /// Faults are looked for in the order `NotJson`, `Shape`, `Limit`, `DuplicateName`, `UnknownName`, `Cycle`,
    /// `FeatureClash`, `BadMultiplicity`; `OutOfMemory` may come in place of any answer.
    pub fn read(alloc: Global, bytes: &[u8]) -> Result<ClassModel, ModelFault>
        ensures answers { ModelAnswers bytes.now result }
        ensures well_formed { IfOk result IsClassModel }
    {
        read(alloc, bytes)
    }
}
