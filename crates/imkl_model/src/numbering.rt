//! From names to numbers.

ghost use Rattle.std.specs.Prelude.{◌≡◌, false, length, map, IfOk, bytes_eq};
ghost use Rattle.std.specs.List.{list_any};
ghost use Rattle.ocl_base.specs.Lists.{repeats};
ghost use Rattle.ocl_base.specs.Steps.{each, Gives};
ghost use Rattle.imkl_model.specs.Faults.{model_fault};
ghost use Rattle.imkl_model.specs.Checks.{written_class_names, written_enumeration_names, written_association_names};
ghost use Rattle.imkl_model.specs.WrittenFeatures.{written_features};
ghost use Rattle.imkl_model.specs.Scopes.{scope_of};
ghost use Rattle.imkl_model.specs.Numbering.{number_in, scalar_type, element_type, kind_of, collection_kind, feature_in_scope, class_in_scope, enumeration_as_written, class_rename_in_scope, feature_rename_in_scope};

use crate::duplicates::distinct_names;
use crate::entry::{Class, ClassRename, Enumeration, FeatureRename};
use crate::fault::ModelFault;
use crate::feature::{ElementType, FeatureInfo, Role, is_single};
use crate::feature_table::FeatureTable;
use crate::items::Items;
use crate::names::Names;
use crate::numbers::{ClassNo, EnumNo};
use crate::written::{
    Written, WrittenAssociation, WrittenClass, WrittenClassRename, WrittenEnumeration,
    WrittenFeature, WrittenFeatureRename,
};
use ocl_base::{CollectionKind, Text};
use std::alloc::{AllocError, Global};

/// The names of a class model's classes and enumerations.
#[derive(Drop)]
pub struct Scope {
    /// The names of the classes. A class's number is the index of its name here.
    pub classes: Names,
    /// The names of the enumerations. An enumeration's number is the index of its name here.
    pub enumerations: Names,
}

/// The scope of a class model whose classes' names differ, and whose enumerations' names differ.
pub(crate) fn scope_of(alloc: Global, written: &Written) -> Result<Scope, AllocError>
    requires classes { repeats bytes_eq (written_class_names written.now) ≡ false }
    requires enumerations { repeats bytes_eq (written_enumeration_names written.now) ≡ false }
    ensures { IfOk result (λ s. s ≡ scope_of written.now) }
{
    let classes = distinct_names(alloc, written.classes.as_slice())?;
    let enumerations = distinct_names(alloc, written.enumerations.as_slice())?;
    Ok(Scope {
        classes,
        enumerations,
    })
}

fn number_in(names: &Names, name: &Text) -> Result<usize, ModelFault>
    ensures { Gives model_fault (λ n. n) result (number_in names.now name.now) }
{
    names
        .number_of(name.as_str())
        .ok_or(ModelFault::UnknownName)
}

fn class_in(scope: &Scope, name: &Text) -> Result<ClassNo, ModelFault>
    ensures { Gives model_fault (λ n. n) result (number_in scope.now.classes name.now) }
{
    let index = number_in(&scope.classes, name)?;
    Ok(ClassNo::new(index))
}

#[tactic(auto, unfolding(crate::specs::Numbering::scalar_type))]
fn scalar_type(scope: &Scope, name: &Text) -> Result<ElementType, ModelFault>
    ensures { Gives model_fault (λ e. e) result (scalar_type scope.now name.now) }
{
    match name.as_str() {
        "Boolean" => Ok(ElementType::Boolean),
        "Integer" => Ok(ElementType::Integer),
        "String" => Ok(ElementType::String),
        _ => {
            let index = number_in(&scope.enumerations, name)?;
            Ok(ElementType::Enumeration(EnumNo::new(index)))
        }
    }
}

#[tactic(auto, unfolding(crate::specs::Numbering::element_type))]
fn element_type(scope: &Scope, role: Role, name: &Text) -> Result<ElementType, ModelFault>
    ensures { Gives model_fault (λ e. e) result (element_type scope.now role name.now) }
{
    match role {
        Role::Attribute => scalar_type(scope, name),
        Role::SourceEnd { .. } => Ok(ElementType::Class(class_in(scope, name)?)),
        Role::OppositeEnd { .. } => Ok(ElementType::Class(class_in(scope, name)?)),
    }
}

fn kind_of(ordered: bool, unique: bool) -> CollectionKind
    ensures { result ≡ kind_of ordered unique }
{
    match (ordered, unique) {
        (true, true) => CollectionKind::OrderedSet,
        (true, false) => CollectionKind::Sequence,
        (false, true) => CollectionKind::Set,
        (false, false) => CollectionKind::Bag,
    }
}

fn collection_kind(feature: &WrittenFeature) -> CollectionKind
    ensures { result ≡ collection_kind feature.now }
{
    if is_single(feature.upper) {
        CollectionKind::Set
    } else {
        kind_of(feature.ordered, feature.unique)
    }
}

#[tactic(auto, unfolding(crate::specs::Numbering::feature_in_scope))]
fn feature_of(
    alloc: Global,
    scope: &Scope,
    feature: &WrittenFeature,
) -> Result<FeatureInfo, ModelFault>
    ensures { Gives model_fault (λ f. f) result (feature_in_scope scope.now feature.now) }
{
    let owner = class_in(scope, &feature.owner)?;
    let element = element_type(scope, feature.role, &feature.element)?;
    let name = feature.name.copy(alloc)?;
    Ok(FeatureInfo {
        name,
        owner,
        element,
        lower: feature.lower,
        upper: feature.upper,
        kind: collection_kind(feature),
        role: feature.role,
    })
}

/// The features with numbers for names, or `UnknownName`.
pub(crate) fn features_of(
    alloc: Global,
    scope: &Scope,
    features: &[WrittenFeature],
) -> Result<Vec<FeatureInfo>, ModelFault>
    ensures { Gives model_fault (λ v. v.items) result
        (each (feature_in_scope scope.now) features.now) }
{
    let mut found = Vec::new(alloc);
    for feature in features {
        found.push(feature_of(alloc, scope, feature)?)?;
    }
    Ok(found)
}

fn supers_of(alloc: Global, scope: &Scope, supers: &[Text]) -> Result<Vec<ClassNo>, ModelFault>
    ensures { Gives model_fault (λ v. v.items) result
        (each (number_in scope.now.classes) supers.now) }
{
    let mut found = Vec::new(alloc);
    for name in supers {
        found.push(class_in(scope, name)?)?;
    }
    Ok(found)
}

#[tactic(auto, unfolding(crate::specs::Numbering::class_in_scope))]
fn class_of(alloc: Global, scope: &Scope, class: &WrittenClass) -> Result<Class, ModelFault>
    ensures { Gives model_fault (λ c. c) result (class_in_scope scope.now class.now) }
{
    let supers = supers_of(alloc, scope, class.supers.as_slice())?;
    let name = class.name.copy(alloc)?;
    Ok(Class {
        name,
        is_abstract: class.is_abstract,
        supers: Items::new(supers),
    })
}

/// The classes with numbers for names, or `UnknownName`.
pub(crate) fn classes_of(
    alloc: Global,
    scope: &Scope,
    classes: &[WrittenClass],
) -> Result<Vec<Class>, ModelFault>
    ensures { Gives model_fault (λ v. v.items) result
        (each (class_in_scope scope.now) classes.now) }
{
    let mut found = Vec::new(alloc);
    for class in classes {
        found.push(class_of(alloc, scope, class)?)?;
    }
    Ok(found)
}

fn enumeration_of(
    alloc: Global,
    enumeration: &WrittenEnumeration,
) -> Result<Enumeration, AllocError>
    requires { repeats bytes_eq enumeration.now.literals ≡ false }
    ensures { IfOk result (λ e. e ≡ enumeration_as_written enumeration.now) }
{
    let name = enumeration.name.copy(alloc)?;
    let literals = distinct_names(alloc, enumeration.literals.as_slice())?;
    Ok(Enumeration { name, literals })
}

/// The enumerations, each with its literals' names, which differ.
pub(crate) fn enumerations_of(
    alloc: Global,
    enumerations: &[WrittenEnumeration],
) -> Result<Vec<Enumeration>, AllocError>
    requires { list_any (λ e. repeats bytes_eq e.literals) enumerations.now ≡ false }
    ensures { IfOk result (λ v. v.items ≡ map enumeration_as_written enumerations.now) }
{
    let mut found = Vec::new(alloc);
    for enumeration in enumerations {
        found.push(enumeration_of(alloc, enumeration)?)?;
    }
    Ok(found)
}

/// The names of the associations.
pub(crate) fn association_names(
    alloc: Global,
    associations: &[WrittenAssociation],
) -> Result<Vec<Text>, AllocError>
    ensures { IfOk result (λ v. v.items ≡ map (λ a. a.name) associations.now) }
{
    let mut found = Vec::new(alloc);
    for association in associations {
        found.push(association.name.copy(alloc)?)?;
    }
    Ok(found)
}

#[tactic(auto, unfolding(crate::specs::Numbering::class_rename_in_scope))]
fn class_rename_of(
    alloc: Global,
    scope: &Scope,
    rename: &WrittenClassRename,
) -> Result<ClassRename, ModelFault>
    ensures { Gives model_fault (λ r. r) result (class_rename_in_scope scope.now rename.now) }
{
    let class = class_in(scope, &rename.new)?;
    let old = rename.old.copy(alloc)?;
    Ok(ClassRename { old, class })
}

/// The old names of classes with the classes' numbers, or `UnknownName`.
pub(crate) fn class_renames_of(
    alloc: Global,
    scope: &Scope,
    renames: &[WrittenClassRename],
) -> Result<Vec<ClassRename>, ModelFault>
    ensures { Gives model_fault (λ v. v.items) result
        (each (class_rename_in_scope scope.now) renames.now) }
{
    let mut found = Vec::new(alloc);
    for rename in renames {
        found.push(class_rename_of(alloc, scope, rename)?)?;
    }
    Ok(found)
}

#[tactic(auto, unfolding(crate::specs::Numbering::feature_rename_in_scope))]
fn feature_rename_of(
    alloc: Global,
    scope: &Scope,
    features: &FeatureTable,
    rename: &WrittenFeatureRename,
) -> Result<FeatureRename, ModelFault>
    ensures { Gives model_fault (λ r. r) result
        (feature_rename_in_scope scope.now features.now rename.now) }
{
    let class = class_in(scope, &rename.class)?;
    let feature = features
        .own(class, rename.new.as_str())
        .ok_or(ModelFault::UnknownName)?;
    let old = rename.old.copy(alloc)?;
    Ok(FeatureRename {
        class,
        old,
        feature,
    })
}

/// The old names of features with the features' numbers, or `UnknownName`.
pub(crate) fn feature_renames_of(
    alloc: Global,
    scope: &Scope,
    features: &FeatureTable,
    renames: &[WrittenFeatureRename],
) -> Result<Vec<FeatureRename>, ModelFault>
    ensures { Gives model_fault (λ v. v.items) result
        (each (feature_rename_in_scope scope.now features.now) renames.now) }
{
    let mut found = Vec::new(alloc);
    for rename in renames {
        found.push(feature_rename_of(alloc, scope, features, rename)?)?;
    }
    Ok(found)
}
