//! Features of one name and different owners that belong to one class.

ghost use Rattle.std.specs.Prelude.{◌≡◌, ◌<◌, ◌++◌, ◌||◌, ℕ, length, map, All, IfOk, OnOk, Decides};
ghost use Rattle.imkl_model.specs.Chains.{any_below};
ghost use Rattle.imkl_model.specs.ClassModel.{has_clash};
ghost use Rattle.imkl_model.specs.Renames.{renames_clash};
ghost use Rattle.imkl_model.specs.Groups.{model_with, model_renaming, begins_with, meets, group_meets, AreOwned, AreOfOneOwner};
ghost use Rattle.imkl_model.specs.Held.{AreDescendants, alias_of};

use crate::class_table::ClassTable;
use crate::descendants::descendants;
use crate::feature_table::FeatureTable;
use crate::numbers::FeatureNo;
use crate::rename_table::RenameTable;
use crate::row::Row;
use crate::shared_names::any_shared;
use std::alloc::{AllocError, Global};

/// Whether two of some features have different owners and belong to one class. Each owner in turn is compared with all
/// those before it, by the classes that conform to them. One feature alone needs no look at the classes.
fn meet_somewhere(
    alloc: Global,
    classes: &ClassTable,
    features: &FeatureTable,
    below: &[Row],
    numbers: &[FeatureNo],
) -> Result<bool, AllocError>
    requires numbers { All (λ f. f < length features.now) numbers.now }
    requires owners { AreOwned classes.now features.now }
    requires below { AreDescendants classes.now below.now }
    ensures { IfOk result (λ b. b
        ≡ any_below (λ c. meets (model_with classes.now features.now) c numbers.now)
        (length classes.now)) }
{
    if numbers.len() < 2 {
        return Ok(false);
    }
    let mut owners = Row::new(alloc, classes.len())?;
    let mut taken = Row::new(alloc, classes.len())?;
    for number in numbers {
        let owner = features.at(*number).owner.index();
        if owners.has(owner) {
            continue;
        }
        let row = &below[owner];
        if taken.common(row).is_some() {
            return Ok(true);
        }
        taken.merge(row);
        owners.add(owner);
    }
    Ok(false)
}

/// Whether the first of some features is this one.
pub(crate) fn begins_with(numbers: &[FeatureNo], number: FeatureNo) -> bool
    ensures { result ≡ begins_with numbers.now number }
{
    match numbers {
        [first, ..] => first.index() == number.index(),
        [] => false,
    }
}

/// Whether a feature is the first of its name, and two of that name and of different owners belong to one class.
fn group_meets(
    alloc: Global,
    classes: &ClassTable,
    features: &FeatureTable,
    below: &[Row],
    feature: FeatureNo,
) -> Result<bool, AllocError>
    requires feature { feature < length features.now }
    requires owners { AreOwned classes.now features.now }
    requires below { AreDescendants classes.now below.now }
    ensures { IfOk result (λ b. b ≡ group_meets (model_with classes.now features.now) feature) }
{
    match features.group(features.at(feature).name.as_str()) {
        None => Ok(false),
        Some(group) => {
            let numbers = group.numbers();
            if !begins_with(numbers, feature) {
                return Ok(false);
            }
            meet_somewhere(alloc, classes, features, below, numbers)
        }
    }
}

/// Whether two features of one name and different owners belong to one class. The features of each name are looked at
/// once, with the first of them.
fn has_clash(
    alloc: Global,
    classes: &ClassTable,
    features: &FeatureTable,
    below: &[Row],
) -> Result<bool, AllocError>
    requires owners { AreOwned classes.now features.now }
    requires below { AreDescendants classes.now below.now }
    ensures { IfOk result (λ b. b ≡ has_clash (model_with classes.now features.now)) }
{
    for number in 0..features.len() {
        if group_meets(alloc, classes, features, below, FeatureNo::new(number))? {
            return Ok(true);
        }
    }
    Ok(false)
}

/// Whether an earlier feature has the name and the owner of this one.
fn is_repeated(features: &FeatureTable, number: FeatureNo) -> bool
    requires { number < length features.now }
    ensures { Decides result ((g : ℕ) × AreOfOneOwner features.now number g) }
{
    let feature = features.at(number);
    match features.own(feature.owner, feature.name.as_str()) {
        Some(first) => first.index() < number.index(),
        None => false,
    }
}

/// Whether two features have one name and one owner.
fn repeats_own(features: &FeatureTable) -> bool
    ensures { Decides result ((f g : ℕ) × AreOfOneOwner features.now f g) }
{
    for number in 0..features.len() {
        if is_repeated(features, FeatureNo::new(number)) {
            return true;
        }
    }
    false
}

/// Whether features clash, by their present names or by old ones. An entry of old names is looked at as a feature of its
/// class: such features are to clash neither with each other nor with those that have the name now.
pub(crate) fn names_clash(
    alloc: Global,
    classes: &ClassTable,
    features: &FeatureTable,
    renames: &RenameTable,
) -> Result<bool, AllocError>
    requires features { AreOwned classes.now features.now }
    requires renames { AreOwned classes.now (map alias_of renames.now.features) }
    ensures { let m = model_renaming classes.now features.now renames.now in
        IfOk result (λ b. b ≡ (has_clash m || renames_clash m)) }
{
    let below = descendants(alloc, classes)?;
    let aliases = renames.aliases();
    if has_clash(alloc, classes, features, &below)?
        || repeats_own(aliases)
        || has_clash(alloc, classes, aliases, &below)?
    {
        return Ok(true);
    }
    any_shared(alloc, classes, aliases, features, &below)
}
