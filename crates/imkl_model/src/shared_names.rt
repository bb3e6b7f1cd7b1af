//! Old names that are present names of features of the same class.

ghost use Rattle.std.specs.Prelude.{◌≡◌, ◌<◌, ℕ, length, All, IfOk};
ghost use Rattle.std.specs.List.{list_any};
ghost use Rattle.imkl_model.specs.Chains.{any_below};
ghost use Rattle.imkl_model.specs.ClassModel.{belongs};
ghost use Rattle.imkl_model.specs.Groups.{model_with, shares, begins_with, AreOwned};
ghost use Rattle.imkl_model.specs.Held.{AreDescendants};
ghost use Rattle.imkl_model.specs.Tables.{has_mark};

use crate::clash::begins_with;
use crate::class_table::ClassTable;
use crate::feature_table::FeatureTable;
use crate::numbers::FeatureNo;
use crate::row::Row;
use std::alloc::{AllocError, Global};

/// The classes that some of these features belong to, as marks.
fn classes_with(
    alloc: Global,
    classes: &ClassTable,
    features: &FeatureTable,
    below: &[Row],
    numbers: &[FeatureNo],
) -> Result<Row, AllocError>
    requires numbers { All (λ f. f < length features.now) numbers.now }
    requires owners { AreOwned classes.now features.now }
    requires below { AreDescendants classes.now below.now }
    ensures { IfOk result (λ r. (length r ≡ length classes.now) × ((c : ℕ) → c < length classes.now
        → has_mark r c ≡ list_any (belongs (model_with classes.now features.now) c) numbers.now)) }
{
    let mut row = Row::new(alloc, classes.len())?;
    for number in numbers {
        let owner = features.at(*number).owner.index();
        row.merge(&below[owner]);
    }
    Ok(row)
}

/// Whether an alias is the first of its name, and a class has a feature and an alias of that name. An alias is an entry
/// of old names, seen as a feature of its class.
fn shares(
    alloc: Global,
    classes: &ClassTable,
    aliases: &FeatureTable,
    features: &FeatureTable,
    below: &[Row],
    alias: FeatureNo,
) -> Result<bool, AllocError>
    requires alias { alias < length aliases.now }
    requires aliases { AreOwned classes.now aliases.now }
    requires features { AreOwned classes.now features.now }
    requires below { AreDescendants classes.now below.now }
    ensures { IfOk result (λ b. b ≡ shares (model_with classes.now aliases.now)
        (model_with classes.now features.now) alias) }
{
    let name = aliases.at(alias).name.as_str();
    let Some(old) = aliases.group(name) else {
        return Ok(false);
    };
    let Some(present) = features.group(name) else {
        return Ok(false);
    };
    if !begins_with(old.numbers(), alias) {
        return Ok(false);
    }
    let renamed = classes_with(alloc, classes, aliases, below, old.numbers())?;
    let named = classes_with(alloc, classes, features, below, present.numbers())?;
    Ok(renamed.common(&named).is_some())
}

/// Whether a class has a feature and an alias of one name. The aliases of each name are looked at once, with the first of
/// them.
pub(crate) fn any_shared(
    alloc: Global,
    classes: &ClassTable,
    aliases: &FeatureTable,
    features: &FeatureTable,
    below: &[Row],
) -> Result<bool, AllocError>
    requires aliases { AreOwned classes.now aliases.now }
    requires features { AreOwned classes.now features.now }
    requires below { AreDescendants classes.now below.now }
    ensures { IfOk result (λ b. b ≡ any_below (shares (model_with classes.now aliases.now)
        (model_with classes.now features.now)) (length aliases.now)) }
{
    for number in 0..aliases.len() {
        let alias = FeatureNo::new(number);
        if shares(alloc, classes, aliases, features, below, alias)? {
            return Ok(true);
        }
    }
    Ok(false)
}
