//! Names of what is listed, and whether one is repeated where names must differ.

ghost use Rattle.std.specs.Prelude.{◌≡◌, ◌++◌, false, not, map, is_some, IfOk, IfSome, OnOk, bytes_eq, string_bytes};
ghost use Rattle.std.specs.List.{list_any};
ghost use Rattle.ocl_base.specs.Lists.{repeats};
ghost use Rattle.imkl_model.specs.Words.{is_predefined, qualified};
ghost use Rattle.imkl_model.specs.Checks.{repeats_type, repeats_literal, repeats_super, repeats_association, repeats_feature, repeats_name, feature_names};
ghost use Rattle.imkl_model.specs.WrittenFeatures.{written_features};

use crate::entry::ClassRename;
use crate::names::Names;
use crate::words::is_predefined;
use crate::written::{
    Written, WrittenAssociation, WrittenClass, WrittenClassRename, WrittenEnumeration,
    WrittenFeature,
};
use ocl_base::Text;
use std::alloc::{AllocError, Global};

/// What has a name of its own.
pub(crate) trait Named {
    ghost use Rattle.std.specs.Prelude.{◌≡◌, List, ℕ, IfOk, string_bytes};

    /// The name's bytes.
    ghost label: { Self → List ℕ };

    /// A copy of the name.
    fn text(&self, alloc: Global) -> Result<String, AllocError>
        ensures { IfOk result (λ text. string_bytes text ≡ label self.now) };
}

impl Named for Text {
    ghost label = { λ n. n };

    fn text(&self, alloc: Global) -> Result<String, AllocError> {
        String::from_str(alloc, self.as_str())
    }
}

impl Named for WrittenEnumeration {
    ghost label = { λ e. e.name };

    fn text(&self, alloc: Global) -> Result<String, AllocError> {
        String::from_str(alloc, self.name.as_str())
    }
}

impl Named for WrittenClass {
    ghost label = { λ c. c.name };

    fn text(&self, alloc: Global) -> Result<String, AllocError> {
        String::from_str(alloc, self.name.as_str())
    }
}

impl Named for WrittenAssociation {
    ghost label = { λ a. a.name };

    fn text(&self, alloc: Global) -> Result<String, AllocError> {
        String::from_str(alloc, self.name.as_str())
    }
}

impl Named for WrittenClassRename {
    ghost label = { λ r. r.old };

    fn text(&self, alloc: Global) -> Result<String, AllocError> {
        String::from_str(alloc, self.old.as_str())
    }
}

impl Named for ClassRename {
    ghost label = { λ r. r.old };

    fn text(&self, alloc: Global) -> Result<String, AllocError> {
        String::from_str(alloc, self.old.as_str())
    }
}

impl Named for WrittenFeature {
    ghost use Rattle.imkl_model.specs.Words.{qualified};

    ghost label = { λ f. qualified f.owner f.name };

    fn text(&self, alloc: Global) -> Result<String, AllocError> {
        format!(in alloc; "{}.{}", self.owner.as_str(), self.name.as_str())
    }
}

/// Adds the names of these after others.
fn push_texts<T: Named>(
    alloc: Global,
    texts: &mut Vec<String>,
    items: &[T],
) -> Result<(), AllocError>
    ensures { OnOk result (map string_bytes texts.new.items
        ≡ map string_bytes texts.old.items ++ map T.label items.now) }
{
    for item in items {
        texts.push(item.text(alloc)?)?;
    }
    Ok(())
}

/// The names of these in their order, if they differ.
pub(crate) fn names_of<T: Named>(alloc: Global, items: &[T]) -> Result<Option<Names>, AllocError>
    ensures names { IfOk result (λ found. IfSome found (λ n. n ≡ map T.label items.now)) }
    ensures differ { IfOk result (λ found. is_some found
        ≡ not (repeats bytes_eq (map T.label items.now))) }
{
    let mut texts = Vec::new(alloc);
    push_texts(alloc, &mut texts, items)?;
    Names::of(alloc, texts.as_slice())
}

/// The names of these in their order. They differ.
pub(crate) fn distinct_names<T: Named>(alloc: Global, items: &[T]) -> Result<Names, AllocError>
    requires { repeats bytes_eq (map T.label items.now) ≡ false }
    ensures { IfOk result (λ n. n ≡ map T.label items.now) }
{
    let found = names_of(alloc, items)?;
    Ok(found.unwrap())
}

/// Whether a name is repeated.
fn any_twice<T: Named>(alloc: Global, items: &[T]) -> Result<bool, AllocError>
    ensures { IfOk result (λ b. b ≡ repeats bytes_eq (map T.label items.now)) }
{
    let found = names_of(alloc, items)?;
    Ok(found.is_none())
}

fn has_predefined_enumeration(enumerations: &[WrittenEnumeration]) -> bool
    ensures { result ≡ list_any is_predefined (map (λ e. e.name) enumerations.now) }
{
    for enumeration in enumerations {
        if is_predefined(enumeration.name.as_str()) {
            return true;
        }
    }
    false
}

fn has_predefined_class(classes: &[WrittenClass]) -> bool
    ensures { result ≡ list_any is_predefined (map (λ c. c.name) classes.now) }
{
    for class in classes {
        if is_predefined(class.name.as_str()) {
            return true;
        }
    }
    false
}

fn has_predefined_rename(renames: &[WrittenClassRename]) -> bool
    ensures { result ≡ list_any is_predefined (map (λ r. r.old) renames.now) }
{
    for rename in renames {
        if is_predefined(rename.old.as_str()) {
            return true;
        }
    }
    false
}

/// Whether two classes or enumerations have one name, or one that of a predefined type. A class's old name counts as the
/// name of one more class.
#[tactic(auto, unfolding(crate::specs::Checks::repeats_type))]
fn repeats_type(alloc: Global, written: &Written) -> Result<bool, AllocError>
    ensures { IfOk result (λ b. b ≡ repeats_type written.now) }
{
    let enumerations = written.enumerations.as_slice();
    let classes = written.classes.as_slice();
    let renames = written.class_renames.as_slice();
    if has_predefined_enumeration(enumerations)
        || has_predefined_class(classes)
        || has_predefined_rename(renames)
    {
        return Ok(true);
    }
    let mut texts = Vec::new(alloc);
    push_texts(alloc, &mut texts, enumerations)?;
    push_texts(alloc, &mut texts, classes)?;
    push_texts(alloc, &mut texts, renames)?;
    let found = Names::of(alloc, texts.as_slice())?;
    Ok(found.is_none())
}

fn repeats_literal(alloc: Global, enumerations: &[WrittenEnumeration]) -> Result<bool, AllocError>
    ensures { IfOk result (λ b. b ≡ list_any (λ e. repeats bytes_eq e.literals) enumerations.now) }
{
    for enumeration in enumerations {
        if any_twice(alloc, enumeration.literals.as_slice())? {
            return Ok(true);
        }
    }
    Ok(false)
}

fn repeats_super(alloc: Global, classes: &[WrittenClass]) -> Result<bool, AllocError>
    ensures { IfOk result (λ b. b ≡ list_any (λ c. repeats bytes_eq c.supers) classes.now) }
{
    for class in classes {
        if any_twice(alloc, class.supers.as_slice())? {
            return Ok(true);
        }
    }
    Ok(false)
}

/// Whether a name is repeated where names must differ.
#[tactic(auto, unfolding(crate::specs::Checks::repeats_name))]
pub(crate) fn repeats_name(
    alloc: Global,
    written: &Written,
    features: &[WrittenFeature],
) -> Result<bool, AllocError>
    requires { features.now ≡ written_features written.now }
    ensures { IfOk result (λ b. b ≡ repeats_name written.now) }
{
    let twice = repeats_type(alloc, written)?
        || repeats_literal(alloc, written.enumerations.as_slice())?
        || repeats_super(alloc, written.classes.as_slice())?
        || any_twice(alloc, written.associations.as_slice())?
        || any_twice(alloc, features)?;
    Ok(twice)
}
