//! The faults that entries of `renames` cause in a class model that has the shape of one.

use crate::drafts::{Draft, DraftClass, items, text};
use crate::model_faults::{above_of, absent_words, is_among, is_predefined};
use crate::places::Step;
use crate::stop::Stop;
use explain_notes::quote;
use serde_json::Value;
use std::alloc::{AllocError, Global};
use std::collections::BTreeMap;

/// The entries of a class model.
fn entries(document: &Value) -> &[Value] {
    items(document, "renames")
}

/// Whether an entry is of a feature; else it is of a class.
fn is_of_feature(entry: &Value) -> bool {
    entry.get("class").is_some()
}

/// Something is wrong with a member of an entry, in words.
fn stop_at(
    alloc: Global,
    index: usize,
    member: &'static str,
    words: String,
) -> Result<Stop, AllocError> {
    let (list, entry) = (Step::Member("renames"), Step::Element(index));
    Stop::at(alloc, &[list, entry, Step::Member(member)], words)
}

/// Looks for an old name of a class that is taken: by one of these classes and enumerations, by a type of OCL, or by another
/// entry.
pub(crate) fn look_for_taken(alloc: Global, document: &Value, types: &[&str]) -> Result<(), Stop> {
    let mut taken = BTreeMap::new(alloc);
    for name in types {
        taken.insert(*name, "is that of a class or an enumeration")?;
    }
    for (index, entry) in entries(document).iter().enumerate() {
        if is_of_feature(entry) {
            continue;
        }
        let old = text(entry, "old");
        let by = if is_predefined(old) {
            Some("is one that OCL has")
        } else {
            taken.insert(old, "is that of an entry before it, too")?
        };
        if let Some(by) = by {
            let old = quote(alloc, old)?;
            let words = format!(in alloc; "entry {index} of `renames`: the old name `{old}` {by}")?;
            return Err(stop_at(alloc, index, "old", words)?);
        }
    }
    Ok(())
}

/// The names of the features that a class owns.
fn names_owned<'v>(
    alloc: Global,
    draft: &Draft<'v>,
    class: &str,
) -> Result<Vec<&'v str>, AllocError> {
    let mut names = Vec::new(alloc);
    for feature in &draft.features {
        if feature.owner == class {
            names.push(feature.name)?;
        }
    }
    Ok(names)
}

/// Looks for the class that a member of an entry names, among those that are there.
fn look_for_class(
    alloc: Global,
    index: usize,
    member: &'static str,
    class: &str,
    classes: &[&str],
) -> Result<(), Stop> {
    if is_among(class, classes) {
        return Ok(());
    }
    let shown = quote(alloc, class)?;
    let title = format!(in alloc; "entry {index} of `renames`: the class `{shown}`")?;
    let words = absent_words(alloc, title.as_str(), class, classes)?;
    Err(stop_at(alloc, index, member, words)?)
}

/// Looks for a feature among those that a class itself owns.
fn look_for_own(
    alloc: Global,
    index: usize,
    class: &str,
    feature: &str,
    draft: &Draft<'_>,
) -> Result<(), Stop> {
    let names = names_owned(alloc, draft, class)?;
    if is_among(feature, &names) {
        return Ok(());
    }
    let shown = quote(alloc, feature)?;
    let title = format!(in alloc; "entry {index} of `renames`: {class}'s own feature `{shown}`")?;
    let words = absent_words(alloc, title.as_str(), feature, &names)?;
    Err(stop_at(alloc, index, "new", words)?)
}

/// Looks for the first name of an entry that names nothing: a class, or a feature that the class itself owns.
pub(crate) fn look_for_absent(
    alloc: Global,
    document: &Value,
    draft: &Draft<'_>,
    classes: &[&str],
) -> Result<(), Stop> {
    for (index, entry) in entries(document).iter().enumerate() {
        let (class, new) = (text(entry, "class"), text(entry, "new"));
        if is_of_feature(entry) {
            look_for_class(alloc, index, "class", class, classes)?;
            look_for_own(alloc, index, class, new, draft)?;
        } else {
            look_for_class(alloc, index, "new", new, classes)?;
        }
    }
    Ok(())
}

/// Looks at the old names that hold for a class: one may be the name of a feature that belongs to the class, or of two
/// entries.
fn look_at_class(
    alloc: Global,
    document: &Value,
    draft: &Draft<'_>,
    class: &DraftClass<'_>,
) -> Result<(), Stop> {
    let above = above_of(alloc, draft, class.name)?;
    let mut taken = BTreeMap::new(alloc);
    for feature in &draft.features {
        if feature.owner == class.name || above.contains_key(feature.owner) {
            taken.insert(feature.name, "the name of a feature")?;
        }
    }
    for (index, entry) in entries(document).iter().enumerate() {
        let (owner, old) = (text(entry, "class"), text(entry, "old"));
        if !is_of_feature(entry) || (owner != class.name && !above.contains_key(owner)) {
            continue;
        }
        if let Some(by) = taken.insert(old, "the old name of an entry before it")? {
            let name = class.name;
            let words = format!(in alloc;
                "entry {index} of `renames`: `{old}` is, for objects of {name}, {by}, too"
            )?;
            return Err(stop_at(alloc, index, "old", words)?);
        }
    }
    Ok(())
}

/// Looks for a class for which an old name of a feature is taken.
pub(crate) fn look_for_old_names(
    alloc: Global,
    document: &Value,
    draft: &Draft<'_>,
) -> Result<(), Stop> {
    if entries(document).is_empty() {
        return Ok(());
    }
    for class in &draft.classes {
        look_at_class(alloc, document, draft, class)?;
    }
    Ok(())
}
