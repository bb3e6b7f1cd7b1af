//! The faults of a class model that has the shape of one.

use crate::drafts::{Draft, DraftClass, draft_of, items, text, texts};
use crate::old_names::{look_for_absent, look_for_old_names, look_for_taken};
use crate::places::Step;
use crate::stop::Stop;
use explain_notes::{Nearest, quote};
use imkl_model::ModelFault;
use serde_json::Value;
use std::alloc::{AllocError, Global};
use std::collections::BTreeMap;

/// The first name of a list that stands there before, and its index.
fn first_repeat<'v>(
    alloc: Global,
    names: &[&'v str],
) -> Result<Option<(usize, &'v str)>, AllocError> {
    let mut seen = BTreeMap::new(alloc);
    for (index, name) in names.iter().enumerate() {
        if seen.contains_key(*name) {
            return Ok(Some((index, *name)));
        }
        seen.insert(*name, ())?;
    }
    Ok(None)
}

/// The steps to the name of an element of a list of the document.
fn name_steps(list: &'static str, index: usize) -> [Step; 3] {
    [
        Step::Member(list),
        Step::Element(index),
        Step::Member("name"),
    ]
}

/// Whether a type is always there.
fn is_basic(name: &str) -> bool {
    matches!(name, "Boolean" | "Integer" | "String")
}

/// Whether OCL has a type or a kind of collections of this name.
pub(crate) fn is_predefined(name: &str) -> bool {
    is_basic(name) || matches!(name, "Set" | "OrderedSet" | "Bag" | "Sequence")
}

/// The steps to the superclasses of a class.
fn supers_steps(class: usize) -> [Step; 3] {
    [
        Step::Member("classes"),
        Step::Element(class),
        Step::Member("supers"),
    ]
}

/// The names of some values.
fn names_of<'v>(alloc: Global, values: &'v [Value]) -> Result<Vec<&'v str>, AllocError> {
    let mut names = Vec::new(alloc);
    for value in values {
        names.push(text(value, "name"))?;
    }
    Ok(names)
}

/// The names of all classes and enumerations.
fn type_names(alloc: Global, document: &Value) -> Result<Vec<&str>, AllocError> {
    let mut names = names_of(alloc, items(document, "classes"))?;
    for enumeration in items(document, "enums") {
        names.push(text(enumeration, "name"))?;
    }
    Ok(names)
}

/// The steps to one of the names of all classes and enumerations.
fn type_steps(document: &Value, index: usize) -> [Step; 3] {
    match index.checked_sub(items(document, "classes").len()) {
        Some(index) => name_steps("enums", index),
        None => name_steps("classes", index),
    }
}

/// Looks for a class or an enumeration that has the name of a type which is always there, or of a kind of collections.
fn look_for_predefined(alloc: Global, document: &Value, names: &[&str]) -> Result<(), Stop> {
    for (index, name) in names.iter().enumerate() {
        if is_predefined(name) {
            let words = format!(in alloc;
                "no class or enumeration may be named `{name}`, which OCL has"
            )?;
            return Err(Stop::at(alloc, &type_steps(document, index), words)?);
        }
    }
    Ok(())
}

/// Looks for a feature that stands twice on one class.
fn look_for_features(alloc: Global, draft: &Draft<'_>) -> Result<(), Stop> {
    let mut seen = BTreeMap::new(alloc);
    for feature in &draft.features {
        let title = format!(in alloc; "{}.{}", feature.owner, feature.name)?;
        if seen.contains_key(title.as_str()) {
            let words = format!(in alloc; "the feature {title} stands twice")?;
            return Err(feature.stop(alloc, "name", words)?);
        }
        seen.insert(title, ())?;
    }
    Ok(())
}

/// Looks for a text that stands twice in a member of the elements of a list of the document.
fn look_for_texts(
    alloc: Global,
    document: &Value,
    list: &'static str,
    member: &'static str,
    what: &str,
) -> Result<(), Stop> {
    for (number, value) in items(document, list).iter().enumerate() {
        let names = texts(alloc, items(value, member))?;
        if let Some((index, name)) = first_repeat(alloc, &names)? {
            let (name, owner) = (quote(alloc, name)?, text(value, "name"));
            let words = format!(in alloc; "{what} `{name}` of `{owner}` stands twice")?;
            let (list, number) = (Step::Member(list), Step::Element(number));
            let steps = [list, number, Step::Member(member), Step::Element(index)];
            return Err(Stop::at(alloc, &steps, words)?);
        }
    }
    Ok(())
}

/// Looks for a class, an enumeration or an old name that stands twice, or is one that OCL has.
fn look_for_types(alloc: Global, document: &Value) -> Result<(), Stop> {
    let names = type_names(alloc, document)?;
    look_for_predefined(alloc, document, &names)?;
    if let Some((index, name)) = first_repeat(alloc, &names)? {
        let name = quote(alloc, name)?;
        let words = format!(in alloc; "the class or enumeration `{name}` stands twice")?;
        return Err(Stop::at(alloc, &type_steps(document, index), words)?);
    }
    look_for_taken(alloc, document, &names)
}

/// Looks for an association that stands twice.
fn look_for_associations(alloc: Global, document: &Value) -> Result<(), Stop> {
    let names = names_of(alloc, items(document, "associations"))?;
    match first_repeat(alloc, &names)? {
        Some((index, name)) => {
            let name = quote(alloc, name)?;
            let words = format!(in alloc; "the association `{name}` stands twice")?;
            let steps = name_steps("associations", index);
            Err(Stop::at(alloc, &steps, words)?)
        }
        None => Ok(()),
    }
}

/// Looks for a name that stands twice where names must differ.
fn look_for_duplicates(alloc: Global, document: &Value, draft: &Draft<'_>) -> Result<(), Stop> {
    look_for_types(alloc, document)?;
    look_for_associations(alloc, document)?;
    look_for_texts(alloc, document, "enums", "literals", "the literal")?;
    look_for_texts(alloc, document, "classes", "supers", "the superclass")?;
    look_for_features(alloc, draft)
}

/// Whether a name is among others.
pub(crate) fn is_among(name: &str, names: &[&str]) -> bool {
    names.iter().any(|other| *other == name)
}

/// What is said of a name that isn't among others, one of which may be near it. It is titled with what it is of.
pub(crate) fn absent_words(
    alloc: Global,
    title: &str,
    name: &str,
    names: &[&str],
) -> Result<String, AllocError> {
    let mut nearest = Nearest::to(name);
    for other in names {
        nearest.offer(alloc, *other)?;
    }
    match nearest.name() {
        Some(near) => format!(in alloc; "{title} isn't there; did you mean `{near}`?"),
        None => format!(in alloc; "{title} isn't there"),
    }
}

/// Looks for the type of an attribute that isn't there.
fn look_at_types(alloc: Global, draft: &Draft<'_>, types: &[&str]) -> Result<(), Stop> {
    for feature in &draft.features {
        if let Some(element) = feature.element
            && !is_among(element, types)
        {
            let (owner, name) = (feature.owner, feature.name);
            let shown = quote(alloc, element)?;
            let title = format!(in alloc; "the type `{shown}` of `{owner}.{name}`")?;
            let words = absent_words(alloc, title.as_str(), element, types)?;
            return Err(feature.stop(alloc, "type", words)?);
        }
    }
    Ok(())
}

/// Looks for the class of an association that isn't there.
fn look_at_associations(alloc: Global, document: &Value, classes: &[&str]) -> Result<(), Stop> {
    for (index, association) in items(document, "associations").iter().enumerate() {
        for member in ["from", "to"] {
            let class = text(association, member);
            if !is_among(class, classes) {
                let (shown, name) = (quote(alloc, class)?, text(association, "name"));
                let title = format!(in alloc;
                    "the class `{shown}` in `{member}` of the association `{name}`"
                )?;
                let words = absent_words(alloc, title.as_str(), class, classes)?;
                let (list, index) = (Step::Member("associations"), Step::Element(index));
                return Err(Stop::at(alloc, &[list, index, Step::Member(member)], words)?);
            }
        }
    }
    Ok(())
}

/// Looks for a superclass that isn't there.
fn look_at_supers(alloc: Global, draft: &Draft<'_>, classes: &[&str]) -> Result<(), Stop> {
    for (number, class) in draft.classes.iter().enumerate() {
        for (index, above) in class.supers.iter().enumerate() {
            if !is_among(*above, classes) {
                let (shown, name) = (quote(alloc, *above)?, class.name);
                let title = format!(in alloc; "the superclass `{shown}` of `{name}`")?;
                let words = absent_words(alloc, title.as_str(), *above, classes)?;
                let [list, number, supers] = supers_steps(number);
                return Err(Stop::at(alloc, &[list, number, supers, Step::Element(index)], words)?);
            }
        }
    }
    Ok(())
}

/// The names of the types that an attribute can have.
fn attribute_types(alloc: Global, document: &Value) -> Result<Vec<&str>, AllocError> {
    let mut types = names_of(alloc, items(document, "enums"))?;
    for basic in ["Boolean", "Integer", "String"] {
        types.push(basic)?;
    }
    Ok(types)
}

/// Looks for a name that names nothing.
fn look_for_unknown(alloc: Global, document: &Value, draft: &Draft<'_>) -> Result<(), Stop> {
    let classes = names_of(alloc, items(document, "classes"))?;
    let types = attribute_types(alloc, document)?;
    look_at_supers(alloc, draft, &classes)?;
    look_at_types(alloc, draft, &types)?;
    look_at_associations(alloc, document, &classes)?;
    look_for_absent(alloc, document, draft, &classes)
}

/// A class, by its name.
fn class_of<'c, 'v>(draft: &'c Draft<'v>, name: &str) -> Option<&'c DraftClass<'v>> {
    draft.classes.iter().find(|class| class.name == name)
}

/// The classes that are reached from one by superclass steps, without itself unless a step leads back to it; each with
/// the class before it on the way.
pub(crate) fn above_of<'v>(
    alloc: Global,
    draft: &Draft<'v>,
    start: &'v str,
) -> Result<BTreeMap<&'v str, &'v str>, AllocError> {
    let mut before = BTreeMap::new(alloc);
    let mut queue = Vec::new(alloc);
    queue.push(start)?;
    for index in 0..=draft.classes.len() {
        let Some(name) = queue.get(index) else {
            break;
        };
        let name = *name;
        if let Some(class) = class_of(draft, name) {
            for above in &class.supers {
                if !before.contains_key(*above) {
                    before.insert(*above, name)?;
                    queue.push(*above)?;
                }
            }
        }
    }
    Ok(before)
}

/// The way round from a class to itself.
fn cycle_words<'v>(
    alloc: Global,
    start: &'v str,
    before: &BTreeMap<&'v str, &'v str>,
) -> Result<String, AllocError> {
    let mut words = quote(alloc, start)?;
    let mut name = start;
    for _ in 0..before.len() {
        let Some(below) = before.get(name) else {
            break;
        };
        name = *below;
        words = format!(in alloc; "{name} is below {words}")?;
        if name == start {
            break;
        }
    }
    Ok(words)
}

/// Looks for a class that is above itself.
fn look_for_cycle(alloc: Global, draft: &Draft<'_>) -> Result<(), Stop> {
    for (index, class) in draft.classes.iter().enumerate() {
        let before = above_of(alloc, draft, class.name)?;
        if before.contains_key(class.name) {
            let way = cycle_words(alloc, class.name, &before)?;
            let words = format!(in alloc; "a class is above itself: {way}")?;
            return Err(Stop::at(alloc, &supers_steps(index), words)?);
        }
    }
    Ok(())
}

/// Looks for two features of one name, and different owners, of the class of an index.
fn look_for_clash(
    alloc: Global,
    draft: &Draft<'_>,
    number: usize,
    class: &DraftClass<'_>,
) -> Result<(), Stop> {
    let above = above_of(alloc, draft, class.name)?;
    let mut named = BTreeMap::new(alloc);
    for (index, feature) in draft.features.iter().enumerate() {
        if feature.owner != class.name && !above.contains_key(feature.owner) {
            continue;
        }
        if let Some(first) = named.insert(feature.name, index)?
            && let Some(other) = draft.features.get(first)
            && other.owner != feature.owner
        {
            let words = format!(in alloc;
                "{} has two features named `{}`: that of {} and that of {}",
                class.name, feature.name, other.owner, feature.owner
            )?;
            let steps = [Step::Member("classes"), Step::Element(number)];
            return Err(Stop::at(alloc, &steps, words)?);
        }
    }
    Ok(())
}

/// Looks for two features of one name in each class, and for an old name that is taken.
fn look_for_clashes(alloc: Global, document: &Value, draft: &Draft<'_>) -> Result<(), Stop> {
    for (number, class) in draft.classes.iter().enumerate() {
        look_for_clash(alloc, draft, number, class)?;
    }
    look_for_old_names(alloc, document, draft)
}

/// Looks for a multiplicity that nothing meets.
fn look_at_multiplicities(alloc: Global, draft: &Draft<'_>) -> Result<(), Stop> {
    for feature in &draft.features {
        let (name, owner, lower) = (feature.name, feature.owner, feature.lower);
        if let Some(upper) = feature.upper
            && (upper == 0 || lower > upper)
        {
            let words = format!(in alloc;
                "`{name}` of {owner} wants {lower} to {upper}, which nothing meets"
            )?;
            return Err(feature.stop(alloc, "upper", words)?);
        }
    }
    Ok(())
}

/// Looks for what is wrong with a class model that has this fault.
pub(crate) fn look_for_fault(
    alloc: Global,
    document: &Value,
    fault: ModelFault,
) -> Result<(), Stop> {
    let draft = draft_of(alloc, document)?;
    match fault {
        ModelFault::DuplicateName => look_for_duplicates(alloc, document, &draft),
        ModelFault::UnknownName => look_for_unknown(alloc, document, &draft),
        ModelFault::Cycle => look_for_cycle(alloc, &draft),
        ModelFault::FeatureClash => look_for_clashes(alloc, document, &draft),
        ModelFault::BadMultiplicity => look_at_multiplicities(alloc, &draft),
        _ => Ok(()),
    }
}
