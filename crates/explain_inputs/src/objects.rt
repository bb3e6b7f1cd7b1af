//! The faults of one object of a delivery.

use crate::entries::Entry;
use crate::holders::Holders;
use crate::report::{Report, Spot, Subject};
use crate::values::{is_of_type, number_of, quote_value, values_of, write_type};
use explain_names::{
    belongs, class_name, feature_info, feature_named, is_abstract, is_class_below, offer_classes,
    offer_features,
};
use explain_notes::{Nearest, quote};
use imkl_model::{ClassModel, ClassNo, ElementType, FeatureInfo, FeatureNo, Role};
use imkl_population::{MAX_ID_LENGTH, PopulationFault};
use serde_json::Value;
use std::alloc::{AllocError, Global};
use std::collections::BTreeMap;

/// A delivery as it is written.
#[derive(Clone, Copy)]
pub(crate) struct Document<'d, 'v> {
    pub(crate) model: &'d ClassModel,
    pub(crate) entries: &'d [Entry<'v>],
    /// The first object of each id.
    pub(crate) ids: &'d BTreeMap<&'v str, usize>,
    pub(crate) holders: &'d Holders,
}

/// Whether an id may be one.
fn is_id(id: &str) -> bool {
    !id.is_empty()
        && id.len() <= MAX_ID_LENGTH
        && id.bytes().all(|b| {
            matches!(b, b'A'..=b'Z' | b'a'..=b'z' | b'0'..=b'9' | b'-' | b'.' | b'_' | b':')
        })
}

/// Writes a name, and asks whether one was meant that is near it.
fn write_name(
    alloc: Global,
    out: &mut String,
    name: &str,
    nearest: &Nearest<'_>,
) -> Result<(), AllocError> {
    let name = quote(alloc, name)?;
    match nearest.name() {
        Some(near) => write!(out, "`{name}`; did you mean `{near}`?"),
        None => write!(out, "`{name}`"),
    }
}

/// Says what is wrong with the id of an object.
fn look_at_id(
    alloc: Global,
    report: &mut Report<'_>,
    document: Document<'_, '_>,
    subject: &Subject<'_>,
) -> Result<(), AllocError> {
    if !is_id(subject.id) {
        let message = "its id isn't 1 to 128 characters of A-Z a-z 0-9 . _ : -";
        return report.refuse(alloc, subject, PopulationFault::BadId.number(), message);
    }
    match document.ids.get(subject.id) {
        Some(first) if *first != subject.index => {
            let first = *first;
            let message = format!(in alloc; "object {first} has its id already")?;
            report.refuse(
                alloc,
                subject,
                PopulationFault::DuplicateId.number(),
                message.as_str(),
            )
        }
        _ => Ok(()),
    }
}

/// What is said of a class that isn't there.
fn unknown_class(alloc: Global, model: &ClassModel, name: &str) -> Result<String, AllocError> {
    let mut message = String::from_str(alloc, "there is no class ")?;
    let mut nearest = Nearest::to(name);
    offer_classes(alloc, model, &mut nearest)?;
    write_name(alloc, &mut message, name, &nearest)?;
    Ok(message)
}

/// Says what is wrong with the class of an object; gives the class if it is there.
fn look_at_class(
    alloc: Global,
    report: &mut Report<'_>,
    model: &ClassModel,
    subject: &Subject<'_>,
) -> Result<Option<ClassNo>, AllocError> {
    let Some(class) = model.class(subject.class) else {
        let message = unknown_class(alloc, model, subject.class)?;
        report.say(alloc, subject, "delivery 4", message.as_str())?;
        return Ok(None);
    };
    if is_abstract(model, class) {
        let name = class_name(model, class);
        let message = format!(in alloc; "{name} is abstract, so an object is of a class below it")?;
        report.refuse(
            alloc,
            subject,
            PopulationFault::AbstractClass.number(),
            message.as_str(),
        )?;
    }
    Ok(Some(class))
}

/// What is said of a member that is no feature of a class.
fn unknown_feature(
    alloc: Global,
    model: &ClassModel,
    class: ClassNo,
    name: &str,
) -> Result<String, AllocError> {
    let owner = class_name(model, class);
    let mut message = format!(in alloc; "{owner} has no feature ")?;
    let mut nearest = Nearest::to(name);
    offer_features(alloc, model, class, &mut nearest)?;
    write_name(alloc, &mut message, name, &nearest)?;
    Ok(message)
}

/// Says which members of an object are no features of its class.
fn look_at_members(
    alloc: Global,
    report: &mut Report<'_>,
    model: &ClassModel,
    subject: &Subject<'_>,
    class: ClassNo,
    entry: &Entry<'_>,
) -> Result<(), AllocError> {
    for (name, _) in entry.features {
        if feature_named(model, class, name.as_str()).is_none() {
            let message = unknown_feature(alloc, model, class, name.as_str())?;
            let subject = subject.at(Spot::Feature(name.as_str()));
            report.say(alloc, &subject, "delivery 5", message.as_str())?;
        }
    }
    Ok(())
}

/// The numbers of the faults that a feature has too few or too many values.
const TOO_FEW: u8 = 5;

const TOO_MANY: u8 = 6;

/// What a count of values is against a feature's bounds, if it isn't within them.
fn count_fault(feature: &FeatureInfo, count: usize) -> Option<u8> {
    let count = count as u64;
    if count < u64::from(feature.lower) {
        return Some(TOO_FEW);
    }
    match feature.upper {
        Some(upper) if count > u64::from(upper) => Some(TOO_MANY),
        _ => None,
    }
}

/// Writes how many values a feature wants.
fn write_bounds(out: &mut String, feature: &FeatureInfo) -> Result<(), AllocError> {
    let lower = feature.lower;
    match feature.upper {
        Some(upper) if upper == lower => write!(out, "wants {lower}"),
        Some(upper) => write!(out, "wants {lower} to {upper}"),
        None => write!(out, "wants {lower} or more"),
    }
}

/// What is said of a feature that has so many values.
fn wrong_count(alloc: Global, feature: &FeatureInfo, count: usize) -> Result<String, AllocError> {
    let name = feature.name.as_str();
    let mut message = format!(in alloc; "`{name}` ")?;
    write_bounds(&mut message, feature)?;
    let what = match (feature.role, count) {
        (Role::Attribute, 1) => "value",
        (Role::Attribute, _) => "values",
        (_, 1) => "object",
        (_, _) => "objects",
    };
    write!(&mut message, ", and has {count} {what}")?;
    Ok(message)
}

/// Says whether a feature has too few or too many values.
fn look_at_count(
    alloc: Global,
    report: &mut Report<'_>,
    subject: &Subject<'_>,
    feature: &FeatureInfo,
    count: usize,
) -> Result<(), AllocError> {
    let Some(fault) = count_fault(feature, count) else {
        return Ok(());
    };
    let message = wrong_count(alloc, feature, count)?;
    report.refuse(alloc, subject, fault, message.as_str())
}

/// Says whether an object has too few or too many holders; too few may follow from one that names no object.
fn look_at_holders(
    alloc: Global,
    report: &mut Report<'_>,
    subject: &Subject<'_>,
    feature: &FeatureInfo,
    count: usize,
    may_follow: bool,
) -> Result<(), AllocError> {
    let Some(fault) = count_fault(feature, count) else {
        return Ok(());
    };
    let mut message = wrong_count(alloc, feature, count)?;
    if fault == TOO_FEW && may_follow {
        message.push_str("; this may follow from an id that isn't there")?;
    }
    report.refuse(alloc, subject, fault, message.as_str())
}

/// What is said of a value of another type than a feature wants.
fn wrong_type(
    alloc: Global,
    model: &ClassModel,
    feature: &FeatureInfo,
    value: &Value,
) -> Result<String, AllocError> {
    let name = feature.name.as_str();
    let mut message = format!(in alloc; "`{name}` wants ")?;
    write_type(&mut message, model, feature.element)?;
    let value = quote_value(alloc, value)?;
    write!(&mut message, ", and not {value}")?;
    Ok(message)
}

/// Says which value of a feature is of another type; whether there is one.
fn look_at_types(
    alloc: Global,
    report: &mut Report<'_>,
    model: &ClassModel,
    subject: &Subject<'_>,
    feature: &FeatureInfo,
    values: &[Value],
) -> Result<bool, AllocError> {
    for (index, value) in values.iter().enumerate() {
        if !is_of_type(model, feature.element, value) {
            let message = wrong_type(alloc, model, feature, value)?;
            let subject = subject.at(Spot::Value(feature.name.as_str(), index));
            report.refuse(
                alloc,
                &subject,
                PopulationFault::WrongKind.number(),
                message.as_str(),
            )?;
            return Ok(true);
        }
    }
    Ok(false)
}

/// What is said of an end that names what is no object.
fn unknown_target(alloc: Global, name: &str, id: &str) -> Result<String, AllocError> {
    let target = quote(alloc, id)?;
    format!(in alloc; "`{name}` names `{target}`, and no object has that id")
}

/// What is said of an end that wants objects of a class, and names one of another.
fn wrong_target(
    alloc: Global,
    model: &ClassModel,
    name: &str,
    class: ClassNo,
    id: &str,
    own: &str,
) -> Result<String, AllocError> {
    let target = quote(alloc, id)?;
    let wanted = class_name(model, class);
    format!(in alloc; "`{name}` wants objects of {wanted}, and `{target}` is of {own}")
}

/// Says what is wrong with a target of an end that holds objects of a class; whether there is something.
fn look_at_target(
    alloc: Global,
    report: &mut Report<'_>,
    document: Document<'_, '_>,
    subject: &Subject<'_>,
    name: &str,
    class: ClassNo,
    id: &str,
) -> Result<bool, AllocError> {
    let model = document.model;
    let Some(index) = document.ids.get(id) else {
        let message = unknown_target(alloc, name, id)?;
        report.say(alloc, subject, "delivery 6", message.as_str())?;
        return Ok(true);
    };
    let own = match document.entries.get(*index) {
        Some(entry) => entry.class,
        None => "",
    };
    match model.class(own) {
        Some(found) if !is_class_below(model, found, class) => {
            let message = wrong_target(alloc, model, name, class, id, own)?;
            report.refuse(
                alloc,
                subject,
                PopulationFault::WrongClass.number(),
                message.as_str(),
            )?;
            Ok(true)
        }
        _ => Ok(false),
    }
}

/// Says what is wrong with the targets of an end; whether there is something.
fn look_at_targets(
    alloc: Global,
    report: &mut Report<'_>,
    document: Document<'_, '_>,
    subject: &Subject<'_>,
    feature: &FeatureInfo,
    values: &[Value],
) -> Result<bool, AllocError> {
    let ElementType::Class(class) = feature.element else {
        return Ok(false);
    };
    let name = feature.name.as_str();
    let mut is_wrong = false;
    for (index, value) in values.iter().enumerate() {
        let subject = subject.at(Spot::Value(name, index));
        if let Some(id) = value.as_str()
            && look_at_target(alloc, report, document, &subject, name, class, id)?
        {
            is_wrong = true;
        }
    }
    Ok(is_wrong)
}

/// The index of the first value in a list of values of one type that an earlier one is equal to.
fn first_repeat(alloc: Global, values: &[Value]) -> Result<Option<usize>, AllocError> {
    let mut texts = BTreeMap::new(alloc);
    let mut numbers = BTreeMap::new(alloc);
    for (index, value) in values.iter().enumerate() {
        let earlier = if let Some(text) = value.as_str() {
            texts.insert(text, ())?
        } else if let Some(number) = number_of(value) {
            numbers.insert(number, ())?
        } else {
            None
        };
        if earlier.is_some() {
            return Ok(Some(index));
        }
    }
    Ok(None)
}

/// Says what is wrong with the values of a feature, in the order in which they are checked: the first that is.
fn look_at_values(
    alloc: Global,
    report: &mut Report<'_>,
    document: Document<'_, '_>,
    subject: &Subject<'_>,
    feature: &FeatureInfo,
    values: &[Value],
) -> Result<(), AllocError> {
    let name = feature.name.as_str();
    if look_at_types(alloc, report, document.model, subject, feature, values)?
        || look_at_targets(alloc, report, document, subject, feature, values)?
    {
        return Ok(());
    }
    if feature.is_unique()
        && let Some(index) = first_repeat(alloc, values)?
        && let Some(value) = values.get(index)
    {
        let value = quote_value(alloc, value)?;
        let message = format!(in alloc; "`{name}` has {value} twice")?;
        return report.refuse(
            alloc,
            &subject.at(Spot::Value(name, index)),
            PopulationFault::DuplicateTarget.number(),
            message.as_str(),
        );
    }
    look_at_count(alloc, report, subject, feature, values.len())
}

/// Says what is wrong with an opposite end, which follows from what other objects write.
fn look_at_opposite(
    alloc: Global,
    report: &mut Report<'_>,
    document: Document<'_, '_>,
    subject: &Subject<'_>,
    number: FeatureNo,
    feature: &FeatureInfo,
    source: FeatureNo,
    is_written: bool,
) -> Result<(), AllocError> {
    let name = feature.name.as_str();
    let Some(writer) = feature_info(document.model, source) else {
        return Ok(());
    };
    if is_written {
        let (end, owner) = (
            writer.name.as_str(),
            class_name(document.model, writer.owner),
        );
        let message = format!(in alloc;
            "`{name}` follows from `{end}` of {owner}: write it there, and not here"
        )?;
        return report.refuse(
            alloc,
            subject,
            PopulationFault::Derived.number(),
            message.as_str(),
        );
    }
    let count = document.holders.count(number, subject.index);
    let may_follow = document.holders.is_lost(number);
    look_at_holders(alloc, report, subject, feature, count, may_follow)
}

/// Says what is wrong with a feature of an object.
fn look_at_feature(
    alloc: Global,
    report: &mut Report<'_>,
    document: Document<'_, '_>,
    subject: &Subject<'_>,
    entry: &Entry<'_>,
    number: FeatureNo,
) -> Result<(), AllocError> {
    let Some(feature) = feature_info(document.model, number) else {
        return Ok(());
    };
    let subject = &subject.at(Spot::Feature(feature.name.as_str()));
    let member = entry.features.get(feature.name.as_str());
    if let Role::OppositeEnd { source } = feature.role {
        let is_written = match member {
            Some(value) => !value.is_null(),
            None => false,
        };
        return look_at_opposite(
            alloc, report, document, subject, number, feature, source, is_written,
        );
    }
    let values = match member {
        Some(value) => values_of(value),
        None => &[],
    };
    look_at_values(alloc, report, document, subject, feature, values)
}

/// Says all that is wrong with an object.
pub(crate) fn look_at_object(
    alloc: Global,
    report: &mut Report<'_>,
    document: Document<'_, '_>,
    entry: &Entry<'_>,
    index: usize,
    offset: usize,
) -> Result<(), AllocError> {
    let subject = Subject {
        index,
        offset,
        id: entry.id,
        class: entry.class,
        spot: Spot::Whole,
    };
    look_at_id(alloc, report, document, &subject.at(Spot::Member("id")))?;
    let model = document.model;
    let of_class = subject.at(Spot::Member("class"));
    let Some(class) = look_at_class(alloc, report, model, &of_class)? else {
        return Ok(());
    };
    look_at_members(alloc, report, model, &subject, class, entry)?;
    for index in 0..model.feature_count() {
        let number = FeatureNo::new(index);
        if belongs(model, class, number) && !report.is_full() {
            look_at_feature(alloc, report, document, &subject, entry, number)?;
        }
    }
    Ok(())
}
