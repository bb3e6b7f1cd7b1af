//! From a JSON tree to the class model that it writes, by the tables of members.

ghost use Rattle.std.specs.Prelude.{◌≡◌, ◌≤◌, true, map, All, IfOk, IfSome, codes};
ghost use Rattle.imkl_model.specs.Spelled.{IsSpelledAttribute, IsSpelledClass, IsSpelledEnumeration, IsSpelledEnd, IsSpelledAssociation, IsSpelledRename, IsSpelled};
ghost use Rattle.serde_json.specs.View.{view, members_view};
ghost use Rattle.serde_json.specs.Find.{get, as_bool};
ghost use Rattle.ocl_base.specs.Steps.{Gives, found};
ghost use Rattle.imkl_model.specs.declared.fault.ModelFault.TheVariants.{Shape};
ghost use Rattle.imkl_model.specs.declared.members.Is.TheVariants as is;
ghost use Rattle.imkl_model.specs.Words.{is_title};
ghost use Rattle.imkl_model.specs.WellFormed.{IsModelName};
ghost use Rattle.imkl_model.specs.Faults.{model_fault};
ghost use Rattle.imkl_json.specs.Json.{list_from, record_from};
ghost use Rattle.imkl_model.specs.Shape.{title_from, name_from, lower_from, upper_from, member_from, truth_from, trees_from, names_from, attribute_from, class_from, enumeration_from, end_from, association_from, class_rename_from, feature_rename_from, rename_from, renames_in, written_from};

use crate::fault::ModelFault;
use crate::items::Items;
use crate::limits::MAX_BOUND;
use crate::lists::{Spelled, each_of};
use crate::members::{
    ASSOCIATION, ATTRIBUTE, CLASS, CLASS_RENAME, END, ENUMERATION, FEATURE_RENAME, MODEL, Member,
    RENAMES, lower_in, name_in, title_in, upper_in,
};
use crate::renames::{class_renames, feature_renames};
use crate::written::{
    Written, WrittenAssociation, WrittenAttribute, WrittenClass, WrittenClassRename, WrittenEnd,
    WrittenEnumeration, WrittenFeatureRename, WrittenRename,
};
use imkl_json::{list_of, member_count, record_of};
use ocl_base::Text;
use serde_json::{Map, Value};
use std::alloc::Global;

/// The members of a JSON object that has exactly this number of them; else the fault is `Shape`.
fn record(value: &Value, members: usize) -> Result<&Map<String, Value>, ModelFault>
    ensures { Gives model_fault (λ ms. members_view ms.now.entries) result
        (found (record_from members (view value.now)) Shape) }
{
    record_of(value, members).ok_or(ModelFault::Shape)
}

/// The value of a member, whatever it is.
fn value_at<'v>(object: &'v Value, member: Member) -> Result<&'v Value, ModelFault>
    ensures { Gives model_fault (λ v. view v.now) result
        (found (get member.0.now (view object.now)) Shape) }
{
    object.get(member.0).ok_or(ModelFault::Shape)
}

/// The values of a list.
fn list(value: &Value) -> Result<&[Value], ModelFault>
    ensures { Gives model_fault (λ vs. map view vs.now) result (trees_from (view value.now)) }
{
    list_of(value).ok_or(ModelFault::Shape)
}

fn name_of(alloc: Global, value: &Value) -> Result<Text, ModelFault>
    ensures tree { Gives model_fault (λ n. n) result (name_from (view value.now)) }
    ensures fits { IfOk result IsModelName }
{
    let name = name_in(value).ok_or(ModelFault::Shape)?;
    Ok(Text::new(String::from_str(alloc, name)?))
}

fn title_at(alloc: Global, object: &Value, member: Member) -> Result<Text, ModelFault>
    requires { member.1 ≡ is.Title }
    ensures tree { Gives model_fault (λ n. n) result (member_from title_from member.0.now (view object.now)) }
    ensures fits { IfOk result (λ n. is_title n ≡ true) }
{
    let title = title_in(value_at(object, member)?).ok_or(ModelFault::Shape)?;
    Ok(Text::new(String::from_str(alloc, title)?))
}

fn name_at(alloc: Global, object: &Value, member: Member) -> Result<Text, ModelFault>
    requires { member.1 ≡ is.Name }
    ensures tree { Gives model_fault (λ n. n) result (member_from name_from member.0.now (view object.now)) }
    ensures fits { IfOk result IsModelName }
{
    name_of(alloc, value_at(object, member)?)
}

fn truth_at(object: &Value, member: Member) -> Result<bool, ModelFault>
    requires { member.1 ≡ is.Truth }
    ensures { Gives model_fault (λ b. b) result (member_from truth_from member.0.now (view object.now)) }
{
    value_at(object, member)?.as_bool().ok_or(ModelFault::Shape)
}

fn lower_at(object: &Value, member: Member) -> Result<u32, ModelFault>
    requires { member.1 ≡ is.Lower }
    ensures tree { Gives model_fault (λ n. n) result (member_from lower_from member.0.now (view object.now)) }
    ensures fits { IfOk result (λ n. n ≤ MAX_BOUND) }
{
    lower_in(value_at(object, member)?).ok_or(ModelFault::Shape)
}

fn upper_at(object: &Value, member: Member) -> Result<Option<u32>, ModelFault>
    requires { member.1 ≡ is.Upper }
    ensures tree { Gives model_fault (λ n. n) result (member_from upper_from member.0.now (view object.now)) }
    ensures fits { IfOk result (λ upper. IfSome upper (λ u. u ≤ MAX_BOUND)) }
{
    upper_in(value_at(object, member)?).ok_or(ModelFault::Shape)
}

fn list_at<'v>(object: &'v Value, member: Member) -> Result<&'v [Value], ModelFault>
    requires { member.1 ≡ is.List }
    ensures { Gives model_fault (λ vs. map view vs.now) result (member_from trees_from member.0.now (view object.now)) }
{
    list(value_at(object, member)?)
}

fn names_at(alloc: Global, object: &Value, member: Member) -> Result<Items<Text>, ModelFault>
    requires { member.1 ≡ is.Names }
    ensures tree { Gives model_fault (λ ns. ns) result (member_from names_from member.0.now (view object.now)) }
    ensures fits { IfOk result (λ ns. All IsModelName ns) }
{
    Ok(Items::new(each_of::<Text>(alloc, list(value_at(object, member)?)?)?))
}

fn end_at(alloc: Global, object: &Value, member: Member) -> Result<WrittenEnd, ModelFault>
    requires { member.1 ≡ is.Object }
    ensures tree { Gives model_fault (λ e. e) result (member_from end_from member.0.now (view object.now)) }
    ensures fits { IfOk result IsSpelledEnd }
{
    end_of(alloc, value_at(object, member)?)
}

#[tactic(auto, unfolding(crate::specs::Shape::attribute_from))]
fn attribute_of(alloc: Global, value: &Value) -> Result<WrittenAttribute, ModelFault>
    ensures tree { Gives model_fault (λ a. a) result (attribute_from (view value.now)) }
    ensures fits { IfOk result IsSpelledAttribute }
{
    record(value, ATTRIBUTE.len())?;
    let [name, element, lower, upper, ordered, unique] = ATTRIBUTE;
    Ok(WrittenAttribute {
        name: name_at(alloc, value, name)?,
        element: name_at(alloc, value, element)?,
        lower: lower_at(value, lower)?,
        upper: upper_at(value, upper)?,
        ordered: truth_at(value, ordered)?,
        unique: truth_at(value, unique)?,
    })
}

#[tactic(auto, unfolding(crate::specs::Shape::class_from))]
fn class_of(alloc: Global, value: &Value) -> Result<WrittenClass, ModelFault>
    ensures tree { Gives model_fault (λ c. c) result (class_from (view value.now)) }
    ensures fits { IfOk result IsSpelledClass }
{
    record(value, CLASS.len())?;
    let [name, is_abstract, supers, attributes] = CLASS;
    Ok(WrittenClass {
        name: name_at(alloc, value, name)?,
        is_abstract: truth_at(value, is_abstract)?,
        supers: names_at(alloc, value, supers)?,
        attributes: Items::new(each_of::<WrittenAttribute>(alloc, list_at(value, attributes)?)?),
    })
}

#[tactic(auto, unfolding(crate::specs::Shape::enumeration_from))]
fn enumeration_of(alloc: Global, value: &Value) -> Result<WrittenEnumeration, ModelFault>
    ensures tree { Gives model_fault (λ e. e) result (enumeration_from (view value.now)) }
    ensures fits { IfOk result IsSpelledEnumeration }
{
    record(value, ENUMERATION.len())?;
    let [name, literals] = ENUMERATION;
    Ok(WrittenEnumeration {
        name: name_at(alloc, value, name)?,
        literals: names_at(alloc, value, literals)?,
    })
}

#[tactic(auto, unfolding(crate::specs::Shape::end_from))]
fn end_of(alloc: Global, value: &Value) -> Result<WrittenEnd, ModelFault>
    ensures tree { Gives model_fault (λ e. e) result (end_from (view value.now)) }
    ensures fits { IfOk result IsSpelledEnd }
{
    record(value, END.len())?;
    let [name, lower, upper, ordered] = END;
    Ok(WrittenEnd {
        name: name_at(alloc, value, name)?,
        lower: lower_at(value, lower)?,
        upper: upper_at(value, upper)?,
        ordered: truth_at(value, ordered)?,
    })
}

#[tactic(auto, unfolding(crate::specs::Shape::association_from))]
fn association_of(alloc: Global, value: &Value) -> Result<WrittenAssociation, ModelFault>
    ensures tree { Gives model_fault (λ a. a) result (association_from (view value.now)) }
    ensures fits { IfOk result IsSpelledAssociation }
{
    record(value, ASSOCIATION.len())?;
    let [name, from, to, end, opposite] = ASSOCIATION;
    Ok(WrittenAssociation {
        name: name_at(alloc, value, name)?,
        from: name_at(alloc, value, from)?,
        to: name_at(alloc, value, to)?,
        end: end_at(alloc, value, end)?,
        opposite: end_at(alloc, value, opposite)?,
    })
}

#[tactic(auto, unfolding(crate::specs::Shape::class_rename_from))]
fn class_rename_of(alloc: Global, value: &Value) -> Result<WrittenRename, ModelFault>
    ensures tree { Gives model_fault (λ r. r) result (class_rename_from (view value.now)) }
    ensures fits { IfOk result IsSpelledRename }
{
    record(value, CLASS_RENAME.len())?;
    let [old, new] = CLASS_RENAME;
    let old = name_at(alloc, value, old)?;
    let new = name_at(alloc, value, new)?;
    Ok(WrittenRename::Class(WrittenClassRename { old, new }))
}

#[tactic(auto, unfolding(crate::specs::Shape::feature_rename_from))]
fn feature_rename_of(alloc: Global, value: &Value) -> Result<WrittenRename, ModelFault>
    ensures tree { Gives model_fault (λ r. r) result (feature_rename_from (view value.now)) }
    ensures fits { IfOk result IsSpelledRename }
{
    record(value, FEATURE_RENAME.len())?;
    let [class, old, new] = FEATURE_RENAME;
    let class = name_at(alloc, value, class)?;
    let old = name_at(alloc, value, old)?;
    let new = name_at(alloc, value, new)?;
    Ok(WrittenRename::Feature(WrittenFeatureRename { class, old, new }))
}

#[tactic(auto, unfolding(crate::specs::Shape::rename_from))]
fn rename_of(alloc: Global, value: &Value) -> Result<WrittenRename, ModelFault>
    ensures tree { Gives model_fault (λ r. r) result (rename_from (view value.now)) }
    ensures fits { IfOk result IsSpelledRename }
{
    let [class, ..] = FEATURE_RENAME;
    match value.get(class.0) {
        Some(_) => feature_rename_of(alloc, value),
        None => class_rename_of(alloc, value),
    }
}

/// The old names that a JSON tree writes: an optional member.
fn renames_of(alloc: Global, value: &Value) -> Result<Vec<WrittenRename>, ModelFault>
    ensures tree { Gives model_fault (λ v. v.items) result
        (renames_in (get (codes "renames") (view value.now))) }
    ensures fits { IfOk result (λ v. All IsSpelledRename v.items) }
{
    match value.get(RENAMES.0) {
        Some(renames) => each_of::<WrittenRename>(alloc, list(renames)?),
        None => Ok(Vec::new(alloc)),
    }
}

impl Spelled for Text {
    ghost use Rattle.imkl_model.specs.Shape.{name_from};
    ghost use Rattle.imkl_model.specs.WellFormed.{IsModelName};

    ghost spelled = { name_from };

    ghost fits = { IsModelName };

    fn of(alloc: Global, value: &Value) -> Result<Self, ModelFault> {
        name_of(alloc, value)
    }
}

impl Spelled for WrittenAttribute {
    ghost use Rattle.imkl_model.specs.Shape.{attribute_from};
    ghost use Rattle.imkl_model.specs.Spelled.{IsSpelledAttribute};

    ghost spelled = { attribute_from };

    ghost fits = { IsSpelledAttribute };

    fn of(alloc: Global, value: &Value) -> Result<Self, ModelFault> {
        attribute_of(alloc, value)
    }
}

impl Spelled for WrittenClass {
    ghost use Rattle.imkl_model.specs.Shape.{class_from};
    ghost use Rattle.imkl_model.specs.Spelled.{IsSpelledClass};

    ghost spelled = { class_from };

    ghost fits = { IsSpelledClass };

    fn of(alloc: Global, value: &Value) -> Result<Self, ModelFault> {
        class_of(alloc, value)
    }
}

impl Spelled for WrittenEnumeration {
    ghost use Rattle.imkl_model.specs.Shape.{enumeration_from};
    ghost use Rattle.imkl_model.specs.Spelled.{IsSpelledEnumeration};

    ghost spelled = { enumeration_from };

    ghost fits = { IsSpelledEnumeration };

    fn of(alloc: Global, value: &Value) -> Result<Self, ModelFault> {
        enumeration_of(alloc, value)
    }
}

impl Spelled for WrittenAssociation {
    ghost use Rattle.imkl_model.specs.Shape.{association_from};
    ghost use Rattle.imkl_model.specs.Spelled.{IsSpelledAssociation};

    ghost spelled = { association_from };

    ghost fits = { IsSpelledAssociation };

    fn of(alloc: Global, value: &Value) -> Result<Self, ModelFault> {
        association_of(alloc, value)
    }
}

impl Spelled for WrittenRename {
    ghost use Rattle.imkl_model.specs.Shape.{rename_from};
    ghost use Rattle.imkl_model.specs.Spelled.{IsSpelledRename};

    ghost spelled = { rename_from };

    ghost fits = { IsSpelledRename };

    fn of(alloc: Global, value: &Value) -> Result<Self, ModelFault> {
        rename_of(alloc, value)
    }
}

/// The class model that a JSON tree writes.
#[tactic(auto, unfolding(crate::specs::Shape::written_from))]
pub(crate) fn written_of(alloc: Global, value: &Value) -> Result<Written, ModelFault>
    ensures tree { Gives model_fault (λ w. w) result (written_from (view value.now)) }
    ensures fits { IfOk result IsSpelled }
{
    record(value, MODEL.len() + member_count(value, RENAMES.0))?;
    let [name, enumerations, classes, associations] = MODEL;
    let name = title_at(alloc, value, name)?;
    let enumerations = each_of::<WrittenEnumeration>(alloc, list_at(value, enumerations)?)?;
    let classes = each_of::<WrittenClass>(alloc, list_at(value, classes)?)?;
    let associations = each_of::<WrittenAssociation>(alloc, list_at(value, associations)?)?;
    let renames = renames_of(alloc, value)?;
    let old_classes = class_renames(alloc, &renames)?;
    let old_features = feature_renames(alloc, &renames)?;
    Ok(Written {
        name,
        enumerations: Items::new(enumerations),
        classes: Items::new(classes),
        associations: Items::new(associations),
        class_renames: Items::new(old_classes),
        feature_renames: Items::new(old_features),
    })
}
