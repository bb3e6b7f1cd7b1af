//! Class models: names by their numbers, equal content, and the texts of faults.

ghost use Rattle.std.specs.Prelude.{◌<◌, length};

use crate::building::first_wrong;
use imkl_model::{ClassModel, ClassNo, EnumNo, FeatureNo, LiteralNo, ModelFault};
use ocl_base::OutOfMemory;
use std::alloc::Global;
use std::test::Fail;
use test_support::CATALOGUE;

/// What is asked of a class model.
#[derive(Clone, Copy)]
pub(crate) enum Question<'t> {
    /// Its names, in the order of their numbers.
    Names,
    /// Whether this class model has the same content.
    SameAs(&'t str),
    /// The first row of calls on a builder that isn't answered as it must be.
    Calls(&'t str),
}

fn put_literals(
    model: &ClassModel,
    enumeration: EnumNo,
    out: &mut String,
) -> Result<(), OutOfMemory>
    requires { enumeration < length model.now.enumerations }
{
    let name = model.enum_name(enumeration);
    write!(out, "{name}:")?;
    for literal in 0..model.literal_count(enumeration) {
        let name = model.literal_name(enumeration, LiteralNo::new(literal));
        write!(out, " {name}")?;
    }
    writeln!(out, "")?;
    Ok(())
}

fn put_names(model: &ClassModel, out: &mut String) -> Result<(), OutOfMemory> {
    let name = model.name();
    writeln!(out, "{name}")?;
    for enumeration in 0..model.enumeration_count() {
        put_literals(model, EnumNo::new(enumeration), out)?;
    }
    write!(out, "classes:")?;
    for class in 0..model.class_count() {
        let name = model.class_name(ClassNo::new(class));
        write!(out, " {name}")?;
    }
    write!(out, "\nfeatures:")?;
    for feature in 0..model.feature_count() {
        let name = model.feature_info(FeatureNo::new(feature)).name.as_str();
        write!(out, " {name}")?;
    }
    Ok(())
}

fn names_of(alloc: Global, model: &ClassModel) -> Result<String, OutOfMemory> {
    let mut out = String::new(alloc);
    put_names(model, &mut out)?;
    Ok(out)
}

/// Whether a class model has the content of another, asked of both.
fn sameness(alloc: Global, model: &ClassModel, other: &str) -> &'static str {
    match ClassModel::read(alloc, other.as_bytes()) {
        Ok(other) => match (model.same_as(&other), other.same_as(model)) {
            (true, true) => "same",
            (false, false) => "different",
            _ => "same from one side",
        },
        Err(_) => "no class model",
    }
}

fn answer_of(
    alloc: Global,
    model: &ClassModel,
    question: Question<'_>,
) -> Result<String, OutOfMemory> {
    match question {
        Question::Names => names_of(alloc, model),
        Question::SameAs(other) => Ok(String::from_str(alloc, sameness(alloc, model, other))?),
        Question::Calls(rows) => first_wrong(alloc, model, rows),
    }
}

/// The answer to a question about the class model of a text.
pub(crate) fn ask(
    alloc: Global,
    text: &str,
    question: Question<'_>,
) -> Result<String, OutOfMemory> {
    match ClassModel::read(alloc, text.as_bytes()) {
        Ok(model) => answer_of(alloc, &model, question),
        Err(fault) => Ok(format!(in alloc; "{fault:?}")?),
    }
}

#[test]
fn all_is_numbered_in_the_files_order(rt: HostRuntime) -> Result<(), Fail> {
    let names = ask(rt.alloc(), CATALOGUE, Question::Names)?;
    assert_eq!(rt;
        names.as_str(),
        "imkl-profile
Thema: elektriciteit water riool telecom
classes: KabelOfLeiding Elektriciteitskabel Waterleiding Mantelbuis Utiliteitsnet
features: identificatie diepte spanning diameter diameter thema omvat ligtIn leidingen net"
    );
    Ok(())
}

/// What is said of the contents of two class models: those of a text with one or another in the place of a mark.
fn compared(
    alloc: Global,
    text: &str,
    mark: &str,
    one: &str,
    other: &str,
) -> Result<String, OutOfMemory> {
    let one = text.replace(alloc, mark, one)?;
    let other = text.replace(alloc, mark, other)?;
    ask(alloc, one.as_str(), Question::SameAs(other.as_str()))
}

/// The cells of a row.
fn cells(row: &str) -> Option<(&str, &str, &str)> {
    let (answer, rest) = row.split_once("|")?;
    let (one, other) = rest.split_once("|")?;
    Some((answer, one, other))
}

/// What is said where a part of the catalogue is replaced. The order of members, and what one value forgets, say nothing;
/// everything else is content.
const CHANGES: &str =
    r#"same|"upper":1,"ordered":false,"unique":true|"unique":false,"ordered":true,  "upper":1
different|"abstract":true|"abstract":false
different|"riool","telecom"|"telecom","riool"
different|"upper":null|"upper":7
different|"lower":0,"upper":null|"lower":1,"upper":null
different|"name":"bestaatUit"|"name":"bestaat"
different|imkl-profile|imkl
different|"type":"Thema"|"type":"String"
different|"upper":null,"ordered":false|"upper":null,"ordered":true"#;

fn changes(alloc: Global, row: &str) -> Result<bool, OutOfMemory> {
    match cells(row) {
        Some((answer, from, to)) => {
            Ok(compared(alloc, CATALOGUE, from, from, to)?.as_str() == answer)
        }
        None => Ok(false),
    }
}

#[test]
fn all_but_the_order_of_members_is_content(rt: HostRuntime) -> Result<(), Fail> {
    for row in CHANGES.lines() {
        assert!(rt; changes(rt.alloc(), row)?, "{row}");
    }
    Ok(())
}

/// A class model with old names in the place of the mark `@`.
const RENAMED: &str = r#"{"model":"m","enums":[],"classes":[
{"name":"A","abstract":false,"supers":[],"attributes":[
{"name":"x","type":"Integer","lower":0,"upper":1,"ordered":false,"unique":true}]},
{"name":"B","abstract":false,"supers":["A"],"attributes":[
{"name":"y","type":"Integer","lower":0,"upper":1,"ordered":false,"unique":true}]},
{"name":"N","abstract":false,"supers":[],"attributes":[
{"name":"w","type":"Integer","lower":0,"upper":1,"ordered":false,"unique":true}]}],
"associations":[],"renames":[@]}"#;

/// What is said of class models with these old names.
const OLD_NAMES: &str =
    r#"same|{"class":"A","old":"o","new":"x"},{"old":"O","new":"A"},{"class":"N","old":"x","new":"w"},{"old":"P","new":"B"},{"class":"B","old":"p","new":"y"}|{"class":"A","old":"o","new":"x"},{"old":"O","new":"A"},{"class":"N","old":"x","new":"w"},{"old":"P","new":"B"},{"class":"B","old":"p","new":"y"}
different||{"old":"O","new":"A"}
different||{"class":"A","old":"o","new":"x"}
different|{"old":"O","new":"A"}|{"old":"O","new":"B"}
different|{"old":"O","new":"A"}|{"old":"P","new":"A"}
different|{"class":"A","old":"o","new":"x"}|{"class":"A","old":"p","new":"x"}
different|{"class":"A","old":"o","new":"x"}|{"class":"N","old":"o","new":"w"}
different|{"old":"O","new":"A"},{"old":"P","new":"B"}|{"old":"P","new":"B"},{"old":"O","new":"A"}"#;

fn renames(alloc: Global, row: &str) -> Result<bool, OutOfMemory> {
    match cells(row) {
        Some((answer, one, other)) => {
            Ok(compared(alloc, RENAMED, "@", one, other)?.as_str() == answer)
        }
        None => Ok(false),
    }
}

#[test]
fn old_names_and_their_order_are_content(rt: HostRuntime) -> Result<(), Fail> {
    for row in OLD_NAMES.lines() {
        assert!(rt; renames(rt.alloc(), row)?, "{row}");
    }
    Ok(())
}

/// The texts of all faults, in the order of their numbers.
fn fault_texts(alloc: Global) -> Result<String, OutOfMemory> {
    let faults = [
        ModelFault::NotJson,
        ModelFault::Shape,
        ModelFault::DuplicateName,
        ModelFault::UnknownName,
        ModelFault::Cycle,
        ModelFault::FeatureClash,
        ModelFault::BadMultiplicity,
        ModelFault::Limit,
        ModelFault::OutOfMemory,
    ];
    let mut out = String::new(alloc);
    for fault in faults {
        writeln!(out, "{fault}")?;
    }
    Ok(out)
}

#[test]
fn faults_have_texts(rt: HostRuntime) -> Result<(), Fail> {
    let texts = fault_texts(rt.alloc())?;
    assert_eq!(rt;
        texts.as_str(),
        "not JSON
not the shape of a class model
a name stands twice
a name is unknown
a class is above itself
two features of one name belong to one class
a multiplicity that nothing meets
too large a class model
out of memory
"
    );
    Ok(())
}
