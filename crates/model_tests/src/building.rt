//! Rows of calls on a builder: `CALL: RESULT`, where the result is `done` or a fault as it is shown. After the line
//! `values` or `classes` the builder is finished, and the rest is what is shown of the population, or the fault.

ghost use Rattle.std.specs.Prelude.{◌<◌, length, IfSome};

use crate::shown::{classes_of, values_of};
use imkl_model::{ClassModel, EnumNo, FeatureNo, LiteralNo};
use imkl_population::{ObjectNo, PopulationBuilder, PopulationFault, Scalar, ScalarText};
use ocl_base::OutOfMemory;
use std::alloc::Global;

/// What a call answers; None where its words make no call.
type Answer = Option<Result<(), PopulationFault>>;

/// An object by its number, which has 32 bits.
fn object_number(index: &str) -> Option<ObjectNo> {
    Some(ObjectNo::new(index.parse::<u32>().ok()? as usize))
}

/// A value: `'a`, `-7`, `true`, `::1` for a literal of the first enumeration, `@2` for an object, both by their numbers.
fn scalar(alloc: Global, word: &str) -> Option<Scalar> {
    if let Some(text) = word.strip_prefix('\'') {
        let text = String::from_str(alloc, text).ok()?;
        return Some(Scalar::Text(ScalarText::new(text)));
    }
    if let Some(index) = word.strip_prefix("::") {
        let literal = LiteralNo::new(index.parse::<usize>().ok()?);
        return Some(Scalar::Literal(EnumNo::new(0), literal));
    }
    if let Some(index) = word.strip_prefix('@') {
        return Some(Scalar::Object(object_number(index)?));
    }
    match word {
        "true" => Some(Scalar::Bool(true)),
        "false" => Some(Scalar::Bool(false)),
        _ => Some(Scalar::Int(word.parse::<i64>().ok()?)),
    }
}

fn scalars(alloc: Global, words: &str) -> Option<Vec<Scalar>> {
    let mut scalars = Vec::new(alloc);
    for word in words.split_whitespace() {
        scalars.push(scalar(alloc, word)?).ok()?;
    }
    Some(scalars)
}

/// An object by its id, or by its number, as `@4`.
fn object(builder: &PopulationBuilder<'_>, word: &str) -> Option<ObjectNo> {
    match word.strip_prefix('@') {
        Some(index) => object_number(index),
        None => builder.object(word),
    }
}

fn objects(alloc: Global, builder: &PopulationBuilder<'_>, words: &str) -> Option<Vec<ObjectNo>> {
    let mut objects = Vec::new(alloc);
    for word in words.split_whitespace() {
        objects.push(object(builder, word)?).ok()?;
    }
    Some(objects)
}

/// The object and the feature of `ID CLASS.FEATURE`, which may be a feature of another class than the object's.
fn place(builder: &PopulationBuilder<'_>, words: &str) -> Option<(ObjectNo, FeatureNo)>
    ensures object { IfSome result (λ r. r.0 < length builder.now.objects) }
    ensures feature { IfSome result (λ r. r.1 < length builder.now.model.features) }
{
    let (id, name) = words.split_once(' ')?;
    let object = builder.object(id)?;
    let (class, name) = name.split_once('.')?;
    let model = builder.model();
    let feature = model.feature(model.class(class)?, name)?;
    Some((object, feature))
}

/// `add CLASS ID`.
fn add(builder: &mut PopulationBuilder<'_>, words: &str) -> Answer {
    let (class, id) = words.split_once(' ')?;
    let class = builder.model().class(class)?;
    match builder.add_object(id, class) {
        Ok(_object) => Some(Ok(())),
        Err(fault) => Some(Err(fault)),
    }
}

/// `fill COUNT`: adds so many ducts, o0, o1 and so on.
fn fill(builder: &mut PopulationBuilder<'_>, alloc: Global, count: &str) -> Answer {
    for number in 0..count.parse::<usize>().ok()? {
        let words = format!(in alloc; "Buis o{number}").ok()?;
        if let Err(fault) = add(builder, words.as_str())? {
            return Some(Err(fault));
        }
    }
    Some(Ok(()))
}

/// `set ID CLASS.FEATURE = VALUES`.
fn set(builder: &mut PopulationBuilder<'_>, alloc: Global, words: &str) -> Answer {
    let (words, values) = words.split_once(" =")?;
    let (object, feature) = place(builder, words)?;
    let values = scalars(alloc, values)?;
    Some(builder.set_value(object, feature, values))
}

/// What an attribute is set to in turn.
const IN_TURN: [&str; 4] = ["", " 7", " 1 2 3 4 5", " -1 0"];

/// `repeat COUNT ID CLASS.FEATURE`: sets an attribute so many times, to none and to some numbers in turn.
fn repeat(builder: &mut PopulationBuilder<'_>, alloc: Global, words: &str) -> Answer {
    let (count, attribute) = words.split_once(' ')?;
    for number in 0..count.parse::<usize>().ok()? {
        let values = IN_TURN[number % 4];
        let words = format!(in alloc; "{attribute} ={values}").ok()?;
        if let Err(fault) = set(builder, alloc, words.as_str())? {
            return Some(Err(fault));
        }
    }
    Some(Ok(()))
}

/// `link ID CLASS.FEATURE = OBJECTS`.
fn link(builder: &mut PopulationBuilder<'_>, alloc: Global, words: &str) -> Answer {
    let (words, targets) = words.split_once(" =")?;
    let (object, feature) = place(builder, words)?;
    let targets = objects(alloc, builder, targets)?;
    Some(builder.link(object, feature, &targets))
}

fn call(builder: &mut PopulationBuilder<'_>, alloc: Global, row: &str) -> Answer {
    let (verb, words) = row.split_once(' ')?;
    match verb {
        "add" => add(builder, words),
        "fill" => fill(builder, alloc, words),
        "set" => set(builder, alloc, words),
        "repeat" => repeat(builder, alloc, words),
        "link" => link(builder, alloc, words),
        _ => None,
    }
}

/// Whether a row is so.
fn is_so(
    builder: &mut PopulationBuilder<'_>,
    alloc: Global,
    row: &str,
) -> Result<bool, OutOfMemory> {
    let (words, answer) = row.split_once(": ").unwrap_or((row, ""));
    match call(builder, alloc, words) {
        Some(Ok(())) => Ok(answer == "done"),
        Some(Err(fault)) => {
            let found = format!(in alloc; "{fault:?}")?;
            Ok(found.as_str() == answer)
        }
        None => Ok(false),
    }
}

/// The first row that isn't so; empty where all are so.
fn first_wrong_call<'t>(
    builder: &mut PopulationBuilder<'_>,
    alloc: Global,
    rows: &'t str,
) -> Result<&'t str, OutOfMemory> {
    for row in rows.lines() {
        if !is_so(builder, alloc, row)? {
            return Ok(row);
        }
    }
    Ok("")
}

/// How a builder is finished: what is shown of the population, or the fault.
fn end_of(
    alloc: Global,
    builder: PopulationBuilder<'_>,
    classes: bool,
) -> Result<String, OutOfMemory> {
    match builder.finish() {
        Ok(population) if classes => classes_of(alloc, &population),
        Ok(population) => values_of(alloc, &population),
        Err(fault) => Ok(format!(in alloc; "{fault:?}")?),
    }
}

/// Finishes, and gives what is shown where that isn't what is wanted; else nothing.
fn wrong_end(
    alloc: Global,
    builder: PopulationBuilder<'_>,
    classes: bool,
    wanted: &str,
) -> Result<String, OutOfMemory> {
    let found = end_of(alloc, builder, classes)?;
    if found.as_str() == wanted {
        Ok(String::new(alloc))
    } else {
        Ok(found)
    }
}

/// The calls, whether classes are shown in the place of values, and what is wanted at the end, if the builder is finished.
fn parts(rows: &str) -> (&str, bool, Option<&str>) {
    match (rows.split_once("values\n"), rows.split_once("classes\n")) {
        (Some((calls, wanted)), _) => (calls, false, Some(wanted)),
        (None, Some((calls, wanted))) => (calls, true, Some(wanted)),
        (None, None) => (rows, false, None),
    }
}

fn first_wrong_by(
    alloc: Global,
    builder: PopulationBuilder<'_>,
    rows: &str,
) -> Result<String, OutOfMemory> {
    let mut builder = builder;
    let (calls, classes, wanted) = parts(rows);
    let wrong = first_wrong_call(&mut builder, alloc, calls)?;
    match wanted {
        Some(wanted) if wrong == "" => wrong_end(alloc, builder, classes, wanted),
        _ => Ok(String::from_str(alloc, wrong)?),
    }
}

/// The first row that isn't so, or what is shown at the end where that isn't what is wanted; else nothing. The builder has
/// room for no object, or after `room 3` for three.
pub(crate) fn first_wrong(
    alloc: Global,
    model: &ClassModel,
    rows: &str,
) -> Result<String, OutOfMemory> {
    match rows.strip_prefix("room 3\n") {
        Some(rest) => {
            first_wrong_by(
                alloc,
                PopulationBuilder::with_capacity(alloc, model, 3)?,
                rest,
            )
        }
        None => first_wrong_by(alloc, PopulationBuilder::new(alloc, model), rows),
    }
}
