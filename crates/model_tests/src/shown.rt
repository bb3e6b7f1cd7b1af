//! A population as text.

ghost use Rattle.std.specs.Prelude.{◌<◌, length, IfSome};

use imkl_model::{ClassNo, FeatureNo};
use imkl_population::{ObjectNo, Population, Scalar};
use ocl_base::OutOfMemory;
use std::alloc::Global;

/// A value as the rows of calls write it.
fn put_value(value: &Scalar, out: &mut String) -> Result<(), OutOfMemory> {
    match value {
        Scalar::Bool(truth) => write!(out, " {truth}")?,
        Scalar::Int(number) => write!(out, " {number}")?,
        Scalar::Text(text) => {
            let text = text.as_str();
            write!(out, " '{text}")?
        }
        Scalar::Literal(_, literal) => {
            let literal = literal.index();
            write!(out, " ::{literal}")?
        }
        Scalar::Object(object) => {
            let object = object.index();
            write!(out, " @{object}")?
        }
    }
    Ok(())
}

/// The line of a feature of an object, if it has values there.
fn put_feature(
    population: &Population<'_>,
    object: ObjectNo,
    feature: FeatureNo,
    out: &mut String,
) -> Result<(), OutOfMemory>
    requires object { object < length population.now.content.objects }
    requires feature { feature < length population.now.content.model.features }
{
    let model = population.model();
    if !model.belongs(population.class_of(object), feature) {
        return Ok(());
    }
    let (start, end) = population.range(object, feature);
    if start == end {
        return Ok(());
    }
    let id = population.id(object);
    let name = model.feature_info(feature).name.as_str();
    write!(out, "{id}.{name}:")?;
    for value in &population.scalars()[start..end] {
        put_value(value, out)?;
    }
    writeln!(out, "")?;
    Ok(())
}

/// The lines of an object.
fn put_object(
    population: &Population<'_>,
    object: ObjectNo,
    out: &mut String,
) -> Result<(), OutOfMemory>
    requires { object < length population.now.content.objects }
{
    for feature in 0..population.model().feature_count() {
        put_feature(population, object, FeatureNo::new(feature), out)?;
    }
    Ok(())
}

fn put_values(population: &Population<'_>, out: &mut String) -> Result<(), OutOfMemory> {
    let objects = population.objects();
    let values = population.scalars().len();
    writeln!(out, "{objects} objects, {values} values")?;
    for object in 0..objects {
        population.consistent();
        put_object(population, ObjectNo::new(object), out)?;
    }
    Ok(())
}

/// How many objects and values there are, and the values, those of a feature of an object in a line: `k.themas: ::1 ::0`.
pub(crate) fn values_of(alloc: Global, population: &Population<'_>) -> Result<String, OutOfMemory> {
    let mut out = String::new(alloc);
    put_values(population, &mut out)?;
    Ok(out)
}

/// The first class before a class whose instances stand at the same place of the list of all.
fn shared_with(population: &Population<'_>, class: ClassNo) -> Option<ClassNo>
    requires { class < length population.now.content.model.classes }
    ensures { IfSome result (λ c. c < length population.now.content.model.classes) }
{
    let range = population.instance_range(class);
    for earlier in 0..class.index() {
        let earlier = ClassNo::new(earlier);
        if population.instance_range(earlier) == range {
            return Some(earlier);
        }
    }
    None
}

/// The line of a class: its objects by their numbers, or the class before it with which it shares them.
fn put_class(
    population: &Population<'_>,
    class: ClassNo,
    out: &mut String,
) -> Result<(), OutOfMemory>
    requires { class < length population.now.content.model.classes }
{
    let model = population.model();
    let name = model.class_name(class);
    write!(out, "{name}:")?;
    if let Some(earlier) = shared_with(population, class) {
        let earlier = model.class_name(earlier);
        write!(out, " as {earlier}")?;
    } else {
        let (start, end) = population.instance_range(class);
        for object in &population.instance_list()[start..end] {
            let object = object.index();
            write!(out, " {object}")?;
        }
    }
    writeln!(out, "")?;
    Ok(())
}

fn put_classes(population: &Population<'_>, out: &mut String) -> Result<(), OutOfMemory> {
    for class in 0..population.model().class_count() {
        put_class(population, ClassNo::new(class), out)?;
    }
    Ok(())
}

/// The instances of each class, in a line: `Net: 0 1`, or `Gebied: as Net` where both share one list.
pub(crate) fn classes_of(
    alloc: Global,
    population: &Population<'_>,
) -> Result<String, OutOfMemory> {
    let mut out = String::new(alloc);
    put_classes(population, &mut out)?;
    Ok(out)
}
