//! Operations on objects: tests of their classes, and what is read of them.

ghost use Rattle.std.specs.Prelude.{◌≡◌, ◌<◌, length, map, IfOk, Some, true};
ghost use Rattle.imkl_model.specs.ClassModel.{feature_at, belongs};
ghost use Rattle.imkl_population.specs.Population.{class_of, values_of};
ghost use Rattle.rule_values.specs.Operations.{kind_test, type_test, cast, or_invalid, feature_value, value_read, all_instances};
ghost use Rattle.owned_values.specs.Meant.{meant, meant_element, meant_elements, IsValueThere};
ghost use Rattle.owned_values.specs.Walks.{objects_meant};

use crate::value::{Element, Value};
use imkl_model::{ClassNo, FeatureNo};
use imkl_population::{ObjectNo, Population, Scalar};
use ocl_base::{CollectionKind, OutOfMemory, push};
use std::alloc::Global;

/// Whether an object's class is a class or a subclass of it.
pub fn kind_test<'a>(population: &Population<'_>, class: ClassNo, v: &Value<'_>) -> Value<'a>
    requires class { class < length population.now.content.model.classes }
    requires there { IsValueThere population.now.content (meant v.now) }
    ensures { meant result ≡ kind_test population.now.content class (meant v.now) }
{
    match v {
        Value::Element(Element::Object(o)) => {
            let own = population.class_of(*o);
            Value::Element(Element::Bool(population.model().conforms(own, class)))
        }
        _ => Value::Invalid,
    }
}

/// Whether an object's class is a class itself.
pub fn type_test<'a>(population: &Population<'_>, class: ClassNo, v: &Value<'_>) -> Value<'a>
    requires there { IsValueThere population.now.content (meant v.now) }
    ensures { meant result ≡ type_test population.now.content class (meant v.now) }
{
    match v {
        Value::Element(Element::Object(o)) => {
            let own = population.class_of(*o);
            Value::Element(Element::Bool(own.index() == class.index()))
        }
        _ => Value::Invalid,
    }
}

/// The object, invalid where it isn't of a class.
pub fn cast<'a>(population: &Population<'_>, class: ClassNo, v: &Value<'_>) -> Value<'a>
    requires class { class < length population.now.content.model.classes }
    requires there { IsValueThere population.now.content (meant v.now) }
    ensures { meant result ≡ cast population.now.content class (meant v.now) }
{
    match v {
        Value::Element(Element::Object(o)) => {
            let own = population.class_of(*o);
            if population.model().conforms(own, class) {
                Value::Element(Element::Object(*o))
            } else {
                Value::Invalid
            }
        }
        _ => Value::Invalid,
    }
}

/// A value of a population as an element.
fn item_of(scalar: &Scalar) -> Element<'_>
    ensures { meant_element result ≡ Some scalar.now }
{
    match scalar {
        Scalar::Bool(b) => Element::Bool(*b),
        Scalar::Int(n) => Element::Int(*n),
        Scalar::Text(text) => Element::Text(text.as_str()),
        Scalar::Literal(enumeration, literal) => Element::Literal(*enumeration, *literal),
        Scalar::Object(object) => Element::Object(*object),
    }
}

/// Values of a population as elements.
fn elements_of<'p>(alloc: Global, scalars: &'p [Scalar]) -> Result<Vec<Element<'p>>, OutOfMemory>
    ensures { IfOk result (λ v. meant_elements v.items ≡ map Some scalars.now) }
{
    let mut elements = Vec::with_capacity(alloc, scalars.len())?;
    for scalar in scalars {
        push(&mut elements, item_of(scalar))?;
    }
    Ok(elements)
}

/// The value of a feature: the value itself where its upper bound is 1, null where there is none; else a collection.
fn feature_value<'p>(
    alloc: Global,
    population: &'p Population<'_>,
    object: ObjectNo,
    feature: FeatureNo,
) -> Result<Value<'p>, OutOfMemory>
    requires object { object < length population.now.content.objects }
    requires feature { feature < length population.now.content.model.features }
    requires belongs { belongs population.now.content.model (class_of population.now.content object)
        feature ≡ true }
    ensures { IfOk result (λ v. meant v ≡ feature_value (feature_at population.now.content.model
        feature) (values_of population.now.content object feature)) }
{
    let info = population.model().feature_info(feature);
    let values = population.values(object, feature);
    if info.is_single() {
        return Ok(match values {
            [] => Value::Element(Element::Null),
            [value, ..] => Value::Element(item_of(value)),
        });
    }
    let elements = elements_of(alloc, values)?;
    Ok(Value::Collection(info.kind, elements))
}

/// A feature of an object; of all else, and of an object whose class it doesn't belong to, it is invalid.
pub fn value_read<'p>(
    alloc: Global,
    population: &'p Population<'_>,
    feature: FeatureNo,
    v: &Value<'_>,
) -> Result<Value<'p>, OutOfMemory>
    requires feature { feature < length population.now.content.model.features }
    requires there { IsValueThere population.now.content (meant v.now) }
    ensures { IfOk result (λ r. meant r ≡
        or_invalid (value_read population.now.content feature (meant v.now))) }
{
    match v {
        Value::Element(Element::Object(o)) => {
            if population.model().belongs(population.class_of(*o), feature) {
                feature_value(alloc, population, *o, feature)
            } else {
                Ok(Value::Invalid)
            }
        }
        _ => Ok(Value::Invalid),
    }
}

/// Objects as elements.
fn object_elements<'a>(alloc: Global, objects: &[ObjectNo]) -> Result<Vec<Element<'a>>, OutOfMemory>
    ensures { IfOk result (λ v. meant_elements v.items ≡ objects_meant objects.now) }
{
    let mut elements = Vec::with_capacity(alloc, objects.len())?;
    for object in objects {
        push(&mut elements, Element::Object(*object))?;
    }
    Ok(elements)
}

/// The Set of a class's instances.
pub fn all_instances<'a>(
    alloc: Global,
    population: &Population<'_>,
    class: ClassNo,
) -> Result<Value<'a>, OutOfMemory>
    requires { class < length population.now.content.model.classes }
    ensures { IfOk result (λ v. meant v ≡ all_instances population.now.content class) }
{
    let elements = object_elements(alloc, population.instances(class))?;
    Ok(Value::Collection(CollectionKind::Set, elements))
}
