//! Calls on a builder that are made again, or left out.

ghost use Rattle.std.specs.Prelude.{◌<◌, length, IfSome};

use crate::met::{Met, met_nothing};
use imkl_model::{ClassModel, FeatureNo, ModelFault};
use imkl_population::{
    ObjectNo, Population, PopulationBuilder, PopulationFault, Scalar, ScalarText,
};
use std::alloc::Global;
use std::test::*;
use test_support::CATALOGUE;

/// The cable E1 in two ducts. A call is `add CLASS ID`, `set ID FEATURE = VALUE` or `link ID FEATURE = TARGETS`.
const HELD_TWICE: &str = "\
add Elektriciteitskabel E1
add Mantelbuis M1
add Mantelbuis M2
set E1 identificatie = 'a
set E1 spanning = 400
set M1 identificatie = 'm
set M1 diameter = 110
set M2 identificatie = 'n
set M2 diameter = 110
link M1 omvat = E1
link M2 omvat = E1";

/// A duct that holds two cables; values and targets are replaced by others.
const DUCT: &str = "\
add Mantelbuis M1
add Elektriciteitskabel E1
add Elektriciteitskabel E2
set M1 identificatie = 'm
set M1 diameter = 110
set E1 identificatie = 'b
set E1 identificatie = 'a
set E1 spanning = 400
set E1 diepte = 500
set E1 diepte = 600
set E2 identificatie = 'b
set E2 spanning = 400
link M1 omvat = E2
link M1 omvat = E1 E2";

/// The duct M1 holds E1, which has no depth, and not E2.
const FIRST_CABLE_IN_DUCT: &str = "\
add Mantelbuis M1
add Elektriciteitskabel E1
add Elektriciteitskabel E2
set M1 identificatie = 'm
set M1 diameter = 110
set E1 identificatie = 'a
set E1 spanning = 400
set E2 identificatie = 'b
set E2 spanning = 400
link M1 omvat = E1";

/// How a builder is finished.
#[derive(Clone, Copy)]
enum End {
    /// Refused: the object 0 has too many holders.
    TooManyHolders,
    /// Refused: the object 3 has too few values.
    TooFewValues,
    /// The object 0 is a duct that holds these, and the object 1 is a cable so deep, if it has a depth.
    Duct {
        holds: &'static [usize],
        depth: Option<i64>,
    },
}

/// Both cables lie in the duct.
const WHOLE_DUCT: End = End::Duct {
    holds: &[1, 2],
    depth: Some(600),
};

/// What `FIRST_CABLE_IN_DUCT` builds.
const HALF_DUCT: End = End::Duct {
    holds: &[1],
    depth: None,
};

/// A list of one value: a text behind a quote, or a number.
fn value_of(alloc: Global, word: &str) -> Option<Vec<Scalar>> {
    let value = match word.strip_prefix('\'') {
        Some(text) => Scalar::Text(ScalarText::new(String::from_str(alloc, text).ok()?)),
        None => Scalar::Int(word.parse().ok()?),
    };
    let mut values = Vec::new(alloc);
    values.push(value).ok()?;
    Some(values)
}

/// The objects of some ids.
fn objects_of(
    alloc: Global,
    builder: &PopulationBuilder<'_>,
    words: &str,
) -> Option<Vec<ObjectNo>> {
    let mut objects = Vec::new(alloc);
    for word in words.split(' ') {
        objects.push(builder.object(word)?).ok()?;
    }
    Some(objects)
}

/// The object and the feature of `ID FEATURE`.
fn place(builder: &PopulationBuilder<'_>, words: &str) -> Option<(ObjectNo, FeatureNo)>
    ensures object { IfSome result (λ r. r.0 < length builder.now.objects) }
    ensures feature { IfSome result (λ r. r.1 < length builder.now.model.features) }
{
    let (id, name) = words.split_once(' ')?;
    let object = builder.object(id)?;
    let feature = builder.model().feature(builder.class_of(object), name)?;
    Some((object, feature))
}

/// The answer to a call; None where what it is given couldn't be had.
type Answer = Option<Result<(), PopulationFault>>;

fn add(builder: &mut PopulationBuilder<'_>, words: &str) -> Answer {
    let (class, id) = words.split_once(' ')?;
    let class = builder.model().class(class)?;
    match builder.add_object(id, class) {
        Ok(_object) => Some(Ok(())),
        Err(fault) => Some(Err(fault)),
    }
}

fn set(builder: &mut PopulationBuilder<'_>, alloc: Global, words: &str) -> Answer {
    let (words, value) = words.split_once(" = ")?;
    let (object, feature) = place(builder, words)?;
    let values = value_of(alloc, value)?;
    Some(builder.set_value(object, feature, values))
}

fn link(builder: &mut PopulationBuilder<'_>, alloc: Global, words: &str) -> Answer {
    let (words, targets) = words.split_once(" = ")?;
    let (object, feature) = place(builder, words)?;
    let targets = objects_of(alloc, builder, targets)?;
    Some(builder.link(object, feature, &targets))
}

fn call(builder: &mut PopulationBuilder<'_>, alloc: Global, row: &str) -> Answer {
    let (verb, words) = row.split_once(' ')?;
    match verb {
        "add" => add(builder, words),
        "set" => set(builder, alloc, words),
        "link" => link(builder, alloc, words),
        _ => None,
    }
}

/// Makes a call, and again if it is refused: no object was added by then.
fn call_again(builder: &mut PopulationBuilder<'_>, alloc: Global, row: &str) -> Met {
    let objects = builder.objects();
    match call(builder, alloc, row) {
        None => Met::RefusalElsewhere,
        Some(Ok(())) => Met::Nothing,
        Some(Err(PopulationFault::OutOfMemory)) if builder.objects() == objects => {
            Met::fault_unless(call(builder, alloc, row) == Some(Ok(()))).after_refusal()
        }
        Some(Err(_)) => Met::Fault,
    }
}

/// Makes the calls, and again each that is refused.
fn call_all_again(builder: &mut PopulationBuilder<'_>, alloc: Global, rows: &str) -> Met {
    let mut met = Met::Nothing;
    for row in rows.lines() {
        let here = call_again(builder, alloc, row);
        if here == Met::RefusalElsewhere {
            return here;
        }
        met = here.after(met);
    }
    met
}

/// The values of a feature of an object, by its number and the feature's name.
fn values_of<'p>(population: &'p Population<'_>, index: u32, name: &str) -> Option<&'p [Scalar]> {
    let object = ObjectNo::new(index as usize);
    if object.index() >= population.objects() {
        return None;
    }
    let feature = population
        .model()
        .feature(population.class_of(object), name)?;
    Some(population.values(object, feature))
}

/// Whether values are these objects.
fn are_objects(values: &[Scalar], objects: &[usize]) -> bool {
    if values.len() != objects.len() {
        return false;
    }
    for at in 0..values.len() {
        match values[at] {
            Scalar::Object(object) if object.index() == objects[at] => {}
            _ => return false,
        }
    }
    true
}

/// Whether values are this number, or none.
fn is_number(values: &[Scalar], number: Option<i64>) -> bool {
    match values {
        [] => number.is_none(),
        [Scalar::Int(found)] => number == Some(*found),
        _ => false,
    }
}

/// Whether the duct holds these, and the cable is so deep.
fn is_duct(population: &Population<'_>, holds: &[usize], depth: Option<i64>) -> bool {
    let held = values_of(population, 0, "omvat");
    let deep = values_of(population, 1, "diepte");
    match (held, deep) {
        (Some(held), Some(deep)) => are_objects(held, holds) && is_number(deep, depth),
        _ => false,
    }
}

impl End {
    /// The fault with which it is refused, if it is.
    fn fault(self, model: &ClassModel) -> Option<PopulationFault> {
        let cable = model.class("Elektriciteitskabel")?;
        match self {
            End::TooManyHolders => {
                let feature = model.feature(cable, "ligtIn")?;
                let object = ObjectNo::new(0);
                Some(PopulationFault::TooMany { object, feature })
            }
            End::TooFewValues => {
                let feature = model.feature(cable, "identificatie")?;
                let object = ObjectNo::new(3);
                Some(PopulationFault::TooFew { object, feature })
            }
            End::Duct { .. } => None,
        }
    }

    /// Whether a population is that of this end.
    fn is_of(self, population: &Population<'_>) -> bool {
        match self {
            End::Duct { holds, depth } => is_duct(population, holds, depth),
            End::TooManyHolders | End::TooFewValues => false,
        }
    }
}

/// Whether a builder is finished so; None where that is refused for memory.
fn is_finished_as(builder: PopulationBuilder<'_>, end: End) -> Option<bool> {
    let model = builder.model();
    match builder.finish() {
        Ok(population) => Some(end.is_of(&population)),
        Err(PopulationFault::OutOfMemory) => None,
        Err(fault) => Some(end.fault(model) == Some(fault)),
    }
}

/// Whether all calls are made without a refusal, and the builder is then finished so.
fn is_built(alloc: Global, model: &ClassModel, rows: &str, end: End) -> bool {
    let mut builder = PopulationBuilder::new(alloc, model);
    call_all_again(&mut builder, alloc, rows) == Met::Nothing
        && is_finished_as(builder, end) == Some(true)
}

/// Makes the calls, and again each that is refused; finishing takes the builder with it, so where that is refused all calls
/// are made again.
fn build_again(alloc: Global, model: &ClassModel, rows: &str, end: End) -> Met {
    let mut builder = PopulationBuilder::new(alloc, model);
    let met = call_all_again(&mut builder, alloc, rows);
    if met == Met::RefusalElsewhere {
        return met;
    }
    match is_finished_as(builder, end) {
        Some(holds) => Met::fault_unless(holds).after(met),
        None => {
            let again = Met::fault_unless(is_built(alloc, model, rows, end));
            again.after_refusal().after(met)
        }
    }
}

/// Makes the calls, and one more; where that is refused, it isn't made again, and the builder is finished as without it.
fn leave_out(alloc: Global, model: &ClassModel, row: &str, with: End) -> Met {
    let mut builder = PopulationBuilder::new(alloc, model);
    if call_all_again(&mut builder, alloc, FIRST_CABLE_IN_DUCT) != Met::Nothing {
        return Met::RefusalElsewhere;
    }
    let (end, met) = match call(&mut builder, alloc, row) {
        None => return Met::RefusalElsewhere,
        Some(Ok(())) => (with, Met::Nothing),
        Some(Err(PopulationFault::OutOfMemory)) => (HALF_DUCT, Met::Refusal),
        Some(Err(_)) => return Met::Fault,
    };
    match is_finished_as(builder, end) {
        Some(holds) => Met::fault_unless(holds).after(met),
        None => Met::RefusalElsewhere,
    }
}

/// What is done with builders for the catalogue.
#[derive(Clone, Copy)]
enum Making {
    /// These calls are made, and again each that is refused.
    Again(&'static str, End),
    /// This call is left out where it is refused.
    LeftOut(&'static str, End),
}

fn make(alloc: Global, what: Making) -> Met {
    match ClassModel::read(alloc, CATALOGUE.as_bytes()) {
        Ok(model) => match what {
            Making::Again(rows, end) => build_again(alloc, &model, rows, end),
            Making::LeftOut(row, with) => leave_out(alloc, &model, row, with),
        },
        Err(ModelFault::OutOfMemory) => Met::RefusalElsewhere,
        Err(_) => Met::Fault,
    }
}

#[test]
fn a_cable_is_put_in_two_ducts_again(rt: HostRuntime) -> Result<(), Fail> {
    let met = make(rt.alloc(), Making::Again(HELD_TWICE, End::TooManyHolders));
    assert!(rt; met_nothing(&rt, met)?);
    Ok(())
}

#[test]
fn a_duct_is_built_again(rt: HostRuntime) -> Result<(), Fail> {
    let met = make(rt.alloc(), Making::Again(DUCT, WHOLE_DUCT));
    assert!(rt; met_nothing(&rt, met)?);
    Ok(())
}

#[test]
fn an_object_that_is_refused_is_left_out(rt: HostRuntime) -> Result<(), Fail> {
    let what = Making::LeftOut("add Elektriciteitskabel E3", End::TooFewValues);
    let met = make(rt.alloc(), what);
    assert!(rt; met_nothing(&rt, met)?);
    Ok(())
}

#[test]
fn a_value_that_is_refused_is_left_out(rt: HostRuntime) -> Result<(), Fail> {
    let deep = End::Duct {
        holds: &[1],
        depth: Some(600),
    };
    let met = make(rt.alloc(), Making::LeftOut("set E1 diepte = 600", deep));
    assert!(rt; met_nothing(&rt, met)?);
    Ok(())
}

#[test]
fn a_link_that_is_refused_leaves_the_one_before(rt: HostRuntime) -> Result<(), Fail> {
    let both = End::Duct {
        holds: &[1, 2],
        depth: None,
    };
    let met = make(rt.alloc(), Making::LeftOut("link M1 omvat = E1 E2", both));
    assert!(rt; met_nothing(&rt, met)?);
    Ok(())
}
