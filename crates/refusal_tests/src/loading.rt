//! A class model and deliveries that are read again.

use crate::met::{Met, met_nothing};
use imkl_delivery::{DeliveryFault, load};
use imkl_model::{ClassModel, ModelFault};
use imkl_population::{ObjectNo, PopulationFault};
use std::alloc::Global;
use std::test::*;
use test_support::{CATALOGUE, DUCT};

/// The cable E1 in two ducts, and a cable lies in at most one.
const HELD_TWICE: &str = r#"{"model":"imkl-profile","objects":[
{"id":"E1","class":"Elektriciteitskabel","features":{"identificatie":"a","spanning":400}},
{"id":"M1","class":"Mantelbuis",
"features":{"identificatie":"m","diameter":110,"omvat":["E1"]}},
{"id":"M2","class":"Mantelbuis",
"features":{"identificatie":"n","diameter":110,"omvat":["E1"]}}]}"#;

/// Two cables of one id.
const SAME_ID: &str = r#"{"model":"imkl-profile","objects":[
{"id":"E1","class":"Elektriciteitskabel","features":{"identificatie":"a","spanning":400}},
{"id":"E1","class":"Elektriciteitskabel","features":{"identificatie":"b","spanning":400}}]}"#;

/// A cable that writes its opposite end.
const OPPOSITE_END: &str = r#"{"model":"imkl-profile","objects":[
{"id":"E1","class":"Elektriciteitskabel",
"features":{"identificatie":"a","spanning":400,"ligtIn":"E1"}}]}"#;

/// A duct that holds a cable that isn't there.
const NO_TARGET: &str = r#"{"model":"imkl-profile","objects":[
{"id":"M1","class":"Mantelbuis",
"features":{"identificatie":"m","diameter":110,"omvat":["E9"]}}]}"#;

/// A delivery, and what it is.
#[derive(Clone, Copy)]
enum Delivery {
    HeldTwice,
    SameId,
    OppositeEnd,
    NoTarget,
    Duct,
}

impl Delivery {
    fn text(self) -> &'static str {
        match self {
            Delivery::HeldTwice => HELD_TWICE,
            Delivery::SameId => SAME_ID,
            Delivery::OppositeEnd => OPPOSITE_END,
            Delivery::NoTarget => NO_TARGET,
            Delivery::Duct => DUCT,
        }
    }

    /// How it is loaded: with so many objects, or with this fault.
    fn answer(self, model: &ClassModel) -> Option<Result<usize, DeliveryFault>> {
        let object = 0;
        match self {
            Delivery::HeldTwice => {
                let feature = model.feature(model.class("Elektriciteitskabel")?, "ligtIn")?;
                let first = ObjectNo::new(0);
                let fault = PopulationFault::TooMany {
                    object: first,
                    feature,
                };
                Some(Err(DeliveryFault::Population { object, fault }))
            }
            Delivery::SameId => {
                let fault = PopulationFault::DuplicateId;
                Some(Err(DeliveryFault::Population { object: 1, fault }))
            }
            Delivery::OppositeEnd => {
                let fault = PopulationFault::Derived;
                Some(Err(DeliveryFault::Population { object, fault }))
            }
            Delivery::NoTarget => Some(Err(DeliveryFault::UnknownTarget { object })),
            Delivery::Duct => Some(Ok(3)),
        }
    }
}

/// How many objects a delivery has.
fn objects_of(alloc: Global, model: &ClassModel, text: &str) -> Result<usize, DeliveryFault> {
    match load(alloc, text.as_bytes(), model) {
        Ok(population) => Ok(population.objects()),
        Err(fault) => Err(fault),
    }
}

fn load_again(alloc: Global, model: &ClassModel, delivery: Delivery) -> Met {
    let answer = objects_of(alloc, model, delivery.text());
    if answer != Err(DeliveryFault::OutOfMemory) {
        return Met::fault_unless(delivery.answer(model) == Some(answer));
    }
    let again = objects_of(alloc, model, delivery.text());
    Met::fault_unless(delivery.answer(model) == Some(again)).after_refusal()
}

fn read_and_load_again(alloc: Global, delivery: Delivery) -> Met {
    match ClassModel::read(alloc, CATALOGUE.as_bytes()) {
        Ok(model) => load_again(alloc, &model, delivery),
        Err(ModelFault::OutOfMemory) => Met::RefusalElsewhere,
        Err(_) => Met::Fault,
    }
}

/// How many classes and features the catalogue has.
fn catalogue_counts(alloc: Global) -> Result<(usize, usize), ModelFault> {
    match ClassModel::read(alloc, CATALOGUE.as_bytes()) {
        Ok(model) => Ok((model.class_count(), model.feature_count())),
        Err(fault) => Err(fault),
    }
}

/// It has five classes, six attributes, and two ends of each of two associations.
fn read_again(alloc: Global) -> Met {
    let answer = catalogue_counts(alloc);
    if answer != Err(ModelFault::OutOfMemory) {
        return Met::fault_unless(answer == Ok((5, 10)));
    }
    Met::fault_unless(catalogue_counts(alloc) == Ok((5, 10))).after_refusal()
}

#[test]
fn a_class_model_is_read_again(rt: HostRuntime) -> Result<(), Fail> {
    let met = read_again(rt.alloc());
    assert!(rt; met_nothing(&rt, met)?);
    Ok(())
}

#[test]
fn a_cable_in_two_ducts_is_loaded_again(rt: HostRuntime) -> Result<(), Fail> {
    let met = read_and_load_again(rt.alloc(), Delivery::HeldTwice);
    assert!(rt; met_nothing(&rt, met)?);
    Ok(())
}

#[test]
fn two_cables_of_one_id_are_loaded_again(rt: HostRuntime) -> Result<(), Fail> {
    let met = read_and_load_again(rt.alloc(), Delivery::SameId);
    assert!(rt; met_nothing(&rt, met)?);
    Ok(())
}

#[test]
fn an_opposite_end_is_loaded_again(rt: HostRuntime) -> Result<(), Fail> {
    let met = read_and_load_again(rt.alloc(), Delivery::OppositeEnd);
    assert!(rt; met_nothing(&rt, met)?);
    Ok(())
}

#[test]
fn a_missing_target_is_loaded_again(rt: HostRuntime) -> Result<(), Fail> {
    let met = read_and_load_again(rt.alloc(), Delivery::NoTarget);
    assert!(rt; met_nothing(&rt, met)?);
    Ok(())
}

#[test]
fn a_duct_is_loaded_again(rt: HostRuntime) -> Result<(), Fail> {
    let met = read_and_load_again(rt.alloc(), Delivery::Duct);
    assert!(rt; met_nothing(&rt, met)?);
    Ok(())
}
