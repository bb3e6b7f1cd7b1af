//! Where the pipeline stops, and what it had read by then.

ghost use Rattle.std.specs.Prelude.{⊤};

use imkl_population::Population;
use ocl_pipeline::{AdmittedAsker, CodeAsker, OfCode, Place, Stopped, ask_admitted, ask_inputs};
use rule_cost::Admitted;
use rule_verify::Accepted;
use std::alloc::Global;
use std::test::*;
use test_support::{CATALOGUE, DUCT};

/// The rule d of KabelOfLeiding, that each is more than 600 deep: SELF, ATTR diepte, INT 600, GT.
const DEEPER_THAN_600: &[u8] =
    b"OCLB\x00\x01\x00\x03\x00\x01d\x00\x0eKabelOfLeiding\x00\x06diepte\x00\x02\x01\x00\x01\x03\x00\x01\x00\x02\x00\x01\
\x00\x00\x00\x00\x00\x04\x01\x09\x00\x01\x03\x00\x00\x00\x00\x00\x00\x02\x58\x1b";

/// The same of a class that no class model has.
const OF_NO_CLASS: &[u8] =
    b"OCLB\x00\x01\x00\x03\x00\x01d\x00\x0eKabelOfLeidinx\x00\x06diepte\x00\x02\x01\x00\x01\x03\x00\x01\x00\x02\x00\x01\
\x00\x00\x00\x00\x00\x04\x01\x09\x00\x01\x03\x00\x00\x00\x00\x00\x00\x02\x58\x1b";

/// How far the pipeline came.
#[derive(Clone, Copy, Debug, PartialEq, Eq)]
enum Reached {
    /// To what is asked, with so many objects.
    Asked(usize),
    /// The class model.
    Model,
    /// The delivery.
    Delivery,
    /// The rules, for a class model of so many classes.
    Rules(usize),
    /// A unit of so many rules.
    Unit(usize),
    /// The cost of so many rules.
    Cost(usize),
    /// What comes after the rules.
    AfterRules,
}

/// Asks how far the pipeline came, by rules that are within a budget.
#[derive(Clone, Copy)]
struct HowFar {
    budget: u64,
}

impl AdmittedAsker<()> for HowFar {
    type Output = Reached;

    ghost can_ask = { λ _. ⊤ };

    ghost answers = { λ _ _ _ _ _ _. ⊤ };

    fn ask(
        &self,
        _alloc: Global,
        population: &Population<'_>,
        _admitted: &Admitted<'_>,
        _into: &mut (),
    ) -> Reached {
        Reached::Asked(population.objects())
    }

    fn stop(&self, _alloc: Global, place: Place<'_>, _why: Stopped, _into: &mut ()) -> Reached {
        stopped_at(place)
    }
}

impl CodeAsker<()> for HowFar {
    type Output = Reached;

    ghost can_ask = { λ _. ⊤ };

    ghost answers = { λ _ _ _ _ _. ⊤ };

    fn ask(
        &self,
        alloc: Global,
        population: &Population<'_>,
        accepted: &Accepted<'_>,
        into: &mut (),
    ) -> Reached {
        ask_admitted(alloc, self, self.budget, population, accepted, into)
    }

    fn stop(&self, _alloc: Global, place: Place<'_>, _why: Stopped, _into: &mut ()) -> Reached {
        stopped_at(place)
    }
}

/// How far the pipeline came that stopped at a place.
fn stopped_at(place: Place<'_>) -> Reached {
    match place {
        Place::Model => Reached::Model,
        Place::Delivery(_) => Reached::Delivery,
        Place::Rules(model) => Reached::Rules(model.class_count()),
        Place::Unit(_, unit) => Reached::Unit(unit.rules.len()),
        Place::Cost(code) => Reached::Cost(code.accepted().rules()),
        Place::AfterRules => Reached::AfterRules,
    }
}

fn how_far_it_came(
    alloc: Global,
    model: &str,
    delivery: &str,
    code: &[u8],
    budget: u64,
) -> Reached {
    let asker = OfCode {
        asker: &HowFar { budget },
        code,
    };
    ask_inputs(
        alloc,
        &asker,
        model.as_bytes(),
        delivery.as_bytes(),
        &mut (),
    )
}

#[test]
fn the_pipeline_stops_at_the_input_that_is_refused(rt: HostRuntime) {
    let (model, delivery) = (CATALOGUE, DUCT);
    assert_eq!(rt;
        how_far_it_came(rt.alloc(), "", delivery, DEEPER_THAN_600, 4),
        Reached::Model
    );
    assert_eq!(rt;
        how_far_it_came(rt.alloc(), model, "", DEEPER_THAN_600, 4),
        Reached::Delivery
    );
    assert_eq!(rt;
        how_far_it_came(rt.alloc(), model, delivery, b"OCL", 4),
        Reached::Rules(5)
    );
    assert_eq!(rt;
        how_far_it_came(rt.alloc(), model, delivery, OF_NO_CLASS, 4),
        Reached::Unit(1)
    );
    assert_eq!(rt;
        how_far_it_came(rt.alloc(), model, delivery, DEEPER_THAN_600, 3),
        Reached::Cost(1)
    );
    assert_eq!(rt;
        how_far_it_came(rt.alloc(), model, delivery, DEEPER_THAN_600, 4),
        Reached::Asked(3)
    );
}
