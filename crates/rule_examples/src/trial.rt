//! What a delivery comes to that is tried for a rule.

ghost use Rattle.std.specs.Prelude.{◌≡◌, ◌<◌, length, map, true};
ghost use Rattle.std.specs.List.{AllByRecursion};
ghost use Rattle.ocl_core.specs.CoreView.{checked_rule_of};
ghost use Rattle.ocl_core.specs.Typing.{IsTypedRule};

use crate::verdicts::{judged_object, verdict_at};
use explain_why::explain_verdict;
use imkl_delivery::{DeliveryFault, load};
use imkl_model::{ClassModel, ClassNo};
use imkl_population::Population;
use ocl_base::OutOfMemory;
use ocl_core::CoreRule;
use rule_cost::{CostFault, admit};
use rule_values::Verdict;
use rule_verify::Accepted;
use std::alloc::Global;
use std::marker::Model;

/// The charges that judging a rule for one object may take.
const BUDGET: u64 = 1_000_000;

/// How many broken rules count as much as that no object has the verdict.
const OWN_WEIGHT: usize = 3;

/// A rule for which deliveries are tried, and the rules that have to hold beside it.
#[derive(Drop)]
pub struct Trial<'a> {
    model: &'a ClassModel,
    rule: &'a CoreRule,
    others: &'a [CoreRule],
    accepted: &'a Accepted<'a>,
}

impl<'a> Model for Trial<'a> {
    ghost use Rattle.std.specs.Prelude.{◌≡◌, map};
    ghost use Rattle.std.specs.List.{AllByRecursion};
    ghost use Rattle.imkl_model.specs.ClassModel as class_model;
    ghost use Rattle.ocl_core.specs.CoreView.{checked_rule_of};
    ghost use Rattle.ocl_core.specs.Typing.{IsTypedRule};

    ghost Value = { class_model.Model };

    ghost view = { λ t. t.model.now };

    ghost invariant = { λ t. IsTypedRule t.model.now (checked_rule_of t.rule.now)
        × AllByRecursion (IsTypedRule t.model.now) (map checked_rule_of t.others.now)
        × (t.accepted.now.model ≡ t.model.now) };
}

/// What is asked of a delivery.
#[derive(Clone, Copy)]
pub(crate) struct Wanted {
    /// How many objects it has.
    pub(crate) objects: usize,
    /// The verdict that an object shall have.
    pub(crate) verdict: Verdict,
    /// From which of the objects on one is looked for whose verdict is explained.
    pub(crate) first: usize,
    /// Which of the verdicts of other rules is explained: a random number.
    pub(crate) which: usize,
}

/// What a delivery lacks of showing the verdict.
#[derive(Drop)]
pub(crate) struct Lacking {
    /// Why a verdict is as it is that is to be another.
    pub(crate) why: String,
    /// How many verdicts are to be others.
    pub(crate) distance: usize,
}

/// What a delivery comes to.
#[derive(Drop)]
pub(crate) enum Tried {
    /// It is refused, or judging it might take too long.
    Refused,
    /// An object, by its index, has the verdict, and the other rules hold.
    Shows(usize),
    /// It isn't so.
    Otherwise(Lacking),
}

impl<'a> Trial<'a> {
    /// A trial of a rule of a class model beside others; `accepted` has the code by which it is known how long they take.
    pub fn new(
        model: &'a ClassModel,
        rule: &'a CoreRule,
        others: &'a [CoreRule],
        accepted: &'a Accepted<'a>,
    ) -> Trial<'a>
        requires typed { IsTypedRule model.now (checked_rule_of rule.now) }
        requires all_typed { AllByRecursion (IsTypedRule model.now) (map checked_rule_of others.now) }
        requires one_model { accepted.now.model ≡ model.now }
    {
        Trial {
            model,
            rule,
            others,
            accepted,
        }
    }

    /// The class model.
    pub(crate) fn model(&self) -> &'a ClassModel {
        self.model
    }

    /// Whether other rules have to hold.
    pub(crate) fn has_others(&self) -> bool {
        !self.others.is_empty()
    }

    /// The rule's context class.
    pub(crate) fn context(&self) -> ClassNo {
        self.rule.context
    }

    /// Tries a delivery.
    pub(crate) fn judge(
        &self,
        alloc: Global,
        delivery: &[u8],
        wanted: Wanted,
    ) -> Result<Tried, OutOfMemory> {
        match load(alloc, delivery, self.model) {
            Ok(population) => judge_loaded(
                alloc,
                &population,
                self.rule,
                self.others,
                self.accepted,
                wanted,
            ),
            Err(DeliveryFault::OutOfMemory) => Err(OutOfMemory),
            Err(_) => Ok(Tried::Refused),
        }
    }
}

/// Whether no rule may take longer than its budget.
fn is_admitted(
    alloc: Global,
    population: &Population<'_>,
    accepted: &Accepted<'_>,
) -> Result<bool, OutOfMemory>
    requires { population.now.content.model ≡ accepted.now.model }
{
    let sizes = population.sizes(alloc)?;
    match admit(alloc, accepted, &sizes, BUDGET) {
        Ok(_admitted) => Ok(true),
        Err(CostFault::OutOfMemory) => Err(OutOfMemory),
        Err(_) => Ok(false),
    }
}

/// The first object that has the verdict.
fn object_with(
    alloc: Global,
    population: &Population<'_>,
    rule: &CoreRule,
    wanted: Wanted,
) -> Result<Option<usize>, OutOfMemory>
    requires { IsTypedRule population.now.content.model (checked_rule_of rule.now) }
{
    for object in 0..wanted.objects {
        if verdict_at(alloc, population, rule, object)? == Some(wanted.verdict) {
            return Ok(Some(object));
        }
    }
    Ok(None)
}

/// Why a rule has its verdict for an object, if it judges that.
fn explained(
    alloc: Global,
    population: &Population<'_>,
    rule: &CoreRule,
    object: usize,
) -> Result<Option<String>, OutOfMemory>
    requires rule { IsTypedRule population.now.content.model (checked_rule_of rule.now) }
{
    match judged_object(population, rule, object) {
        Some(judged) => Ok(Some(explain_verdict(alloc, population, rule, judged)?)),
        None => Ok(None),
    }
}

/// Why a rule has its verdict for an object that it judges; nothing where there is none.
fn why(
    alloc: Global,
    population: &Population<'_>,
    rule: &CoreRule,
    wanted: Wanted,
) -> Result<String, OutOfMemory>
    requires { IsTypedRule population.now.content.model (checked_rule_of rule.now) }
{
    for object in (wanted.first..wanted.objects).chain(0..wanted.first) {
        if let Some(text) = explained(alloc, population, rule, object)? {
            return Ok(text);
        }
    }
    Ok(String::new(alloc))
}

/// Whether a rule judges an object and doesn't hold for it.
fn is_broken(
    alloc: Global,
    population: &Population<'_>,
    rule: &CoreRule,
    object: usize,
) -> Result<bool, OutOfMemory>
    requires { IsTypedRule population.now.content.model (checked_rule_of rule.now) }
{
    let verdict = verdict_at(alloc, population, rule, object)?;
    Ok(verdict.is_some() && verdict != Some(Verdict::Holds))
}

/// For how many objects a rule doesn't hold.
fn broken_count(
    alloc: Global,
    population: &Population<'_>,
    rule: &CoreRule,
    wanted: Wanted,
) -> Result<usize, OutOfMemory>
    requires { IsTypedRule population.now.content.model (checked_rule_of rule.now) }
{
    let mut count = 0usize;
    for object in 0..wanted.objects {
        if is_broken(alloc, population, rule, object)? {
            count = count.saturating_add(1);
        }
    }
    Ok(count)
}

/// Why a rule doesn't hold for one of the objects that it doesn't hold for, chosen by its place among them.
fn why_broken(
    alloc: Global,
    population: &Population<'_>,
    rule: &CoreRule,
    wanted: Wanted,
    place: usize,
) -> Result<String, OutOfMemory>
    requires { IsTypedRule population.now.content.model (checked_rule_of rule.now) }
{
    let mut left = place;
    for object in 0..wanted.objects {
        if !is_broken(alloc, population, rule, object)? {
            continue;
        }
        if left == 0 {
            return Ok(explained(alloc, population, rule, object)?.unwrap_or(String::new(alloc)));
        }
        left = left.saturating_sub(1);
    }
    Ok(String::new(alloc))
}

/// For how many objects rules beside another don't hold, each counted by itself.
fn broken_beside(
    alloc: Global,
    population: &Population<'_>,
    own: &CoreRule,
    rules: &[CoreRule],
    wanted: Wanted,
) -> Result<usize, OutOfMemory>
    requires { AllByRecursion (IsTypedRule population.now.content.model)
        (map checked_rule_of rules.now) }
{
    let mut count = 0usize;
    'rules: for rule in rules {
        if rule.name.as_str() != own.name.as_str() {
            count = count.saturating_add(broken_count(alloc, population, rule, wanted)?);
        }
    }
    Ok(count)
}

/// Why one of the rules beside another doesn't hold for an object, chosen by its place among all that are broken.
fn why_beside(
    alloc: Global,
    population: &Population<'_>,
    own: &CoreRule,
    rules: &[CoreRule],
    wanted: Wanted,
    place: usize,
) -> Result<String, OutOfMemory>
    requires { AllByRecursion (IsTypedRule population.now.content.model)
        (map checked_rule_of rules.now) }
{
    let mut left = place;
    'rules: for rule in rules {
        if rule.name.as_str() == own.name.as_str() {
            continue;
        }
        let count = broken_count(alloc, population, rule, wanted)?;
        if left < count {
            return why_broken(alloc, population, rule, wanted, left);
        }
        left = left.saturating_sub(count);
    }
    Ok(String::new(alloc))
}

/// What a delivery lacks in which no object has the verdict, and other rules are broken so many times.
fn lacking_own(
    alloc: Global,
    population: &Population<'_>,
    rule: &CoreRule,
    wanted: Wanted,
    broken: usize,
) -> Result<Lacking, OutOfMemory>
    requires { IsTypedRule population.now.content.model (checked_rule_of rule.now) }
{
    Ok(Lacking {
        why: why(alloc, population, rule, wanted)?,
        distance: broken.saturating_add(OWN_WEIGHT),
    })
}

/// Tries a delivery that was loaded.
fn judge_loaded(
    alloc: Global,
    population: &Population<'_>,
    rule: &CoreRule,
    others: &[CoreRule],
    accepted: &Accepted<'_>,
    wanted: Wanted,
) -> Result<Tried, OutOfMemory>
    requires typed { IsTypedRule population.now.content.model (checked_rule_of rule.now) }
    requires all_typed { AllByRecursion (IsTypedRule population.now.content.model)
        (map checked_rule_of others.now) }
    requires one_model { population.now.content.model ≡ accepted.now.model }
{
    if !is_admitted(alloc, population, accepted)? {
        return Ok(Tried::Refused);
    }
    let broken = broken_beside(alloc, population, rule, others, wanted)?;
    let Some(object) = object_with(alloc, population, rule, wanted)? else {
        let lacking = lacking_own(alloc, population, rule, wanted, broken)?;
        return Ok(Tried::Otherwise(lacking));
    };
    let Some(place) = wanted.which.checked_rem(broken) else {
        return Ok(Tried::Shows(object));
    };
    let why = why_beside(alloc, population, rule, others, wanted, place)?;
    Ok(Tried::Otherwise(Lacking {
        why,
        distance: broken,
    }))
}
