//! Warnings about rules that are accepted: what is hardly meant in a text, and what may take long. Nothing is written where
//! there are none.

ghost use Rattle.std.specs.Prelude.{◌≡◌};

use crate::given::Given;
use crate::texts::rules_of;
use explain_notes::{Input, Note};
use explain_types::warn_of_rule;
use imkl_model::ClassModel;
use imkl_population::Population;
use ocl_check::RulesForm;
use ocl_text::SurfaceRule;
use rule_cost::Admitted;
use std::alloc::{AllocError, Global};

/// The charges of a rule over all objects that it judges from which on it is warned of. (They take some ten seconds.)
const MANY_CHARGES: u64 = 1_000_000_000;

/// Writes a warning of a rule whose context class has no objects.
fn write_idle(
    alloc: Global,
    out: &mut String,
    input: Input<'_>,
    rule: &SurfaceRule,
) -> Result<(), AllocError> {
    let (name, class) = (rule.name.as_str(), rule.context.as_str());
    let label = format!(in alloc; "no object of the delivery is of {class}")?;
    let message = format!(in alloc; "rule `{name}` judges nothing")?;
    let note = Note {
        input,
        offset: rule.context_offset,
        length: class.len(),
        message: message.as_str(),
        fault: "warning",
        label: label.as_str(),
        help: "",
    };
    note.write(alloc, out)
}

/// Writes the warnings of rules that need no delivery.
fn warn_of_rules(
    alloc: Global,
    out: &mut String,
    input: Input<'_>,
    model: &ClassModel,
    rules: &[SurfaceRule],
) -> Result<(), AllocError> {
    for rule in rules {
        warn_of_rule(alloc, out, input, model, rule)?;
    }
    Ok(())
}

/// Writes a warning of each rule whose context class has no objects in a population.
fn warn_of_idle_rules(
    alloc: Global,
    out: &mut String,
    input: Input<'_>,
    population: &Population<'_>,
    rules: &[SurfaceRule],
) -> Result<(), AllocError> {
    for rule in rules {
        if let Some(class) = population.model().class(rule.context.as_str())
            && population.instances(class).is_empty()
        {
            write_idle(alloc, out, input, rule)?;
        }
    }
    Ok(())
}

/// Writes a warning of a rule that may be charged much over all objects that it judges.
fn write_long_run(
    out: &mut String,
    input: Input<'_>,
    rule: &str,
    bound: u64,
    objects: usize,
) -> Result<(), AllocError> {
    let path = input.path;
    writeln!(
        out,
        "{path}: rule `{rule}` may be charged {bound} for each of {objects} objects, which can take long (warning)"
    )?;
    writeln!(
        out,
        "  where each object is compared with all others, one rule can do it once: `isUnique` over `allInstances()`, in a context that has one object"
    )
}

/// Writes a warning of each admitted rule that may be charged more than `MANY_CHARGES` over all objects that it judges.
fn warn_of_long_runs(
    out: &mut String,
    input: Input<'_>,
    population: &Population<'_>,
    admitted: &Admitted<'_>,
) -> Result<(), AllocError>
    requires { population.now.content.model ≡ admitted.now.resolved.model }
{
    let accepted = admitted.accepted();
    for rule in 0..accepted.rules() {
        let bound = admitted.bound(rule);
        let objects = population.instances(accepted.context(rule)).len();
        if bound.saturating_mul(objects as u64) > MANY_CHARGES {
            write_long_run(out, input, accepted.rule_name(rule), bound, objects)?;
        }
    }
    Ok(())
}

/// Writes the warnings of a rule text that is judged.
fn warn_of_judged(
    alloc: Global,
    out: &mut String,
    input: Input<'_>,
    population: &Population<'_>,
) -> Result<(), AllocError> {
    let rules = rules_of(alloc, input)?;
    warn_of_rules(alloc, out, input, population.model(), &rules)?;
    warn_of_idle_rules(alloc, out, input, population, &rules)
}

/// Warnings of rules that are judged next. Of a rule text: comparisons that are true only of two nulls, variables that
/// nothing reads, rules that no object can keep or break, and rules whose context class has no objects in the delivery. Of
/// any rules: those whose bound, times the objects that they judge, is above 1,000,000,000 charges.
pub(crate) fn warn_of_runs(
    alloc: Global,
    given: Given<'_>,
    population: &Population<'_>,
    admitted: &Admitted<'_>,
) -> Result<String, AllocError>
    requires { population.now.content.model ≡ admitted.now.resolved.model }
{
    let mut out = String::new(alloc);
    if given.options.form == RulesForm::Text {
        warn_of_judged(alloc, &mut out, given.rules, population)?;
    }
    warn_of_long_runs(&mut out, given.rules, population, admitted)?;
    Ok(out)
}

/// Warnings of a rule text that is compiled: those of a `judge` that need no delivery.
pub(crate) fn warn_of_text(
    alloc: Global,
    input: Input<'_>,
    model: &ClassModel,
) -> Result<String, AllocError> {
    let mut out = String::new(alloc);
    let rules = rules_of(alloc, input)?;
    warn_of_rules(alloc, &mut out, input, model, &rules)?;
    Ok(out)
}
