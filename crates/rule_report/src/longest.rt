//! How long a report can be.

ghost use Rattle.std.specs.Prelude.{◌≡◌, ◌+◌, ◌*◌, ◌<◌, ◌≤◌, All, length, Some};
ghost use Rattle.std.specs.List.{flat_map};
ghost use Rattle.imkl_population.specs.Population.{object_at};
ghost use Rattle.rule_code.specs.declared.limits.TheConstants.{MAX_TEXT_BYTES};
ghost use Rattle.imkl_population.specs.declared.limits.TheConstants.{MAX_OBJECTS};
ghost use Rattle.rule_values.specs.declared.verdict.Verdict.TheVariants.{Undecided};
ghost use Rattle.rule_report.specs.Report.{all_undecided, context_objects, line_of, longest_report, report_of_rule};

use crate::lines::{object_line_length, rule_line_length, total_line_length};
use crate::summary::Summary;
use imkl_population::{ObjectNo, Population};
use rule_machine::Verdict;
use rule_verify::Accepted;

/// So many verdicts, none of which is decided.
fn all_undecided(count: usize) -> Summary
    ensures { result ≡ record { holds = 0; fails = 0; undecided = count } }
{
    Summary {
        holds: 0,
        fails: 0,
        undecided: count as u64,
    }
}

/// How long the lines of some objects are where a rule of this name is undecided for each.
fn undecided_lines_length(population: &Population<'_>, name: &str, objects: &[ObjectNo]) -> usize
    requires name { length name.now ≤ MAX_TEXT_BYTES }
    requires objects { All (λ o. o < length population.now.content.objects) objects.now }
    requires few { length objects.now ≤ MAX_OBJECTS }
    ensures length { result ≡ length (flat_map (λ o. line_of (Some Undecided) name.now
        (object_at population.now.content o).id) objects.now) }
    ensures short { result ≤ 5000 * MAX_OBJECTS }
{
    population.consistent();
    let mut length = 0;
    for object in objects {
        length += object_line_length(Verdict::Undecided, name, population.id(*object));
    }
    length
}

/// How long what is reported of a rule is where none of its verdicts is decided.
fn undecided_rule_length(accepted: &Accepted<'_>, population: &Population<'_>, rule: usize) -> usize
    requires one_model { population.now.content.model ≡ accepted.now.model }
    requires rule { rule < length accepted.now.unit.rules }
    ensures length { result ≡ length
        (report_of_rule accepted.now.unit population.now.content all_undecided rule) }
    ensures short { result ≤ 5001 * MAX_OBJECTS }
{
    accepted.unit().well_formed();
    population.consistent();
    let name = accepted.rule_name(rule);
    let objects = population.instances(accepted.context(rule));
    undecided_lines_length(population, name, objects)
        + rule_line_length(name, objects.len(), all_undecided(objects.len()))
}

/// How long the report is where no verdict is decided.
pub(crate) fn longest_length(accepted: &Accepted<'_>, population: &Population<'_>) -> usize
    requires one_model { population.now.content.model ≡ accepted.now.model }
    ensures { result ≡ longest_report accepted.now.unit population.now.content }
{
    accepted.unit().well_formed();
    population.consistent();
    let mut length = 0;
    let mut pairs = 0;
    for rule in 0..accepted.rules() {
        length += undecided_rule_length(accepted, population, rule);
        pairs += population.instances(accepted.context(rule)).len();
    }
    length + total_line_length(all_undecided(pairs))
}
