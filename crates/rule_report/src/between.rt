//! The part of a report between the line of a rule and the next line of an object. It has the lines
//! of rules without objects, and the total at the end.

ghost use Rattle.std.specs.Prelude.{◌≡◌, ◌+◌, ◌-◌, ◌*◌, ◌<◌, ◌≤◌, ◌++◌, [], All, length, vec_capacity};
ghost use Rattle.imkl_population.specs.Population.{IsInstance};
ghost use Rattle.rule_machine.specs.Machine.{setting_of};
ghost use Rattle.rule_report.specs.Report.{context_objects, total_line};
ghost use Rattle.rule_report.specs.Cursor.{next_rule, lines_without, total_at, lines_between};

use crate::lines::{put_rule_line, put_total_line, rule_line_length, total_line_length};
use crate::summary::Summary;
use imkl_population::{ObjectNo, Population};
use rule_verify::Accepted;

/// The first rule from one on that has objects, or the number of rules.
pub(crate) fn next_rule(accepted: &Accepted<'_>, population: &Population<'_>, from: usize) -> usize
    requires one_model { population.now.content.model ≡ accepted.now.model }
    requires from { from ≤ length accepted.now.unit.rules }
    ensures { result ≡ next_rule accepted.now.unit population.now.content from }
{
    let rules = accepted.rules();
    let mut rule = from;
    while rule < rules {
        let objects = population.instances(accepted.context(rule)).len();
        if objects > 0 {
            return rule;
        }
        rule += 1;
    }
    rule
}

/// The objects of a rule's context class; none where no rule is left.
pub(crate) fn objects_at<'a>(
    accepted: &Accepted<'_>,
    population: &'a Population<'_>,
    rule: usize,
) -> &'a [ObjectNo]
    requires one_model { population.now.content.model ≡ accepted.now.model }
    requires within { rule ≤ length accepted.now.unit.rules }
    ensures objects { rule < length accepted.now.unit.rules →
        result.now ≡ context_objects accepted.now.unit population.now.content rule }
    ensures none { rule ≡ length accepted.now.unit.rules → result.now ≡ [] }
    ensures each { All (IsInstance population.now.content (setting_of accepted.now.unit
        population.now.content rule).context) result.now }
{
    if rule == accepted.rules() {
        return &[];
    }
    population.instances(accepted.context(rule))
}

/// Puts the lines of the rules without objects, and the total where no rule is left.
pub(crate) fn put_between(
    out: &mut Vec<u8>,
    accepted: &Accepted<'_>,
    from: usize,
    next: usize,
    total: Summary,
)
    requires from { from ≤ next }
    requires next { next ≤ length accepted.now.unit.rules }
    requires room { length out.old.items + length (lines_between accepted.now.unit from next total)
        ≤ vec_capacity out.old }
    ensures bytes { out.new.items ≡ out.old.items ++
        lines_between accepted.now.unit from next total }
    ensures room { vec_capacity out.old ≤ vec_capacity out.new }
{
    for rule in from..next {
        put_rule_line(out, accepted.rule_name(rule), 0, Summary::empty());
    }
    if next == accepted.rules() {
        put_total_line(out, total);
    }
}

/// How long those lines are.
pub(crate) fn between_length(
    accepted: &Accepted<'_>,
    from: usize,
    next: usize,
    total: Summary,
) -> usize
    requires from { from ≤ next }
    requires next { next ≤ length accepted.now.unit.rules }
    ensures length { result ≡ length (lines_between accepted.now.unit from next total) }
    ensures short { result ≤ 5000 * 4097 }
{
    accepted.unit().well_formed();
    let mut length = 0;
    for rule in from..next {
        length += rule_line_length(accepted.rule_name(rule), 0, Summary::empty());
    }
    if next == accepted.rules() {
        length += total_line_length(total);
    }
    length
}
