//! Rules of accepted code as texts.

ghost use Rattle.std.specs.Prelude.{◌≡◌, ◌++◌, ◌<◌, length, IfOk, OnOk, string_bytes};
ghost use Rattle.rule_code.specs.View.{content};
ghost use Rattle.code_as_ocl.specs.ShownRules.{expression_shown, head_shown, is_too_long, line_shown, mark_shown, rule_marked, rule_shown};
ghost use Rattle.rule_verify.specs.UnitRules.{unit_rule};

use crate::typed::printed_of;
use explain_why::put;
use ocl_base::OutOfMemory;
use ocl_kinds::{Kind, ScalarKind};
use rule_trees::core_of_rule;
use rule_trees::laws::trees_are_resolved;
use rule_verify::Accepted;
use std::alloc::Global;

/// The most instructions of a rule that is shown. So its core tree, which is printed and dropped by recursion, is no deeper than
/// that of a text may be.
pub const MAX_INSTRUCTIONS: usize = 1000;

/// Whether a rule is too long to be shown.
pub(crate) fn is_too_long(accepted: &Accepted<'_>, rule: usize) -> bool
    requires { rule < length accepted.now.unit.rules }
    ensures { result ≡ is_too_long (unit_rule accepted.now.unit rule) }
{
    accepted.unit().rule(rule).code.len() > MAX_INSTRUCTIONS
}

/// The core tree of a rule's code as a text, or that it is too long to be shown.
pub(crate) fn expression_of(
    alloc: Global,
    accepted: &Accepted<'_>,
    rule: usize,
) -> Result<String, OutOfMemory>
    requires { rule < length accepted.now.unit.rules }
    ensures { IfOk result (λ s. string_bytes s ≡
        expression_shown accepted.now.model accepted.now.unit rule) }
{
    trees_are_resolved();
    if is_too_long(accepted, rule) {
        let text = String::from_str(alloc, "-- not shown: it has more than 1000 instructions")?;
        return Ok(text);
    }
    let tree = core_of_rule(alloc, accepted, rule)?;
    let context = Kind::Scalar(ScalarKind::Class(accepted.context(rule)));
    let shown = printed_of(alloc, accepted.model(), &tree, &[context])?;
    Ok(shown.text)
}

/// Puts the context class and the name of a rule.
pub(crate) fn put_head(
    out: &mut String,
    accepted: &Accepted<'_>,
    rule: usize,
) -> Result<(), OutOfMemory>
    requires { rule < length accepted.now.unit.rules }
    ensures { OnOk result (string_bytes out.new ≡ string_bytes out.old ++
        head_shown accepted.now.model accepted.now.unit rule) }
{
    put(out, "context ")?;
    put(out, accepted.model().class_name(accepted.context(rule)))?;
    put(out, "\n  inv ")?;
    put(out, accepted.rule_name(rule))?;
    put(out, ":\n")
}

/// Puts a mark, with the reason.
fn put_mark(out: &mut String, why: &str) -> Result<(), OutOfMemory>
    ensures { OnOk result (string_bytes out.new ≡ string_bytes out.old ++ mark_shown why.now) }
{
    put(out, "    -- can't be written as OCL: ")?;
    put(out, why)?;
    put(out, "\n")
}

/// Puts the expression of a rule in one line.
fn put_line(
    alloc: Global,
    out: &mut String,
    accepted: &Accepted<'_>,
    rule: usize,
) -> Result<(), OutOfMemory>
    requires { rule < length accepted.now.unit.rules }
    ensures { OnOk result (string_bytes out.new ≡ string_bytes out.old ++
        line_shown accepted.now.model accepted.now.unit rule) }
{
    let expression = expression_of(alloc, accepted, rule)?;
    put(out, "    ")?;
    put(out, &expression)?;
    put(out, "\n")
}

/// Puts a rule without a mark, by its index.
pub(crate) fn put_whole(
    alloc: Global,
    out: &mut String,
    accepted: &Accepted<'_>,
    rule: usize,
) -> Result<(), OutOfMemory>
    requires { rule < length accepted.now.unit.rules }
    ensures { OnOk result (string_bytes out.new ≡ string_bytes out.old ++
        rule_shown accepted.now.model accepted.now.unit rule) }
{
    put_head(out, accepted, rule)?;
    put_line(alloc, out, accepted, rule)
}

/// Puts a rule with a mark, by its index.
pub(crate) fn put_marked(
    alloc: Global,
    out: &mut String,
    accepted: &Accepted<'_>,
    rule: usize,
    why: &str,
) -> Result<(), OutOfMemory>
    requires { rule < length accepted.now.unit.rules }
    ensures { OnOk result (string_bytes out.new ≡ string_bytes out.old ++
        rule_marked accepted.now.model accepted.now.unit why.now rule) }
{
    put_head(out, accepted, rule)?;
    put_mark(out, why)?;
    put_line(alloc, out, accepted, rule)
}
