//! Which rules are compiled again from their texts, and a mark on the others.

ghost use Rattle.std.specs.Prelude.{◌≡◌, ◌++◌, ◌<◌, None, length, List, IfOk, OnOk, ℕ, string_bytes};
ghost use Rattle.rule_code.specs.View.{content};
ghost use Rattle.code_as_ocl.specs.SaidRules.{AreRuleTexts, IsRuleText, IsSaid, IsSameRule};

use crate::lines::{in_lines, words_of};
use crate::pairs::paired;
use crate::retyped::retyped;
use crate::rules::{expression_of, is_too_long, put_head, put_marked, put_whole};
use crate::types::types_of;
use explain_code::instruction_words;
use explain_why::put;
use ocl_base::OutOfMemory;
use ocl_pipeline::{Stopped, accept, compile_text};
use rule_code::{Instr, Unit};
use rule_trees::core_of_rule;
use rule_verify::Accepted;
use same_trees::is_same_tree;
use std::alloc::Global;

/// Whether two instructions read a feature, which may have a symbol of another class or of an old name.
fn are_of_features(instruction: &Instr, other: &Instr) -> bool {
    matches!((instruction, other), (Instr::Attr(_), Instr::Attr(_)))
}

/// The first instruction of a rule that is written otherwise than the one of another unit's first rule, in words. Those that read a
/// feature may be passed over.
fn first_difference(
    alloc: Global,
    accepted: &Accepted<'_>,
    rule: usize,
    again: &Accepted<'_>,
    passes_features: bool,
) -> Result<Option<String>, OutOfMemory>
    requires rule { rule < length accepted.now.unit.rules }
    requires again { 0 < length again.now.unit.rules }
{
    let code = &accepted.unit().rule(rule).code;
    let others = &again.unit().rule(0).code;
    for (index, (instruction, other)) in code.iter().zip(others.iter()).enumerate() {
        let words = instruction_words(alloc, accepted.unit(), instruction)?;
        let others = instruction_words(alloc, again.unit(), other)?;
        if words != others && !(passes_features && are_of_features(instruction, other)) {
            let why = format!(in alloc;
                "instruction {index}, {words}, is {others} of the text below"
            )?;
            return Ok(Some(why));
        }
    }
    Ok(None)
}

/// How a rule is written otherwise than another unit's first rule, in words.
fn other_instruction(
    alloc: Global,
    accepted: &Accepted<'_>,
    rule: usize,
    again: &Accepted<'_>,
) -> Result<String, OutOfMemory>
    requires rule { rule < length accepted.now.unit.rules }
    requires again { 0 < length again.now.unit.rules }
{
    for passes_features in [true, false] {
        if let Some(why) = first_difference(alloc, accepted, rule, again, passes_features)? {
            return Ok(why);
        }
    }
    let why = String::from_str(alloc, "the text below has another tree")?;
    Ok(why)
}

/// Whether two codes have the same operations. Of one core tree, they have the same fields then, whatever their symbols are
/// called.
fn are_same_operations(code: &[Instr], others: &[Instr]) -> bool {
    for (instruction, other) in code.iter().zip(others.iter()) {
        if instruction.opcode() != other.opcode() {
            return false;
        }
    }
    code.len() == others.len()
}

/// Why a unit is not of one rule that is the same as a rule of another; nothing if it is.
fn difference(
    alloc: Global,
    accepted: &Accepted<'_>,
    rule: usize,
    again: &Accepted<'_>,
) -> Result<Option<String>, OutOfMemory>
    requires rule { rule < length accepted.now.unit.rules }
    requires model { again.now.model ≡ accepted.now.model }
    ensures { IfOk result (λ why. why ≡ None →
        IsSameRule accepted.now.model accepted.now.unit rule again.now.unit) }
{
    if again.rules() != 1
        || again.rule_name(0) != accepted.rule_name(rule)
        || again.context(0) != accepted.context(rule)
    {
        let why = String::from_str(alloc, "the text below has another rule")?;
        return Ok(Some(why));
    }
    let tree = core_of_rule(alloc, accepted, rule)?;
    let other = core_of_rule(alloc, again, 0)?;
    let (code, others) = (accepted.unit().rule(rule), again.unit().rule(0));
    if is_same_tree(&other, &tree) && are_same_operations(&code.code, &others.code) {
        return Ok(None);
    }
    Ok(Some(other_instruction(alloc, accepted, rule, again)?))
}

/// The same of a unit that isn't accepted yet.
fn unit_difference(
    alloc: Global,
    accepted: &Accepted<'_>,
    rule: usize,
    unit: Unit,
) -> Result<Option<String>, OutOfMemory>
    requires { rule < length accepted.now.unit.rules }
    ensures { IfOk result (λ why. why ≡ None →
        IsSameRule accepted.now.model accepted.now.unit rule (content unit)) }
{
    match accept(alloc, accepted.model(), unit) {
        Ok(again) => difference(alloc, accepted, rule, &again),
        Err(rejected) => Ok(Some(refusal_words(alloc, rejected.why)?)),
    }
}

/// A refusal in its numbers. Running out of memory is none.
fn refusal_words(alloc: Global, why: Stopped) -> Result<String, OutOfMemory> {
    match why {
        Stopped::Refused(refusal) => {
            let line = refusal.line(alloc)?;
            let numbers = line.trim_end();
            let words = format!(in alloc; "the text below is {numbers}")?;
            Ok(words)
        }
        Stopped::OutOfMemory => Err(OutOfMemory),
    }
}

/// Why a text is not compiled to a rule; nothing if it is.
fn mark_of(
    alloc: Global,
    accepted: &Accepted<'_>,
    rule: usize,
    text: &str,
) -> Result<Option<String>, OutOfMemory>
    requires { rule < length accepted.now.unit.rules }
    ensures { IfOk result (λ why. why ≡ None →
        IsSaid accepted.now.model accepted.now.unit rule text.now) }
{
    match compile_text(alloc, accepted.model(), text.as_bytes()) {
        Ok(unit) => unit_difference(alloc, accepted, rule, unit),
        Err(why) => Ok(Some(refusal_words(alloc, why)?)),
    }
}

/// A rule without a mark, in lines, with types of variables by which its code comes back.
fn rule_in_lines(alloc: Global, accepted: &Accepted<'_>, rule: usize) -> Result<String, OutOfMemory>
    requires { rule < length accepted.now.unit.rules }
{
    let expression = expression_of(alloc, accepted, rule)?;
    let tree = core_of_rule(alloc, accepted, rule)?;
    let types = types_of(alloc, accepted.model(), &tree, accepted.context(rule))?;
    let words = paired(alloc, &types.pairs, &words_of(alloc, &expression)?)?;
    let words = retyped(alloc, accepted.model(), &types.types, &words)?;
    let lines = in_lines(alloc, &words)?;
    let mut text = String::new(alloc);
    put_head(&mut text, accepted, rule)?;
    put(&mut text, "    ")?;
    put(&mut text, &lines)?;
    put(&mut text, "\n")?;
    Ok(text)
}

/// Puts a rule, by its index: its context class, its name and its expression, with variables `x1`, `x2` and so on, in lines.
/// Where this text isn't compiled to the rule again, a comment says so and why, and the expression is one line. Of a rule of
/// more than `MAX_INSTRUCTIONS` instructions a comment says that it isn't shown.
pub fn put_rule(
    alloc: Global,
    out: &mut String,
    accepted: &Accepted<'_>,
    rule: usize,
) -> Result<(), OutOfMemory>
    requires { rule < length accepted.now.unit.rules }
    ensures { OnOk result ((t : List ℕ)
        × IsRuleText accepted.now.model accepted.now.unit rule t
        × (string_bytes out.new ≡ string_bytes out.old ++ t)) }
{
    if is_too_long(accepted, rule) {
        return put_whole(alloc, out, accepted, rule);
    }
    let text = rule_in_lines(alloc, accepted, rule)?;
    match mark_of(alloc, accepted, rule, &text)? {
        None => put(out, &text),
        Some(why) => put_marked(alloc, out, accepted, rule, &why),
    }
}

/// Puts all rules of accepted code, in their order.
pub fn put_rules(
    alloc: Global,
    out: &mut String,
    accepted: &Accepted<'_>,
) -> Result<(), OutOfMemory>
    ensures { OnOk result ((t : List ℕ)
        × AreRuleTexts accepted.now.model accepted.now.unit (length accepted.now.unit.rules) t
        × (string_bytes out.new ≡ string_bytes out.old ++ t)) }
{
    for rule in 0..accepted.rules() {
        put_rule(alloc, out, accepted, rule)?;
    }
    Ok(())
}
