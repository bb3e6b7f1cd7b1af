//! The names that a text gives to the variables of its rules.

ghost use Rattle.std.specs.Prelude.{◌≡◌, map, IfOk, string_bytes};
ghost use Rattle.ocl_text.specs.View.{rule_of};
ghost use Rattle.ocl_core.specs.CoreView.{checked_rule_of};
ghost use Rattle.ocl_pipeline.specs.TextReading.{TextReading, ReadsAs};
ghost use Rattle.ocl_explain.specs.RuleNames.{rule_names, given_for, names_of_rule, names_of_rules, names_by};

use explain_why::copy_name;
use ocl_base::OutOfMemory;
use ocl_core::CoreRule;
use ocl_pipeline::read_text;
use ocl_text::SurfaceRule;
use ocl_tokens::TextFault;
use std::alloc::Global;
use text_names::given_names;

/// The names that a text gives to the variables of a rule.
#[derive(Drop)]
pub(crate) struct RuleNames {
    /// The rule's name.
    rule: String,
    /// Those of its variables, in the order in which they are bound, an empty one where the text gives none.
    given: Vec<String>,
}

/// The names that a rule of a text gives to the variables of the typed rule that it is.
fn names_of_rule(
    alloc: Global,
    written: &SurfaceRule,
    rule: &CoreRule,
) -> Result<RuleNames, OutOfMemory>
    ensures { IfOk result (λ n. rule_names n ≡
        names_of_rule (rule_of written.now) (checked_rule_of rule.now)) }
{
    let given = given_names(alloc, &written.expression, &rule.tree)?;
    let name = copy_name(alloc, rule.name.as_str())?;
    Ok(RuleNames { rule: name, given })
}

/// The names that a text gives to the variables of its typed rules, which are in the same order.
fn names_of_rules(
    alloc: Global,
    written: &[SurfaceRule],
    rules: &[CoreRule],
) -> Result<Vec<RuleNames>, OutOfMemory>
    ensures { IfOk result (λ names. map rule_names names.items ≡
        names_of_rules (map rule_of written.now) (map checked_rule_of rules.now)) }
{
    let mut names = Vec::new(alloc);
    let count = written.len().min(rules.len());
    'rules: for index in 0..count {
        names.push(names_of_rule(alloc, &written[index], &rules[index])?)?;
    }
    Ok(names)
}

/// The names that the bytes of a text give to the variables of its typed rules.
pub(crate) fn names_in(
    alloc: Global,
    text: &[u8],
    rules: &[CoreRule],
) -> Result<Vec<RuleNames>, OutOfMemory>
    ensures { IfOk result (λ names. (t : TextReading) × ReadsAs text.now t ×
        (map rule_names names.items ≡ names_by t (map checked_rule_of rules.now))) }
{
    match read_text(alloc, text) {
        Ok(written) => names_of_rules(alloc, &written, rules),
        Err(fault) => match fault {
            TextFault::At { .. } => Ok(Vec::new(alloc)),
            TextFault::OutOfMemory => Err(OutOfMemory),
        },
    }
}

/// Those of the rule of a name; none, where none are known.
pub(crate) fn given_for<'n>(names: &'n [RuleNames], name: &str) -> &'n [String]
    ensures { map string_bytes result.now ≡
        given_for (map rule_names names.entry.now) name.now }
{
    match names {
        [] => &[],
        [first, rest @ ..] => {
            if first.rule.as_str() == name {
                return &first.given;
            }
            given_for(rest, name)
        }
    }
}
