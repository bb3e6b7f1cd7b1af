//! Compiling: what rules use is numbered, and then their code is written.

ghost use Rattle.std.specs.Prelude.{◌≡◌, map, IfOk, OnOk};
ghost use Rattle.std.specs.List.{list_any, AllByRecursion};
ghost use Rattle.ocl_base.specs.Steps.{Gives};
ghost use Rattle.ocl_core.specs.CoreView.{checked_rule_of};
ghost use Rattle.ocl_core.specs.Core.{HaveOwnNames};
ghost use Rattle.ocl_core.specs.Typing.{IsTypedRule};
ghost use Rattle.rule_code.specs.Content.{rule_content};
ghost use Rattle.rule_code.specs.View.{content};
ghost use Rattle.ocl_compile.specs.Written.{IsWrittenRule};
ghost use Rattle.ocl_compile.specs.Numbering.{rule_uses, with_uses};
ghost use Rattle.ocl_compile.specs.Translation.{is_fold, translate_rule, translate_symbol};
ghost use Rattle.ocl_compile.specs.Compiling.{compile_of};
ghost use Rattle.ocl_compile.specs.CompileFaults.{compile_fault};
ghost use Rattle.ocl_compile.specs.CompileWalk.{numbered_rules, version_for, IsCodable};
ghost use Rattle.ocl_compile.specs.NumberWalk.{IsNamedIn, NumbersTo};

use crate::emitting::emit;
use crate::fault::{CompileFault, Limit};
use crate::fields::{symbol_of_names, symbol_of_unit, text_of_unit};
use crate::limits::limit_passed;
use crate::measuring::measure;
use crate::numbering::number_tree;
use crate::numbers::{NumberFault, Numbers};
use imkl_model::ClassModel;
use ocl_core::CoreRule;
use rule_code::{Instr, Rule, Symbol, Unit, Version};
use rule_verify::Named;
use std::alloc::{AllocError, Global};

/// Numbers what a rule uses.
fn number_rule(
    alloc: Global,
    model: &ClassModel,
    rule: &CoreRule,
    numbers: &mut Numbers,
) -> Result<(), NumberFault>
    requires { IsTypedRule model.now (checked_rule_of rule.now) }
    ensures { NumbersTo result numbers.new
        (with_uses model.now numbers.old (rule_uses model.now (checked_rule_of rule.now))) }
{
    numbers.add_text(alloc, rule.name.as_str())?;
    numbers.add_symbol(alloc, model, Named::Class(rule.context))?;
    number_tree(alloc, model, &rule.tree, numbers)
}

/// Numbers what rules use, up to the first that passes a limit.
fn number_rules(
    alloc: Global,
    model: &ClassModel,
    rules: &[CoreRule],
) -> Result<Numbers, CompileFault>
    requires { AllByRecursion (IsTypedRule model.now) (map checked_rule_of rules.now) }
    ensures { Gives compile_fault (λ n. n) result
        (numbered_rules model.now (map checked_rule_of rules.now)) }
{
    let mut numbers = Numbers::new(alloc);
    for i in 0..rules.len() {
        let rule = &rules[i];
        if let Err(fault) = number_rule(alloc, model, rule, &mut numbers) {
            return Err(fault.of_rule(i));
        }
        numbers.fit();
        if let Some(limit) = limit_passed(i, measure(&rule.tree)) {
            return Err(CompileFault::At { limit, rule: i });
        }
    }
    Ok(numbers)
}

/// The code of a rule.
fn code_rule(
    alloc: Global,
    model: &ClassModel,
    numbers: &Numbers,
    rule: &CoreRule,
) -> Result<Rule, AllocError>
    requires { IsCodable model.now numbers.now (checked_rule_of rule.now) }
    ensures code { IfOk result (λ r. rule_content r
        ≡ translate_rule model.now numbers.now (checked_rule_of rule.now)) }
    ensures written { OnOk result (IsWrittenRule (checked_rule_of rule.now)) }
{
    let mut code = Vec::new(alloc);
    emit(alloc, model, numbers, &rule.tree, &mut code)?;
    Ok(Rule {
        name: text_of_unit(numbers, rule.name.as_str()),
        context: symbol_of_unit(numbers, Named::Class(rule.context)),
        code,
    })
}

/// The code of rules, in their order.
fn code_rules(
    alloc: Global,
    model: &ClassModel,
    numbers: &Numbers,
    rules: &[CoreRule],
) -> Result<Vec<Rule>, AllocError>
    requires { AllByRecursion (IsCodable model.now numbers.now)
        (map checked_rule_of rules.now) }
    ensures codes { IfOk result (λ v. map rule_content v.items
        ≡ map (translate_rule model.now numbers.now) (map checked_rule_of rules.now)) }
    ensures written { OnOk result (AllByRecursion IsWrittenRule (map checked_rule_of rules.now)) }
{
    let mut coded = Vec::new(alloc);
    'rules: for rule in rules {
        coded.push(code_rule(alloc, model, numbers, rule)?)?;
    }
    Ok(coded)
}

/// The symbols of a unit, in the order of their numbers.
fn unit_symbols(
    alloc: Global,
    model: &ClassModel,
    numbers: &Numbers,
) -> Result<Vec<Symbol>, AllocError>
    requires { AllByRecursion (IsNamedIn model.now) numbers.now.symbols }
    ensures { IfOk result (λ v. v.items
        ≡ map (translate_symbol model.now numbers.now) numbers.now.symbols) }
{
    let mut symbols = Vec::new(alloc);
    for i in 0..numbers.symbol_count() {
        symbols.push(symbol_of_names(model, numbers, numbers.symbol(i)))?;
    }
    Ok(symbols)
}

/// Whether code has a FOLD.
fn has_fold(code: &[Instr]) -> bool
    ensures { result ≡ list_any is_fold code.now }
{
    code.iter().any(|instr| matches!(instr, Instr::Fold(_, _)))
}

/// Whether a rule has a FOLD.
fn have_fold(rules: &[Rule]) -> bool
    ensures { result ≡ list_any (λ r. list_any is_fold r.code.items) rules.now }
{
    rules.iter().any(|rule| has_fold(&rule.code))
}

/// The version of the code file that has all instructions of the rules.
fn version_of(rules: &[Rule]) -> Version
    ensures { result ≡ version_for rules.now }
{
    if have_fold(rules) {
        Version::Two
    } else {
        Version::One
    }
}

/// Compiles rules to a unit of code, whose rules stand in the order of theirs.
///
/// A rule that passes a limit of a unit is reported: the first, with the first of its limits
/// (`CompileFault::At`). Beyond that it fails only where memory runs out.
pub fn compile(alloc: Global, model: &ClassModel, rules: &[CoreRule]) -> Result<Unit, CompileFault>
    requires typed { AllByRecursion (IsTypedRule model.now) (map checked_rule_of rules.now) }
    requires names { HaveOwnNames (map checked_rule_of rules.now) }
    ensures { Gives compile_fault content result
        (compile_of model.now (map checked_rule_of rules.now)) }
{
    let numbers = number_rules(alloc, model, rules)?;
    let coded = code_rules(alloc, model, &numbers, rules)?;
    let symbols = unit_symbols(alloc, model, &numbers)?;
    Ok(Unit {
        version: version_of(&coded),
        texts: numbers.into_texts(),
        symbols,
        rules: coded,
    })
}
