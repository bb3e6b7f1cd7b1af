//! Operands are taken.

ghost use Rattle.std.specs.Prelude.{◌≡◌, ◌∷◌, List, true, OnOk, Ok};
ghost use Rattle.ocl_kinds.specs.declared.kind.Kind.{Kind};
ghost use Rattle.rule_verify.specs.InstrKinds as spec;
ghost use Rattle.rule_verify.specs.KindRules.{taken};
ghost use Rattle.rule_verify.specs.Known.{AreKnownKinds};
ghost use Rattle.rule_verify.specs.Patterns.{are_there, ArePatterns};
ghost use Rattle.rule_verify.specs.Walk.{surroundings_of, operand_list, AreTaken, Leads, IsRuleCode};

use crate::code::RuleCode;
use crate::fault::{VerifyFault, VerifyFlaw};
use crate::operands::{operand_count, operands_of};
use crate::pattern::{Operands, Pattern, matches};
use crate::symbols_used::has_names;
use imkl_model::ClassModel;
use ocl_base::Stack;
use ocl_kinds::{Kind, ScalarKind, elements_kind};
use rule_code::Instr;
use std::alloc::AllocError;

/// Takes operands, the topmost first, if each may be what it is: whether it does.
fn take_each(model: &ClassModel, operands: &mut Stack<Kind>, wanted: &[Pattern]) -> bool
    requires operands { AreKnownKinds model.now operands.old }
    requires wanted { ArePatterns model.now wanted.now }
    requires there { are_there wanted.now operands.old ≡ true }
    ensures taken { AreTaken model.now wanted.now operands.old result operands.new }
    ensures known { AreKnownKinds model.now operands.new }
{
    for want in wanted {
        let Some(kind) = operands.pop() else {
            unreachable!()
        };
        if !matches(model, want, &kind) {
            return false;
        }
    }
    true
}

/// Takes the operands of an instruction, which are there, if each may be what it is: whether it does.
fn take_operands(model: &ClassModel, operands: &mut Stack<Kind>, wanted: Operands) -> bool
    requires operands { AreKnownKinds model.now operands.old }
    requires wanted { ArePatterns model.now (operand_list wanted) }
    requires there { are_there (operand_list wanted) operands.old ≡ true }
    ensures taken { AreTaken model.now (operand_list wanted) operands.old result operands.new }
    ensures known { AreKnownKinds model.now operands.new }
{
    match wanted {
        Operands::Nothing => true,
        Operands::One(first) => take_each(model, operands, &[first]),
        Operands::Two(first, second) => take_each(model, operands, &[first, second]),
        Operands::Three(first, second, third) => {
            take_each(model, operands, &[first, second, third])
        }
    }
}

/// Whether the variable that an instruction reads is there.
fn has_variable(variables: &Stack<Kind>, instr: Instr) -> bool
    ensures { result ≡ spec.has_variable variables.now instr }
{
    match instr {
        Instr::Get(number) => variables.from_bottom(usize::from(number)).is_some(),
        _ => true,
    }
}

/// The kind of the topmost operand, Void where there is none.
pub(crate) fn topmost(operands: &Stack<Kind>) -> Kind
    ensures { result ≡ spec.topmost operands.now }
{
    match operands.top() {
        Some(kind) => kind,
        None => Kind::Scalar(ScalarKind::Void),
    }
}

/// Takes the operands of the instruction at an index, if what it names, its variable and its operands are there and right.
pub(crate) fn take(
    rule: &RuleCode<'_, '_>,
    variables: &Stack<Kind>,
    operands: &mut Stack<Kind>,
    instr: Instr,
    at: usize,
) -> Result<(), VerifyFault>
    requires operands { AreKnownKinds rule.now.resolved.now.model operands.old }
    ensures taken { Leads result
        (taken (surroundings_of rule.now) variables.now instr at operands.old)
        (λ _. Ok operands.new) }
    ensures known { OnOk result (AreKnownKinds rule.now.resolved.now.model operands.new) }
{
    if !has_names(rule, instr) {
        return Err(rule.fault(VerifyFlaw::NoSuchName, at));
    }
    if !has_variable(variables, instr) {
        return Err(rule.fault(VerifyFlaw::BadVariable, at));
    }
    if operands.len() < operand_count(instr) {
        return Err(rule.fault(VerifyFlaw::MissingOperand, at));
    }
    if take_operands(rule.resolved.model(), operands, operands_of(rule, instr)) {
        Ok(())
    } else {
        Err(rule.fault(VerifyFlaw::WrongKind, at))
    }
}

/// Puts a kind on top of others.
pub(crate) fn put(kinds: &mut Stack<Kind>, kind: Kind) -> Result<(), AllocError>
    ensures { OnOk result (kinds.new ≡ kind ∷ kinds.old) }
{
    // (`rt check` takes in the type of a kind's elements only where a variable has it; so in `walk.rt`.)
    let _element = elements_kind(&kind);
    kinds.push(kind)?;
    Ok(())
}
