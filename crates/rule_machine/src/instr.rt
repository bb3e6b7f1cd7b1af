//! What instructions without a body make of variables and operands.

ghost use Rattle.std.specs.Prelude.{◌≡◌, ◌<◌, ◌≤◌, ◌⊎◌, ℕ, false, true, List, ◌∷◌, length, take, slice_get, IfOk, OnOk, OnErr, IsOk, IsSome, Some};
ghost use Rattle.imkl_model.specs.ClassModel.{feature_at, belongs};
ghost use Rattle.rule_code.specs.SymbolTag.{is_symbol_of};
ghost use Rattle.rule_code.specs.declared.symbol.SymbolTag.TheVariants as tags;
ghost use Rattle.rule_code.specs.WellFormed.{InstrFits};
ghost use Rattle.rule_verify.specs.CodeTree.{shape_of};
ghost use Rattle.ocl_base.specs.Lists.{variable_at};
ghost use Rattle.rule_verify.specs.InstrKinds.{gathers};
ghost use Rattle.rule_verify.specs.Known.{IsKnownName};
ghost use Rattle.rule_verify.specs.declared.shape.Shape.TheVariants.{Single};
ghost use Rattle.rule_values.specs.Value.{Value};
ghost use Rattle.rule_values.specs.Operations.{all_instances, value_read};
ghost use Rattle.rule_slots.specs.declared.slot.Slot.{Slot as Held};
ghost use Rattle.rule_slots.specs.Slots.{SlotIs};
ghost use Rattle.rule_slots.specs.Operands.{HasFeature};
ghost use Rattle.rule_machine.specs.Machine.{symbol_named, literal_named, on_class_named, value_named_read};
ghost use Rattle.rule_machine.specs.Applied.{TakesOne, TakesTwo};
ghost use Rattle.rule_machine.specs.StandFor.{GivesSlot, CanPerform, Performed};
ghost use Rattle.rule_machine.specs.Shown.{IsTask, setting_in, task_lists};

use crate::applying::{apply_one, apply_two, takes_one};
use crate::stack::ReservedStack;
use crate::task::Task;
use imkl_model::{ClassNo, FeatureNo};
use ocl_base::OutOfMemory;
use rule_code::{Instr, SymbolNumber};
use rule_slots::{
    Lists, Slot, all_instances, as_collection, as_set, cast, index_slot, invalid_slot, kind_test,
    null_slot, number_slot, substring, truth_slot, type_test, unit_text, value_read,
};
use rule_verify::{Named, operand_count};

/// The topmost operand.
#[inline(always)]
fn topmost(operands: &ReservedStack<Slot>) -> &Slot
    requires { 0 < length operands.now.0 }
    ensures { (rest : List Held) × (operands.now.0 ≡ result.now ∷ rest) }
{
    let Some(operand) = operands.top() else {
        unreachable!()
    };
    operand
}

/// The operand below the `number` topmost ones.
#[inline(always)]
fn below(operands: &ReservedStack<Slot>, number: usize) -> &Slot
    requires { number < length operands.now.0 }
    ensures { slice_get operands.now.0 number ≡ Some result.now }
{
    let Some(operand) = operands.from_top(number) else {
        unreachable!()
    };
    operand
}

/// A variable.
#[inline(always)]
fn variable(variables: &ReservedStack<Slot>, number: usize) -> Slot
    requires { IsSome (variable_at variables.now.0 number) }
    ensures { variable_at variables.now.0 number ≡ Some result }
{
    let Some(value) = variables.from_bottom(number) else {
        unreachable!()
    };
    *value
}

/// What a symbol names.
fn resolve(task: Task<'_>, symbol: SymbolNumber) -> Named
    requires task { IsTask task }
    requires named { IsSome (symbol_named (setting_in task) symbol.0) }
    ensures name { symbol_named (setting_in task.entry) symbol.0 ≡ Some result }
    ensures known { IsKnownName task.entry.population.now.content.model result }
{
    let Some(name) = task.accepted.named(symbol) else {
        unreachable!()
    };
    name
}

/// The class that a symbol names.
fn class_named(task: Task<'_>, symbol: SymbolNumber) -> ClassNo
    requires task { IsTask task }
    requires tag { is_symbol_of tags.Class task.accepted.now.unit.symbols symbol.0 ≡ true }
    requires named { IsSome (symbol_named (setting_in task) symbol.0) }
    ensures name { symbol_named (setting_in task.entry) symbol.0 ≡ Some (Named.Class result) }
    ensures known { result < length task.entry.population.now.content.model.classes }
{
    let Named::Class(class) = resolve(task, symbol) else {
        unreachable!()
    };
    class
}

/// The feature that a symbol names.
fn feature_named(task: Task<'_>, symbol: SymbolNumber) -> FeatureNo
    requires task { IsTask task }
    requires tag { is_symbol_of tags.Feature task.accepted.now.unit.symbols symbol.0 ≡ true }
    requires named { IsSome (symbol_named (setting_in task) symbol.0) }
    ensures name { (class : ℕ) × (symbol_named (setting_in task.entry) symbol.0 ≡
        Some (Named.Feature class result)) }
    ensures known { result < length task.entry.population.now.content.model.features }
{
    let Named::Feature(_, feature) = resolve(task, symbol) else {
        unreachable!()
    };
    feature
}

/// The literal that a symbol names.
#[inline(always)]
fn literal_slot(task: Task<'_>, symbol: SymbolNumber) -> Slot
    requires task { IsTask task }
    requires tag { is_symbol_of tags.Literal task.accepted.now.unit.symbols symbol.0 ≡ true }
    requires named { IsSome (symbol_named (setting_in task) symbol.0) }
    ensures { (pool : List Held) (r : Value) →
        literal_named (symbol_named (setting_in task.entry) symbol.0) ≡ Some r →
        SlotIs (task_lists task.entry) pool (length pool) result r }
{
    let Named::Literal(_, literal) = resolve(task, symbol) else {
        unreachable!()
    };
    index_slot(literal.index())
}

/// The instances of a class.
#[inline(always)]
fn class_instances(task: Task<'_>, class: ClassNo) -> Slot
    requires { class < length task.population.now.content.model.classes }
    ensures { (pool : List Held) → SlotIs (task_lists task.entry) pool (length pool) result
        (all_instances task.entry.population.now.content class) }
{
    let lists = Lists {
        unit: task.accepted.unit(),
        population: task.population,
    };
    all_instances(lists, class)
}

/// A feature of an object; of null and invalid it is invalid.
#[inline(always)]
fn feature_read(task: Task<'_>, feature: FeatureNo, v: Slot) -> Slot
    requires feature { feature < length task.population.now.content.model.features }
    requires has { HasFeature task.population.now.content feature v }
    ensures { (pool : List Held) (x r : Value) →
        SlotIs (task_lists task.entry) pool (length pool) v x →
        value_read task.entry.population.now.content feature x ≡ Some r →
        SlotIs (task_lists task.entry) pool (length pool) result r }
{
    let lists = Lists {
        unit: task.accepted.unit(),
        population: task.population,
    };
    value_read(lists, feature, v)
}

/// What an instruction makes of operands alone.
#[inline(always)]
fn on_operands(
    task: Task<'_>,
    operands: &ReservedStack<Slot>,
    pool: &mut Vec<Slot>,
    instr: Instr,
) -> Slot
    requires takes { TakesOne instr ⊎ TakesTwo instr }
    requires can { (vars : List Held) × CanPerform (setting_in task) (task_lists task)
        pool.old.items vars operands.now.0 instr }
    ensures gives { (vars : List Held) → GivesSlot (setting_in task.entry) (task_lists task.entry)
        pool.old.items pool.old.items vars operands.now.0 instr result }
    ensures pool { pool.new.items ≡ pool.old.items }
{
    if takes_one(instr) {
        apply_one(task, pool, instr, topmost(operands))
    } else {
        apply_two(task, pool, instr, below(operands, 1), topmost(operands))
    }
}

/// What an instruction that gathers nothing gives. The pool stays as it was.
#[inline(always)]
fn plain_result(
    task: Task<'_>,
    variables: &ReservedStack<Slot>,
    operands: &ReservedStack<Slot>,
    pool: &mut Vec<Slot>,
    instr: Instr,
) -> Slot
    requires task { IsTask task }
    requires fits { InstrFits (length task.accepted.now.unit.texts)
        task.accepted.now.unit.symbols instr }
    requires shape { shape_of instr ≡ Single }
    requires plain { gathers instr ≡ false }
    requires can { CanPerform (setting_in task) (task_lists task) pool.old.items variables.now.0
        operands.now.0 instr }
    ensures gives { GivesSlot (setting_in task.entry) (task_lists task.entry) pool.old.items
        pool.old.items variables.now.0 operands.now.0 instr result }
    ensures pool { pool.new.items ≡ pool.old.items }
{
    match instr {
        Instr::SelfObject => variable(variables, 0),
        Instr::Get(number) => variable(variables, usize::from(number)),
        Instr::Int(n) => number_slot(n),
        Instr::Bool(b) => truth_slot(b),
        Instr::Text(text) => unit_text(task.lists(), text),
        Instr::Enum(literal) => literal_slot(task, literal),
        Instr::Null => null_slot(),
        Instr::Invalid => invalid_slot(),
        Instr::Attr(feature) => {
            feature_read(task, feature_named(task, feature), *topmost(operands))
        }
        Instr::All(class) => class_instances(task, class_named(task, class)),
        Instr::KindOf(class) => {
            kind_test(
                task.population,
                class_named(task, class),
                *topmost(operands),
            )
        }
        Instr::TypeOf(class) => {
            type_test(
                task.population,
                class_named(task, class),
                *topmost(operands),
            )
        }
        Instr::AsType(class) => cast(
            task.population,
            class_named(task, class),
            *topmost(operands),
        ),
        Instr::SubStr => substring(
            task.lists(),
            *below(operands, 2),
            *below(operands, 1),
            *topmost(operands),
        ),
        _ => on_operands(task, operands, pool, instr),
    }
}

/// What an instruction gives. Only what gathers puts something into the pool.
#[inline(always)]
fn result_of(
    task: Task<'_>,
    variables: &ReservedStack<Slot>,
    operands: &ReservedStack<Slot>,
    pool: &mut Vec<Slot>,
    instr: Instr,
) -> Result<Slot, OutOfMemory>
    requires task { IsTask task }
    requires fits { InstrFits (length task.accepted.now.unit.texts)
        task.accepted.now.unit.symbols instr }
    requires shape { shape_of instr ≡ Single }
    requires can { CanPerform (setting_in task) (task_lists task) pool.old.items variables.now.0
        operands.now.0 instr }
    ensures gives { IfOk result (λ o. GivesSlot (setting_in task.entry) (task_lists task.entry)
        pool.old.items pool.new.items variables.now.0 operands.now.0 instr o) }
    ensures longer { length pool.old.items ≤ length pool.new.items }
    ensures same { take (length pool.old.items) pool.new.items ≡ pool.old.items }
    ensures pool { OnErr result (pool.new.items ≡ pool.old.items) }
    ensures spare { gathers instr ≡ false → IsOk result }
{
    match instr {
        Instr::AsColl(_, _) => {
            let made = as_collection(pool, *topmost(operands))?;
            Ok(made)
        }
        Instr::AsSet(kind) => {
            let made = as_set(task.lists(), pool, kind, *topmost(operands))?;
            Ok(made)
        }
        _ => Ok(plain_result(task, variables, operands, pool, instr)),
    }
}

/// The step of an instruction without a body: its result takes the place of its operands. Nothing is taken before the
/// result is there.
#[inline(always)]
pub(crate) fn perform(
    task: Task<'_>,
    variables: &ReservedStack<Slot>,
    operands: &mut ReservedStack<Slot>,
    pool: &mut Vec<Slot>,
    instr: Instr,
) -> Result<(), OutOfMemory>
    requires task { IsTask task }
    requires fits { InstrFits (length task.accepted.now.unit.texts)
        task.accepted.now.unit.symbols instr }
    requires shape { shape_of instr ≡ Single }
    requires can { CanPerform (setting_in task) (task_lists task) pool.old.items variables.now.0
        operands.old.0 instr }
    requires room { length operands.old.0 < operands.old.1 }
    ensures made { OnOk result (Performed (setting_in task.entry) (task_lists task.entry)
        pool.old.items pool.new.items variables.now.0 operands.old.0 operands.new.0 instr) }
    ensures room { operands.new.1 ≡ operands.old.1 }
    ensures operands { OnErr result (operands.new ≡ operands.old) }
    ensures pool { OnErr result (pool.new.items ≡ pool.old.items) }
    ensures spare { gathers instr ≡ false → IsOk result }
{
    let value = result_of(task, variables, operands, pool, instr)?;
    operands.drop_top(operand_count(instr));
    operands.push(value);
    Ok(())
}
