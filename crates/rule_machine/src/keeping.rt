//! What iterations keep of their turns, at the end of the pool.

ghost use Rattle.std.specs.Prelude.{◌≡◌, ◌+◌, ◌-◌, ◌<◌, ◌≤◌, ◌++◌, ◌∷◌, ℕ, [], length, map, take, false, slice_get, slice_range, Some, IfOk, OnOk, OnErr, IsOk, if◌then◌else◌};
ghost use Rattle.rule_code.specs.declared.instruction.Instr.TheVariants.{CollectFlat};
ghost use Rattle.rule_verify.specs.InstrKinds.{gathers};
ghost use Rattle.rule_slots.specs.declared.slot.Slot.{Slot as Held};
ghost use Rattle.rule_slots.specs.Slots.{lists_in, index_slot, invalid_mark, scalar_slots, held_slots, IsInHome};
ghost use Rattle.rule_machine.specs.StandFor.{kept_slots};

use crate::piece::Turn;
use ocl_base::OutOfMemory;
use rule_slots::{
    Home, Lists, Slot, element, home_named, index_slot, is_false, is_true, move_down, scalar_slot,
};
use rule_verify::{BlockInstr, block_of};

/// Cuts the pool back to `at`, and then puts a slot at its end, if it is to be kept. Gives how many are put, 0 or 1.
#[inline(always)]
fn keep_if(pool: &mut Vec<Slot>, at: usize, keep: bool, slot: Slot) -> Result<usize, OutOfMemory>
    requires { at ≤ length pool.old.items }
    ensures kept { OnOk result (pool.new.items ≡ take at pool.old.items ++
        (if keep then slot ∷ [] else [])) }
    ensures count { IfOk result (λ n. n ≡ length (if keep then slot ∷ [] else [])) }
    ensures refused { OnErr result (pool.new.items ≡ pool.old.items) }
{
    if keep {
        pool.reserve(1)?;
        pool.truncate(at);
        pool.push_reserved(slot);
        Ok(1)
    } else {
        pool.truncate(at);
        Ok(0)
    }
}

/// Cuts the pool back to what an iteration keeps, and keeps the element of its turn too, if it is to be kept. Gives how many
/// are put, 0 or 1. (An element that isn't kept isn't read.)
#[inline(always)]
fn keep_taken(
    lists: Lists<'_>,
    pool: &mut Vec<Slot>,
    turn: &Turn,
    keep: bool,
) -> Result<usize, OutOfMemory>
    requires at { turn.now.opened + turn.now.kept ≤ length pool.old.items }
    requires begun { 0 < turn.now.next }
    requires next { turn.now.next ≤ turn.now.source.count }
    requires within { IsInHome (lists_in lists) (length pool.old.items) turn.now.source }
    ensures kept { (e : Held) → slice_get (held_slots (lists_in lists.entry) pool.old.items
        turn.now.source) (turn.now.next - 1) ≡ Some e → OnOk result (pool.new.items ≡
        take (turn.now.opened + turn.now.kept) pool.old.items ++ (if keep then e ∷ [] else [])) }
    ensures count { (e : Held) → IfOk result (λ n. n ≡ length (if keep then e ∷ [] else [])) }
    ensures refused { OnErr result (pool.new.items ≡ pool.old.items) }
{
    let at = turn.opened + turn.kept;
    if keep {
        let taken = element(lists, pool, turn.source, turn.next - 1);
        keep_if(pool, at, true, taken)
    } else {
        pool.truncate(at);
        Ok(0)
    }
}

/// Cuts the pool back to `at`, and keeps a part of what it was from there on; the part may lie below `at` too.
#[inline(never)]
fn keep_own(pool: &mut Vec<Slot>, at: usize, start: usize, count: usize) -> Result<(), OutOfMemory>
    requires at { at ≤ length pool.old.items }
    requires there { start + count ≤ length pool.old.items }
    ensures ok { OnOk result (pool.new.items ≡ take at pool.old.items ++
        slice_range pool.old.items start (start + count)) }
    ensures err { OnErr result (pool.new.items ≡ pool.old.items) }
{
    let old = pool.len();
    if start < at {
        pool.extend_from_within(start..start + count)?;
        move_down(pool, at, old, count);
    } else {
        move_down(pool, at, start, count);
    }
    Ok(())
}

/// Keeps a part of a list from a place of the pool on. Tells how many elements it has.
#[inline(always)]
fn keep_part(
    lists: Lists<'_>,
    pool: &mut Vec<Slot>,
    at: usize,
    value: Slot,
) -> Result<usize, OutOfMemory>
    requires at { at ≤ length pool.old.items }
    requires there { IsInHome (lists_in lists) (length pool.old.items) value }
    ensures kept { OnOk result (pool.new.items ≡ take at pool.old.items ++
        held_slots (lists_in lists.entry) pool.old.items value) }
    ensures count { IfOk result (λ n. n ≡ length (held_slots (lists_in lists.entry)
        pool.old.items value)) }
    ensures refused { OnErr result (pool.new.items ≡ pool.old.items) }
{
    match home_named(value.list) {
        Home::Pool => {
            keep_own(pool, at, value.start, value.count)?;
            Ok(value.count)
        }
        Home::Scalars => keep_scalars(lists, pool, at, value),
        Home::Instances => keep_instances(lists, pool, at, value),
    }
}

/// Keeps values of the population.
#[inline(never)]
fn keep_scalars(
    lists: Lists<'_>,
    pool: &mut Vec<Slot>,
    at: usize,
    value: Slot,
) -> Result<usize, OutOfMemory>
    requires at { at ≤ length pool.old.items }
    requires there { value.start + value.count ≤ length (lists_in lists).scalars }
    ensures kept { OnOk result (pool.new.items ≡ take at pool.old.items ++ scalar_slots value.start
        (slice_range (lists_in lists.entry).scalars value.start (value.start + value.count))) }
    ensures count { IfOk result (λ n. n ≡ value.count) }
    ensures refused { OnErr result (pool.new.items ≡ pool.old.items) }
{
    let scalars = lists.scalars();
    pool.reserve(value.count)?;
    pool.truncate(at);
    for offset in 0..value.count {
        let index = value.start + offset;
        pool.push_reserved(scalar_slot(index, &scalars[index]));
    }
    Ok(value.count)
}

/// Keeps instances.
#[inline(never)]
fn keep_instances(
    lists: Lists<'_>,
    pool: &mut Vec<Slot>,
    at: usize,
    value: Slot,
) -> Result<usize, OutOfMemory>
    requires at { at ≤ length pool.old.items }
    requires there { value.start + value.count ≤ length (lists_in lists).instances }
    ensures kept { OnOk result (pool.new.items ≡ take at pool.old.items ++ map index_slot
        (slice_range (lists_in lists.entry).instances value.start (value.start + value.count))) }
    ensures count { IfOk result (λ n. n ≡ value.count) }
    ensures refused { OnErr result (pool.new.items ≡ pool.old.items) }
{
    let instances = lists.instances();
    pool.reserve(value.count)?;
    pool.truncate(at);
    for offset in 0..value.count {
        let index = value.start + offset;
        pool.push_reserved(index_slot(instances[index].index()));
    }
    Ok(value.count)
}

/// Cuts the pool back to what an iteration keeps, with what a turn adds to it. Tells how many are added. An iteration
/// that gathers nothing takes no memory.
#[inline(always)]
pub(crate) fn keep(
    lists: Lists<'_>,
    pool: &mut Vec<Slot>,
    turn: &Turn,
    value: Slot,
) -> Result<usize, OutOfMemory>
    requires at { turn.now.opened + turn.now.kept ≤ length pool.old.items }
    requires begun { 0 < turn.now.next }
    requires next { turn.now.next ≤ turn.now.source.count }
    requires within { IsInHome (lists_in lists) (length pool.old.items) turn.now.source }
    requires there { (n : ℕ) → turn.now.instr ≡ CollectFlat n → invalid_mark value.mark ≡ false →
        IsInHome (lists_in lists) (length pool.old.items) value }
    ensures kept { (e : Held) → slice_get (held_slots (lists_in lists.entry) pool.old.items
        turn.now.source) (turn.now.next - 1) ≡ Some e → OnOk result (pool.new.items ≡
        take (turn.now.opened + turn.now.kept) pool.old.items ++ kept_slots (lists_in lists.entry)
        pool.old.items turn.now.instr e value) }
    ensures count { (e : Held) → IfOk result (λ n. n ≡ length (kept_slots (lists_in lists.entry)
        pool.old.items turn.now.instr e value)) }
    ensures refused { OnErr result (pool.new.items ≡ pool.old.items) }
    ensures spare { gathers turn.now.instr ≡ false → IsOk result }
{
    let at = turn.opened + turn.kept;
    match block_of(turn.instr) {
        Some(BlockInstr::Select(_)) => keep_taken(lists, pool, turn, is_true(value)),
        Some(BlockInstr::Reject(_)) => keep_taken(lists, pool, turn, is_false(value)),
        Some(BlockInstr::Collect(_) | BlockInstr::IsUnique(_, _)) => {
            keep_if(pool, at, !value.is_invalid(), value)
        }
        Some(BlockInstr::CollectFlat(_)) => {
            if value.is_invalid() {
                pool.truncate(at);
                return Ok(0);
            }
            keep_part(lists, pool, at, value)
        }
        Some(BlockInstr::ForAll(_) | BlockInstr::Exists(_) | BlockInstr::One(_)) => {
            pool.truncate(at);
            Ok(0)
        }
        Some(BlockInstr::Fold(_, _)) => {
            pool.truncate(at);
            Ok(0)
        }
        Some(BlockInstr::Let(_) | BlockInstr::If(_, _, _)) | None => {
            pool.truncate(at);
            Ok(0)
        }
    }
}
