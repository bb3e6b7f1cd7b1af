//! Operations on texts, by characters. A part of a text is a narrower range of its bytes. The
//! population keeps the number of characters of each of its texts. So only parts of texts with
//! longer characters, and texts of the unit, are counted.

ghost use Rattle.std.specs.Prelude.{◌≡◌, ◌==◌, ◌+◌, ◌<◌, ◌≤◌, ◌^◌, ℕ, List, length, take, drop, slice_range, true, Some, IfSome};
ghost use Rattle.std.specs.Str.{chars};
ghost use Rattle.imkl_population.specs.declared.scalar.Scalar.TheVariants.{Text};
ghost use Rattle.rule_code.specs.Content.{text_at};
ghost use Rattle.rule_values.specs.Value.{Value, Single};
ghost use Rattle.rule_values.specs.Operations.{text_length, characters, substring};
ghost use Rattle.rule_slots.specs.Slots.{Lists as Indexed, IsTextAt, TextIs, SlotIs, lists_in, plain_mark};
ghost use Rattle.rule_slots.specs.declared.slot.Slot.{Slot as Held};
ghost use Rattle.rule_slots.specs.Operands.{MakesOfOne, is_text_operand, is_number_operand};
ghost use Rattle.rule_slots.specs.Compared.{text_bytes, bytes_at, bytes_within, slot_bytes};
ghost use Rattle.rule_slots.specs.Cut.{AreSingleBytes, IsRestOf, bounds_in};

use crate::collections::count_slot;
use crate::integers::if_plain;
use crate::lists::Lists;
use crate::slot::{Slot, invalid_slot, text_slot};
use imkl_population::{Scalar, ScalarText};
use rule_code::TextNumber;

/// A text of the unit.
#[inline(always)]
pub fn unit_text(lists: Lists<'_>, number: TextNumber) -> Slot
    requires { number.0 < length (lists_in lists).texts }
    ensures { (pool : List Held) (hi : ℕ) → SlotIs (lists_in lists.entry) pool hi result
        (Single (Text (chars (text_at (lists_in lists.entry).texts number.0)))) }
{
    let text = lists.unit.text(number);
    text_slot(1, usize::from(number.0), 0, text.len())
}

/// The bytes of a value, none where it is no text.
fn scalar_text(scalar: &Scalar) -> &str
    ensures { result.now ≡ text_bytes (Some scalar.now) }
{
    match scalar {
        Scalar::Text(text) => text.as_str(),
        _ => "",
    }
}

/// The text in which that of a slot stands.
fn whole_text<'a>(lists: Lists<'a>, slot: Slot) -> &'a str
    ensures { result.now ≡ bytes_at (slot.list == 0) (lists_in lists.entry) slot.index }
{
    if slot.list == 0 {
        let scalars = lists.scalars();
        if slot.index < scalars.len() {
            scalar_text(&scalars[slot.index])
        } else {
            ""
        }
    } else if slot.index < lists.unit.texts.len() {
        lists.unit.texts[slot.index].as_str()
    } else {
        ""
    }
}

/// The bytes of a range, none where it doesn't lie within them.
fn bytes_within(bytes: &[u8], start: usize, count: usize) -> &[u8]
    ensures { result.now ≡ bytes_within bytes.now start count }
{
    if count > bytes.len() || start > bytes.len() - count {
        return &[];
    }
    &bytes[start..start + count]
}

/// The bytes of the text that a slot stands for.
#[inline(never)]
pub(crate) fn slot_bytes<'a>(lists: Lists<'a>, slot: Slot) -> &'a [u8]
    ensures { result.now ≡ slot_bytes (lists_in lists.entry) slot }
{
    bytes_within(whole_text(lists, slot).as_bytes(), slot.start, slot.count)
}

/// The text that a slot stands for; the empty text where it stands for none.
#[inline(never)]
fn text_of<'a>(lists: Lists<'a>, slot: Slot) -> &'a str
    ensures text { (t : List ℕ) → TextIs (lists_in lists.entry) slot t → chars result.now ≡ t }
    ensures within { slot.start + length result.now < 2 ^ 64 }
{
    let whole = whole_text(lists, slot);
    let Some(end) = slot.start.checked_add(slot.count) else {
        return "";
    };
    match whole.get(slot.start..end) {
        Some(text) => text,
        None => "",
    }
}

/// How many characters a text has.
fn character_count(text: &str) -> usize
    ensures { result ≡ length (chars text.now) }
{
    text.chars().count()
}

/// The text of the population that a slot's text is a part of; none for a text of the unit.
fn population_text<'a>(lists: Lists<'a>, slot: Slot) -> Option<&'a ScalarText>
    ensures { IfSome result (λ text. (t : List ℕ) →
        IsTextAt (slot.list == 0) (lists_in lists.entry) slot.index t → text.now ≡ t) }
{
    if slot.list != 0 {
        return None;
    }
    match lists.scalars().get(slot.index) {
        Some(Scalar::Text(text)) => Some(text),
        _ => None,
    }
}

/// Whether each character of a text is one byte.
fn is_single_bytes(text: &ScalarText) -> bool
    ensures single { result ≡ true → AreSingleBytes text.now }
    ensures room { length text.now < 2 ^ 64 }
{
    text.as_str().len() == text.character_count()
}

/// Whether a slot's text is a part of one whose characters are known to be one byte each.
fn is_cut_by_bytes(lists: Lists<'_>, slot: Slot) -> bool
    ensures single { result ≡ true → (t : List ℕ) → TextIs (lists_in lists.entry) slot t →
        AreSingleBytes t }
    ensures room { result ≡ true → (t : List ℕ) → TextIs (lists_in lists.entry) slot t →
        slot.start + length t < 2 ^ 64 }
{
    match population_text(lists, slot) {
        Some(text) => is_single_bytes(text),
        None => false,
    }
}

/// How many characters a slot's text has.
#[inline(never)]
fn length_of(lists: Lists<'_>, slot: Slot) -> usize
    ensures { (t : List ℕ) → TextIs (lists_in lists.entry) slot t → result ≡ length t }
{
    if let Some(text) = population_text(lists, slot) {
        if slot.count == text.as_str().len() {
            return text.character_count();
        }
        if is_single_bytes(text) {
            return slot.count;
        }
    }
    character_count(text_of(lists, slot))
}

/// How many characters a text has; invalid of null and invalid.
#[inline(always)]
pub fn text_length(lists: Lists<'_>, v: Slot) -> Slot
    ensures { (pool : List Held) →
        MakesOfOne (lists_in lists.entry) pool is_text_operand text_length v result }
{
    if_plain(v, count_slot(length_of(lists, v)))
}

/// What is left of a text after `count` characters.
fn after(text: &str, count: usize) -> &str
    ensures rest { IsRestOf result.now text.now }
    ensures left { chars result.now ≡ drop count (chars text.now) }
{
    let mut left = text.chars();
    for _ in 0..count {
        let _ = left.next();
    }
    left.as_str()
}

/// The first `count` characters of a text.
fn first(text: &str, count: usize) -> &str
    ensures { chars result.now ≡ take count (chars text.now) }
{
    let left = after(text, count);
    &text[..text.len() - left.len()]
}

/// The part of a text of so many characters from one, counted from 0, to before another, for bounds counted from 1, both
/// included; none unless 1 <= from <= to <= size.
fn bounds(size: usize, from: i64, to: i64) -> Option<(usize, usize)>
    ensures { result ≡ bounds_in size from to }
{
    let Ok(from) = usize::try_from(from) else {
        return None;
    };
    let Ok(to) = usize::try_from(to) else {
        return None;
    };
    if from < 1 || to < from || size < to {
        return None;
    }
    Some((from - 1, to))
}

/// The part of a slot's text from one character, counted from 0, to before another.
fn cut(v: Slot, text: &str, from: usize, to: usize) -> Slot
    requires order { from ≤ to }
    requires room { v.start + length text.now < 2 ^ 64 }
    ensures mark { plain_mark result.mark ≡ true }
    ensures text { (l : Indexed) → TextIs l v (chars text.now) →
        TextIs l result (slice_range (chars text.now) from to) }
{
    let left = after(text, from);
    let part = first(left, to - from);
    let start = v.start + (text.len() - left.len());
    text_slot(v.list, v.index, start, part.len())
}

/// The part of a slot's text from one character, counted from 0, to before another, where each character is one byte.
fn cut_by_bytes(v: Slot, from: usize, to: usize) -> Slot
    requires { from ≤ to }
    ensures mark { plain_mark result.mark ≡ true }
    ensures text { (l : Indexed) (t : List ℕ) → TextIs l v t → AreSingleBytes t →
        to ≤ length t → v.start + length t < 2 ^ 64 → TextIs l result (slice_range t from to) }
{
    text_slot(v.list, v.index, v.start.saturating_add(from), to - from)
}

/// The bounds of a part, which are slots.
fn slot_bounds(size: usize, lower: Slot, upper: Slot) -> Option<(usize, usize)>
    ensures { result ≡ bounds_in size lower.number upper.number }
{
    bounds(size, lower.number, upper.number)
}

/// The characters of a slot's text between two bounds.
#[inline(never)]
fn characters(lists: Lists<'_>, v: Slot, lower: Slot, upper: Slot) -> Slot
    ensures { (pool : List Held) (t : List ℕ) → TextIs (lists_in lists.entry) v t → SlotIs
        (lists_in lists.entry) pool (length pool) result (characters t lower.number upper.number) }
{
    let Some((from, to)) = slot_bounds(length_of(lists, v), lower, upper) else {
        return invalid_slot();
    };
    if is_cut_by_bytes(lists, v) {
        return cut_by_bytes(v, from, to);
    }
    cut(v, text_of(lists, v), from, to)
}

/// The characters from `lower` to `upper`, counted from 1, both included; invalid unless 1 <= lower <= upper <= size.
#[inline(always)]
pub fn substring(lists: Lists<'_>, v: Slot, lower: Slot, upper: Slot) -> Slot
    ensures { (pool : List Held) (t x y : Value) →
        SlotIs (lists_in lists.entry) pool (length pool) v t →
        SlotIs (lists_in lists.entry) pool (length pool) lower x →
        SlotIs (lists_in lists.entry) pool (length pool) upper y →
        is_text_operand t ≡ true → is_number_operand x ≡ true → is_number_operand y ≡ true →
        SlotIs (lists_in lists.entry) pool (length pool) result (substring t x y) }
{
    if v.is_plain() && lower.is_plain() && upper.is_plain() {
        characters(lists, v, lower, upper)
    } else {
        invalid_slot()
    }
}
