//! The numbers of objects by their ids.

ghost use Rattle.std.specs.Prelude.{◌≡◌, ◌<◌, ◌≤◌, ℕ, List, [], ◌∷◌, true, false, Some, None, length, bytes_eq, IfOk, OnOk, OnErr, IfSome, ◌+◌};
ghost use Rattle.std.specs.Map.{update};
ghost use Rattle.std.specs.BTreeMap.{get_by_text};
ghost use Rattle.imkl_population.specs.declared.object.Head.{Head};
ghost use Rattle.imkl_population.specs.declared.limits.TheConstants.{MAX_OBJECTS};
ghost use Rattle.imkl_population.specs.IdIndex.{hash_of, mark_of, group_start, group_size, has_id, number_found, IsFilled, IsGuarded, IsFirstEmpty, TakesSlot, IsOccupied, AddsId};

use crate::limits::{GROUP, NUMBERS};
use crate::object::Head;
use std::alloc::{AllocError, Global};
use std::collections::BTreeMap;
use std::hash::{FoldHasher, Hasher};

/// Finds objects by their ids. The hash of an id picks a group of slots, of which it takes the first that is empty. Ids whose
/// group was full stand in an ordered map, so no choice of ids makes a search slow. A slot has the number of an object, and a
/// mark of its id, so that few others are compared. The index keeps no text of ids with slots: it is asked together with the
/// objects, and contracts see which number is found for an id among these.
#[derive(Drop)]
pub(crate) struct IdIndex {
    /// The mark of an id, `NUMBERS` times, and one above the number of its object; 0 in an empty slot.
    slots: Vec<u32>,
    /// The numbers of objects whose groups were full.
    others: BTreeMap<String, usize>,
    ghost filled: { IsFilled slots.items },
    ghost guarded: { IsGuarded slots.items (get_by_text others) },
}

/// An id with its hash, which is computed once for all that is done with the id.
#[derive(Clone, Copy)]
pub(crate) struct HashedId<'i> {
    /// The id.
    pub(crate) text: &'i str,
    hash: u64,
    ghost hashed: { hash ≡ hash_of text.now },
}

impl<'i> HashedId<'i> {
    /// Hashes an id.
    pub(crate) fn new(text: &'i str) -> HashedId<'i>
        ensures { result.text.now ≡ text.now }
    {
        let hash = hash_of(text);
        HashedId { text, hash }
    }

    /// Its group, of so many slots: from one to before another. Fewer than a group has are none.
    fn group(self, slots: usize) -> (usize, usize)
        ensures first { result.0 ≡ group_start self.entry.text.now slots }
        ensures end { result.1 ≡ group_start self.entry.text.now slots + group_size slots }
        ensures known { result.1 ≤ slots }
    {
        let groups = slots / GROUP;
        if groups == 0 {
            return (0, 0);
        }
        let first = self.hash as usize % groups * GROUP;
        (first, first + GROUP)
    }

    /// Its mark: the highest bits of the hash, by which ids of one group are told apart before they are compared.
    #[tactic(auto, unfolding(crate::specs::IdIndex::mark_of))]
    fn mark(self) -> u32
        ensures mark { result ≡ mark_of self.entry.text.now }
        ensures small { result < 4096 }
    {
        (self.hash >> 52) as u32
    }
}

/// The hash of an id.
#[tactic(auto, unfolding(crate::specs::IdIndex::hash_of))]
fn hash_of(id: &str) -> u64
    ensures { result ≡ hash_of id.now }
{
    let mut hasher = FoldHasher::default();
    hasher.write(id.as_bytes());
    hasher.finish()
}

/// Whether an object is there and has an id.
pub(crate) fn has_id(heads: &[Head], number: usize, id: &str) -> bool
    ensures { result ≡ has_id heads.now number id.now }
{
    match heads.get(number) {
        Some(head) => head.id.as_str() == id,
        None => false,
    }
}

/// Gives an id a number.
fn put_number(
    alloc: Global,
    numbers: &mut BTreeMap<String, usize>,
    id: &str,
    number: usize,
) -> Result<(), AllocError>
    ensures ok { OnOk result ((q : List ℕ) → get_by_text numbers.new q ≡
        update bytes_eq (get_by_text numbers.old) id.now (Some number) q) }
    ensures err { OnErr result (get_by_text numbers.new ≡ get_by_text numbers.old) }
{
    let key = String::from_str(alloc, id)?;
    numbers.insert(key, number)?;
    Ok(())
}

impl IdIndex {
    /// No ids. Takes no memory.
    pub(crate) fn new(alloc: Global) -> IdIndex
        ensures { (hs : List Head) (id : List ℕ) →
            number_found result.slots.items (get_by_text result.others) hs id ≡ None }
    {
        IdIndex {
            slots: Vec::new(alloc),
            others: BTreeMap::new(alloc),
        }
    }

    /// No ids, and twice as many slots as so many have.
    pub(crate) fn with_capacity(alloc: Global, ids: usize) -> Result<IdIndex, AllocError>
        ensures { IfOk result (λ x. (hs : List Head) (id : List ℕ) →
            number_found x.slots.items (get_by_text x.others) hs id ≡ None) }
    {
        let groups = (ids / 4).saturating_add(1);
        let slots = vec![in alloc; 0; groups.saturating_mul(GROUP)]?;
        Ok(IdIndex {
            slots,
            others: BTreeMap::new(alloc),
        })
    }

    /// The number of the object that has an id.
    pub(crate) fn find(&self, heads: &[Head], id: HashedId<'_>) -> Option<usize>
        ensures { result ≡ number_found self.now.slots.items (get_by_text self.now.others)
            heads.now id.entry.text.now }
    {
        let (first, end) = id.group(self.slots.len());
        for slot in first..end {
            let held = self.slots[slot];
            let number = (held % NUMBERS).checked_sub(1)? as usize;
            if held / NUMBERS == id.mark() && has_id(heads, number, id.text) {
                return Some(number);
            }
        }
        self.others.get(id.text).copied()
    }

    /// The first slot of an id's group that is empty.
    fn first_empty(&self, id: HashedId<'_>) -> Option<usize>
        ensures found { IfSome result (λ i. IsFirstEmpty self.now.slots.items id.entry.text.now i) }
        ensures full { result ≡ None → IsOccupied self.now.slots.items id.entry.text.now }
    {
        let (first, end) = id.group(self.slots.len());
        for slot in first..end {
            if self.slots[slot] % NUMBERS == 0 {
                return Some(slot);
            }
        }
        None
    }

    /// Gives the id of the next object its number.
    pub(crate) fn add(
        &mut self,
        alloc: Global,
        id: HashedId<'_>,
        number: usize,
    ) -> Result<(), AllocError>
        requires { number < MAX_OBJECTS }
        ensures { AddsId result
            (number_found self.old.slots.items (get_by_text self.old.others)) id.entry.text.now
            number
            (number_found self.new.slots.items (get_by_text self.new.others)) }
    {
        if self.take_slot(id, number) {
            return Ok(());
        }
        put_number(alloc, &mut self.others, id.text, number)?;
        Ok(())
    }

    /// Gives a number the first empty slot of an id's group, if one is empty, and answers whether one was.
    fn take_slot(&mut self, id: HashedId<'_>, number: usize) -> bool
        requires { number < MAX_OBJECTS }
        ensures taken { result ≡ true →
            TakesSlot self.old.slots.items id.entry.text.now number self.new.slots.items }
        ensures others { result ≡ true → self.new.others ≡ self.old.others }
        ensures full { result ≡ false → IsOccupied self.old.slots.items id.entry.text.now }
        ensures same { result ≡ false → self.new ≡ self.old }
    {
        let Some(slot) = self.first_empty(id) else {
            return false;
        };
        self.slots[slot] = id.mark() * NUMBERS + number as u32 + 1;
        true
    }
}
