//! A first guess at an object's entry in a column, without a search.

use crate::entries::Entry;
use std::alloc::{AllocError, Global};

/// How many entries come before those of 64 objects in a row, and a bit for each of these that has one.
#[derive(Clone, Copy)]
struct Block {
    before: usize,
    bits: u64,
}

impl Block {
    /// How many entries come before the one of an object of this block.
    fn rank(&self, object: usize) -> usize {
        let earlier = (1u64 << (object % 64)).wrapping_sub(1);
        let inside = (self.bits & earlier).count_ones();
        self.before.saturating_add(inside as usize)
    }
}

/// The ranks of a column's objects, counted once the column is complete. Where many of the objects from the first to the last
/// have entries, the rank of each is kept, since counting bits takes longer; else blocks, which take less memory. Contracts
/// promise nothing of a rank: it is a guess, and who asks for it looks at what stands there.
#[derive(Drop)]
pub(crate) struct Ranks {
    first: usize,
    each: Vec<u32>,
    blocks: Vec<Block>,
}

/// The first object that has an entry, and the last one.
fn first_and_last(entries: &[Entry]) -> (usize, usize) {
    match (entries.first(), entries.last()) {
        (Some(first), Some(last)) => (first.object, last.object),
        _ => (0, 0),
    }
}

/// A place as a rank, which takes 4 bytes. No column is so long that it doesn't fit; there the guess would be wrong.
fn rank_of(place: usize) -> u32 {
    match u32::try_from(place) {
        Ok(rank) => rank,
        Err(_) => u32::MAX,
    }
}

impl Ranks {
    /// No ranks: what has none is searched for.
    pub(crate) fn new(alloc: Global) -> Ranks {
        Ranks {
            first: 0,
            each: Vec::new(alloc),
            blocks: Vec::new(alloc),
        }
    }

    /// The ranks of entries whose objects ascend: none where the objects lie so far apart that there would be more blocks
    /// than entries.
    pub(crate) fn of(alloc: Global, entries: &[Entry]) -> Result<Ranks, AllocError> {
        let mut ranks = Ranks::new(alloc);
        let (first, last) = first_and_last(entries);
        ranks.first = first;
        let objects = last.saturating_sub(first).saturating_add(1);
        if objects / 4 < entries.len() {
            ranks.each = Vec::with_capacity(alloc, objects)?;
            ranks.keep_each(entries)?;
        } else if (last / 64).saturating_sub(first / 64) < entries.len() {
            ranks.mark_blocks(entries)?;
        }
        Ok(ranks)
    }

    /// Keeps the rank of each object from the first entry's to the last one's.
    fn keep_each(&mut self, entries: &[Entry]) -> Result<(), AllocError> {
        for place in 0..entries.len() {
            self.keep(rank_of(place), entries[place].object)?;
        }
        Ok(())
    }

    /// Keeps the rank of an object, which those between it and the entry before have too.
    fn keep(&mut self, rank: u32, object: usize) -> Result<(), AllocError> {
        let index = object.saturating_sub(self.first);
        for _ in self.each.len()..index.saturating_add(1) {
            self.each.push(rank)?;
        }
        Ok(())
    }

    /// Marks the object of each entry in its block.
    fn mark_blocks(&mut self, entries: &[Entry]) -> Result<(), AllocError> {
        for place in 0..entries.len() {
            self.mark(place, entries[place].object)?;
        }
        Ok(())
    }

    /// Marks the object of the entry at a place in its block.
    fn mark(&mut self, place: usize, object: usize) -> Result<(), AllocError> {
        let block = (object / 64).saturating_sub(self.first / 64);
        for _ in self.blocks.len()..block.saturating_add(1) {
            self.blocks.push(Block {
                before: place,
                bits: 0,
            })?;
        }
        if let Some(block) = self.blocks.get_mut(block) {
            block.bits |= 1 << (object % 64);
        }
        Ok(())
    }

    /// How many entries are guessed to come before an object's.
    pub(crate) fn guess(&self, object: usize) -> usize {
        let Some(index) = object.checked_sub(self.first) else {
            return 0;
        };
        if let Some(rank) = self.each.get(index) {
            return *rank as usize;
        }
        let block = (object / 64).saturating_sub(self.first / 64);
        match self.blocks.get(block) {
            Some(block) => block.rank(object),
            None => usize::MAX,
        }
    }
}
