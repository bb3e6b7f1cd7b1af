//! Ranges of each object's values in a list, for the objects that have some.

ghost use Rattle.std.specs.Prelude.{◌≡◌, ◌<◌, ◌≤◌, ◌==◌, true, Some, None, length, find, All, OnOk, OnErr};
ghost use Rattle.std.specs.List.Sorted.{IsStrictlySortedBy};
ghost use Rattle.std.specs.Ordering.{nat_cmp};
ghost use Rattle.imkl_population.specs.declared.entries.Entry.{Entry};
ghost use Rattle.imkl_population.specs.Store.{objects_in, put_entry};

use std::alloc::AllocError;

/// The values of one object: those from `start` to before `end` in the list of values.
#[derive(Clone, Copy)]
pub struct Entry {
    /// The object's number, from 0.
    pub object: usize,
    /// The place of the first value, from 0.
    pub start: usize,
    /// The place behind the last value: `start` where there are none.
    pub end: usize,
}

/// Whether a place lies between the entries of earlier objects and those of later ones.
fn is_gap(entries: &[Entry], place: usize, object: usize) -> bool
    requires ascend { IsStrictlySortedBy nat_cmp (objects_in entries.now) }
    requires place { place ≤ length entries.now }
    ensures { result ≡ true → find (λ e. e.object == object) entries.now ≡ None }
{
    (place == 0 || entries[place - 1].object < object)
        && (place == entries.len() || object < entries[place].object)
}

/// The entry at a place, if there is one and it is the object's.
fn entry_at(entries: &[Entry], place: usize, object: usize) -> Option<Entry>
    requires { IsStrictlySortedBy nat_cmp (objects_in entries.now) }
    ensures { (e : Entry) → result ≡ Some e → Some e ≡ find (λ e. e.object == object) entries.now }
{
    if place < entries.len() && entries[place].object == object {
        Some(entries[place])
    } else {
        None
    }
}

/// The entry of an object among entries whose objects ascend. Where the guess of its place is right, nothing is searched.
pub(crate) fn find_entry(entries: &[Entry], guess: usize, object: usize) -> Option<Entry>
    requires { IsStrictlySortedBy nat_cmp (objects_in entries.now) }
    ensures { result ≡ find (λ e. e.object == object) entries.now }
{
    let place = guess.min(entries.len());
    if let Some(entry) = entry_at(entries, place, object) {
        return Some(entry);
    }
    if is_gap(entries, place, object) {
        return None;
    }
    match entries.binary_search_by_key(&object, |entry| entry.object) {
        Ok(place) => Some(entries[place]),
        Err(_) => None,
    }
}

/// Whether an object comes behind those of entries whose objects ascend.
fn goes_last(entries: &[Entry], object: usize) -> bool
    requires { IsStrictlySortedBy nat_cmp (objects_in entries.now) }
    ensures { result ≡ true → All (λ e. e.object < object) entries.now }
{
    if entries.is_empty() {
        return true;
    }
    entries[entries.len() - 1].object < object
}

/// Puts an entry at its place, in the place of the one of the same object.
pub(crate) fn put_entry(entries: &mut Vec<Entry>, entry: Entry) -> Result<(), AllocError>
    requires { IsStrictlySortedBy nat_cmp (objects_in entries.old.items) }
    ensures ok { OnOk result (entries.new.items ≡ put_entry entries.old.items entry) }
    ensures err { OnErr result (entries.new.items ≡ entries.old.items) }
{
    if goes_last(entries, entry.object) {
        entries.push(entry)?;
        return Ok(());
    }
    match entries.binary_search_by_key(&entry.object, |e| e.object) {
        Ok(place) => {
            entries[place] = entry;
        }
        Err(place) => {
            entries.insert(place, entry)?;
        }
    }
    Ok(())
}
