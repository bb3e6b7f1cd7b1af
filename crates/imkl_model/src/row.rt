//! A set of class numbers, as bits.

ghost use Rattle.std.specs.Prelude.{◌≡◌, ℕ, ◌<◌, ◌==◌, ◌&&◌, ◌||◌, ◌/◌, true, false, length, None, IfOk, IfSome};
ghost use Rattle.imkl_model.specs.Tables.{has_mark, is_marked};

use std::alloc::{AllocError, Global};
use std::marker::Model;

/// A mark for each number below a count, 64 to a word.
#[derive(Drop)]
pub(crate) struct Row {
    words: Vec<u64>,
    count: usize,
}

impl Model for Row {
    ghost use Rattle.std.specs.Prelude.{◌≡◌, ◌/◌, ◌+◌, List, Bool, length};
    ghost use Rattle.imkl_model.specs.Tables.{marks};

    ghost Value = { List Bool };

    ghost view = { λ r. marks r.words.items r.count };

    ghost invariant = { λ r. length r.words.items ≡ r.count / 64 + 1 };
}

impl Row {
    /// No marks.
    pub(crate) fn new(alloc: Global, count: usize) -> Result<Row, AllocError>
        ensures { IfOk result (λ r. (length r ≡ count) × ((j : ℕ) → has_mark r j ≡ false)) }
    {
        let mut words = Vec::new(alloc);
        words.resize(count / 64 + 1, 0)?;
        Ok(Row { words, count })
    }

    /// Whether a number is marked.
    pub(crate) fn has(&self, number: usize) -> bool
        requires { number < length self.now }
        ensures { result ≡ has_mark self.now number }
    {
        is_marked(self.words.as_slice(), number)
    }

    /// Marks a number.
    pub(crate) fn add(&mut self, number: usize)
        requires { number < length self.old }
        ensures same { length self.new ≡ length self.old }
        ensures marks { (j : ℕ) → has_mark self.new j ≡ (has_mark self.old j || (number == j)) }
    {
        mark(&mut self.words, number);
    }

    /// Marks a number, if it is below the count.
    pub(crate) fn add_within(&mut self, number: usize)
        ensures same { length self.new ≡ length self.old }
        ensures marks { (j : ℕ) → j < length self.old
            → has_mark self.new j ≡ (has_mark self.old j || (number == j)) }
    {
        if number < self.count {
            self.add(number);
        }
    }

    /// How many numbers may be marked.
    pub(crate) fn len(&self) -> usize
        ensures { result ≡ length self.now }
    {
        self.count
    }

    /// Adds the marks of another.
    pub(crate) fn merge(&mut self, other: &Row)
        requires { length self.old ≡ length other.now }
        ensures same { length self.new ≡ length self.old }
        ensures marks { (j : ℕ) → has_mark self.new j
            ≡ (has_mark self.old j || has_mark other.now j) }
    {
        merge(&mut self.words, &other.words);
    }

    /// A number that is marked in both, if there is one.
    pub(crate) fn common(&self, other: &Row) -> Option<usize>
        ensures found { IfSome result (λ j. (j < length self.now) × (has_mark self.now j ≡ true)
            × (has_mark other.now j ≡ true)) }
        ensures none { result ≡ None
            → (j : ℕ) → (has_mark self.now j && has_mark other.now j) ≡ false }
    {
        let count = self.count.min(other.count);
        common(self.words.as_slice(), other.words.as_slice(), count)
    }

    /// Takes over the marks of another.
    pub(crate) fn copy_from(&mut self, other: &Row)
        requires { length self.old ≡ length other.now }
        ensures { self.new ≡ other.now }
    {
        self.words.copy_from_slice(other.words.as_slice());
    }
}

fn is_marked(words: &[u64], number: usize) -> bool
    requires { number / 64 < length words.now }
    ensures { result ≡ is_marked words.now number }
{
    (words[number / 64] >> (number % 64)) & 1 == 1
}

fn mark(words: &mut Vec<u64>, number: usize)
    requires { number / 64 < length words.old.items }
    ensures same { length words.new.items ≡ length words.old.items }
    ensures marks { (j : ℕ) → is_marked words.new.items j
        ≡ (is_marked words.old.items j || (number == j)) }
{
    words[number / 64] |= 1 << (number % 64);
}

fn merge(words: &mut Vec<u64>, more: &Vec<u64>)
    requires { length words.old.items ≡ length more.now.items }
    ensures same { length words.new.items ≡ length words.old.items }
    ensures marks { (j : ℕ) → is_marked words.new.items j
        ≡ (is_marked words.old.items j || is_marked more.now.items j) }
{
    for i in 0..words.len() {
        words[i] |= more[i];
    }
}

/// The least number below a bound that is marked in both. Words with no such number are passed over whole.
fn common(words: &[u64], others: &[u64], count: usize) -> Option<usize>
    requires words { count / 64 < length words.now }
    requires others { count / 64 < length others.now }
    ensures found { IfSome result (λ j. (j < count) × (is_marked words.now j ≡ true)
        × (is_marked others.now j ≡ true)) }
    ensures none { result ≡ None → (j : ℕ) → j < count
        → (is_marked words.now j && is_marked others.now j) ≡ false }
{
    let mut number = 0;
    while number < count {
        if words[number / 64] & others[number / 64] == 0 {
            number = number.saturating_add(64 - number % 64);
        } else if is_marked(words, number) && is_marked(others, number) {
            return Some(number);
        } else {
            number += 1;
        }
    }
    None
}
