//! Iterations with two variables. Code has the source of one as a variable of its own, which no `let` can have where the source
//! is a single value or null. So `let x1 : T = V in x1->forAll(x2 | x1->forAll(x3 | B))` becomes `(V)->forAll(x2, x3 | B)`.

use crate::lines::Quotes;
use ocl_base::OutOfMemory;
use ocl_core::{Core, CoreLink, Iteration};
use std::alloc::Global;

/// Whether a tree is a variable.
fn is_variable(core: &Core, variable: usize) -> bool {
    matches!(core, Core::Variable { number } if *number == variable)
}

/// The only iteration over a variable that a tree is, with its body.
fn over_variable(core: &Core, variable: usize) -> Option<(Iteration, &Core)> {
    let Core::Spine { first, links } = core else {
        return None;
    };
    match links.as_slice() {
        [CoreLink::Iterate { iteration, body }] if is_variable(first, variable) => {
            Some((*iteration, body))
        }
        _ => None,
    }
}

/// Whether the body of a variable asks of each two elements of it, or of some two.
pub(crate) fn is_of_pairs(body: &Core, variable: usize) -> bool {
    let Some((outer, inner)) = over_variable(body, variable) else {
        return false;
    };
    match (outer, over_variable(inner, variable)) {
        (Iteration::ForAll, Some((Iteration::ForAll, _))) => true,
        (Iteration::Exists, Some((Iteration::Exists, _))) => true,
        _ => false,
    }
}

/// Whether a word is a `let`.
pub(crate) fn is_let(word: &str) -> bool {
    word == "let" || word.ends_with("(let")
}

/// Which words come next of a `let` that becomes an iteration with two variables.
#[derive(Clone, Copy)]
enum Next {
    /// Its value, or words of no such `let`.
    Any,
    /// Its variable and its type, so many words.
    Declaration(usize),
    /// The first iteration.
    First,
    /// The bar behind its variable.
    Bar,
    /// The second iteration.
    Second,
}

/// Words as far as they are taken over.
#[derive(Drop)]
struct PairedWords<'a> {
    alloc: Global,
    /// Of each `let`, whether it becomes an iteration with two variables.
    pairs: &'a [bool],
    /// How many of them were looked at.
    seen: usize,
    /// The same of those whose `in` is to come.
    open: Vec<bool>,
    next: Next,
    quotes: Quotes,
    /// How many parentheses are open.
    depth: usize,
    /// Of those that are left out, how many are open around them.
    left_out: Vec<usize>,
    /// What stands before the next word.
    before: String,
    words: Vec<String>,
}

impl PairedWords<'_> {
    /// Puts a word without the parentheses that are left out.
    fn put_word(&mut self, out: &mut String, word: &str) -> Result<(), OutOfMemory> {
        for character in word.chars() {
            let is_outside = matches!(self.quotes, Quotes::Outside);
            self.quotes = self.quotes.after(character);
            if is_outside && character == '(' {
                self.depth = self.depth.saturating_add(1);
            }
            if is_outside && character == ')' {
                self.depth = self.depth.saturating_sub(1);
                if self.left_out.last() == Some(&self.depth) {
                    let _closed = self.left_out.pop();
                    continue;
                }
            }
            out.push(character)?;
        }
        Ok(())
    }

    /// Puts more behind the last word.
    fn join(&mut self, more: &str) -> Result<(), OutOfMemory> {
        let mut last = match self.words.pop() {
            Some(last) => last,
            None => String::new(self.alloc),
        };
        self.put_word(&mut last, more)?;
        self.words.push(last)?;
        Ok(())
    }

    /// Takes over a word that is none of a `let` with two variables.
    fn take_any(&mut self, word: &str) -> Result<(), OutOfMemory> {
        if word == "in" && self.open.pop() == Some(true) {
            self.next = Next::First;
            return self.join(")");
        }
        let mut out = std::mem::replace(&mut self.before, String::new(self.alloc));
        if is_let(word) {
            let is_pair = self.pairs.get(self.seen) == Some(&true);
            self.seen = self.seen.saturating_add(1);
            self.open.push(is_pair)?;
            if is_pair {
                self.next = Next::Declaration(4);
                self.put_word(&mut out, word.strip_suffix("let").unwrap_or(""))?;
                self.put_word(&mut out, "(")?;
                self.before = out;
                return Ok(());
            }
        }
        self.put_word(&mut out, word)?;
        self.words.push(out)?;
        Ok(())
    }

    /// Takes over a word.
    fn take(&mut self, word: &str) -> Result<(), OutOfMemory> {
        match self.next {
            Next::Any => self.take_any(word),
            Next::Declaration(words) => {
                self.next = if words > 1 {
                    Next::Declaration(words - 1)
                } else {
                    Next::Any
                };
                Ok(())
            }
            Next::First => {
                self.next = Next::Bar;
                match word.split_once('-') {
                    Some((_, iteration)) => {
                        self.join("-")?;
                        self.join(iteration)
                    }
                    None => Ok(()),
                }
            }
            Next::Bar => {
                self.next = Next::Second;
                Ok(())
            }
            Next::Second => {
                self.next = Next::Any;
                self.left_out.push(self.depth)?;
                self.depth = self.depth.saturating_add(1);
                self.join(", ")?;
                match word.split_once('(') {
                    Some((_, variable)) => self.join(variable),
                    None => Ok(()),
                }
            }
        }
    }
}

/// The words of an expression, those `let`s with two variables in place of theirs that become such, in the order of the text.
pub(crate) fn paired(
    alloc: Global,
    pairs: &[bool],
    words: &[String],
) -> Result<Vec<String>, OutOfMemory> {
    let mut taken = PairedWords {
        alloc,
        pairs,
        seen: 0,
        open: Vec::new(alloc),
        next: Next::Any,
        quotes: Quotes::Outside,
        depth: 0,
        left_out: Vec::new(alloc),
        before: String::new(alloc),
        words: Vec::new(alloc),
    };
    for word in words {
        taken.take(word)?;
    }
    Ok(taken.words)
}
