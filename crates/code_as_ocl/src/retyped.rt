//! A rule's words with the types of its variables.

use crate::kinds::put_type;
use crate::pairs::is_let;
use explain_why::put;
use imkl_model::ClassModel;
use ocl_base::OutOfMemory;
use ocl_kinds::Kind;
use std::alloc::Global;

/// Words as far as they are taken over.
#[derive(Drop)]
struct RetypedWords<'a> {
    alloc: Global,
    model: &'a ClassModel,
    /// The types in the order of the text.
    types: &'a [Option<Kind>],
    /// How many of them were looked at.
    seen: usize,
    /// How many words ago the last `let` was.
    since_let: usize,
    words: Vec<String>,
}

impl RetypedWords<'_> {
    /// The next type.
    fn next(&mut self) -> Option<Kind> {
        let at = self.seen;
        self.seen = at.saturating_add(1);
        match self.types.get(at) {
            Some(kind) => *kind,
            None => None,
        }
    }

    /// The variable of an iteration at the end of a word, with the next type.
    fn put_element(&mut self, out: &mut String, word: &str) -> Result<(), OutOfMemory> {
        put(out, word)?;
        if let Some(kind) = self.next() {
            put(out, " : ")?;
            put_type(out, self.model, kind)?;
        }
        Ok(())
    }

    /// The one or two variables of an iteration at the end of a word, each with the next type.
    fn put_elements(&mut self, out: &mut String, word: &str) -> Result<(), OutOfMemory> {
        if let Some((before, variables)) = word.rsplit_once('(')
            && let Some((first, second)) = variables.split_once(", ")
        {
            put(out, before)?;
            put(out, "(")?;
            self.put_element(out, first)?;
            put(out, ", ")?;
            return self.put_element(out, second);
        }
        self.put_element(out, word)
    }

    /// Takes over a word before another. The type of a `let` is the third word behind it.
    fn take(&mut self, word: &str, following: &str) -> Result<(), OutOfMemory> {
        self.since_let = if is_let(word) {
            0
        } else {
            self.since_let.saturating_add(1)
        };
        let mut out = String::new(self.alloc);
        if self.since_let == 3 {
            match self.next() {
                Some(kind) => put_type(&mut out, self.model, kind)?,
                None => put(&mut out, word)?,
            }
        } else if let Some(element) = word.strip_suffix(';') {
            self.put_element(&mut out, element)?;
            put(&mut out, ";")?;
        } else if following == "|" && is_open(word) {
            self.put_elements(&mut out, word)?;
        } else {
            put(&mut out, word)?;
        }
        self.words.push(out)?;
        Ok(())
    }
}

/// Whether a word has a parenthesis that another one closes, as that of an iteration has.
fn is_open(word: &str) -> bool {
    match word.rsplit_once('(') {
        Some((_, inner)) => !inner.contains(')'),
        None => false,
    }
}

/// The words of an expression with other types of variables, those that are written in the order of the text.
pub(crate) fn retyped(
    alloc: Global,
    model: &ClassModel,
    types: &[Option<Kind>],
    words: &[String],
) -> Result<Vec<String>, OutOfMemory> {
    let mut taken = RetypedWords {
        alloc,
        model,
        types,
        seen: 0,
        since_let: usize::MAX,
        words: Vec::new(alloc),
    };
    for (index, word) in words.iter().enumerate() {
        let following = match words.get(index.saturating_add(1)) {
            Some(following) => following.as_str(),
            None => "",
        };
        taken.take(word, following)?;
    }
    Ok(taken.words)
}
