//! Messages for tokens that other OCL allows here, such as a type that is left out or a call
//! without a source.

use crate::foreign::{instead_of_word, instead_on_collection};
use explain_notes::Nearest;
use ocl_tokens::{Token, TokenKind};
use std::alloc::{AllocError, Global};

/// Three tokens, the last of which can't stand there, with what to write. A token is named by its text, an identifier by
/// `x`, a number by `1`, a string by `'`; no text stands for any token, or for none.
struct Habit {
    first: &'static str,
    second: &'static str,
    third: &'static str,
    help: &'static str,
}

static HABITS: [Habit; 13] = [
    Habit {
        first: "context",
        second: "x",
        third: ":",
        help: "the class stands alone after `context`, and its object is `self`",
    },
    Habit {
        first: "context",
        second: "x",
        third: "::",
        help: "the class stands alone after `context`, without a package or an operation",
    },
    Habit {
        first: "inv",
        second: "x",
        third: "(",
        help: "a rule's message is the comment right above its `inv`, as `-- too shallow`",
    },
    Habit {
        first: "let",
        second: "x",
        third: "=",
        help: TYPED,
    },
    Habit {
        first: ",",
        second: "x",
        third: "=",
        help: TYPED,
    },
    Habit {
        first: ";",
        second: "x",
        third: "=",
        help: ACCUMULATOR,
    },
    Habit {
        first: "",
        second: ".",
        third: "1",
        help: "numbers are whole; for `a > 1.5 * b` write `2 * a > 3 * b`",
    },
    Habit {
        first: "",
        second: ".",
        third: ".",
        help: "there are no ranges; write `1 <= x and x <= 9`",
    },
    Habit {
        first: "::",
        second: "x",
        third: "(",
        help: "an operation of a class stands after a dot, as `C.allInstances()`",
    },
    Habit {
        first: "::",
        second: "x",
        third: "::",
        help: "a literal is written with its enumeration alone, without a package",
    },
    Habit {
        first: "",
        second: "'",
        third: "'",
        help: "strings aren't joined: write them as one",
    },
    Habit {
        first: "->",
        second: "x",
        third: "",
        help: "an arrow calls an operation, with parentheses, as `->size()`; a dot reads a feature",
    },
    Habit {
        first: "",
        second: "x",
        third: "(",
        help: "a call has a source, as `self.oclIsKindOf(C)`; inside an iteration name the element: `x | x.oclIsKindOf(C)`",
    },
];

const TYPED: &str = "a variable of `let` has a type, as `let x : Integer = 1 in ..`";

const ACCUMULATOR: &str =
    "an accumulator has a type and a start value, as `x; sum : Integer = 0 | ..`";

/// What has variables before a bar.
static ITERATIONS: [&str; 8] = [
    "forAll", "exists", "select", "reject", "collect", "one", "isUnique", "iterate",
];

/// Operations on collections that have no variables, with what to write where they were given one.
static ITERATED: [(&str, &str); 5] = [
    (
        "count",
        "`->select(x | ..)->size()` counts those for which the body is true",
    ),
    (
        "isEmpty",
        "`not ..->exists(x | ..)` asks whether the body is true for none",
    ),
    (
        "notEmpty",
        "`->exists(x | ..)` asks whether the body is true for one",
    ),
    (
        "size",
        "`->select(x | ..)->size()` counts those for which the body is true",
    ),
    ("sum", "`->collect(x | ..)->sum()` adds the bodies"),
];

/// A call in whose parentheses a token stands.
#[derive(Clone, Copy, Drop)]
pub(crate) struct Call<'a> {
    /// The name of what is called.
    pub(crate) name: &'a str,
    /// Whether it stands after an arrow, and not after a dot.
    pub(crate) is_arrow: bool,
    /// The index of its parenthesis.
    open: usize,
}

/// How a token is named in the table of habits.
fn text_of<'a>(token: &Token<'a>) -> &'a str {
    match token.kind {
        TokenKind::Identifier => "x",
        TokenKind::Number(_) => "1",
        TokenKind::String => "'",
        _ => token.text,
    }
}

/// How the token so many before an index is named there; nothing where there is none.
fn text_before<'a>(tokens: &[Token<'a>], index: usize, back: usize) -> &'a str {
    let Some(at) = index.checked_sub(back) else {
        return "";
    };
    match tokens.get(at) {
        Some(token) => text_of(token),
        None => "",
    }
}

/// Whether a token of this name is one of those that a habit has at a place.
fn is_one(habit: &str, text: &str) -> bool {
    habit.is_empty() || habit == text
}

/// What to write where the tokens up to an index are a habit; nothing where they are none.
fn help_of_habit(tokens: &[Token<'_>], index: usize) -> &'static str {
    let first = text_before(tokens, index, 2);
    let second = text_before(tokens, index, 1);
    let third = text_before(tokens, index, 0);
    for habit in &HABITS {
        if is_one(habit.first, first)
            && is_one(habit.second, second)
            && is_one(habit.third, third)
        {
            return habit.help;
        }
    }
    ""
}

/// The index of the innermost parenthesis that is open before an index.
fn open_before(tokens: &[Token<'_>], index: usize) -> Option<usize> {
    let mut closed = 0usize;
    for at in (0..index).rev() {
        match tokens.get(at)?.kind {
            TokenKind::Close => closed = closed.saturating_add(1),
            TokenKind::Open if closed == 0 => return Some(at),
            TokenKind::Open => closed = closed.saturating_sub(1),
            _ => {}
        }
    }
    None
}

/// The call in whose parentheses the token of an index stands.
fn call_around<'a>(tokens: &[Token<'a>], index: usize) -> Option<Call<'a>> {
    let open = open_before(tokens, index)?;
    let name = tokens.get(open.checked_sub(1)?)?;
    let before = tokens.get(open.checked_sub(2)?)?;
    match (name.kind, before.kind) {
        (TokenKind::Identifier, TokenKind::Arrow) => Some(Call {
            name: name.text,
            is_arrow: true,
            open,
        }),
        (TokenKind::Identifier, TokenKind::Dot) => Some(Call {
            name: name.text,
            is_arrow: false,
            open,
        }),
        _ => None,
    }
}

/// Whether a token ends the variables of an iteration, or their types.
fn ends_variables(kind: TokenKind) -> bool {
    matches!(
        kind,
        TokenKind::Bar | TokenKind::Colon | TokenKind::Semicolon
    )
}

/// Whether this is the name of an iteration.
pub fn is_iteration(name: &str) -> bool {
    for iteration in &ITERATIONS {
        if *iteration == name {
            return true;
        }
    }
    false
}

/// The call of an operation that can't have the variable that ends at an index; none where an iteration has it.
pub(crate) fn call_with_variable<'a>(tokens: &[Token<'a>], index: usize) -> Option<Call<'a>> {
    if !ends_variables(tokens.get(index)?.kind) {
        return None;
    }
    let call = call_around(tokens, index)?;
    if call.is_arrow && is_iteration(call.name) {
        return None;
    }
    Some(call)
}

/// The iteration that a name is near to, where one is.
pub(crate) fn nearest_iteration<'n>(
    alloc: Global,
    name: &'n str,
) -> Result<Option<&'n str>, AllocError> {
    let mut nearest = Nearest::to(name);
    for iteration in &ITERATIONS {
        nearest.offer(alloc, *iteration)?;
    }
    Ok(nearest.name())
}

/// What to write in place of a call with a variable.
pub(crate) fn instead_of_variable(call: &Call<'_>) -> &'static str {
    if !call.is_arrow {
        return "an iteration stands after an arrow, as `c->forAll(x | ..)`";
    }
    for (name, help) in &ITERATED {
        if *name == call.name {
            return *help;
        }
    }
    let foreign = instead_on_collection(call.name);
    if foreign.is_empty() {
        return "the iterations are forAll, exists, select, reject, collect, one, isUnique and iterate";
    }
    foreign
}

/// Whether a bar stands between two indices.
fn has_bar(tokens: &[Token<'_>], start: usize, end: usize) -> bool {
    for at in start..end {
        if text_before(tokens, at, 0) == "|" {
            return true;
        }
    }
    false
}

/// What to write where the token of an index is a comma behind the variables that an iteration may have.
fn help_of_comma(tokens: &[Token<'_>], index: usize) -> &'static str {
    let Some(call) = call_around(tokens, index) else {
        return "";
    };
    if !call.is_arrow || !is_iteration(call.name) || has_bar(tokens, call.open, index) {
        return "";
    }
    if call.name == "iterate" {
        return ACCUMULATOR;
    }
    "forAll and exists have at most two variables, and the others one; nest them"
}

/// Whether the token of an index is the bar behind the type of an accumulator without a start value.
fn is_start_missing(tokens: &[Token<'_>], index: usize) -> bool {
    text_before(tokens, index, 0) == "|" && text_before(tokens, index, 4) == ";"
}

/// What to write where the token of an index can't stand, or nothing where nothing is known of it.
pub(crate) fn help_at(tokens: &[Token<'_>], index: usize) -> &'static str {
    if let Some(token) = tokens.get(index) {
        let word = instead_of_word(token.text);
        if !word.is_empty() {
            return word;
        }
    }
    if is_start_missing(tokens, index) {
        return ACCUMULATOR;
    }
    match text_before(tokens, index, 0) {
        "," => help_of_comma(tokens, index),
        _ => help_of_habit(tokens, index),
    }
}
