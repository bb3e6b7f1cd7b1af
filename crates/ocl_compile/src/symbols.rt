//! Symbols that differ, numbered in their order.

ghost use Rattle.std.specs.Prelude.{◌≡◌, ◌<◌, ◌++◌, ◌∷◌, [], None, Some, length, position, slice_get, OnOk, OnErr};
ghost use Rattle.ocl_compile.specs.Numbering.{same_named};
ghost use Rattle.ocl_compile.specs.NumbersView.{key_of};

use rule_verify::Named;
use std::alloc::{AllocError, Global};
use std::collections::BTreeMap;
use std::marker::Model;

/// What a symbol names, by its numbers in the class model.
#[derive(Clone, Copy, PartialEq, Eq, PartialOrd, Ord)]
enum Key {
    /// A class.
    Class(usize),
    /// An enumeration.
    Enumeration(usize),
    /// A class, and a feature of it.
    Feature(usize, usize),
    /// An enumeration, and a literal of it.
    Literal(usize, usize),
}

/// Symbols that differ, numbered in the order in which they were added. A symbol is found by comparison, so no choice
/// of symbols makes a search slow.
#[derive(Drop)]
pub(crate) struct Symbols {
    symbols: Vec<Named>,
    numbers: BTreeMap<Key, usize>,
}

impl Model for Symbols {
    ghost use Rattle.std.specs.Prelude.{List};
    ghost use Rattle.rule_verify.specs.declared.named.Named.{Named};
    ghost use Rattle.ocl_compile.specs.Numbering.{same_named};
    ghost use Rattle.ocl_compile.specs.NumbersView.{FindsPlaces, number_at};

    ghost Value = { List Named };

    ghost view = { λ s. s.symbols.items };

    ghost invariant = { λ s. FindsPlaces same_named s.symbols.items (number_at s.numbers) };
}

/// A symbol by its numbers.
fn key_of(symbol: &Named) -> Key
    ensures { result ≡ key_of symbol.now }
{
    match symbol {
        Named::Class(class) => Key::Class(class.index()),
        Named::Enumeration(enumeration) => Key::Enumeration(enumeration.index()),
        Named::Feature(class, feature) => Key::Feature(class.index(), feature.index()),
        Named::Literal(enumeration, literal) => {
            Key::Literal(enumeration.index(), literal.index())
        }
    }
}

impl Symbols {
    /// None yet.
    pub(crate) fn new(alloc: Global) -> Symbols
        ensures { result ≡ [] }
    {
        Symbols {
            symbols: Vec::new(alloc),
            numbers: BTreeMap::new(alloc),
        }
    }

    /// How many there are.
    pub(crate) fn len(&self) -> usize
        ensures { result ≡ length self.now }
    {
        self.symbols.len()
    }

    /// The symbol of a number.
    pub(crate) fn at(&self, number: usize) -> Named
        requires { number < length self.now }
        ensures { slice_get self.now number ≡ Some result }
    {
        self.symbols[number]
    }

    /// The number of a symbol.
    pub(crate) fn number_of(&self, symbol: &Named) -> Option<usize>
        ensures { result ≡ position (same_named symbol.now) self.now }
    {
        self.numbers.get(&key_of(symbol)).copied()
    }

    /// Adds a symbol that isn't there.
    pub(crate) fn push(&mut self, symbol: Named) -> Result<(), AllocError>
        requires { position (same_named symbol) self.now ≡ None }
        ensures ok { OnOk result (self.new ≡ self.old ++ symbol ∷ []) }
        ensures err { OnErr result (self.new ≡ self.old) }
    {
        self.symbols.reserve(1)?;
        self.numbers.insert(key_of(&symbol), self.symbols.len())?;
        self.symbols.push(symbol)?;
        Ok(())
    }
}
