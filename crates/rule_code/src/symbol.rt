//! Symbols: what the code of a unit names in a class model.

ghost use Rattle.std.specs.Prelude.{◌≡◌};

/// A text of a unit, by its place in `Unit::texts`, from 0.
#[derive(Clone, Copy)]
pub struct TextNumber(pub u16);

/// A symbol of a unit, by its place in `Unit::symbols`, from 0.
#[derive(Clone, Copy)]
pub struct SymbolNumber(pub u16);

/// What sort of thing a symbol names.
#[derive(Clone, Copy)]
pub enum SymbolTag {
    /// A class.
    Class = 1,
    /// An enumeration.
    Enumeration = 2,
    /// An attribute or association end that belongs to a class.
    Feature = 3,
    /// A literal of an enumeration.
    Literal = 4,
}

/// What a symbol names, by the texts of the names.
#[derive(Clone, Copy)]
pub enum Symbol {
    /// A class.
    Class(TextNumber),
    /// An enumeration.
    Enumeration(TextNumber),
    /// The feature of a name that belongs to a class.
    Feature {
        /// The name of the class.
        class: TextNumber,
        /// The name of the feature.
        feature: TextNumber,
    },
    /// The literal of a name of an enumeration.
    Literal {
        /// The name of the enumeration.
        enumeration: TextNumber,
        /// The name of the literal.
        literal: TextNumber,
    },
}

impl Symbol {
    ghost use Rattle.rule_code.specs.SymbolTag.{tag_of};

    /// What sort of thing the symbol names.
    pub fn tag(self) -> SymbolTag
        ensures { result ≡ tag_of self }
    {
        match self {
            Symbol::Class(_) => SymbolTag::Class,
            Symbol::Enumeration(_) => SymbolTag::Enumeration,
            Symbol::Feature { .. } => SymbolTag::Feature,
            Symbol::Literal { .. } => SymbolTag::Literal,
        }
    }
}
