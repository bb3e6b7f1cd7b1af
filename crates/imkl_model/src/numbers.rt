//! Numbers of what a class model lists: indices from 0.

ghost use Rattle.std.specs.Prelude.{◌≡◌};

use std::marker::Model;

/// The index of a class among a model's classes.
#[derive(Clone, Copy, PartialEq, Eq, PartialOrd, Ord)]
pub struct ClassNo {
    index: usize,
}

impl Model for ClassNo {
    ghost use Rattle.std.specs.Prelude.{ℕ};

    ghost Value = { ℕ };

    ghost view = { λ n. n.index };

    ghost inverse = { λ n. record { index = n } };
}

impl ClassNo {
    /// The class at this index.
    pub fn new(index: usize) -> ClassNo
        ensures { result ≡ index }
    {
        ClassNo { index }
    }

    /// The class's index.
    pub fn index(self) -> usize
        ensures { result ≡ self }
    {
        self.index
    }
}

/// The index of an enumeration among a model's enumerations.
#[derive(Clone, Copy, PartialEq, Eq, PartialOrd, Ord)]
pub struct EnumNo {
    index: usize,
}

impl Model for EnumNo {
    ghost use Rattle.std.specs.Prelude.{ℕ};

    ghost Value = { ℕ };

    ghost view = { λ n. n.index };

    ghost inverse = { λ n. record { index = n } };
}

impl EnumNo {
    /// The enumeration at this index.
    pub fn new(index: usize) -> EnumNo
        ensures { result ≡ index }
    {
        EnumNo { index }
    }

    /// The enumeration's index.
    pub fn index(self) -> usize
        ensures { result ≡ self }
    {
        self.index
    }
}

/// The index of a literal among those of its enumeration.
#[derive(Clone, Copy, PartialEq, Eq, PartialOrd, Ord)]
pub struct LiteralNo {
    index: usize,
}

impl Model for LiteralNo {
    ghost use Rattle.std.specs.Prelude.{ℕ};

    ghost Value = { ℕ };

    ghost view = { λ n. n.index };

    ghost inverse = { λ n. record { index = n } };
}

impl LiteralNo {
    /// The literal at this index.
    pub fn new(index: usize) -> LiteralNo
        ensures { result ≡ index }
    {
        LiteralNo { index }
    }

    /// The literal's index.
    pub fn index(self) -> usize
        ensures { result ≡ self }
    {
        self.index
    }
}

/// The index of a feature in the model's order of features.
#[derive(Clone, Copy, PartialEq, Eq, PartialOrd, Ord, Debug)]
pub struct FeatureNo {
    index: usize,
}

impl Model for FeatureNo {
    ghost use Rattle.std.specs.Prelude.{ℕ};

    ghost Value = { ℕ };

    ghost view = { λ n. n.index };

    ghost inverse = { λ n. record { index = n } };
}

impl FeatureNo {
    /// The feature at this index.
    pub fn new(index: usize) -> FeatureNo
        ensures { result ≡ index }
    {
        FeatureNo { index }
    }

    /// The feature's index.
    pub fn index(self) -> usize
        ensures { result ≡ self }
    {
        self.index
    }
}
