//! Kinds of collections.

ghost use Rattle.std.specs.Prelude.{◌≡◌};
ghost use Rattle.ocl_base.specs.CollectionKinds.{is_unique_kind};

/// How values are collected.
#[derive(Clone, Copy, Debug, PartialEq, Eq)]
pub enum CollectionKind {
    /// Unique and unordered.
    Set,
    /// Unique and ordered.
    OrderedSet,
    /// Unordered, and a value may stand twice.
    Bag,
    /// Ordered, and a value may stand twice.
    Sequence,
}

impl CollectionKind {
    /// Whether a value may stand only once.
    pub fn is_unique(self) -> bool
        ensures { result ≡ is_unique_kind self }
    {
        matches!(self, CollectionKind::Set | CollectionKind::OrderedSet)
    }
}
