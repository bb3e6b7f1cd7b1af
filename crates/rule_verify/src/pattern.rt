//! What an operand of an instruction may be.

ghost use Rattle.std.specs.Prelude.{◌≡◌, List};
ghost use Rattle.ocl_kinds.specs.Kinds.{IsKindOf};
ghost use Rattle.rule_verify.specs.Patterns.{matches, IsPatternOf};

use imkl_model::ClassModel;
use ocl_kinds::{Kind, ScalarKind, fits, scalar_fits};

/// What an operand may be, or what a body may end with.
#[derive(Clone, Copy)]
pub enum Pattern {
    /// Of a kind that fits this one.
    Fitting(Kind),
    /// Of any kind.
    Anything,
    /// Of any kind of a single value.
    AnySingle,
    /// Of any kind of a collection.
    AnyCollection,
    /// A collection whose elements' kind fits this one.
    CollectionOf(ScalarKind),
}

/// What the operands of an instruction may be, the topmost first.
#[derive(Clone, Copy)]
pub enum Operands {
    /// It takes none.
    Nothing,
    /// It takes one.
    One(Pattern),
    /// It takes two.
    Two(Pattern, Pattern),
    /// It takes three.
    Three(Pattern, Pattern, Pattern),
}

/// Whether an operand of a kind is what it may be.
pub(crate) fn matches(model: &ClassModel, pattern: &Pattern, kind: &Kind) -> bool
    requires pattern { IsPatternOf model.now pattern.now }
    requires kind { IsKindOf model.now kind.now }
    ensures { result ≡ matches model.now pattern.now kind.now }
{
    match pattern {
        Pattern::Fitting(wanted) => fits(model, kind, wanted),
        Pattern::Anything => true,
        Pattern::AnySingle => match kind {
            Kind::Scalar(_) => true,
            Kind::Collection(_, _) => false,
        },
        Pattern::AnyCollection => match kind {
            Kind::Scalar(_) => false,
            Kind::Collection(_, _) => true,
        },
        Pattern::CollectionOf(wanted) => match kind {
            Kind::Scalar(_) => false,
            Kind::Collection(_, element) => scalar_fits(model, element, wanted),
        },
    }
}
