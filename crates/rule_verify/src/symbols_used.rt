//! The symbols that instructions use.

ghost use Rattle.std.specs.Prelude.{◌≡◌};
ghost use Rattle.rule_verify.specs.InstrKinds as spec;
ghost use Rattle.rule_verify.specs.Walk.{symbol_list, surroundings_of};

use crate::code::RuleCode;
use rule_code::{Instr, SymbolNumber, WrittenKind, WrittenScalar};

/// The symbol of the kind of a single value, if it has one.
fn symbol_of_scalar(kind: WrittenScalar) -> Option<SymbolNumber>
    ensures { symbol_list result ≡ spec.scalar_symbols kind }
{
    match kind {
        WrittenScalar::Enumeration(symbol) | WrittenScalar::Class(symbol) => Some(symbol),
        _ => None,
    }
}

/// The symbol of a kind, if it has one.
fn symbol_of_kind(kind: WrittenKind) -> Option<SymbolNumber>
    ensures { symbol_list result ≡ spec.kind_symbols kind }
{
    match kind {
        WrittenKind::Scalar(element) | WrittenKind::Collection(_, element) => {
            symbol_of_scalar(element)
        }
    }
}

/// The symbol that an instruction uses, if it uses one.
pub fn symbol_used(instr: Instr) -> Option<SymbolNumber>
    ensures { symbol_list result ≡ spec.symbols_used instr }
{
    match instr {
        Instr::Enum(symbol)
        | Instr::Attr(symbol)
        | Instr::All(symbol)
        | Instr::KindOf(symbol)
        | Instr::TypeOf(symbol)
        | Instr::AsType(symbol) => Some(symbol),
        Instr::AsColl(_, kind)
        | Instr::Includes(kind)
        | Instr::Count(kind)
        | Instr::IncAll(kind)
        | Instr::ExcAll(kind)
        | Instr::AsSet(kind)
        | Instr::IsUnique(kind, _)
        | Instr::Fold(kind, _) => symbol_of_scalar(kind),
        Instr::Eq(kind) | Instr::If(kind, _, _) => symbol_of_kind(kind),
        Instr::SelfObject | Instr::Get(_) | Instr::Int(_) | Instr::Bool(_) | Instr::Text(_) => None,
        Instr::Null | Instr::Invalid | Instr::Add | Instr::Sub | Instr::Mul | Instr::Div => None,
        Instr::Mod | Instr::Neg | Instr::Abs | Instr::Min | Instr::Max | Instr::Lt => None,
        Instr::Le | Instr::Gt | Instr::Ge | Instr::Not | Instr::And | Instr::Or => None,
        Instr::Xor | Instr::Implies | Instr::Eqx | Instr::Undef | Instr::IsInv => None,
        Instr::TLen | Instr::SubStr | Instr::Size | Instr::IsEmpty | Instr::Sum => None,
        Instr::Let(_) | Instr::ForAll(_) | Instr::Exists(_) | Instr::One(_) => None,
        Instr::Select(_) | Instr::Reject(_) | Instr::Collect(_) | Instr::CollectFlat(_) => None,
    }
}

/// Whether what an instruction names is in the class model.
pub(crate) fn has_names(rule: &RuleCode<'_, '_>, instr: Instr) -> bool
    ensures { result ≡ spec.has_names (surroundings_of rule.now) instr }
{
    match symbol_used(instr) {
        None => true,
        Some(symbol) => rule.resolved.named(symbol).is_some(),
    }
}
