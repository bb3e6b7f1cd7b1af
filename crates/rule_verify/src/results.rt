//! The results of instructions without a body.

ghost use Rattle.std.specs.Prelude.{◌≡◌, List};
ghost use Rattle.ocl_kinds.specs.declared.kind.Kind.{Kind};
ghost use Rattle.rule_verify.specs.InstrKinds as spec;
ghost use Rattle.rule_verify.specs.Walk.{surroundings_of};

use crate::code::RuleCode;
use crate::meant::{class_kind, feature_read, literal_kind, scalar_meant};
use imkl_model::CollectionKind;
use ocl_base::Stack;
use ocl_kinds::{Kind, ScalarKind, elements_kind};
use rule_code::Instr;

/// What an instruction without a body gives that depends on neither its fields nor its operands: a Boolean, an
/// Integer, a String, or nothing but null and invalid.
fn fixed_result(instr: Instr) -> Kind
    ensures { result ≡ spec.fixed_result instr }
{
    let nothing = Kind::Scalar(ScalarKind::Void);
    match instr {
        Instr::Bool(_) | Instr::KindOf(_) | Instr::TypeOf(_) => Kind::Scalar(ScalarKind::Boolean),
        Instr::Lt | Instr::Le | Instr::Gt | Instr::Ge => Kind::Scalar(ScalarKind::Boolean),
        Instr::Not | Instr::And | Instr::Or | Instr::Xor | Instr::Implies => {
            Kind::Scalar(ScalarKind::Boolean)
        }
        Instr::Eq(_) | Instr::Eqx | Instr::Undef | Instr::IsInv | Instr::IsEmpty => {
            Kind::Scalar(ScalarKind::Boolean)
        }
        Instr::Includes(_) | Instr::IncAll(_) | Instr::ExcAll(_) => {
            Kind::Scalar(ScalarKind::Boolean)
        }
        Instr::Add | Instr::Sub | Instr::Mul | Instr::Div | Instr::Mod | Instr::Min | Instr::Max =>
            { Kind::Scalar(ScalarKind::Integer) }
        Instr::Int(_) | Instr::Neg | Instr::Abs | Instr::TLen => Kind::Scalar(ScalarKind::Integer),
        Instr::Size | Instr::Count(_) | Instr::Sum => Kind::Scalar(ScalarKind::Integer),
        Instr::Text(_) | Instr::SubStr => Kind::Scalar(ScalarKind::String),
        Instr::SelfObject | Instr::Get(_) | Instr::Enum(_) | Instr::Null | Instr::Invalid =>
            nothing,
        Instr::Attr(_) | Instr::All(_) | Instr::AsColl(_, _) | Instr::AsType(_) => nothing,
        Instr::AsSet(_) | Instr::Let(_) | Instr::If(_, _, _) | Instr::ForAll(_) => nothing,
        Instr::Exists(_) | Instr::One(_) | Instr::Select(_) | Instr::Reject(_) => nothing,
        Instr::Collect(_) | Instr::CollectFlat(_) | Instr::IsUnique(_, _) => nothing,
        Instr::Fold(_, _) => nothing,
    }
}

/// What an instruction without a body gives, by the variables and the topmost operand before it.
pub(crate) fn result_kind(
    rule: &RuleCode<'_, '_>,
    variables: &Stack<Kind>,
    instr: Instr,
    topmost: &Kind,
) -> Kind
    ensures { (operands : List Kind) → topmost.now ≡ spec.topmost operands → result ≡
        spec.result_kind (surroundings_of rule.now) variables.now instr operands }
{
    match instr {
        Instr::SelfObject => Kind::Scalar(ScalarKind::Class(rule.context)),
        Instr::Get(number) => match variables.from_bottom(usize::from(number)) {
            Some(kind) => kind,
            None => Kind::Scalar(ScalarKind::Void),
        },
        Instr::Enum(symbol) => Kind::Scalar(literal_kind(rule, symbol)),
        Instr::Attr(symbol) => feature_read(rule, symbol),
        Instr::All(symbol) => Kind::Collection(CollectionKind::Set, class_kind(rule, symbol)),
        Instr::AsColl(collection, kind) => Kind::Collection(collection, scalar_meant(rule, kind)),
        Instr::AsType(symbol) => Kind::Scalar(class_kind(rule, symbol)),
        Instr::AsSet(_) => Kind::Collection(CollectionKind::Set, elements_kind(topmost)),
        _ => fixed_result(instr),
    }
}
