//! The instructions that have bodies.

use rule_code::{WrittenKind, WrittenScalar};

/// A block: an instruction that has bodies, with its fields. `Instr` says what each does.
#[derive(Clone, Copy)]
pub enum BlockInstr {
    /// `Instr::Let`.
    Let(u16),
    /// `Instr::If`.
    If(WrittenKind, u16, u16),
    /// `Instr::ForAll`.
    ForAll(u16),
    /// `Instr::Exists`.
    Exists(u16),
    /// `Instr::One`.
    One(u16),
    /// `Instr::Select`.
    Select(u16),
    /// `Instr::Reject`.
    Reject(u16),
    /// `Instr::Collect`.
    Collect(u16),
    /// `Instr::CollectFlat`.
    CollectFlat(u16),
    /// `Instr::IsUnique`.
    IsUnique(WrittenScalar, u16),
    /// `Instr::Fold`.
    Fold(WrittenScalar, u16),
}
