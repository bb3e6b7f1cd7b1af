//! The table of opcodes: the name and the fields of each.

ghost use Rattle.std.specs.Prelude.{◌≡◌, ◌++◌, List, [], ◌≤◌, Some, length};
ghost use Rattle.std.specs.Option.{option_map};
ghost use Rattle.rule_code.specs.declared.version.Version.TheVariants as versions;
ghost use Rattle.rule_code.specs.FieldSorts.{sorts_of, HasSorts};
ghost use Rattle.rule_code.specs.InstrRows.{row_of};
ghost use Rattle.rule_code.specs.KindReading.{row_numbered};
ghost use Rattle.rule_code.specs.Opcodes.{plain_opcodes, value_opcodes, operation_opcodes, block_opcodes, fold_opcodes, opcodes};
ghost use Rattle.rule_code.specs.Spelling.{instr};
ghost use Rattle.rule_code.specs.WrittenKinds.{scalar_bytes, kind_bytes};

use crate::field_sort::FieldSort;
use crate::instruction::Instr;
use crate::kind::{WrittenKind, WrittenScalar};
use crate::symbol::SymbolTag;

/// The row of an opcode.
#[derive(Clone, Copy)]
pub struct OpcodeRow {
    /// The name of the instruction, as `docs/formats/code-file.md` has it.
    pub name: &'static str,
    /// The fields behind the opcode, in the order of the file.
    pub fields: &'static [FieldSort],
}

const NUMBER: &[FieldSort] = &[FieldSort::Number];

const CLASS: &[FieldSort] = &[FieldSort::Symbol(SymbolTag::Class)];

const SCALAR: &[FieldSort] = &[FieldSort::Scalar];

const SCALAR_AND_BODY: &[FieldSort] = &[FieldSort::Scalar, FieldSort::Number];

const KIND_AND_BODIES: &[FieldSort] = &[FieldSort::Kind, FieldSort::Number, FieldSort::Number];

fn row(name: &'static str, fields: &'static [FieldSort]) -> Option<OpcodeRow>
    ensures { HasSorts result (Some fields.entry.now) }
{
    Some(OpcodeRow { name, fields })
}

/// FOLD.
fn fold_row(opcode: u8) -> Option<OpcodeRow>
    ensures { HasSorts result
        (option_map sorts_of (row_numbered (fold_opcodes versions.Two) opcode)) }
{
    match opcode {
        0x4a => row("FOLD", SCALAR_AND_BODY),
        _ => None,
    }
}

/// A block.
fn block_row(opcode: u8) -> Option<OpcodeRow>
    ensures { HasSorts result (option_map sorts_of
        (row_numbered (block_opcodes ++ fold_opcodes versions.Two) opcode)) }
{
    match opcode {
        0x40 => row("LET", NUMBER),
        0x41 => row("IF", KIND_AND_BODIES),
        0x42 => row("FORALL", NUMBER),
        0x43 => row("EXISTS", NUMBER),
        0x44 => row("ONE", NUMBER),
        0x45 => row("SELECT", NUMBER),
        0x46 => row("REJECT", NUMBER),
        0x47 => row("COLLECT", NUMBER),
        0x48 => row("COLLECTFLAT", NUMBER),
        0x49 => row("ISUNIQUE", SCALAR_AND_BODY),
        _ => fold_row(opcode),
    }
}

/// An operation on values of a written kind, or a block.
fn operation_row(opcode: u8) -> Option<OpcodeRow>
    ensures { HasSorts result (option_map sorts_of
        (row_numbered (operation_opcodes ++ block_opcodes ++ fold_opcodes versions.Two) opcode)) }
{
    match opcode {
        0x28 => row("EQ", &[FieldSort::Kind]),
        0x32 => row("INCLUDES", SCALAR),
        0x33 => row("COUNT", SCALAR),
        0x34 => row("INCALL", SCALAR),
        0x35 => row("EXCALL", SCALAR),
        0x37 => row("ASSET", SCALAR),
        _ => block_row(opcode),
    }
}

/// An instruction with fields.
fn fields_row(opcode: u8) -> Option<OpcodeRow>
    ensures { HasSorts result (option_map sorts_of
        (row_numbered (value_opcodes ++ operation_opcodes ++ block_opcodes ++
        fold_opcodes versions.Two) opcode)) }
{
    match opcode {
        0x02 => row("GET", NUMBER),
        0x03 => row("INT", &[FieldSort::Integer]),
        0x04 => row("BOOL", &[FieldSort::Boolean]),
        0x05 => row("TEXT", &[FieldSort::Text]),
        0x06 => row("ENUM", &[FieldSort::Symbol(SymbolTag::Literal)]),
        0x09 => row("ATTR", &[FieldSort::Symbol(SymbolTag::Feature)]),
        0x0a => row("ALL", CLASS),
        0x0b => row("ASCOLL", &[FieldSort::Collection]),
        0x0c => row("KINDOF", CLASS),
        0x0d => row("TYPEOF", CLASS),
        0x0e => row("ASTYPE", CLASS),
        _ => operation_row(opcode),
    }
}

/// The row of an opcode; none for a byte that is no opcode. Version 1 has all but that of FOLD.
pub fn opcode_row(opcode: u8) -> Option<OpcodeRow>
    ensures { HasSorts result
        (option_map sorts_of (row_numbered (opcodes versions.Two) opcode)) }
{
    match opcode {
        0x01 => row("SELF", &[]),
        0x07 => row("NULL", &[]),
        0x08 => row("INVALID", &[]),
        0x10 => row("ADD", &[]),
        0x11 => row("SUB", &[]),
        0x12 => row("MUL", &[]),
        0x13 => row("DIV", &[]),
        0x14 => row("MOD", &[]),
        0x15 => row("NEG", &[]),
        0x16 => row("ABS", &[]),
        0x17 => row("MIN", &[]),
        0x18 => row("MAX", &[]),
        0x19 => row("LT", &[]),
        0x1a => row("LE", &[]),
        0x1b => row("GT", &[]),
        0x1c => row("GE", &[]),
        0x20 => row("NOT", &[]),
        0x21 => row("AND", &[]),
        0x22 => row("OR", &[]),
        0x23 => row("XOR", &[]),
        0x24 => row("IMPLIES", &[]),
        0x29 => row("EQX", &[]),
        0x2a => row("UNDEF", &[]),
        0x2b => row("ISINV", &[]),
        0x2c => row("TLEN", &[]),
        0x2d => row("SUBSTR", &[]),
        0x30 => row("SIZE", &[]),
        0x31 => row("ISEMPTY", &[]),
        0x36 => row("SUM", &[]),
        _ => fields_row(opcode),
    }
}

/// How many bytes the kind of a single value has.
fn scalar_len(k: WrittenScalar) -> usize
    ensures len { result ≡ length (scalar_bytes k) }
    ensures small { result ≤ 3 }
{
    match k {
        WrittenScalar::Enumeration(_) => 3,
        WrittenScalar::Class(_) => 3,
        _ => 1,
    }
}

/// How many bytes a kind has.
fn kind_len(k: WrittenKind) -> usize
    ensures len { result ≡ length (kind_bytes k) }
    ensures small { result ≤ 3 }
{
    match k {
        WrittenKind::Scalar(element) => scalar_len(element),
        WrittenKind::Collection(_, element) => scalar_len(element),
    }
}

impl Instr {
    /// The opcode.
    pub fn opcode(self) -> u8
        ensures { result ≡ (row_of self).opcode }
    {
        match self {
            Instr::SelfObject => 0x01,
            Instr::Get(_) => 0x02,
            Instr::Int(_) => 0x03,
            Instr::Bool(_) => 0x04,
            Instr::Text(_) => 0x05,
            Instr::Enum(_) => 0x06,
            Instr::Null => 0x07,
            Instr::Invalid => 0x08,
            Instr::Attr(_) => 0x09,
            Instr::All(_) => 0x0a,
            Instr::AsColl(_, _) => 0x0b,
            Instr::KindOf(_) => 0x0c,
            Instr::TypeOf(_) => 0x0d,
            Instr::AsType(_) => 0x0e,
            Instr::Add => 0x10,
            Instr::Sub => 0x11,
            Instr::Mul => 0x12,
            Instr::Div => 0x13,
            Instr::Mod => 0x14,
            Instr::Neg => 0x15,
            Instr::Abs => 0x16,
            Instr::Min => 0x17,
            Instr::Max => 0x18,
            Instr::Lt => 0x19,
            Instr::Le => 0x1a,
            Instr::Gt => 0x1b,
            Instr::Ge => 0x1c,
            Instr::Not => 0x20,
            Instr::And => 0x21,
            Instr::Or => 0x22,
            Instr::Xor => 0x23,
            Instr::Implies => 0x24,
            Instr::Eq(_) => 0x28,
            Instr::Eqx => 0x29,
            Instr::Undef => 0x2a,
            Instr::IsInv => 0x2b,
            Instr::TLen => 0x2c,
            Instr::SubStr => 0x2d,
            Instr::Size => 0x30,
            Instr::IsEmpty => 0x31,
            Instr::Includes(_) => 0x32,
            Instr::Count(_) => 0x33,
            Instr::IncAll(_) => 0x34,
            Instr::ExcAll(_) => 0x35,
            Instr::Sum => 0x36,
            Instr::AsSet(_) => 0x37,
            Instr::Let(_) => 0x40,
            Instr::If(_, _, _) => 0x41,
            Instr::ForAll(_) => 0x42,
            Instr::Exists(_) => 0x43,
            Instr::One(_) => 0x44,
            Instr::Select(_) => 0x45,
            Instr::Reject(_) => 0x46,
            Instr::Collect(_) => 0x47,
            Instr::CollectFlat(_) => 0x48,
            Instr::IsUnique(_, _) => 0x49,
            Instr::Fold(_, _) => 0x4a,
        }
    }

    /// The name, as `docs/formats/code-file.md` has it.
    pub fn name(self) -> &'static str {
        opcode_row(self.opcode()).map_or("", |row| row.name)
    }

    /// How many bytes it has in a code file.
    pub fn encoded_len(self) -> usize
        ensures { result ≡ length (instr self) }
    {
        match self {
            Instr::Int(_) => 9,
            Instr::Bool(_) => 2,
            Instr::Get(_) | Instr::Let(_) => 3,
            Instr::Text(_) => 3,
            Instr::Enum(_) | Instr::Attr(_) | Instr::All(_) => 3,
            Instr::KindOf(_) | Instr::TypeOf(_) | Instr::AsType(_) => 3,
            Instr::ForAll(_) | Instr::Exists(_) | Instr::One(_) => 3,
            Instr::Select(_) | Instr::Reject(_) => 3,
            Instr::Collect(_) | Instr::CollectFlat(_) => 3,
            Instr::AsColl(_, k) => 1 + scalar_len(k),
            Instr::Includes(k) | Instr::Count(k) | Instr::AsSet(k) => 1 + scalar_len(k),
            Instr::IncAll(k) | Instr::ExcAll(k) => 1 + scalar_len(k),
            Instr::Eq(k) => 1 + kind_len(k),
            Instr::If(k, _, _) => 5 + kind_len(k),
            Instr::IsUnique(k, _) | Instr::Fold(k, _) => 3 + scalar_len(k),
            _ => 1,
        }
    }
}
