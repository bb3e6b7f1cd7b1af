//! Writing a code file.

ghost use Rattle.std.specs.Prelude.{◌≡◌, ◌≤◌, ◌<◌, ◌^◌, ◌++◌, [], List, ℕ, length, OnOk, IfOk, IfErr, map, String, string_bytes, slice_index_or};
ghost use Rattle.std.specs.List.{flat_map};
ghost use Rattle.std.specs.declared.alloc.Global.{Global};
ghost use Rattle.rule_code.specs.declared.unit.Rule.{Rule};
ghost use Rattle.rule_code.specs.Content.{rule_content};
ghost use Rattle.rule_code.specs.InstrRows.{row_of};
ghost use Rattle.rule_code.specs.NumberBytes.{number_bytes};
ghost use Rattle.rule_code.specs.WrittenKinds.{scalar_number, collection_number, scalar_symbol, scalar_bytes, collection_bytes, kind_bytes};
ghost use Rattle.rule_code.specs.Spelling.{spelling, counted_bytes, text, symbol, fields_bytes, instr, rule};
ghost use Rattle.rule_code.specs.View.{content};

use crate::fault::CodeFault;
use crate::instruction::Instr;
use crate::kind::{WrittenKind, WrittenScalar};
use crate::symbol::Symbol;
use crate::unit::{Rule, Unit};
use ocl_base::CollectionKind;
use std::alloc::{AllocError, Global};

fn put_number(out: &mut Vec<u8>, number: u16) -> Result<(), AllocError>
    ensures { OnOk result (out.new.items ≡ out.old.items ++ number_bytes number) }
{
    out.extend_from_slice(&number.to_be_bytes())
}

fn put_text(out: &mut Vec<u8>, words: &String) -> Result<(), AllocError>
    requires { length (string_bytes words.now) < 2 ^ 16 }
    ensures { OnOk result (out.new.items ≡ out.old.items ++ text (string_bytes words.now)) }
{
    put_number(out, words.len() as u16)?;
    out.extend_from_slice(words.as_bytes())
}

fn put_symbol(out: &mut Vec<u8>, s: Symbol) -> Result<(), AllocError>
    ensures { OnOk result (out.new.items ≡ out.old.items ++ symbol s) }
{
    out.push(s.tag() as u8)?;
    match s {
        Symbol::Class(name) | Symbol::Enumeration(name) => put_number(out, name.0),
        Symbol::Feature { class, feature } => {
            put_number(out, class.0)?;
            put_number(out, feature.0)
        }
        Symbol::Literal {
            enumeration,
            literal,
        } => {
            put_number(out, enumeration.0)?;
            put_number(out, literal.0)
        }
    }
}

/// The low half of a kind's byte.
fn scalar_number(k: WrittenScalar) -> u8
    ensures number { result ≡ scalar_number k }
    ensures small { result ≤ 6 }
{
    match k {
        WrittenScalar::Void => 0,
        WrittenScalar::Boolean => 1,
        WrittenScalar::Integer => 2,
        WrittenScalar::String => 3,
        WrittenScalar::Enumeration(_) => 4,
        WrittenScalar::Class(_) => 5,
        WrittenScalar::AnyObject => 6,
    }
}

/// The high half of a kind's byte.
fn collection_number(c: CollectionKind) -> u8
    ensures number { result ≡ collection_number c }
    ensures small { result ≤ 4 }
{
    match c {
        CollectionKind::Set => 1,
        CollectionKind::OrderedSet => 2,
        CollectionKind::Bag => 3,
        CollectionKind::Sequence => 4,
    }
}

/// The symbol behind a kind's byte.
fn put_scalar_symbol(out: &mut Vec<u8>, k: WrittenScalar) -> Result<(), AllocError>
    ensures { OnOk result (out.new.items ≡ out.old.items ++ scalar_symbol k) }
{
    match k {
        WrittenScalar::Enumeration(s) | WrittenScalar::Class(s) => put_number(out, s.0),
        WrittenScalar::Void => Ok(()),
        WrittenScalar::Boolean => Ok(()),
        WrittenScalar::Integer => Ok(()),
        WrittenScalar::String => Ok(()),
        WrittenScalar::AnyObject => Ok(()),
    }
}

fn put_scalar(out: &mut Vec<u8>, k: WrittenScalar) -> Result<(), AllocError>
    ensures { OnOk result (out.new.items ≡ out.old.items ++ scalar_bytes k) }
{
    out.push(scalar_number(k))?;
    put_scalar_symbol(out, k)
}

fn put_collection(out: &mut Vec<u8>, c: CollectionKind, k: WrittenScalar) -> Result<(), AllocError>
    ensures { OnOk result (out.new.items ≡ out.old.items ++ collection_bytes c k) }
{
    out.push(collection_number(c) * 16 + scalar_number(k))?;
    put_scalar_symbol(out, k)
}

fn put_kind(out: &mut Vec<u8>, k: WrittenKind) -> Result<(), AllocError>
    ensures { OnOk result (out.new.items ≡ out.old.items ++ kind_bytes k) }
{
    match k {
        WrittenKind::Scalar(element) => put_scalar(out, element),
        WrittenKind::Collection(collection, element) => put_collection(out, collection, element),
    }
}

/// The fields of an instruction.
fn put_fields(out: &mut Vec<u8>, i: Instr) -> Result<(), AllocError>
    ensures { OnOk result (out.new.items ≡ out.old.items ++ fields_bytes (row_of i).fields) }
{
    match i {
        Instr::Int(n) => out.extend_from_slice(&n.to_be_bytes()),
        Instr::Bool(b) => out.extend_from_slice(&[b as u8]),
        Instr::Text(t) => put_number(out, t.0),
        Instr::Get(n) | Instr::Let(n) => put_number(out, n),
        Instr::ForAll(n) | Instr::Exists(n) | Instr::One(n) => put_number(out, n),
        Instr::Select(n) | Instr::Reject(n) => put_number(out, n),
        Instr::Collect(n) | Instr::CollectFlat(n) => put_number(out, n),
        Instr::Enum(s) | Instr::Attr(s) | Instr::All(s) => put_number(out, s.0),
        Instr::KindOf(s) | Instr::TypeOf(s) | Instr::AsType(s) => put_number(out, s.0),
        Instr::AsColl(collection, element) => put_collection(out, collection, element),
        Instr::Eq(kind) => put_kind(out, kind),
        Instr::Includes(k) | Instr::Count(k) | Instr::AsSet(k) => put_scalar(out, k),
        Instr::IncAll(k) | Instr::ExcAll(k) => put_scalar(out, k),
        Instr::If(kind, first, second) => {
            put_kind(out, kind)?;
            put_number(out, first)?;
            put_number(out, second)
        }
        Instr::IsUnique(kind, body) | Instr::Fold(kind, body) => {
            put_scalar(out, kind)?;
            put_number(out, body)
        }
        _ => Ok(()),
    }
}

fn put_instr(out: &mut Vec<u8>, i: Instr) -> Result<(), AllocError>
    ensures { OnOk result (out.new.items ≡ out.old.items ++ instr i) }
{
    out.push(i.opcode())?;
    put_fields(out, i)
}

fn put_code(out: &mut Vec<u8>, code: &[Instr]) -> Result<(), AllocError>
    requires { length code.now < 2 ^ 16 }
    ensures { OnOk result (out.new.items ≡ out.old.items ++ counted_bytes instr code.now) }
{
    put_number(out, code.len() as u16)?;
    for i in code {
        put_instr(out, *i)?;
    }
    Ok(())
}

fn put_rule(out: &mut Vec<u8>, r: &Rule) -> Result<(), AllocError>
    requires { length r.now.code.items < 2 ^ 16 }
    ensures { OnOk result (out.new.items ≡ out.old.items ++ rule (rule_content r.now)) }
{
    put_number(out, r.name.0)?;
    put_number(out, r.context.0)?;
    put_code(out, &r.code)
}

fn put_texts(out: &mut Vec<u8>, texts: &[String]) -> Result<(), AllocError>
    requires few { length texts.now < 2 ^ 16 }
    requires short { (i : ℕ) (d : String Global) → i < length texts.now →
        length (string_bytes (slice_index_or texts.now i d)) < 2 ^ 16 }
    ensures { OnOk result (out.new.items ≡ out.old.items ++
        counted_bytes text (map string_bytes texts.now)) }
{
    put_number(out, texts.len() as u16)?;
    for words in texts {
        put_text(out, words)?;
    }
    Ok(())
}

fn put_symbols(out: &mut Vec<u8>, symbols: &[Symbol]) -> Result<(), AllocError>
    requires { length symbols.now < 2 ^ 16 }
    ensures { OnOk result (out.new.items ≡ out.old.items ++ counted_bytes symbol symbols.now) }
{
    put_number(out, symbols.len() as u16)?;
    for s in symbols {
        put_symbol(out, *s)?;
    }
    Ok(())
}

fn put_rules(out: &mut Vec<u8>, rules: &[Rule]) -> Result<(), AllocError>
    requires few { length rules.now < 2 ^ 16 }
    requires short { (i : ℕ) (d : Rule) → i < length rules.now →
        length (slice_index_or rules.now i d).code.items < 2 ^ 16 }
    ensures { OnOk result (out.new.items ≡ out.old.items ++
        counted_bytes rule (map rule_content rules.now)) }
{
    put_number(out, rules.len() as u16)?;
    for r in rules {
        put_rule(out, r)?;
    }
    Ok(())
}

/// The one spelling of the unit. Only running out of memory refuses it.
pub fn write_unit(alloc: Global, unit: &Unit) -> Result<Vec<u8>, CodeFault>
    ensures ok { IfOk result (λ v. v.items ≡ spelling (content unit.now)) }
    ensures err { IfErr result (λ e. e ≡ CodeFault.OutOfMemory) }
{
    let mut out = Vec::new(alloc);
    out.extend_from_slice(b"OCLB")?;
    put_number(&mut out, unit.version as u16)?;
    put_texts(&mut out, &unit.texts)?;
    put_symbols(&mut out, &unit.symbols)?;
    put_rules(&mut out, &unit.rules)?;
    Ok(out)
}
