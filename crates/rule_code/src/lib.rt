//! Compiled rules, and the code file that holds them.
#![tactic(auto)]

mod fault;
mod field_sort;
mod instruction;
mod kind;
pub mod laws;
mod limits;
mod opcodes;
mod reading;
mod symbol;
mod unit;
mod version;
mod writing;

pub use fault::{CodeFault, CodeFlaw};
pub use field_sort::FieldSort;
pub use instruction::Instr;
pub use kind::{WrittenKind, WrittenScalar};
pub use limits::{MAX_RULES, MAX_TEXT_BYTES};
pub use opcodes::{OpcodeRow, opcode_row};
pub use reading::read_unit;
pub use symbol::{Symbol, SymbolNumber, SymbolTag, TextNumber};
pub use unit::{Rule, Unit};
pub use version::Version;
pub use writing::write_unit;
