//! Code files that are read and written again, and numbers of faults that no line has.

use rule_code::{CodeFault, Unit, read_unit, write_unit};
use rule_cost::CostFault;
use rule_report::ReportFault;
use rule_verify::VerifyFault;
use std::alloc::Global;
use std::test::*;
use test_support::bytes_of;

/// Files in hexadecimal digits.
const FILES: [&str; 7] = [
    // No texts, no symbols, no rules, in each version.
    "4f434c42 0001 0000 0000 0000",
    "4f434c42 0002 0000 0000 0000",
    // The rule diepteMin of KabelOfLeiding: SELF, ATTR diepte, INT 600, GE, in each version.
    "4f434c42 0001 0003 0009 6469657074654d696e 000e 4b6162656c4f664c656964696e67 0006 646965707465 \
0002 01 0001 03 0001 0002 0001 0000 0000 0004 01 09 0001 03 0000000000000258 1c",
    "4f434c42 0002 0003 0009 6469657074654d696e 000e 4b6162656c4f664c656964696e67 0006 646965707465 \
0002 01 0001 03 0001 0002 0001 0000 0000 0004 01 09 0001 03 0000000000000258 1c",
    // The texts A and _b; a class, an enumeration, a feature and a literal; a rule with each instruction once, by its opcode.
    "4f434c42 0001 0002 0001 41 0002 5f62 0004 01 0001 02 0000 03 0000 0001 04 0000 0001 \
0001 0000 0000 0038 01 02ffff 03fffffffffffffffe 0401 050001 060003 07 08 090002 0a0000 0b140001 \
0c0000 0d0000 0e0000 10 11 12 13 14 15 16 17 18 19 1a 1b 1c 20 21 22 23 24 28450000 29 2a 2b 2c 2d \
30 31 3200 3301 3402 3503 36 3706 400001 4104000100010002 420001 430002 440003 450004 460005 \
470006 480007 4905000000ff",
    // The same texts and symbols, and EQ of each kind.
    "4f434c42 0001 0002 0001 41 0002 5f62 0004 01 0001 02 0000 03 0000 0001 04 0000 0001 \
0001 0000 0000 0011 2800 2801 2802 2803 28040001 28050000 2806 2810 2812 28140001 2821 28250000 \
2833 2836 2840 28450000 2846",
    // The same, of version 2, with FOLD of each kind of a single value.
    "4f434c42 0002 0002 0001 41 0002 5f62 0004 01 0001 02 0000 03 0000 0001 04 0000 0001 \
0001 0000 0000 0007 4a000000 4a010001 4a020002 4a030003 4a040001ffff 4a0500000001 4a060006",
];

fn is_written_as(alloc: Global, unit: &Unit, bytes: &[u8]) -> Result<bool, CodeFault> {
    let written = write_unit(alloc, unit)?;
    Ok(written.as_slice() == bytes)
}

/// Whether a file is read, and written again as it was.
fn is_written_as_read(alloc: Global, digits: &str) -> Result<bool, CodeFault> {
    let bytes = bytes_of(alloc, digits)?;
    let unit = read_unit(alloc, &bytes)?;
    is_written_as(alloc, &unit, &bytes)
}

#[test]
fn files_are_written_as_they_were_read(rt: HostRuntime) -> Result<(), Fail> {
    for digits in FILES {
        assert!(rt; is_written_as_read(rt.alloc(), digits)?, "{digits}");
    }
    Ok(())
}

#[test]
fn faults_that_are_never_printed_have_numbers(rt: HostRuntime) {
    assert!(rt; CodeFault::OutOfMemory.number() == 9 && CodeFault::OutOfMemory.offset() == None);
    assert!(rt; VerifyFault::OutOfMemory.number() == 9);
    assert!(rt; CostFault::OutOfMemory.number() == 2);
    assert!(rt; ReportFault::Write.number() == 1 && ReportFault::OutOfMemory.number() == 2);
}
