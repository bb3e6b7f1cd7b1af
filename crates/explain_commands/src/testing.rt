//! Tests of rules: the deliveries of a folder, each with the report that is wanted.

use crate::files::{Bytes, in_memory, print, read_file, unlisted, write_file};
use crate::requests::say;
use explain_command_line::TestWords;
use explain_notes::{Input, visible_text};
use ocl_check::{CommandFault, JudgeOptions, MAX_BUDGET, Outcome, RulesForm};
use ocl_explain::{Tested, put_differences, test_rules};
use std::fs;

/// How a test ended.
#[derive(Clone, Copy)]
enum End {
    Passed,
    Failed,
    Written,
}

/// How many tests ended so.
#[derive(Clone, Copy)]
struct Counts {
    passed: usize,
    failed: usize,
    written: usize,
}

impl Counts {
    /// With one more.
    fn with(self, end: End) -> Counts {
        let mut counts = self;
        match end {
            End::Passed => counts.passed = self.passed.saturating_add(1),
            End::Failed => counts.failed = self.failed.saturating_add(1),
            End::Written => counts.written = self.written.saturating_add(1),
        }
        counts
    }
}

/// The names of a folder's deliveries in order, without `.json`.
fn delivery_names(rt: &HostRuntime, folder: &str) -> Result<Vec<String>, CommandFault> {
    let entries = match fs::read_dir(rt, folder) {
        Ok(entries) => entries,
        Err(error) => return Err(unlisted(rt, folder, error)),
    };
    let mut names = Vec::new(rt.alloc());
    for entry in entries {
        let entry = match entry {
            Ok(entry) => entry,
            Err(error) => return Err(unlisted(rt, folder, error)),
        };
        if let Some(name) = entry.file_name().strip_suffix(".json") {
            let name = in_memory(String::from_str(rt.alloc(), name))?;
            if names.push(name).is_err() {
                return Err(CommandFault::OutOfMemory);
            }
        }
    }
    names.sort_unstable();
    Ok(names)
}

/// The report that is wanted, if its file is there.
fn wanted_report<'a>(rt: &HostRuntime, path: &'a str) -> Result<Option<Bytes<'a>>, CommandFault> {
    match fs::exists(rt, path) {
        Ok(false) => Ok(None),
        Ok(true) | Err(_) => Ok(Some(read_file(rt, path)?)),
    }
}

/// Prints that a report isn't as wanted, and in what; on standard error why an input is refused, if one is.
fn print_failure(
    rt: &HostRuntime,
    name: &str,
    wanted: Option<&[u8]>,
    tested: &Tested,
) -> Result<(), CommandFault> {
    let mut out = String::new(rt.alloc());
    in_memory(match wanted {
        Some(_) => writeln!(out, "differs {name}"),
        None => writeln!(out, "no report {name}"),
    })?;
    if let Some(wanted) = wanted {
        in_memory(put_differences(rt.alloc(), &mut out, wanted, &tested.report))?;
    }
    print(rt, out.as_str())?;
    say(rt, &tested.words);
    Ok(())
}

/// Says how a test ended; a report that isn't as wanted is written, where that is asked.
fn finish(
    rt: &HostRuntime,
    accepts: bool,
    name: &str,
    report_path: &str,
    wanted: Option<&[u8]>,
    tested: &Tested,
) -> Result<End, CommandFault> {
    if tested.passes {
        print(
            rt,
            in_memory(format!(in rt.alloc(); "ok {name}\n"))?.as_str(),
        )?;
        return Ok(End::Passed);
    }
    if accepts {
        write_file(rt, report_path, &tested.report)?;
        print(
            rt,
            in_memory(format!(in rt.alloc(); "written {name}\n"))?.as_str(),
        )?;
        return Ok(End::Written);
    }
    print_failure(rt, name, wanted, tested)?;
    Ok(End::Failed)
}

/// Judges a delivery by the rule text, and compares the report with the one that is wanted.
fn judge<'i>(
    rt: &HostRuntime,
    model: Input<'i>,
    delivery: Input<'i>,
    rules: Input<'i>,
    wanted: Option<&[u8]>,
) -> Result<Tested, CommandFault> {
    let options = JudgeOptions {
        form: RulesForm::Text,
        budget: MAX_BUDGET,
    };
    in_memory(test_rules(rt.alloc(), options, model, delivery, rules, wanted))
}

/// Runs the test of a name.
fn run_test(
    rt: &HostRuntime,
    words: TestWords<'_>,
    model: Input<'_>,
    rules: Input<'_>,
    name: &str,
) -> Result<End, CommandFault> {
    let (folder, accepts) = (words.folder, words.accepts);
    let path = in_memory(format!(in rt.alloc(); "{folder}/{name}.json"))?;
    let report_path = in_memory(format!(in rt.alloc(); "{folder}/{name}.report"))?;
    let shown = in_memory(visible_text(rt.alloc(), name.as_bytes()))?;
    let delivery = read_file(rt, path.as_str())?;
    match wanted_report(rt, report_path.as_str())? {
        Some(wanted) => {
            let bytes = wanted.input().bytes;
            let tested = judge(rt, model, delivery.input(), rules, Some(bytes))?;
            finish(
                rt,
                accepts,
                shown.as_str(),
                report_path.as_str(),
                Some(bytes),
                &tested,
            )
        }
        None => {
            let tested = judge(rt, model, delivery.input(), rules, None)?;
            finish(
                rt,
                accepts,
                shown.as_str(),
                report_path.as_str(),
                None,
                &tested,
            )
        }
    }
}

/// Runs all tests of a folder over inputs that were read, and prints how many ended how.
fn run_tests(
    rt: &HostRuntime,
    words: TestWords<'_>,
    model: Input<'_>,
    rules: Input<'_>,
) -> Result<Outcome, CommandFault> {
    let folder = words.folder;
    let names = delivery_names(rt, folder)?;
    if names.is_empty() {
        let _ = eprintln!(rt; "{folder}: it has no delivery, a file whose name ends in .json");
        return Ok(Outcome::Status(2));
    }
    let mut counts = Counts {
        passed: 0,
        failed: 0,
        written: 0,
    };
    for name in &names {
        counts = counts.with(run_test(rt, words, model, rules, name.as_str())?);
    }
    let (tests, passed, failed) = (names.len(), counts.passed, counts.failed);
    let written = counts.written;
    let line = format!(in rt.alloc();
        "tests {tests} passed {passed} failed {failed} written {written}\n"
    );
    print(rt, in_memory(line)?.as_str())?;
    Ok(Outcome::Status(if failed == 0 { 0 } else { 1 }))
}

/// Reads the class model and the rules, and runs the tests.
fn test_files(rt: &HostRuntime, words: TestWords<'_>) -> Result<Outcome, CommandFault> {
    let model = read_file(rt, words.model)?;
    let rules = read_file(rt, words.rules)?;
    run_tests(rt, words, model.input(), rules.input())
}

/// Tests rules by the deliveries of a folder.
pub fn test(rt: &HostRuntime, words: TestWords<'_>) -> Outcome {
    match test_files(rt, words) {
        Ok(outcome) => outcome,
        Err(fault) => Outcome::Failed(fault),
    }
}
