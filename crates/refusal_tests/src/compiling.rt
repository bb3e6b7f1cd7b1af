//! A rule text that is parsed, checked, compiled and written again.

ghost use Rattle.std.specs.Prelude.{map};
ghost use Rattle.std.specs.List.{AllByRecursion};
ghost use Rattle.ocl_text.specs.RuleText.{NamesDiffer};
ghost use Rattle.ocl_text.specs.View.{rule_of};
ghost use Rattle.ocl_core.specs.Core.{HaveOwnNames};
ghost use Rattle.ocl_core.specs.CoreView.{checked_rule_of};
ghost use Rattle.ocl_core.specs.Typing.{IsTypedRule};

use crate::met::{Met, met_nothing};
use imkl_model::{ClassModel, ModelFault};
use ocl_compile::{CompileFault, compile};
use ocl_core::CoreRule;
use ocl_text::{SurfaceRule, parse_rules};
use ocl_tokens::TextFault;
use ocl_types::{RulesFault, check_rules};
use rule_code::{CodeFault, Unit, write_unit};
use std::alloc::Global;
use std::test::*;
use test_support::{CATALOGUE, file_of_rules};

const TEXT: &str = "context Utiliteitsnet inv t: \
Utiliteitsnet.allInstances()->collect(n | n.leidingen)->collect(k | k.net)->size() >= 0";

/// Its code.
const CODE: &str = "\
Utiliteitsnet t: all Utiliteitsnet; collectflat 2; get 1; attr Utiliteitsnet.leidingen; collect 2; \
get 1; attr KabelOfLeiding.net; size; int 0; ge";

/// Whether a code file is that of the text.
fn compare(alloc: Global, file: &[u8]) -> Met {
    match file_of_rules(alloc, CODE) {
        Ok(wanted) => Met::fault_unless(wanted.as_slice() == file),
        Err(_) => Met::RefusalElsewhere,
    }
}

fn write_again(alloc: Global, unit: &Unit) -> Met {
    match write_unit(alloc, unit) {
        Ok(file) => compare(alloc, &file),
        Err(CodeFault::OutOfMemory) => match write_unit(alloc, unit) {
            Ok(file) => compare(alloc, &file).after_refusal(),
            Err(_) => Met::Fault,
        },
        Err(_) => Met::Fault,
    }
}

fn compile_again(alloc: Global, model: &ClassModel, rules: &[CoreRule]) -> Met
    requires typed { AllByRecursion (IsTypedRule model.now) (map checked_rule_of rules.now) }
    requires names { HaveOwnNames (map checked_rule_of rules.now) }
{
    match compile(alloc, model, rules) {
        Ok(unit) => write_again(alloc, &unit),
        Err(CompileFault::OutOfMemory) => match compile(alloc, model, rules) {
            Ok(unit) => write_again(alloc, &unit).after_refusal(),
            Err(_) => Met::Fault,
        },
        Err(_) => Met::Fault,
    }
}

fn check_again(alloc: Global, model: &ClassModel, rules: &[SurfaceRule]) -> Met
    requires { NamesDiffer (map rule_of rules.now) }
{
    match check_rules(alloc, model, rules) {
        Ok(checked) => compile_again(alloc, model, &checked),
        Err(RulesFault::OutOfMemory) => match check_rules(alloc, model, rules) {
            Ok(checked) => compile_again(alloc, model, &checked).after_refusal(),
            Err(_) => Met::Fault,
        },
        Err(_) => Met::Fault,
    }
}

fn parse_again(alloc: Global, model: &ClassModel) -> Met {
    match parse_rules(alloc, TEXT) {
        Ok(rules) => check_again(alloc, model, &rules),
        Err(TextFault::OutOfMemory) => match parse_rules(alloc, TEXT) {
            Ok(rules) => check_again(alloc, model, &rules).after_refusal(),
            Err(_) => Met::Fault,
        },
        Err(_) => Met::Fault,
    }
}

fn read_and_parse_again(alloc: Global) -> Met {
    match ClassModel::read(alloc, CATALOGUE.as_bytes()) {
        Ok(model) => parse_again(alloc, &model),
        Err(ModelFault::OutOfMemory) => Met::RefusalElsewhere,
        Err(_) => Met::Fault,
    }
}

#[test]
fn a_text_is_compiled_again(rt: HostRuntime) -> Result<(), Fail> {
    let met = read_and_parse_again(rt.alloc());
    assert!(rt; met_nothing(&rt, met)?);
    Ok(())
}
