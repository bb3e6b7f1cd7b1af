//! The code of core trees: operands in order, and then what takes them.

ghost use Rattle.std.specs.Prelude.{◌≡◌, ◌≤◌, [], ◌∷◌, ◌++◌, length, map, OnOk, IfOk};
ghost use Rattle.std.specs.List.{AllByRecursion};
ghost use Rattle.ocl_core.specs.Core.{cores_of};
ghost use Rattle.ocl_core.specs.CoreView.{core_view};
ghost use Rattle.rule_code.specs.declared.instruction.Instr.TheVariants.{Let};
ghost use Rattle.rule_verify.specs.CodeTree.{End, instr_count};
ghost use Rattle.ocl_compile.specs.Written.{IsWritten, AreWritten};
ghost use Rattle.ocl_compile.specs.Translation.{translate, instrs_of};
ghost use Rattle.ocl_compile.specs.declared.limits.TheConstants.{COUNTING_END, MAX_COUNTED};
ghost use Rattle.ocl_compile.specs.EmitWalk.{KnownIn, VariablesBelow, IsEmittable, AreEmittable, IsTopEmittable, AreEmittableLinks, code_of, codes_of, top_code, link_node, links_code, lets_code};

use crate::fields::{body_length, feature_of_unit, symbol_of_unit, written_kind, written_scalar};
use crate::instructions::{constant_instr, iteration_instr, operator_instr, variable_instr};
use crate::numbers::Numbers;
use imkl_model::ClassModel;
use ocl_core::{Core, CoreLink};
use rule_code::Instr;
use rule_verify::Named;
use std::alloc::{AllocError, Global};

/// Adds an instruction to code.
fn put(code: &mut Vec<Instr>, instr: Instr) -> Result<(), AllocError>
    ensures { OnOk result (code.new.items ≡ code.old.items ++ instr ∷ []) }
{
    code.push(instr)?;
    Ok(())
}

/// Adds more code to code.
fn put_code(code: &mut Vec<Instr>, more: Vec<Instr>) -> Result<(), AllocError>
    ensures { OnOk result (code.new.items ≡ code.old.items ++ more.items) }
{
    let mut more = more;
    code.append(&mut more)?;
    Ok(())
}

/// Adds an instruction with its body to code.
fn put_block(code: &mut Vec<Instr>, instr: Instr, body: Vec<Instr>) -> Result<(), AllocError>
    ensures { OnOk result (code.new.items ≡ code.old.items ++ instr ∷ body.items) }
{
    put(code, instr)?;
    put_code(code, body)
}

/// Adds an instruction with its two bodies to code.
fn put_branches(
    code: &mut Vec<Instr>,
    instr: Instr,
    first: Vec<Instr>,
    second: Vec<Instr>,
) -> Result<(), AllocError>
    ensures { OnOk result (code.new.items ≡ code.old.items ++
        instr ∷ (first.items ++ second.items)) }
{
    put_block(code, instr, first)?;
    put_code(code, second)
}

/// Adds the code of a core tree to code.
///
/// It fails only where memory runs out: then part of the tree's code may have been added.
#[cycle(emit)]
#[tactic(auto, using(ocl_core::proofs::ForAbove::views))]
pub(crate) fn emit(
    alloc: Global,
    model: &ClassModel,
    numbers: &Numbers,
    core: &Core,
    code: &mut Vec<Instr>,
) -> Result<(), AllocError>
    requires known { KnownIn model.now (core_view core.now) }
    requires variables { VariablesBelow COUNTING_END (core_view core.now) }
    requires room { instr_count (translate model.now numbers.now (core_view core.now) End)
        ≤ MAX_COUNTED }
    ensures emitted { OnOk result (code.new.items ≡ code.old.items ++
        instrs_of (translate model.now numbers.now (core_view core.now) End)) }
    ensures written { OnOk result (IsWritten (core_view core.now)) }
{
    match core {
        Core::Constant { value } => put(code, constant_instr(numbers, value)),
        Core::Variable { number } => put(code, variable_instr(*number)),
        Core::AllInstances { class } => {
            put(
                code,
                Instr::All(symbol_of_unit(numbers, Named::Class(*class))),
            )
        }
        Core::Spine { first, links } => {
            emit(alloc, model, numbers, first, code)?;
            emit_links(alloc, model, numbers, links, code)
        }
        Core::Let { values, body } => {
            let inner = code_of_body(alloc, model, numbers, body)?;
            let lets = code_of_lets(alloc, model, numbers, values, inner)?;
            put_code(code, lets)
        }
        Core::If {
            kind,
            condition,
            then_branch,
            else_branch,
        } => {
            emit(alloc, model, numbers, condition, code)?;
            let first = code_of_body(alloc, model, numbers, then_branch)?;
            let second = code_of_body(alloc, model, numbers, else_branch)?;
            let kind = written_kind(numbers, *kind);
            let branch = Instr::If(kind, body_length(&first), body_length(&second));
            put_branches(code, branch, first, second)
        }
    }
}

/// The code of a body, on its own.
#[cycle(emit)]
fn code_of_body(
    alloc: Global,
    model: &ClassModel,
    numbers: &Numbers,
    body: &Core,
) -> Result<Vec<Instr>, AllocError>
    requires { IsEmittable model.now numbers.now (core_view body.now) }
    ensures code { IfOk result (λ v. v.items
        ≡ code_of model.now numbers.now (core_view body.now)) }
    ensures written { OnOk result (IsWritten (core_view body.now)) }
{
    let mut code = Vec::new(alloc);
    emit(alloc, model, numbers, body, &mut code)?;
    Ok(code)
}

/// The code of values as variables of a body, from that of the body: the innermost first.
#[cycle(emit)]
fn code_of_lets(
    alloc: Global,
    model: &ClassModel,
    numbers: &Numbers,
    values: &[Core],
    body: Vec<Instr>,
) -> Result<Vec<Instr>, AllocError>
    requires values { AllByRecursion (IsEmittable model.now numbers.now)
        (map core_view values.now) }
    requires room { length (lets_code model.now numbers.now (map core_view values.now) body.items)
        ≤ MAX_COUNTED }
    ensures code { IfOk result (λ v. v.items ≡ lets_code model.now numbers.now
        (map core_view values.now) body.items) }
    ensures written { OnOk result (AllByRecursion IsWritten (map core_view values.now)) }
{
    let mut code = body;
    for i in (0..values.len()).rev() {
        code = code_of_let(alloc, model, numbers, &values[i], code)?;
    }
    Ok(code)
}

/// The code of a value as the variable of a body, whose code is given.
#[cycle(emit)]
fn code_of_let(
    alloc: Global,
    model: &ClassModel,
    numbers: &Numbers,
    value: &Core,
    body: Vec<Instr>,
) -> Result<Vec<Instr>, AllocError>
    requires value { IsEmittable model.now numbers.now (core_view value.now) }
    requires body { length body.items ≤ MAX_COUNTED }
    ensures code { IfOk result (λ v. v.items ≡ code_of model.now numbers.now
        (core_view value.now) ++ Let (length body.items) ∷ body.items) }
    ensures written { OnOk result (IsWritten (core_view value.now)) }
{
    let mut code = code_of_body(alloc, model, numbers, value)?;
    put_block(&mut code, Instr::Let(body_length(&body)), body)?;
    Ok(code)
}

/// Adds the code of several operands to code.
#[cycle(emit)]
fn emit_operands(
    alloc: Global,
    model: &ClassModel,
    numbers: &Numbers,
    operands: &[Core],
    code: &mut Vec<Instr>,
) -> Result<(), AllocError>
    requires { AreEmittable model.now numbers.now (cores_of (map core_view operands.now)) }
    ensures codes { OnOk result (code.new.items ≡ code.old.items ++
        codes_of model.now numbers.now (cores_of (map core_view operands.now))) }
    ensures written { OnOk result (AreWritten (cores_of (map core_view operands.now))) }
{
    'operands: for operand in operands {
        emit(alloc, model, numbers, operand, code)?;
    }
    Ok(())
}

/// Adds the code of a link, which follows that of what stands on its left.
#[cycle(emit)]
#[tactic(auto, using(ocl_core::proofs::ForAbove::views))]
fn emit_link(
    alloc: Global,
    model: &ClassModel,
    numbers: &Numbers,
    link: &CoreLink,
    code: &mut Vec<Instr>,
) -> Result<(), AllocError>
    requires { IsTopEmittable model.now numbers.now (link_node link.now) }
    ensures code { OnOk result (code.new.items ≡ code.old.items ++
        top_code model.now numbers.now (link_node link.now)) }
    ensures written { OnOk result (IsWritten (link_node link.now)) }
{
    match link {
        CoreLink::Feature { feature } => {
            put(code, Instr::Attr(feature_of_unit(model, numbers, *feature)))
        }
        CoreLink::Operation { operator, others } => {
            emit_operands(alloc, model, numbers, others, code)?;
            put(code, operator_instr(numbers, *operator))
        }
        CoreLink::AsCollection {
            collection,
            element,
        } => put(
            code,
            Instr::AsColl(*collection, written_scalar(numbers, *element)),
        ),
        CoreLink::Iterate { iteration, body } => {
            let inner = code_of_body(alloc, model, numbers, body)?;
            let block = iteration_instr(numbers, *iteration, body_length(&inner));
            put_block(code, block, inner)
        }
        CoreLink::Fold { kind, start, body } => {
            emit(alloc, model, numbers, start, code)?;
            let inner = code_of_body(alloc, model, numbers, body)?;
            let block = Instr::Fold(written_scalar(numbers, *kind), body_length(&inner));
            put_block(code, block, inner)
        }
    }
}

/// Adds the code of several links to code.
#[cycle(emit)]
fn emit_links(
    alloc: Global,
    model: &ClassModel,
    numbers: &Numbers,
    links: &[CoreLink],
    code: &mut Vec<Instr>,
) -> Result<(), AllocError>
    requires { AreEmittableLinks model.now numbers.now links.now }
    ensures codes { OnOk result (code.new.items ≡ code.old.items ++
        links_code model.now numbers.now links.now) }
    ensures written { OnOk result (AllByRecursion (λ l. IsWritten (link_node l)) links.now) }
{
    'links: for link in links {
        emit_link(alloc, model, numbers, link, code)?;
    }
    Ok(())
}
