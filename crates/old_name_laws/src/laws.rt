//! Old names change nothing where present names are used, over the definitions alone. The functions do nothing.
//!
//! Each law is of two class models that differ at most in their old names. Code of present names is code of which each
//! used symbol, as it is written, names something of them.

ghost use Rattle.old_name_laws.specs.Laws.{DeliveriesStay, ChecksStay, BoundsStay, AdmissionsStay, VerdictsStay, ReportsStay, VerifyStays, BoundStays, JudgeStays, DeskStays, CompileStays, JudgeTextStays};

use imkl_delivery::laws::descriptions;
use ocl_compile::laws::compiled_is_accepted;
use rule_verify::laws::symbols;

/// A document describes populations with the same objects, or has the same fault, of whatever models.
pub fn deliveries()
    ensures { DeliveriesStay }
{}

/// Code of present names is accepted in both, or has the same first fault.
pub fn checks()
    ensures { ChecksStay }
{
    symbols();
}

/// The rules of code of present names have the same bounds on populations with the same objects, so the code is admitted
/// within the same budgets.
pub fn bounds()
    ensures bounds { BoundsStay }
    ensures admissions { AdmissionsStay }
{
    symbols();
}

/// Each rule of code of present names has the same verdict for each object.
pub fn verdicts()
    ensures { VerdictsStay }
{
    symbols();
}

/// The report by code of present names has the same bytes and counts.
pub fn reports()
    ensures { ReportsStay }
{
    symbols();
}

/// `verify` answers the same bytes and status of code of present names.
pub fn verify_answers()
    ensures { VerifyStays }
{}

/// `bound` does, whatever the delivery.
pub fn bound_answers()
    ensures { BoundStays }
{
    descriptions();
}

/// `judge` does, whatever the delivery and the budget.
pub fn judge_answers()
    ensures { JudgeStays }
{
    descriptions();
}

/// `desk` does, whatever the delivery and the script.
pub fn desk_answers()
    ensures { DeskStays }
{
    descriptions();
}

/// `compile` writes the same code file and answers the same bytes and status, whatever the rule text.
pub fn compile_answers()
    ensures { CompileStays }
{}

/// `judge` by a rule text answers the same bytes and status, whatever the text, the delivery and the budget.
pub fn judge_text_answers()
    ensures { JudgeTextStays }
{
    symbols();
    descriptions();
    compiled_is_accepted();
}
