//! Why an input is refused.

ghost use Rattle.std.specs.Prelude.{◌≡◌, string_bytes, IfOk};
ghost use Rattle.ocl_pipeline.specs.Refusals.{delivery_fault_line, refusal_line, refusal_number};

use imkl_delivery::DeliveryFault;
use imkl_model::ModelFault;
use ocl_compile::Limit;
use ocl_tokens::TextFlaw;
use ocl_types::TypeFlaw;
use rule_code::CodeFlaw;
use rule_verify::VerifyFlaw;
use std::alloc::{AllocError, Global};

/// The first reason to refuse an input.
#[derive(Clone, Copy)]
pub enum Refusal {
    /// The class model is at fault.
    Model(ModelFault),
    /// The delivery is at fault.
    Delivery(DeliveryFault),
    /// The rule text is at fault.
    Text {
        /// What is wrong with it.
        flaw: TextFlaw,
        /// Where, in bytes from 0.
        offset: usize,
    },
    /// The types of a rule of the text are at fault.
    Types {
        /// What is wrong with it.
        flaw: TypeFlaw,
        /// The index of the rule.
        rule: usize,
        /// Where, in bytes of the text from 0.
        offset: usize,
    },
    /// A rule of the text passes a limit of code.
    Compile {
        /// The limit.
        limit: Limit,
        /// The index of the rule.
        rule: usize,
    },
    /// The code file is at fault.
    Code {
        /// What is wrong with it.
        flaw: CodeFlaw,
        /// Where, in bytes from 0.
        offset: usize,
    },
    /// The code of a rule is not accepted.
    Verify {
        /// What is wrong with it.
        flaw: VerifyFlaw,
        /// The index of the rule.
        rule: usize,
        /// The index of the instruction in the rule.
        at: usize,
    },
    /// The bound of a rule is over, or above the budget.
    Cost {
        /// The index of the rule.
        rule: usize,
    },
    /// A line of the script is no call.
    Script {
        /// Its number, from 1.
        line: usize,
    },
}

/// The line of a delivery's fault.
fn delivery_line(alloc: Global, fault: &DeliveryFault) -> Result<String, AllocError>
    ensures { IfOk result (λ s. string_bytes s ≡ delivery_fault_line fault.now) }
{
    let number = fault.number();
    match fault {
        DeliveryFault::UnknownClass { object }
        | DeliveryFault::UnknownFeature { object }
        | DeliveryFault::UnknownTarget { object } => {
            format!(in alloc; "refused delivery {number} {object}\n")
        }
        DeliveryFault::Population { object, fault } => {
            let number = fault.number();
            format!(in alloc; "refused delivery 7 {object} {number}\n")
        }
        _ => format!(in alloc; "refused delivery {number}\n"),
    }
}

impl Refusal {
    /// The number of what is wrong among the faults of its input, from 1.
    pub fn number(&self) -> u8
        ensures { result ≡ refusal_number self.now }
    {
        match self {
            Refusal::Model(fault) => fault.number(),
            Refusal::Delivery(fault) => fault.number(),
            Refusal::Text { flaw, .. } => flaw.number(),
            Refusal::Types { flaw, .. } => flaw.number(),
            Refusal::Compile { limit, .. } => limit.number(),
            Refusal::Code { flaw, .. } => flaw.number(),
            Refusal::Verify { flaw, .. } => flaw.number(),
            Refusal::Cost { .. } | Refusal::Script { .. } => 1,
        }
    }

    /// The line that reports it, with its line feed.
    pub fn line(&self, alloc: Global) -> Result<String, AllocError>
        ensures { IfOk result (λ s. string_bytes s ≡ refusal_line self.now) }
    {
        let number = self.number();
        match self {
            Refusal::Model(_) => format!(in alloc; "refused model {number}\n"),
            Refusal::Delivery(fault) => delivery_line(alloc, fault),
            Refusal::Text { offset, .. } => format!(in alloc; "refused text {number} {offset}\n"),
            Refusal::Types { rule, offset, .. } => {
                format!(in alloc; "refused types {number} {rule} {offset}\n")
            }
            Refusal::Compile { rule, .. } => format!(in alloc; "refused compile {number} {rule}\n"),
            Refusal::Code { offset, .. } => format!(in alloc; "refused code {number} {offset}\n"),
            Refusal::Verify { rule, at, .. } => {
                format!(in alloc; "refused verify {number} {rule} {at}\n")
            }
            Refusal::Cost { rule } => format!(in alloc; "refused cost 1 {rule}\n"),
            Refusal::Script { line } => format!(in alloc; "refused script {line}\n"),
        }
    }
}
