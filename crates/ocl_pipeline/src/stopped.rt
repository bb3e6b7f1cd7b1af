//! Why the pipeline stopped: an input is refused, or memory ran out.

ghost use Rattle.std.specs.Prelude.{◌≡◌};
ghost use Rattle.ocl_pipeline.specs.Stops.{code_stop, compile_stop, cost_stop, delivery_stop, model_stop, text_stop, types_stop, verify_stop};

use crate::refusal::Refusal;
use imkl_delivery::DeliveryFault;
use imkl_model::ModelFault;
use ocl_compile::CompileFault;
use ocl_tokens::TextFault;
use ocl_types::RulesFault;
use rule_code::CodeFault;
use rule_cost::CostFault;
use rule_verify::VerifyFault;

/// Why there is no answer.
#[derive(Clone, Copy)]
pub enum Stopped {
    /// An input is refused.
    Refused(Refusal),
    /// Memory ran out.
    OutOfMemory,
}

impl From<ModelFault> for Stopped {
    ghost from_gives = { λ f s. s ≡ model_stop f };

    fn from(fault: ModelFault) -> Stopped {
        match fault {
            ModelFault::OutOfMemory => Stopped::OutOfMemory,
            fault => Stopped::Refused(Refusal::Model(fault)),
        }
    }
}

impl From<DeliveryFault> for Stopped {
    ghost from_gives = { λ f s. s ≡ delivery_stop f };

    fn from(fault: DeliveryFault) -> Stopped {
        match fault {
            DeliveryFault::OutOfMemory => Stopped::OutOfMemory,
            fault => Stopped::Refused(Refusal::Delivery(fault)),
        }
    }
}

impl From<TextFault> for Stopped {
    ghost from_gives = { λ f s. s ≡ text_stop f };

    fn from(fault: TextFault) -> Stopped {
        match fault {
            TextFault::At { flaw, offset } => Stopped::Refused(Refusal::Text { flaw, offset }),
            TextFault::OutOfMemory => Stopped::OutOfMemory,
        }
    }
}

impl From<RulesFault> for Stopped {
    ghost from_gives = { λ f s. s ≡ types_stop f };

    fn from(fault: RulesFault) -> Stopped {
        match fault {
            RulesFault::At { flaw, rule, offset } => {
                Stopped::Refused(Refusal::Types { flaw, rule, offset })
            }
            RulesFault::OutOfMemory => Stopped::OutOfMemory,
        }
    }
}

impl From<CompileFault> for Stopped {
    ghost from_gives = { λ f s. s ≡ compile_stop f };

    fn from(fault: CompileFault) -> Stopped {
        match fault {
            CompileFault::At { limit, rule } => Stopped::Refused(Refusal::Compile { limit, rule }),
            CompileFault::OutOfMemory => Stopped::OutOfMemory,
        }
    }
}

impl From<CodeFault> for Stopped {
    ghost from_gives = { λ f s. s ≡ code_stop f };

    fn from(fault: CodeFault) -> Stopped {
        match fault {
            CodeFault::At { flaw, offset } => Stopped::Refused(Refusal::Code { flaw, offset }),
            CodeFault::OutOfMemory => Stopped::OutOfMemory,
        }
    }
}

impl From<VerifyFault> for Stopped {
    ghost from_gives = { λ f s. s ≡ verify_stop f };

    fn from(fault: VerifyFault) -> Stopped {
        match fault {
            VerifyFault::At { flaw, rule, at } => {
                Stopped::Refused(Refusal::Verify { flaw, rule, at })
            }
            VerifyFault::OutOfMemory => Stopped::OutOfMemory,
        }
    }
}

impl From<CostFault> for Stopped {
    ghost from_gives = { λ f s. s ≡ cost_stop f };

    fn from(fault: CostFault) -> Stopped {
        match fault {
            CostFault::TooCostly { rule } => Stopped::Refused(Refusal::Cost { rule }),
            CostFault::OutOfMemory => Stopped::OutOfMemory,
        }
    }
}
