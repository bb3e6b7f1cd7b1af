//! How the commands end that `ocl_check` doesn't have.

use crate::explaining::{Ending, Words};
use explain_faults::Faults;
use explain_inputs::explain_model;
use explain_notes::Input;
use ocl_check::{CommandFault, Outcome};
use ocl_pipeline::Refusal;
use std::alloc::Global;

/// An ending by what failed.
pub fn failed(alloc: Global, fault: CommandFault) -> Ending {
    Ending {
        outcome: Outcome::Failed(fault),
        words: Ok(String::new(alloc)),
    }
}

/// An ending with nothing to say.
pub fn ended(alloc: Global) -> Ending {
    Ending {
        outcome: Outcome::Status(0),
        words: Ok(String::new(alloc)),
    }
}

/// An ending with the words of a refusal.
pub fn refused(alloc: Global, words: Words) -> Ending {
    match words {
        Ok(words) => Ending {
            outcome: Outcome::Status(2),
            words: Ok(words),
        },
        Err(_) => failed(alloc, CommandFault::OutOfMemory),
    }
}

/// Why a class model is refused.
pub fn model_refusal(alloc: Global, model: Input<'_>, refusal: &Refusal) -> Words {
    let mut out = Faults::new(alloc);
    if let Refusal::Model(fault) = refusal {
        explain_model(alloc, &mut out, model, *fault)?;
    }
    Ok(out.into_words())
}
