//! The inputs of a command.

use explain_notes::Input;
use ocl_check::{JudgeOptions, MAX_BUDGET, RulesForm};

/// What a command is given, by which its refusals are explained.
#[derive(Clone, Copy, Drop)]
pub struct Given<'a> {
    /// The class model.
    pub model: Input<'a>,
    /// The delivery, if it has one.
    pub delivery: Option<Input<'a>>,
    /// The rules, in the form that the options say.
    pub rules: Input<'a>,
    /// The script, if it has one.
    pub script: Option<Input<'a>>,
    /// The form of the rules, and the budget within which they are admitted.
    pub options: JudgeOptions,
}

/// Rules as `judge` takes them where nothing else is asked.
pub const fn options_of(form: RulesForm) -> JudgeOptions {
    JudgeOptions {
        form,
        budget: MAX_BUDGET,
    }
}
