//! How much of explanations is shown, where the command line doesn't say it too.

use explain_command_line::ExplanationLimits;
use ocl_explain::Shown;

/// How many lines of the explanation for an object are shown.
const DEFAULT_LINES: u64 = 400;

/// How many lines of each explanation are shown, where each finding is explained.
const DEFAULT_FINDING_LINES: u64 = 20;

/// How many findings of a rule `why` explains.
const DEFAULT_FINDINGS: u64 = 20;

/// How many lines `why` shows of the explanation for an object.
pub(crate) fn object_lines(limits: ExplanationLimits) -> usize {
    limits.lines.unwrap_or(DEFAULT_LINES) as usize
}

/// How much is shown where each finding is explained; of how many findings, where the command line doesn't say it.
fn shown_by(limits: ExplanationLimits, findings: u64) -> Shown {
    Shown {
        findings: limits.findings.unwrap_or(findings) as usize,
        lines: limits.lines.unwrap_or(DEFAULT_FINDING_LINES) as usize,
    }
}

/// How much `why` shows of the findings of a rule.
pub(crate) fn shown_of_rule(limits: ExplanationLimits) -> Shown {
    shown_by(limits, DEFAULT_FINDINGS)
}

/// How much `judge` shows of the findings of each rule: all are explained.
pub(crate) fn shown_of_report(limits: ExplanationLimits) -> Shown {
    shown_by(limits, u64::MAX)
}
