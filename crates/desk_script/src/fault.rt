//! Why a script is refused.

use thiserror::Error;

/// Why a script is refused.
#[derive(Clone, Copy, PartialEq, Eq, Debug, Error)]
pub enum ScriptFault {
    /// A line is no call; no earlier one is wrong.
    #[error("line {line} is no call")]
    At {
        /// Its number, from 1.
        line: usize,
    },
    /// Memory ran out.
    #[error("out of memory")]
    OutOfMemory,
}
