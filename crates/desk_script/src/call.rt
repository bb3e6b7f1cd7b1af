//! What a script asks of a desk.

/// A call of a desk. Jobs are named by their numbers.
#[derive(Clone, Copy)]
pub enum Call {
    /// A new job enters.
    Enter,
    /// A job is granted charges.
    Grant {
        /// The job's number.
        job: usize,
        /// How many charges.
        charges: u64,
    },
    /// A job is given up.
    Withdraw {
        /// The job's number.
        job: usize,
    },
    /// The lines of a job's report so far are asked for.
    Lines {
        /// The job's number.
        job: usize,
    },
}
