//! The status that a run left.

/// The status of a run, as its file has it.
#[derive(Clone, Copy)]
pub enum Status {
    /// 0: every rule holds for each of its objects.
    Holds,
    /// 1: some rule doesn't.
    Breaks,
    /// 2: an input was refused.
    Refused,
    /// 3: the run failed.
    Failed,
    /// Any other, as of a run that was ended.
    Other,
    /// None: the run didn't end, or hasn't begun.
    Missing,
}

/// All statuses.
pub(crate) const STATUSES: [Status; 6] = [
    Status::Holds,
    Status::Breaks,
    Status::Refused,
    Status::Failed,
    Status::Other,
    Status::Missing,
];

impl Status {
    /// That of a file, if it is there.
    pub(crate) fn of_file(file: Option<&[u8]>) -> Status {
        let Some(bytes) = file else {
            return Status::Missing;
        };
        match bytes.trim_ascii() {
            b"0" => Status::Holds,
            b"1" => Status::Breaks,
            b"2" => Status::Refused,
            b"3" => Status::Failed,
            b"" => Status::Missing,
            _ => Status::Other,
        }
    }

    /// Its word.
    pub(crate) fn word(self) -> &'static str {
        match self {
            Status::Holds => "0",
            Status::Breaks => "1",
            Status::Refused => "2",
            Status::Failed => "3",
            Status::Other => "other",
            Status::Missing => "none",
        }
    }
}
