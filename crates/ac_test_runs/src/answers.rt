//! Statuses by their words.

use ac_top::Status;

/// Each status.
static STATUSES: [Status; 10] = [
    Status::Done,
    Status::Different,
    Status::Unknown,
    Status::Usage,
    Status::Refused,
    Status::ReadFault,
    Status::WriteFault,
    Status::Memory,
    Status::Halted,
    Status::Stopped,
];

/// The words of a status.
pub fn status_words(status: Status) -> &'static str {
    match status {
        Status::Done => "done",
        Status::Different => "different",
        Status::Unknown => "unknown",
        Status::Usage => "usage",
        Status::Refused => "refused",
        Status::ReadFault => "read fault",
        Status::WriteFault => "write fault",
        Status::Memory => "memory",
        Status::Halted => "halted",
        Status::Stopped => "stopped",
    }
}

/// The status that words name.
pub fn status_named(words: &str) -> Option<Status> {
    for status in &STATUSES {
        if status_words(*status) == words {
            return Some(*status);
        }
    }
    None
}
