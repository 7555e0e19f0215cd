//! Why the system failed a call.

use std::io::{Error, ErrorKind};

/// Why a call of a source or a sink failed, as the system says it.
#[derive(Clone, Copy, Debug, PartialEq, Eq)]
pub enum Cause {
    /// It is a folder (EISDIR).
    Folder,
    /// It is closed, or not open for such a call (EBADF).
    Closed,
    /// The reader of the pipe has gone (EPIPE).
    BrokenPipe,
    /// The device or the quota is full (ENOSPC, EDQUOT).
    Full,
    /// The file may not grow any more (EFBIG).
    TooLarge,
    /// A signal interrupted the call (EINTR).
    Interrupted,
    /// The device failed (EIO).
    Device,
    /// The call took none of the bytes.
    TookNone,
    /// Any other reason.
    Other,
}

/// The cause of an error of std.
pub(crate) fn cause_of(error: &Error) -> Cause {
    match error.kind() {
        ErrorKind::IsADirectory => Cause::Folder,
        ErrorKind::BrokenPipe => Cause::BrokenPipe,
        ErrorKind::StorageFull | ErrorKind::QuotaExceeded => Cause::Full,
        ErrorKind::FileTooLarge => Cause::TooLarge,
        ErrorKind::Interrupted => Cause::Interrupted,
        _ => match error.raw_os_error() {
            Some(5) => Cause::Device,
            Some(9) => Cause::Closed,
            _ => Cause::Other,
        },
    }
}
