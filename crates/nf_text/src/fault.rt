// Reasons to refuse a file or a line of it.
ghost use Rattle.std.specs.Prelude.{◌≡◌};
ghost use Rattle.nf_text.specs.Faults.{fault_in_line, fault_of_text};
ghost use Rattle.nf_text.specs.declared.fault.FileFault.TheVariants as FileFault;
ghost use Rattle.nf_text.specs.declared.fault.LineFault.TheVariants as LineFault;

use crate::TextFault;
use std::alloc::{AllocError, AllocFailed};
use std::fmt::Debug;
use thiserror::Error;

/// A reason to refuse a file. `R` holds the rules of this kind of file.
#[derive(Clone, Copy, Debug, Error)]
#[error_bound(R: Debug)]
pub enum FileFault<R> {
    /// `rule` is the first broken rule, found in `line`; line 0 means the whole file.
    #[error("line {line} breaks {rule:?}")]
    Broken { rule: R, line: u32 },
    /// An allocation failed.
    #[error("memory is wanting")]
    Memory,
}

impl<R> From<AllocError> for FileFault<R> {
    ghost from_gives = { λ _ fault. fault ≡ FileFault.Memory };

    fn from(_: AllocError) -> Self {
        FileFault::Memory
    }
}

impl<R, T: Drop> From<AllocFailed<T>> for FileFault<R> {
    ghost from_gives = { λ _ fault. fault ≡ FileFault.Memory };

    fn from(_: AllocFailed<T>) -> Self {
        FileFault::Memory
    }
}

impl TextFault {
    /// Returns the fault of a file with this fault of its text. `not_ascii` and `long_line` are the file's rules of bytes.
    pub fn in_file<R: Copy>(self, not_ascii: R, long_line: R) -> FileFault<R>
        ensures { result ≡ fault_of_text not_ascii long_line self }
    {
        match self {
            TextFault::NotAscii { line } => FileFault::Broken {
                rule: not_ascii,
                line,
            },
            TextFault::LongLine { line } => FileFault::Broken {
                rule: long_line,
                line,
            },
            TextFault::Memory => FileFault::Memory,
        }
    }
}

/// A reason to refuse a line of a file.
#[derive(Clone, Copy)]
pub enum LineFault<R> {
    /// The rule is the first that the line breaks.
    Broken(R),
    /// An allocation failed.
    Memory,
}

impl<R> LineFault<R> {
    /// Returns the fault of the file if this is the fault of the line with number `line`.
    pub fn in_line(self, line: u32) -> FileFault<R>
        ensures { result ≡ fault_in_line line self }
    {
        match self {
            LineFault::Broken(rule) => FileFault::Broken { rule, line },
            LineFault::Memory => FileFault::Memory,
        }
    }
}

impl<R> From<AllocError> for LineFault<R> {
    ghost from_gives = { λ _ fault. fault ≡ LineFault.Memory };

    fn from(_: AllocError) -> Self {
        LineFault::Memory
    }
}

impl<R, T: Drop> From<AllocFailed<T>> for LineFault<R> {
    ghost from_gives = { λ _ fault. fault ≡ LineFault.Memory };

    fn from(_: AllocFailed<T>) -> Self {
        LineFault::Memory
    }
}
