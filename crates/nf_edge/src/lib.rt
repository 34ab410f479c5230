//! Input files and output streams of the program.
//!
//! A program reads files from a [`Shelf`] and writes bytes to a [`Sink`]. The bytes of those in memory are known to proofs. The real ones
//! are the trusted I/O boundary: their bytes are unknown to proofs, and their faults are counted.
#![tactic(auto)]

ghost use Rattle.std.specs.Prelude.{◌≡◌, ◌⊎◌, ℕ, ◌+◌, ◌<◌, ◌≤◌, List, [], ◌∷◌, ◌++◌, length, take, Option, IfOk, IfSome, OnOk, OnErr, IsErrOf};
ghost use Rattle.nf_edge.specs.Faults.{Rose, one_more};
ghost use Rattle.nf_edge.specs.Taken.{with_more};
ghost use Rattle.nf_edge.specs.declared.FetchFault.TheVariants as FetchFault;

mod asked;
mod memory_shelf;
mod memory_sink;
mod real;
mod writing;

pub use memory_shelf::MemShelf;
pub use memory_sink::MemSink;
pub use real::{RealShelf, StdSink};
use std::alloc::{AllocError, AllocFailed, Global};
pub use writing::write_text;

/// Why a fetch fails.
#[derive(Clone, Copy, Debug, PartialEq, Eq)]
pub enum FetchFault {
    /// The operating system reported an error, or there is no such file.
    Failed,
    /// The file has more bytes than the limit.
    TooLong,
    /// Allocation failed.
    Memory,
}

impl From<AllocError> for FetchFault {
    ghost from_gives = { λ _ fault. fault ≡ FetchFault.Memory };

    fn from(_: AllocError) -> Self {
        FetchFault::Memory
    }
}

impl<T: Drop> From<AllocFailed<T>> for FetchFault {
    ghost from_gives = { λ _ fault. fault ≡ FetchFault.Memory };

    fn from(_: AllocFailed<T>) -> Self {
        FetchFault::Memory
    }
}

/// A write that took no bytes.
#[derive(Clone, Copy, Debug, PartialEq, Eq)]
pub struct SinkFault;

/// Files by name.
pub trait Shelf {
    /// The bytes under a name, if they are known to proofs.
    ghost told: { Self → List ℕ → Option (List ℕ) };

    /// How often the operating system failed a fetch.
    ghost faults: { Self → ℕ };

    /// How many bytes the latest fetch read.
    ghost taken: { Self → ℕ };

    /// The names fetched so far, in order.
    ghost asked: { Self → List (List ℕ) };

    /// Reads the file of this name and returns all its bytes, of which there are at most `limit`.
    ///
    /// Returns `Failed` if there is no such file or reading fails, `TooLong` if the file has more than `limit` bytes, and `Memory` if
    /// an allocation fails.
    fn fetch(&mut self, alloc: Global, name: &str, limit: u32) -> Result<Vec<u8>, FetchFault>
        ensures taken { IfOk result (λ bytes. taken self.new ≡ length bytes.items) }
        ensures told { IfOk result
            (λ bytes. IfSome (told self.old name.now) (λ held. bytes.items ≡ held)) }
        ensures same { (other : List ℕ) → told self.new other ≡ told self.old other }

        // A failure of the operating system raises the count of faults.
        ensures failed { IsErrOf result FetchFault.Failed
            → Rose (faults self.old) (faults self.new) }
        ensures never_falls { faults self.old ≤ faults self.new }

        // `TooLong` implies that more than `limit` bytes were read; then the result is `TooLong` or `Memory`.
        ensures too_long { IsErrOf result FetchFault.TooLong → limit < taken self.new }
        ensures long { limit < taken self.new →
            IsErrOf result FetchFault.TooLong ⊎ IsErrOf result FetchFault.Memory }

        // If the bytes are known and no fault was counted, `TooLong` implies more than `limit` bytes; then the result is `TooLong` or
        // `Memory`.
        ensures told_too_long { IsErrOf result FetchFault.TooLong → IfSome (told self.old name.now)
            (λ held. Rose (faults self.old) (faults self.new) ⊎ (limit < length held)) }
        ensures told_long { IfSome (told self.old name.now) (λ held. limit < length held →
            Rose (faults self.old) (faults self.new) ⊎ IsErrOf result FetchFault.TooLong
            ⊎ IsErrOf result FetchFault.Memory) }

        // The name is noted, unless an allocation failed.
        ensures asked { (asked self.new ≡ asked self.old ++ name.now ∷ [])
            ⊎ (IsErrOf result FetchFault.Memory × (asked self.new ≡ asked self.old)) };
}

/// An output stream.
pub trait Sink {
    /// The bytes taken so far, if they are known to proofs.
    ghost took: { Self → Option (List ℕ) };

    /// How often `write` has returned `SinkFault`, up to 2^64 - 1. A fault that the sink itself mends, as by trying again, does not count.
    ghost faults: { Self → ℕ };

    /// Takes a prefix of `piece`, which isn't empty, and returns its length, at least 1. Allocates nothing.
    ///
    /// Returns `SinkFault` if the sink takes no byte, and counts it once. A write that takes bytes counts no fault. So the count of a
    /// sink whose bytes are unknown to proofs says whether a text was written whole, and that the first fault ended the writing.
    fn write(&mut self, piece: &[u8]) -> Result<usize, SinkFault>
        requires { 0 < length piece.now }
        ensures some { IfOk result (λ count. 0 < count) }
        ensures within { IfOk result (λ count. count ≤ length piece.now) }
        ensures took { IfOk result
            (λ count. took self.new ≡ with_more (took self.old) (take count piece.now)) }

        // A write that takes bytes raises no fault.
        ensures no_fault { OnOk result (faults self.new ≡ faults self.old) }

        // A fault takes nothing, and is counted once.
        ensures none { OnErr result (took self.new ≡ took self.old) }
        ensures fault { OnErr result (faults self.new ≡ one_more (faults self.old)) }
        ensures never_falls { faults self.old ≤ faults self.new };
}
