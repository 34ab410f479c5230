// Real files and a real writer: the trusted I/O boundary.
ghost use Rattle.std.specs.Prelude.{◌≡◌, ◌⊎◌, ◌↔◌, ℕ, ◌+◌, ◌<◌, ◌≤◌, [], ◌∷◌, ◌++◌, None, IfOk, OnOk, OnErr, IsErrOf, length, take};
ghost use Rattle.std.specs.Io.KnownBytes.{Appends, Consumes, IsAtEnd};
ghost use Rattle.nf_edge.specs.Faults.{one_more};
ghost use Rattle.nf_edge.specs.Names.{texts};
ghost use Rattle.nf_edge.specs.Real.{writer_of, faults_of};

use crate::asked::note;
use crate::{FetchFault, Shelf, Sink, SinkFault};
use std::alloc::Global;
use std::fs;
use std::io::{Read, Write};
use std::rt::Files;

/// The most bytes of one read.
const TURN: usize = 4096;

/// Reads a file to its end, at least one byte at a time. Stops at one byte more than the limit.
fn read_file<F: Read>(file: &mut F, bytes: &mut Vec<u8>, limit: u32) -> Result<(), FetchFault>
    requires { bytes.old.items ≡ [] }
    ensures at_most { length bytes.new.items ≤ limit + 1 }
    ensures within { OnOk result (length bytes.new.items ≤ limit) }
    ensures too_long { IsErrOf result FetchFault.TooLong → length bytes.new.items ≡ limit + 1 }
    ensures long { limit < length bytes.new.items → IsErrOf result FetchFault.TooLong }

    // If the file's bytes are known to proofs, all of them are read.
    ensures read { OnOk result
        (Consumes (F.remaining file.old) (F.remaining file.new) bytes.new.items) }
    ensures all { OnOk result (IsAtEnd (F.remaining file.new)) }
{
    let most = limit as usize + 1;
    let mut turn = [0u8; TURN];
    while bytes.len() < most {
        let piece = &mut turn[..TURN.min(most - bytes.len())];
        let Ok(count) = file.read(piece) else {
            return Err(FetchFault::Failed);
        };
        if count == 0 {
            return Ok(());
        }
        bytes.extend_from_slice(&piece[..count])?;
    }
    Err(FetchFault::TooLong)
}

// Opens the file of this name and reads it as `read_file` does. Returns `Failed` if it can't be opened.
fn read_named<R: Files>(
    runtime: &R,
    name: &str,
    bytes: &mut Vec<u8>,
    limit: u32,
) -> Result<(), FetchFault>
    requires { bytes.old.items ≡ [] }
    ensures at_most { length bytes.new.items ≤ limit + 1 }
    ensures within { OnOk result (length bytes.new.items ≤ limit) }
    ensures too_long { IsErrOf result FetchFault.TooLong → length bytes.new.items ≡ limit + 1 }
    ensures long { limit < length bytes.new.items → IsErrOf result FetchFault.TooLong }
{
    match fs::open(runtime, name) {
        Ok(mut file) => read_file(&mut file, bytes, limit),
        Err(_) => Err(FetchFault::Failed),
    }
}

/// The files of the operating system, by path. Their bytes are unknown to proofs. A fetch reads at most `limit + 1` bytes.
#[derive(Drop)]
pub struct RealShelf<'r, R: Files> {
    runtime: &'r R,
    asked: Vec<String>,
    taken: u64,
    faults: u64,
}

impl<'r, R: Files> RealShelf<'r, R> {
    /// Returns the shelf of the runtime's files, of which nothing was fetched yet.
    pub fn new(rt: &'r R, alloc: Global) -> RealShelf<'r, R>
        ensures asked { ⟦<RealShelf<'r, R> as Shelf>⟧.asked result ≡ [] }
        ensures faults { ⟦<RealShelf<'r, R> as Shelf>⟧.faults result ≡ 0 }
    {
        RealShelf {
            runtime: rt,
            asked: Vec::new(alloc),
            taken: 0,
            faults: 0,
        }
    }

    // Counts a failure of the operating system, and returns the fault.
    fn counted(&mut self, fault: FetchFault) -> FetchFault
        ensures fault { result ≡ fault }
        ensures asked { self.new.asked ≡ self.old.asked }
        ensures taken { self.new.taken ≡ self.old.taken }
        ensures failed { fault ≡ FetchFault.Failed → self.new.faults ≡ one_more self.old.faults }
        ensures never_falls { self.old.faults ≤ self.new.faults }
    {
        if fault == FetchFault::Failed {
            self.faults = self.faults.saturating_add(1);
        }
        fault
    }
}

impl<'r, R: Files> Shelf for RealShelf<'r, R> {
    ghost told = { λ _ _. None };

    ghost faults = { λ s. s.faults };

    ghost taken = { λ s. s.taken };

    ghost asked = { λ s. texts s.asked.items };

    fn fetch(&mut self, alloc: Global, name: &str, limit: u32) -> Result<Vec<u8>, FetchFault>
        // The bytes read are at most the limit and one more, whatever the result.
        ensures at_most { self.new.taken ≤ limit + 1 }
        ensures taken { IfOk result (λ bytes. self.new.taken ≡ length bytes.items) }
        ensures too_long { IsErrOf result FetchFault.TooLong → limit < self.new.taken }
        ensures long { limit < self.new.taken → IsErrOf result FetchFault.TooLong }

        ensures failed { IsErrOf result FetchFault.Failed
            → self.new.faults ≡ one_more self.old.faults }
        ensures never_falls { self.old.faults ≤ self.new.faults }

        ensures asked { (texts self.new.asked.items ≡ texts self.old.asked.items ++ name.now ∷ [])
            ⊎ (IsErrOf result FetchFault.Memory
            × (texts self.new.asked.items ≡ texts self.old.asked.items)) }
    {
        self.taken = 0;
        note(&mut self.asked, alloc, name)?;
        let mut bytes = Vec::new(alloc);
        let read = read_named(self.runtime, name, &mut bytes, limit);
        self.taken = bytes.len() as u64;
        match read {
            Ok(()) => Ok(bytes),
            Err(fault) => Err(self.counted(fault)),
        }
    }
}

/// A sink over a writer of std, such as standard output. The bytes taken are unknown to proofs. A write that returns an error or takes no
/// byte is a fault.
#[derive(Drop)]
pub struct StdSink<W: Write + Drop> {
    writer: W,
    faults: u64,
}

impl<W: Write + Drop> StdSink<W> {
    /// Returns the sink over this writer, with no fault counted yet.
    pub fn new(inner: W) -> StdSink<W>
        ensures { ⟦<StdSink<W> as Sink>⟧.faults result ≡ 0 }
    {
        StdSink {
            writer: inner,
            faults: 0,
        }
    }
}

impl<W: Write + Drop> Sink for StdSink<W> {
    ghost took = { λ _. None };

    ghost faults = { λ s. faults_of s };

    fn write(&mut self, piece: &[u8]) -> Result<usize, SinkFault>
        requires { 0 < length piece.now }
        ensures some { IfOk result (λ count. 0 < count) }
        ensures within { IfOk result (λ count. count ≤ length piece.now) }
        ensures passed_on { IfOk result (λ count. Appends (W.contents (writer_of self.old))
            (W.contents (writer_of self.new)) (take count piece.now)) }
        ensures no_fault { OnOk result (faults_of self.new ≡ faults_of self.old) }
        ensures fault { OnErr result (faults_of self.new ≡ one_more (faults_of self.old)) }
        ensures never_falls { faults_of self.old ≤ faults_of self.new }
    {
        match self.writer.write(piece) {
            Ok(count) if count > 0 => Ok(count),
            _ => {
                self.faults = self.faults.saturating_add(1);
                Err(SinkFault)
            }
        }
    }
}
