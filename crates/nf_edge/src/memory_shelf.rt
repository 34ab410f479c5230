// A shelf in memory.
ghost use Rattle.std.specs.Prelude.{◌≡◌, ◌⊎◌, ℕ, ◌+◌, ◌<◌, ◌≤◌, [], ◌∷◌, ◌++◌, length, OnOk, OnErr, MatchOption, MatchResult, Ok, Err, None, Some, IfOk, IsErrOf};
ghost use Rattle.nf_edge.specs.Faults.{one_more};
ghost use Rattle.nf_edge.specs.Memory.{told_under, found, fetched, Answers};

use crate::asked::note;
use crate::{FetchFault, Shelf};
use std::alloc::{AllocError, Global};
use std::marker::Model;

/// A file: its name and bytes.
#[derive(Drop)]
struct File {
    name: String,
    bytes: Vec<u8>,
}

impl Model for File {
    ghost use Rattle.std.specs.Prelude.{ℕ, List, string_bytes};

    ghost Value = { List ℕ × List ℕ };

    ghost view = { λ f. (string_bytes f.name, f.bytes.items) };
}

/// Files in memory, whose bytes are known to proofs. Chosen fetches fail, so that tests can fail each one.
#[derive(Drop)]
pub struct MemShelf {
    files: Vec<File>,
    failing: Vec<u64>,
    calls: u64,
    asked: Vec<String>,
    taken: u64,
    faults: u64,
}

impl Model for MemShelf {
    ghost use Rattle.nf_edge.specs.Memory.{MemoryShelf};
    ghost use Rattle.nf_edge.specs.Names.{texts};

    ghost Value = { MemoryShelf };

    ghost view = { λ s. record {
      files = s.files.items;
      failing = s.failing.items;
      calls = s.calls;
      asked = texts s.asked.items;
      taken = s.taken;
      faults = s.faults;
    } };
}

// Returns the bytes put under the name last, which come first in the list.
fn bytes_under<'a>(files: &'a [File], name: &str) -> Option<&'a [u8]>
    ensures { MatchOption result (told_under files.now name.now ≡ None)
        (λ bytes. told_under files.now name.now ≡ Some bytes.now) }
{
    for file in files {
        if file.name.as_str() == name {
            return Some(&file.bytes);
        }
    }
    None
}

// Returns what the call of this number finds under the name.
fn find<'a>(
    files: &'a [File],
    failing: &[u64],
    call: u64,
    name: &str,
    limit: u32,
) -> Result<&'a [u8], FetchFault>
    ensures { MatchResult result
        (λ bytes. found files.now failing.now call name.now limit ≡ Ok bytes.now)
        (λ fault. found files.now failing.now call name.now limit ≡ Err fault) }
{
    if failing.contains(&call) {
        return Err(FetchFault::Failed);
    }
    let bytes = bytes_under(files, name).ok_or(FetchFault::Failed)?;
    if bytes.len() > limit as usize {
        return Err(FetchFault::TooLong);
    }
    Ok(bytes)
}

impl MemShelf {
    /// Returns a shelf without files, of which no fetch is set to fail.
    pub fn new(alloc: Global) -> MemShelf
        ensures { result
            ≡ record { files = []; failing = []; calls = 0; asked = []; taken = 0; faults = 0 } }
    {
        MemShelf {
            files: Vec::new(alloc),
            failing: Vec::new(alloc),
            calls: 0,
            asked: Vec::new(alloc),
            taken: 0,
            faults: 0,
        }
    }

    /// Puts these bytes under the name, in place of those put there before. The shelf is unchanged if allocation fails.
    pub fn put(&mut self, alloc: Global, name: &str, bytes: &[u8]) -> Result<(), AllocError>
        ensures ok { OnOk result
            (self.new ≡ record self.old { files = (name.now, bytes.now) ∷ self.old.files }) }
        ensures err { OnErr result (self.new ≡ self.old) }
    {
        let file = File {
            name: name.to_owned(alloc)?,
            bytes: bytes.to_vec(alloc)?,
        };
        self.files.insert(0, file)?;
        Ok(())
    }

    /// Sets the fetch of this number, counted from 1, to fail. The shelf is unchanged if allocation fails.
    pub fn fail(&mut self, call: u32) -> Result<(), AllocError>
        ensures ok { OnOk result
            (self.new ≡ record self.old { failing = self.old.failing ++ call ∷ [] }) }
        ensures err { OnErr result (self.new ≡ self.old) }
    {
        self.failing.push(u64::from(call))?;
        Ok(())
    }
}

impl Shelf for MemShelf {
    ghost told = { λ s. told_under s.files };

    ghost faults = { λ s. s.faults };

    ghost taken = { λ s. s.taken };

    ghost asked = { λ s. s.asked };

    fn fetch(&mut self, alloc: Global, name: &str, limit: u32) -> Result<Vec<u8>, FetchFault>
        ensures answer { Answers result (fetched self.old name.now limit) }
        ensures files { self.new.files ≡ self.old.files }
        ensures failing { self.new.failing ≡ self.old.failing }
        ensures calls { self.new.calls ≡ one_more self.old.calls }

        ensures taken { IfOk result (λ bytes. self.new.taken ≡ length bytes.items) }
        ensures too_long { IsErrOf result FetchFault.TooLong → self.new.taken ≡ limit + 1 }
        ensures long { limit < self.new.taken → IsErrOf result FetchFault.TooLong }

        ensures failed { IsErrOf result FetchFault.Failed
            → self.new.faults ≡ one_more self.old.faults }
        ensures other { ¬ (IsErrOf result FetchFault.Failed) → self.new.faults ≡ self.old.faults }
        ensures never_falls { self.old.faults ≤ self.new.faults }

        ensures asked { (self.new.asked ≡ self.old.asked ++ name.now ∷ [])
            ⊎ (IsErrOf result FetchFault.Memory × (self.new.asked ≡ self.old.asked)) }
    {
        self.calls = self.calls.saturating_add(1);
        self.taken = 0;
        note(&mut self.asked, alloc, name)?;
        match find(&self.files, &self.failing, self.calls, name, limit) {
            Ok(bytes) => {
                self.taken = bytes.len() as u64;
                Ok(bytes.to_vec(alloc)?)
            }
            Err(FetchFault::TooLong) => {
                self.taken = u64::from(limit) + 1;
                Err(FetchFault::TooLong)
            }
            Err(fault) => {
                self.faults = self.faults.saturating_add(1);
                Err(fault)
            }
        }
    }
}
