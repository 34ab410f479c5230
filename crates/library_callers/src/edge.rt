// A caller of nf_edge.
ghost use Rattle.std.specs.Prelude.{◌≡◌, IfSome, OnOk};
ghost use Rattle.nf_edge.specs.Taken.{with_more};

use nf_edge::{FetchFault, Shelf, Sink, SinkFault, write_text};
use std::alloc::Global;

/// Why a file isn't copied.
#[derive(Clone, Copy)]
pub enum CopyFault {
    /// The file can't be read.
    Fetch(FetchFault),
    /// The sink took only a proper prefix of the file.
    Write(SinkFault),
}

/// Copies a file of at most `limit` bytes from a shelf to a sink. If the file's bytes are known to proofs, the sink has taken them all.
pub fn copy_file<S: Shelf, O: Sink>(
    alloc: Global,
    shelf: &mut S,
    name: &str,
    limit: u32,
    out: &mut O,
) -> Result<(), CopyFault>
    ensures { OnOk result (IfSome (S.told shelf.old name.now)
        (λ held. O.took out.new ≡ with_more (O.took out.old) held)) }
{
    let bytes = match shelf.fetch(alloc, name, limit) {
        Ok(bytes) => bytes,
        Err(fault) => return Err(CopyFault::Fetch(fault)),
    };
    match write_text(out, &bytes) {
        Ok(()) => Ok(()),
        Err(fault) => Err(CopyFault::Write(fault)),
    }
}
