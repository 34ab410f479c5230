// Bytes gathered on a page before they are written.
ghost use Rattle.std.specs.Prelude.{◌≡◌, [], ◌∷◌, ◌++◌, OnOk, OnErr};
ghost use Rattle.nf_edge.specs.Writing.{state_of, Wrote};
ghost use Rattle.nf_report_pages.specs.Pages.{Gathered};

use arrayvec::{ArrayVec, CapacityError};
use nf_edge::{Sink, SinkFault, write_text};
use std::marker::Model;

/// A buffer of at most 4096 bytes that wait to be written together. Proofs see it as the list of its bytes.
#[derive(Drop)]
pub struct Page {
    bytes: ArrayVec<u8, 4096>,
}

impl Model for Page {
    ghost use Rattle.std.specs.Prelude.{ℕ, List};

    ghost Value = { List ℕ };

    ghost view = { λ page. page.bytes.items };
}

impl Page {
    /// Returns an empty page.
    pub fn new() -> Page
        ensures { result ≡ [] }
    {
        Page {
            bytes: ArrayVec::new(),
        }
    }

    /// Returns the bytes on the page.
    pub fn as_slice(&self) -> &[u8]
        ensures value { result.now ≡ self.now }
    {
        self.bytes.as_slice()
    }

    // Appends the bytes, or leaves the page unchanged if they don't fit.
    fn append(&mut self, bytes: &[u8]) -> Result<(), CapacityError>
        ensures ok { OnOk result (self.new ≡ self.old ++ bytes.now) }
        ensures err { OnErr result (self.new ≡ self.old) }
    {
        self.bytes.try_extend_from_slice(bytes)
    }

    // Appends a byte, or leaves the page unchanged if it is full.
    fn append_byte(&mut self, byte: u8) -> Result<(), CapacityError<u8>>
        ensures ok { OnOk result (self.new ≡ self.old ++ byte ∷ []) }
        ensures err { OnErr result (self.new ≡ self.old) }
    {
        self.bytes.try_push(byte)
    }

    // Removes all bytes.
    fn clear(&mut self)
        ensures { self.new ≡ [] }
    {
        self.bytes.clear();
    }
}

// Writes the page and empties it.
fn write_page<O: Sink>(out: &mut O, page: &mut Page) -> Result<(), SinkFault>
    ensures wrote { Wrote (state_of O.Sink out.old) (state_of O.Sink out.new) page.old result }
    ensures empty { page.new ≡ [] }
{
    let wrote = write_text(out, page.as_slice());
    page.clear();
    wrote
}

// Writes the page, and then puts bytes on it for which it had no room.
fn put_on_next<O: Sink>(out: &mut O, page: &mut Page, bytes: &[u8]) -> Result<(), SinkFault>
    ensures { Gathered (state_of O.Sink out.old)
        (state_of O.Sink out.new) page.old page.new bytes.now result }
{
    write_page(out, page)?;
    match page.append(bytes) {
        Ok(()) => Ok(()),
        Err(_) => write_text(out, bytes),
    }
}

/// Puts bytes on the page. Writes the page first if they don't fit.
pub(crate) fn put<O: Sink>(out: &mut O, page: &mut Page, bytes: &[u8]) -> Result<(), SinkFault>
    ensures { Gathered (state_of O.Sink out.old)
        (state_of O.Sink out.new) page.old page.new bytes.now result }
{
    match page.append(bytes) {
        Ok(()) => Ok(()),
        Err(_) => put_on_next(out, page, bytes),
    }
}

/// Puts a byte on the page, as `put` does. For speed: a byte takes no copying of a slice.
pub(crate) fn put_byte<O: Sink>(out: &mut O, page: &mut Page, byte: u8) -> Result<(), SinkFault>
    ensures { Gathered (state_of O.Sink out.old) (state_of O.Sink out.new) page.old page.new
        (byte ∷ []) result }
{
    match page.append_byte(byte) {
        Ok(()) => Ok(()),
        Err(_) => put_on_next(out, page, &[byte]),
    }
}
