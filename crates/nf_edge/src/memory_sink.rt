// A sink in memory.
ghost use Rattle.std.specs.Prelude.{◌≡◌, ℕ, ◌<◌, ◌≤◌, [], ◌∷◌, ◌++◌, length, take, Some, IfOk, OnOk, OnErr};
ghost use Rattle.nf_edge.specs.Faults.{one_more};
ghost use Rattle.nf_edge.specs.Taken.{with_more};
ghost use Rattle.nf_edge.specs.Memory.{next_count, after_write};

use crate::{Sink, SinkFault};
use std::alloc::{AllocError, Global};
use std::marker::Model;

/// A sink in memory, whose bytes are known to proofs. It takes bytes up to a fixed room, and chosen writes fail.
#[derive(Drop)]
pub struct MemSink {
    bytes: Vec<u8>,
    room: u32,
    most: u32,
    failing: Vec<u64>,
    calls: u64,
    faults: u64,
}

impl Model for MemSink {
    ghost use Rattle.std.specs.Prelude.{◌<◌, ◌≤◌, vec_capacity};
    ghost use Rattle.nf_edge.specs.Memory.{MemorySink};

    ghost Value = { MemorySink };

    ghost view = { λ s. record {
      bytes = s.bytes.items;
      room = s.room;
      most = s.most;
      failing = s.failing.items;
      calls = s.calls;
      faults = s.faults;
    } };

    ghost invariant = { λ s. (0 < s.most) × (s.room ≤ vec_capacity s.bytes) };
}

impl MemSink {
    /// Returns an empty sink that takes `room` bytes in all, and at most `most` bytes, at least 1, in one write.
    ///
    /// Reserves the room, and returns an error if that allocation fails. Later writes allocate nothing.
    pub fn new(alloc: Global, room: u32, most: u32) -> Result<MemSink, AllocError>
        requires { 0 < most }
        ensures { IfOk result (λ s. s ≡ record {
          bytes = [];
          room = room;
          most = most;
          failing = [];
          calls = 0;
          faults = 0;
        }) }
    {
        Ok(MemSink {
            bytes: Vec::with_capacity(alloc, room as usize)?,
            room,
            most,
            failing: Vec::new(alloc),
            calls: 0,
            faults: 0,
        })
    }

    /// Sets the write of this number, counted from 1, to fail. The sink is unchanged if allocation fails.
    pub fn fail(&mut self, call: u32) -> Result<(), AllocError>
        ensures ok { OnOk result
            (self.new ≡ record self.old { failing = self.old.failing ++ call ∷ [] }) }
        ensures err { OnErr result (self.new ≡ self.old) }
    {
        self.failing.push(u64::from(call))?;
        Ok(())
    }

    /// Returns the bytes taken so far.
    pub fn bytes(&self) -> &[u8]
        ensures { result.now ≡ self.now.bytes }
    {
        &self.bytes
    }
}

impl Sink for MemSink {
    ghost took = { λ s. Some s.bytes };

    ghost faults = { λ s. s.faults };

    fn write(&mut self, piece: &[u8]) -> Result<usize, SinkFault>
        requires { 0 < length piece.now }
        ensures some { IfOk result (λ count. 0 < count) }
        ensures count { IfOk result (λ count. count ≡ next_count self.old piece.now) }
        ensures ok { IfOk result (λ count. self.new ≡ after_write self.old (take count piece.now)) }
        ensures fault { OnErr result (next_count self.old piece.now ≡ 0) }
        ensures err { OnErr result (self.new ≡
            record self.old
            { calls = one_more self.old.calls; faults = one_more self.old.faults }) }
        ensures never_falls { self.old.faults ≤ self.new.faults }
    {
        self.calls = self.calls.saturating_add(1);
        let left = (self.room as usize).saturating_sub(self.bytes.len());
        let count = piece.len().min(self.most as usize).min(left);
        if count == 0 || self.failing.contains(&self.calls) {
            self.faults = self.faults.saturating_add(1);
            return Err(SinkFault);
        }
        self.bytes.extend_from_slice(&piece[..count]).unwrap();
        Ok(count)
    }
}
