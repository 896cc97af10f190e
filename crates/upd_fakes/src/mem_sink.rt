//! A sink with fault injection: short writes, failures at listed writes, and what was written kept for comparison.
ghost use Rattle.std.specs.Prelude.{◌≡◌, ◌<◌, ◌≤◌, ◌+◌, ◌^◌, ◌-◌, [], min, Some, IfOk};
ghost use Rattle.upd_base.specs.Edge.{Writes, HasCause};
ghost use Rattle.upd_fakes.specs.Mem.{FailsAsListed};

use std::alloc::Global;
use upd_base::{EdgeFault, Sink};

/// A sink that keeps what it takes, at most `piece` bytes in a write. The writes whose numbers are listed,
/// from 1, fail.
#[derive(Drop)]
pub struct MemSink {
    bytes: Vec<u8>,
    piece: usize,
    fails: Vec<u64>,
    writes: u64,
    faults: u64,
    ghost some: { 0 < piece },
}

impl MemSink {
    ghost use Rattle.upd_fakes.specs.Calls.{sink_fails, sink_piece, sink_writes};

    /// It holds nothing yet.
    pub fn new(alloc: Global, piece: usize, fails: Vec<u64>) -> MemSink
        requires { 0 < piece }
        ensures held { ⟦<MemSink as Sink>⟧.held result ≡ Some [] }
        ensures listed { sink_fails result ≡ fails.items }
        ensures none { sink_writes result ≡ 0 }
        ensures piece { sink_piece result ≡ piece }
    {
        MemSink {
            bytes: Vec::new(alloc),
            piece,
            fails,
            writes: 0,
            faults: 0,
        }
    }

    /// What it holds.
    pub fn bytes(&self) -> &[u8]
        ensures { ⟦<MemSink as Sink>⟧.held self.now ≡ Some result.now }
    {
        self.bytes.as_slice()
    }
}

impl Sink for MemSink {
    ghost use Rattle.std.specs.Prelude.{Some};
    ghost use Rattle.upd_fakes.specs.Calls.{sink_fails, sink_piece, sink_writes};

    ghost held = { λ s. Some s.bytes.items };

    ghost faults = { λ s. s.faults };

    fn write(&mut self, piece: &[u8]) -> Result<usize, EdgeFault>
        ensures bytes { Writes (⟦<MemSink as Sink>⟧.held self.old) (⟦<MemSink as Sink>⟧.held self.new) result piece.now }
        ensures cause { HasCause (⟦<MemSink as Sink>⟧.faults self.old) (⟦<MemSink as Sink>⟧.faults self.new) result }
        ensures listed { FailsAsListed (sink_fails self.old) (sink_writes self.old) result }
        ensures counted { sink_writes self.new ≡ min (sink_writes self.old + 1) (2 ^ 64 - 1) }
        ensures list { sink_fails self.new ≡ sink_fails self.old }
        ensures piece { IfOk result (λ count. count ≤ sink_piece self.old) }
        ensures same_piece { sink_piece self.new ≡ sink_piece self.old }
    {
        self.writes = self.writes.saturating_add(1);
        if self.fails.contains(&self.writes) {
            self.faults = self.faults.saturating_add(1);
            return Err(EdgeFault::Failed);
        }
        let count = piece.len().min(self.piece);
        match self.bytes.extend_from_slice(&piece[..count]) {
            Ok(()) => Ok(count),
            Err(_) => Err(EdgeFault::NoMemory),
        }
    }
}
