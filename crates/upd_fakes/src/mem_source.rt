//! A source with fault injection: short reads of known bytes, and failures at listed reads.
ghost use Rattle.std.specs.Prelude.{◌≡◌, ◌+◌, ◌<◌, ◌≤◌, ◌↔◌, ◌^◌, ◌-◌, min, ℕ, [], take, drop, length, Some, IfOk, IsErrOf, Contains, vec_len};
ghost use Rattle.upd_base.specs.Edge.{Reads, HasCause};
ghost use Rattle.upd_fakes.specs.Mem.{FailsAsListed};

use crate::piece::copy_front;
use upd_base::{EdgeFault, Source};

/// A source of these bytes, at most `piece` in a read. The reads whose numbers are listed, from 1, fail.
#[derive(Drop)]
pub struct MemSource {
    bytes: Vec<u8>,
    place: usize,
    piece: usize,
    fails: Vec<u64>,
    reads: u64,
    faults: u64,
    ghost in_range: { place ≤ vec_len bytes },
    ghost some: { 0 < piece },
}

impl MemSource {
    ghost use Rattle.upd_fakes.specs.Calls.{source_fails, source_piece, source_reads};

    /// Nothing of the bytes is read yet.
    pub fn new(bytes: Vec<u8>, piece: usize, fails: Vec<u64>) -> MemSource
        requires { 0 < piece }
        ensures left { ⟦<MemSource as Source>⟧.left result ≡ Some bytes.items }
        ensures listed { source_fails result ≡ fails.items }
        ensures none { source_reads result ≡ 0 }
        ensures piece { source_piece result ≡ piece }
    {
        MemSource {
            bytes,
            place: 0,
            piece,
            fails,
            reads: 0,
            faults: 0,
        }
    }
}

impl Source for MemSource {
    ghost use Rattle.upd_fakes.specs.Calls.{source_fails, source_piece, source_reads};
    ghost use Rattle.std.specs.Prelude.{Some, drop};

    ghost left = { λ s. Some (drop s.place s.bytes.items) };

    ghost faults = { λ s. s.faults };

    fn read(&mut self, buf: &mut [u8]) -> Result<usize, EdgeFault>
        ensures bytes { Reads (⟦<MemSource as Source>⟧.left self.old) (⟦<MemSource as Source>⟧.left self.new) result buf.new }
        ensures cause { HasCause (⟦<MemSource as Source>⟧.faults self.old) (⟦<MemSource as Source>⟧.faults self.new) result }
        ensures listed { FailsAsListed (source_fails self.old) (source_reads self.old) result }
        ensures counted { source_reads self.new ≡ min (source_reads self.old + 1) (2 ^ 64 - 1) }
        ensures list { source_fails self.new ≡ source_fails self.old }
        ensures piece { IfOk result (λ count. count ≤ source_piece self.old) }
        ensures same_piece { source_piece self.new ≡ source_piece self.old }
        ensures memory { IsErrOf result EdgeFault.NoMemory → ⊥ }
    {
        self.reads = self.reads.saturating_add(1);
        if self.fails.contains(&self.reads) {
            self.faults = self.faults.saturating_add(1);
            return Err(EdgeFault::Failed);
        }
        let count = copy_front(&self.bytes[self.place..], buf, self.piece);
        self.place += count;
        Ok(count)
    }
}
