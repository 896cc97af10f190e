//! The source of tests in which reading is not what fails: it fills the room while bytes are left.
ghost use Rattle.std.specs.Prelude.{◌≡◌, ◌<◌, ◌≤◌, [], Some, drop, vec_len, IsOk};
ghost use Rattle.upd_base.specs.Edge.{Reads, HasCause};

use crate::piece::copy_front;
use upd_base::{EdgeFault, Source};

/// A source of these bytes that never fails.
#[derive(Drop)]
pub struct SureSource {
    bytes: Vec<u8>,
    place: usize,
    ghost in_range: { place ≤ vec_len bytes },
}

impl SureSource {
    /// Nothing of the bytes is read yet.
    pub fn new(bytes: Vec<u8>) -> SureSource
        ensures { ⟦<SureSource as Source>⟧.left result ≡ Some bytes.items }
    {
        SureSource { bytes, place: 0 }
    }
}

impl Source for SureSource {
    ghost use Rattle.std.specs.Prelude.{Some, drop};

    ghost left = { λ s. Some (drop s.place s.bytes.items) };

    ghost faults = { λ _. 0 };

    fn read(&mut self, buf: &mut [u8]) -> Result<usize, EdgeFault>
        ensures bytes { Reads (⟦<SureSource as Source>⟧.left self.old) (⟦<SureSource as Source>⟧.left self.new) result buf.new }
        ensures cause { HasCause (⟦<SureSource as Source>⟧.faults self.old) (⟦<SureSource as Source>⟧.faults self.new) result }
        ensures always { IsOk result }
    {
        let piece = buf.len().max(1);
        let count = copy_front(&self.bytes[self.place..], buf, piece);
        self.place += count;
        Ok(count)
    }
}
