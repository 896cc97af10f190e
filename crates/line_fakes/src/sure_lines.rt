//! Lines in memory without faults: they are faithful, and only want of memory can refuse a put.
ghost use Rattle.std.specs.Prelude.{◌≡◌, ◌≤◌, length, IsOk, IsErrOf};
ghost use Rattle.upd_base.specs.Edge.{HasCause};
ghost use Rattle.upd_lines.specs.Line.{Gets, Puts, IsFresh};
ghost use Rattle.line_fakes.specs.Bytes.{honest, honest_is_sound};

use crate::honest_bytes::copy_front;
use std::alloc::Global;
use upd_base::{EdgeFault, MemberId};
use upd_lines::{Line, LineMaker};

/// A faithful line in memory that never fails but for want of memory.
#[derive(Drop)]
pub struct SureLine {
    bytes: Vec<u8>,
    got: usize,
    ghost in_range: { got ≤ length bytes.items },
}

impl Line for SureLine {
    ghost told = { λ l. honest l.bytes.items l.got };

    ghost faults = { λ _. 0 };

    #[tactic(auto, using(crate::proofs::Steps::honest_put))]
    fn put(&mut self, piece: &[u8]) -> Result<usize, EdgeFault> {
        match self.bytes.extend_from_slice(piece) {
            Ok(()) => Ok(piece.len()),
            Err(_) => Err(EdgeFault::NoMemory),
        }
    }

    #[tactic(auto, using(crate::proofs::Steps::honest_get))]
    fn get(&mut self, buf: &mut [u8]) -> Result<usize, EdgeFault>
        ensures bytes { Gets (⟦<SureLine as Line>⟧.told self.old) (⟦<SureLine as Line>⟧.told self.new) result buf.new }
        ensures cause { HasCause (⟦<SureLine as Line>⟧.faults self.old) (⟦<SureLine as Line>⟧.faults self.new) result }
        ensures always { IsOk result }
    {
        let piece = buf.len().max(1);
        let count = copy_front(&self.bytes[self.got..], buf, piece);
        self.got += count;
        Ok(count)
    }

    ghost sound = { λ l. honest_is_sound l.bytes.items l.got l.in_range };
}

/// Makes faithful lines in memory that never fail.
#[derive(Drop)]
pub struct SureLines {
    alloc: Global,
}

impl SureLines {
    /// No line is made yet.
    pub fn new(alloc: Global) -> SureLines {
        SureLines { alloc }
    }
}

impl LineMaker for SureLines {
    type Line = SureLine;

    ghost faults = { λ _ _ _. 0 };

    fn make_line(&mut self, _from: MemberId, _to: MemberId) -> Result<SureLine, EdgeFault> {
        Ok(SureLine {
            bytes: Vec::new(self.alloc),
            got: 0,
        })
    }
}
