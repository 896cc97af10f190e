//! Lines of which one can't be made and two lie.
ghost use Rattle.std.specs.Prelude.{◌≡◌, ◌≤◌, ℕ, IfOk};
ghost use Rattle.upd_base.specs.Edge.{HasCause};
ghost use Rattle.upd_lines.specs.Line.{IsFresh};

use line_fakes::{LieLine, LieLines};
use std::alloc::Global;
use upd_base::{EdgeFault, MemberId};
use upd_lines::{Line, LineMaker};

/// Makes no line from member 0 to member 1. The lines between members 0 and 2 give their first byte with its lowest bit turned.
#[derive(Drop)]
pub struct TwoLies {
    there: LieLines,
    back: LieLines,
    faults: u64,
}

impl TwoLies {
    /// No line is made yet.
    pub fn new(alloc: Global, zero: MemberId, two: MemberId) -> TwoLies {
        TwoLies {
            there: LieLines::new(alloc, zero, two, 0),
            back: LieLines::new(alloc, two, zero, 0),
            faults: 0,
        }
    }
}

impl LineMaker for TwoLies {
    type Line = LieLine;

    ghost faults = { λ m _ _. m.faults };

    fn make_line(&mut self, from: MemberId, to: MemberId) -> Result<LieLine, EdgeFault> {
        match (from.get(), to.get()) {
            (0, 1) => {
                self.faults = self.faults.saturating_add(1);
                Err(EdgeFault::Failed)
            }
            (2, 0) => self.back.make_line(from, to),
            _ => self.there.make_line(from, to),
        }
    }
}
