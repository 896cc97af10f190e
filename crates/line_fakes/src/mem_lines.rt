//! The maker of faithful lines from one list of planned faults: each line gets those of its own link.
ghost use Rattle.std.specs.Prelude.{ℕ, ◌≡◌, ◌+◌, ◌*◌, ◌≤◌, ◌<◌, ◌↔◌, IfOk, IsTrue, IsErrOf};
ghost use Rattle.upd_base.specs.Edge.{HasCause};
ghost use Rattle.upd_lines.specs.Line.{IsFresh};
ghost use Rattle.line_fakes.specs.Fails.{is_for, is_listed, listed_for, next_number};

use crate::line_fail::{LineFail, Way, is_for};
use crate::mem_line::MemLine;
use std::alloc::{AllocError, Global};
use upd_base::{EdgeFault, MemberId};
use upd_lines::{Line, LineMaker};

/// Makes faithful lines in memory that take or give at most `piece` bytes in a call. The calls that are listed fail.
#[derive(Drop)]
pub struct MemLines {
    alloc: Global,
    piece: usize,
    fails: Vec<LineFail>,
    made: [u64; 49],
    faults: [u64; 49],
    ghost some: { 0 < piece },
}

/// The place of a pair of members in a table.
fn pair(from: MemberId, to: MemberId) -> usize
    ensures place { result ≡ from * 7 + to }
    ensures range { result < 49 }
{
    usize::from(from.get()) * 7 + usize::from(to.get())
}

/// Whether the making of this number is listed.
fn is_listed(fails: &[LineFail], from: MemberId, to: MemberId, nth: u64) -> bool
    ensures { result ≡ is_listed Way.Make from to nth fails.now }
{
    fails.iter().any(|fail| is_for(fail, Way::Make, from, to) && fail.nth == nth)
}

/// The numbers of the calls of this way that fail.
fn listed_for(
    alloc: Global,
    fails: &[LineFail],
    way: Way,
    from: MemberId,
    to: MemberId,
) -> Result<Vec<u64>, AllocError>
    ensures { IfOk result (λ numbers. numbers.items ≡ listed_for way from to fails.now) }
{
    fails
        .iter()
        .filter(|fail| is_for(fail, way, from, to))
        .map(|fail| fail.nth)
        .collect(alloc)
}

impl MemLines {
    ghost use Rattle.line_fakes.specs.Seen.{line_fails, makings, pieces, piece_of, put_fails, get_fails};

    /// No line is made yet.
    pub fn new(alloc: Global, piece: usize, fails: Vec<LineFail>) -> MemLines
        requires { 0 < piece }
        ensures listed { line_fails result ≡ fails.items }
        ensures none { (i j : ℕ) → makings result i j ≡ 0 }
        ensures pieces { pieces result ≡ piece }
        ensures faultless { (i j : ℕ) → ⟦<MemLines as LineMaker>⟧.faults result i j ≡ 0 }
    {
        MemLines {
            alloc,
            piece,
            fails,
            made: [0; 49],
            faults: [0; 49],
        }
    }

    fn line(&self, from: MemberId, to: MemberId) -> Result<MemLine, AllocError>
        ensures fresh { IfOk result (λ line. IsFresh (⟦<MemLine as Line>⟧.told line)) }
        ensures faultless { IfOk result (λ line. ⟦<MemLine as Line>⟧.faults line ≡ 0) }
        ensures puts_listed { IfOk result (λ line. put_fails line ≡ listed_for Way.Put from to (line_fails self.now)) }
        ensures gets_listed { IfOk result (λ line. get_fails line ≡ listed_for Way.Get from to (line_fails self.now)) }
        ensures piece { IfOk result (λ line. piece_of line ≡ pieces self.now) }
    {
        let puts = listed_for(self.alloc, self.fails.as_slice(), Way::Put, from, to)?;
        let gets = listed_for(self.alloc, self.fails.as_slice(), Way::Get, from, to)?;
        Ok(MemLine::new(self.alloc, self.piece, puts, gets))
    }
}

impl LineMaker for MemLines {
    ghost use Rattle.std.specs.Prelude.{slice_index};
    ghost use Rattle.line_fakes.specs.Seen.{pair, line_fails, makings, pieces, piece_of, put_fails, get_fails};

    type Line = MemLine;

    ghost faults = { λ m from to. slice_index m.faults (pair from to) };

    fn make_line(&mut self, from: MemberId, to: MemberId) -> Result<MemLine, EdgeFault>
        ensures fresh { IfOk result (λ line. IsFresh (⟦<MemLine as Line>⟧.told line)) }
        ensures faultless { IfOk result (λ line. ⟦<MemLine as Line>⟧.faults line ≡ 0) }
        ensures cause { HasCause (⟦<MemLines as LineMaker>⟧.faults self.old from to) (⟦<MemLines as LineMaker>⟧.faults self.new from to) result }
        ensures later { (i j : ℕ) → ⟦<MemLines as LineMaker>⟧.faults self.old i j ≤ ⟦<MemLines as LineMaker>⟧.faults self.new i j }
        ensures listed { IsErrOf result EdgeFault.Failed ↔ IsTrue (is_listed Way.Make from to (next_number (makings self.old from to)) (line_fails self.old)) }
        ensures counted { makings self.new from to ≡ next_number (makings self.old from to) }
        ensures list { line_fails self.new ≡ line_fails self.old }
        ensures puts_listed { IfOk result (λ line. put_fails line ≡ listed_for Way.Put from to (line_fails self.old)) }
        ensures gets_listed { IfOk result (λ line. get_fails line ≡ listed_for Way.Get from to (line_fails self.old)) }
        ensures piece { IfOk result (λ line. piece_of line ≡ pieces self.old) }
        ensures same_pieces { pieces self.new ≡ pieces self.old }
    {
        let place = pair(from, to);
        let nth = self.made[place].saturating_add(1);
        self.made[place] = nth;
        if is_listed(self.fails.as_slice(), from, to, nth) {
            self.faults[place] = self.faults[place].saturating_add(1);
            return Err(EdgeFault::Failed);
        }
        match self.line(from, to) {
            Ok(line) => Ok(line),
            Err(_) => Err(EdgeFault::NoMemory),
        }
    }
}
