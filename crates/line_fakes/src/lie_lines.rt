//! Corrupted bytes, for tests: of the lines that are made, that of one link gives one byte with a bit turned.
ghost use Rattle.std.specs.Prelude.{ℕ, ◌≡◌, ◌≤◌, ◌<◌, ◌&&◌, ◌==◌, if◌then◌else◌, length, IfOk, IsOk, Option, Some, None};
ghost use Rattle.upd_base.specs.Edge.{HasCause};
ghost use Rattle.upd_lines.specs.Line.{Gets, Puts, IsFresh};
ghost use Rattle.line_fakes.specs.Bytes.{turned, with_turned, lied, lying, lying_is_sound, GivesLie};

use crate::honest_bytes::copy_front;
use std::alloc::Global;
use upd_base::{EdgeFault, MemberId};
use upd_lines::{Line, LineMaker};

/// A line in memory that tells its bytes and is not faithful. Where it has a place to lie, it gives the byte there,
/// counted from 0, with the lowest bit turned.
#[derive(Drop)]
pub struct LieLine {
    /// The bytes that it gives, the lie among them.
    given: Vec<u8>,
    got: usize,
    lie: Option<usize>,
    ghost in_range: { got ≤ length given.items },
}

fn turned(byte: u8) -> u8
    ensures { result ≡ turned byte }
{
    if byte % 2 == 0 { byte + 1 } else { byte - 1 }
}

fn turn_at(bytes: &mut [u8], at: usize)
    requires { at < length bytes.old }
    ensures { bytes.new ≡ with_turned at bytes.old }
{
    bytes[at] = turned(bytes[at]);
}

/// Turns the byte of the lie where it stands at this place or behind it.
fn lie_behind(given: &mut [u8], lie: Option<usize>, place: usize)
    ensures { given.new ≡ lied lie place given.old }
{
    if let Some(at) = lie {
        if place <= at && at < given.len() {
            turn_at(given, at);
        }
    }
}

impl Line for LieLine {
    ghost use Rattle.line_fakes.specs.Seen.{lie_of};

    ghost told = { λ l. lying l.lie l.given.items l.got };

    ghost faults = { λ _. 0 };

    fn put(&mut self, piece: &[u8]) -> Result<usize, EdgeFault>
        ensures bytes { Puts (⟦<LieLine as Line>⟧.told self.old) (⟦<LieLine as Line>⟧.told self.new) result piece.now }
        ensures cause { HasCause (⟦<LieLine as Line>⟧.faults self.old) (⟦<LieLine as Line>⟧.faults self.new) result }
        ensures lie { lie_of self.new ≡ lie_of self.old }
    {
        let place = self.given.len();
        match self.given.extend_from_slice(piece) {
            Ok(()) => {
                lie_behind(self.given.as_mut_slice(), self.lie, place);
                Ok(piece.len())
            }
            Err(_) => Err(EdgeFault::NoMemory),
        }
    }

    fn get(&mut self, buf: &mut [u8]) -> Result<usize, EdgeFault>
        ensures bytes { Gets (⟦<LieLine as Line>⟧.told self.old) (⟦<LieLine as Line>⟧.told self.new) result buf.new }
        ensures cause { HasCause (⟦<LieLine as Line>⟧.faults self.old) (⟦<LieLine as Line>⟧.faults self.new) result }
        ensures always { IsOk result }
        ensures lie { lie_of self.new ≡ lie_of self.old }
        ensures gives { GivesLie (lie_of self.new) (⟦<LieLine as Line>⟧.told self.new) }
    {
        let piece = buf.len().max(1);
        let count = copy_front(&self.given[self.got..], buf, piece);
        self.got += count;
        Ok(count)
    }

    ghost sound = { λ l. lying_is_sound l.lie l.given.items l.got l.in_range };
}

/// Makes lines in memory that tell their bytes and are not faithful; the line from one member to another lies at one
/// byte.
#[derive(Drop)]
pub struct LieLines {
    alloc: Global,
    from: MemberId,
    to: MemberId,
    at: usize,
}

impl LieLines {
    ghost use Rattle.line_fakes.specs.Seen.{lies_at};

    /// The line of this pair gives its byte of this number, from 0, with the lowest bit turned.
    pub fn new(alloc: Global, from: MemberId, to: MemberId, at: u64) -> LieLines
        ensures { (i j : ℕ) → lies_at result i j ≡ (if (from == i) && (to == j) then Some at else None) }
    {
        LieLines {
            alloc,
            from,
            to,
            at: at as usize,
        }
    }
}

impl LineMaker for LieLines {
    ghost use Rattle.line_fakes.specs.Seen.{lie_of, lies_at};

    type Line = LieLine;

    ghost faults = { λ _ _ _. 0 };

    fn make_line(&mut self, from: MemberId, to: MemberId) -> Result<LieLine, EdgeFault>
        ensures fresh { IfOk result (λ line. IsFresh (⟦<LieLine as Line>⟧.told line)) }
        ensures faultless { IfOk result (λ line. ⟦<LieLine as Line>⟧.faults line ≡ 0) }
        ensures cause { HasCause (⟦<LieLines as LineMaker>⟧.faults self.old from to) (⟦<LieLines as LineMaker>⟧.faults self.new from to) result }
        ensures later { (i j : ℕ) → ⟦<LieLines as LineMaker>⟧.faults self.old i j ≤ ⟦<LieLines as LineMaker>⟧.faults self.new i j }
        ensures always { IsOk result }
        ensures lie { IfOk result (λ line. lie_of line ≡ lies_at self.old from to) }
        ensures lies { (i j : ℕ) → lies_at self.new i j ≡ lies_at self.old i j }
    {
        let lies = self.from.get() == from.get() && self.to.get() == to.get();
        Ok(LieLine {
            given: Vec::new(self.alloc),
            got: 0,
            lie: if lies { Some(self.at) } else { None },
        })
    }
}
