//! What carries bytes from one member to another, and what makes such lines.
ghost use Rattle.std.specs.Prelude.{ℕ, ◌≡◌, ◌≤◌, IfOk};
ghost use Rattle.upd_base.specs.Edge.{HasCause};
ghost use Rattle.upd_lines.specs.Line.{Told, Puts, Gets, IsSound, IsFresh};

use upd_base::{EdgeFault, MemberId};

/// A line from one member to another: bytes that are put are got, the first ones first. Whether it tells its bytes,
/// and whether it is faithful, never changes.
pub trait Line: Drop + Send {
    /// What it tells of its bytes.
    ghost told: { Self → Told };

    /// How often it has failed.
    ghost faults: { Self → ℕ };

    /// Puts bytes from the front of the piece, at least one of a piece that is not empty.
    fn put(&mut self, piece: &[u8]) -> Result<usize, EdgeFault>
        ensures bytes { Puts (told self.old) (told self.new) result piece.now }
        ensures cause { HasCause (faults self.old) (faults self.new) result };

    /// Gets bytes into the front of the buffer. Ok(0) into a buffer that is not empty says that all that was put was
    /// got.
    fn get(&mut self, buf: &mut [u8]) -> Result<usize, EdgeFault>
        ensures bytes { Gets (told self.old) (told self.new) result buf.new }
        ensures cause { HasCause (faults self.old) (faults self.new) result };

    /// What holds of every line.
    ghost sound: { (line : Self) → IsSound (told line) };
}

/// What makes the lines of a group.
pub trait LineMaker {
    /// The lines that it makes.
    type Line: Line;

    /// How often it has failed to make a line from one member to another.
    ghost faults: { Self → ℕ → ℕ → ℕ };

    /// A new line from one member to another. `Failed` is told only where the count of this pair rose; no count falls.
    fn make_line(&mut self, from: MemberId, to: MemberId) -> Result<Self::Line, EdgeFault>
        ensures fresh { IfOk result (λ line. IsFresh (Self.Line.told line)) }
        ensures faultless { IfOk result (λ line. Self.Line.faults line ≡ 0) }
        ensures cause { HasCause (faults self.old from to) (faults self.new from to) result }
        ensures later { (i j : ℕ) → faults self.old i j ≤ faults self.new i j };
}
