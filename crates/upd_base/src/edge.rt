//! What the program meets outside: a source that is read and a sink that is written.
ghost use Rattle.std.specs.Prelude.{ℕ, List, Option};
ghost use Rattle.upd_base.specs.Edge.{Reads, Writes, HasCause};

/// Why a call of an edge was refused. `Failed` is told only where the edge's own count of faults rose.
#[derive(Clone, Copy, Debug, Drop, PartialEq, Eq)]
pub enum EdgeFault {
    Failed,
    NoMemory,
}

/// What is read.
pub trait Source {
    /// The bytes that are left, where it tells them.
    ghost left: { Self → Option (List ℕ) };

    /// How often it has failed.
    ghost faults: { Self → ℕ };

    /// Reads into the front of the buffer. Ok(0) into a buffer that is not empty is the end of input.
    fn read(&mut self, buf: &mut [u8]) -> Result<usize, EdgeFault>
        ensures bytes { Reads (left self.old) (left self.new) result buf.new }
        ensures cause { HasCause (faults self.old) (faults self.new) result };
}

/// What is written.
pub trait Sink {
    /// The bytes that it holds, where it tells them.
    ghost held: { Self → Option (List ℕ) };

    /// How often it has failed.
    ghost faults: { Self → ℕ };

    /// Takes bytes from the front of the piece, at least one of a piece that is not empty.
    fn write(&mut self, piece: &[u8]) -> Result<usize, EdgeFault>
        ensures bytes { Writes (held self.old) (held self.new) result piece.now }
        ensures cause { HasCause (faults self.old) (faults self.new) result };
}

/// The type of a line where there are none.
#[derive(Drop)]
pub enum NoLine {}
