//! A faithful line whose puts and gets fail where a list says, and which moves only so many bytes in a call.
ghost use Rattle.std.specs.Prelude.{◌≡◌, ◌≤◌, ◌<◌, [], length, IfOk, IsErrOf};
ghost use Rattle.upd_base.specs.Edge.{HasCause};
ghost use Rattle.upd_lines.specs.Line.{Gets, Puts};
ghost use Rattle.line_fakes.specs.Bytes.{honest, honest_is_sound};
ghost use Rattle.line_fakes.specs.Fails.{FailsAsListed, next_number};

use crate::honest_bytes::copy_front;
use std::alloc::Global;
use upd_base::EdgeFault;
use upd_lines::Line;

/// A faithful line in memory that takes or gives at most `piece` bytes in a call. The puts and gets whose numbers are
/// listed, from 1, fail.
#[derive(Drop)]
pub struct MemLine {
    bytes: Vec<u8>,
    got: usize,
    piece: usize,
    put_fails: Vec<u64>,
    puts: u64,
    get_fails: Vec<u64>,
    gets: u64,
    faults: u64,
    ghost in_range: { got ≤ length bytes.items },
    ghost some: { 0 < piece },
}

impl MemLine {
    ghost use Rattle.line_fakes.specs.Seen.{put_fails, puts, get_fails, gets, piece_of};

    pub(crate) fn new(
        alloc: Global,
        piece: usize,
        failing_puts: Vec<u64>,
        failing_gets: Vec<u64>,
    ) -> MemLine
        requires { 0 < piece }
        ensures told { ⟦<MemLine as Line>⟧.told result ≡ honest [] 0 }
        ensures faults { ⟦<MemLine as Line>⟧.faults result ≡ 0 }
        ensures put_list { put_fails result ≡ failing_puts.items }
        ensures get_list { get_fails result ≡ failing_gets.items }
        ensures no_puts { puts result ≡ 0 }
        ensures no_gets { gets result ≡ 0 }
        ensures piece { piece_of result ≡ piece }
    {
        MemLine {
            bytes: Vec::new(alloc),
            got: 0,
            piece,
            put_fails: failing_puts,
            puts: 0,
            get_fails: failing_gets,
            gets: 0,
            faults: 0,
        }
    }
}

impl Line for MemLine {
    ghost use Rattle.line_fakes.specs.Seen.{put_fails, puts, get_fails, gets, piece_of};

    ghost told = { λ l. honest l.bytes.items l.got };

    ghost faults = { λ l. l.faults };

    #[tactic(auto, using(crate::proofs::Steps::honest_put))]
    fn put(&mut self, piece: &[u8]) -> Result<usize, EdgeFault>
        ensures bytes { Puts (⟦<MemLine as Line>⟧.told self.old) (⟦<MemLine as Line>⟧.told self.new) result piece.now }
        ensures cause { HasCause (⟦<MemLine as Line>⟧.faults self.old) (⟦<MemLine as Line>⟧.faults self.new) result }
        ensures listed { FailsAsListed (put_fails self.old) (puts self.old) result }
        ensures counted { puts self.new ≡ next_number (puts self.old) }
        ensures list { put_fails self.new ≡ put_fails self.old }
        ensures piece { IfOk result (λ count. count ≤ piece_of self.old) }
        ensures same_piece { piece_of self.new ≡ piece_of self.old }
    {
        self.puts = self.puts.saturating_add(1);
        if self.put_fails.contains(&self.puts) {
            self.faults = self.faults.saturating_add(1);
            return Err(EdgeFault::Failed);
        }
        let count = piece.len().min(self.piece);
        match self.bytes.extend_from_slice(&piece[..count]) {
            Ok(()) => Ok(count),
            Err(_) => Err(EdgeFault::NoMemory),
        }
    }

    #[tactic(auto, using(crate::proofs::Steps::honest_get))]
    fn get(&mut self, buf: &mut [u8]) -> Result<usize, EdgeFault>
        ensures bytes { Gets (⟦<MemLine as Line>⟧.told self.old) (⟦<MemLine as Line>⟧.told self.new) result buf.new }
        ensures cause { HasCause (⟦<MemLine as Line>⟧.faults self.old) (⟦<MemLine as Line>⟧.faults self.new) result }
        ensures listed { FailsAsListed (get_fails self.old) (gets self.old) result }
        ensures counted { gets self.new ≡ next_number (gets self.old) }
        ensures list { get_fails self.new ≡ get_fails self.old }
        ensures piece { IfOk result (λ count. count ≤ piece_of self.old) }
        ensures same_piece { piece_of self.new ≡ piece_of self.old }
        ensures memory { IsErrOf result EdgeFault.NoMemory → ⊥ }
    {
        self.gets = self.gets.saturating_add(1);
        if self.get_fails.contains(&self.gets) {
            self.faults = self.faults.saturating_add(1);
            return Err(EdgeFault::Failed);
        }
        let count = copy_front(&self.bytes[self.got..], buf, self.piece);
        self.got += count;
        Ok(count)
    }

    ghost sound = { λ l. honest_is_sound l.bytes.items l.got l.in_range };
}
