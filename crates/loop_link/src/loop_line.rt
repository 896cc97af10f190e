//! A line over the two ends of a connection.
ghost use Rattle.std.specs.Prelude.{◌≡◌, ◌+◌, ◌-◌, ◌^◌, ◌≤◌, min, length, Ok};
ghost use Rattle.upd_base.specs.Edge.{HasCause};
ghost use Rattle.upd_lines.specs.Line.{Gets, Puts};
ghost use Rattle.loop_link.specs.Counts.{counts, counts_are_sound};
ghost use Rattle.loop_link.specs.Faults.{faults_after};

use crate::tries::{counted, read_some, write_some};
use std::io::{Read, Write};
use upd_base::EdgeFault;
use upd_lines::Line;

/// How many bytes are on a line at most: put, and not got yet.
const MOST_ON_LINE: u64 = 4096;

/// A line over a connection whose two ends are both here: bytes are put into the one and got from the other. It counts
/// the bytes put and got, tells none of them, and isn't faithful: what the system gives back isn't known.
///
/// At most 4,096 bytes are on the line, put and not got yet. The buffers of the system hold more than that, so a put
/// doesn't block where each piece is of at most 4,096 bytes and is got back before the next is put. A put takes what
/// there is room for; where there is none, it fails. It fails too where the count of bytes put would pass the greatest
/// u64. A get asks the system only for bytes that were put, and may block till they come; where none are left it answers
/// at once. An end that was closed, and every error of the system but want of memory, is a fault. Faults are counted up
/// to the greatest u64.
#[derive(Drop)]
pub struct LoopLine<S> {
    sender: S,
    receiver: S,
    put: u64,
    got: u64,
    faults: u64,
    ghost order: { got ≤ put },
    ghost bounded: { put ≤ got + 4096 },
}

impl<S> LoopLine<S> {
    /// The line from the one end to the other. Nothing was put or got yet.
    pub(crate) fn new(sender: S, receiver: S) -> LoopLine<S>
        ensures told { counts result.put result.got ≡ counts 0 0 }
        ensures faultless { result.faults ≡ 0 }
    {
        LoopLine {
            sender,
            receiver,
            put: 0,
            got: 0,
            faults: 0,
        }
    }
}

impl<S: Read + Write> LoopLine<S> {
    /// How many bytes there is room for.
    fn room(&self) -> usize
        ensures { result ≡ min (4096 - (self.now.put - self.now.got)) (2 ^ 64 - 1 - self.now.put) }
    {
        let room = MOST_ON_LINE - (self.put - self.got);
        room.min(u64::MAX - self.put) as usize
    }

    /// As `put`, but that faults aren't counted.
    fn put_bytes(&mut self, piece: &[u8]) -> Result<usize, EdgeFault>
        ensures bytes { Puts (counts self.old.put self.old.got) (counts self.new.put self.new.got) result piece.now }
        ensures faults { self.new.faults ≡ self.old.faults }
        ensures empty { length piece.now ≡ 0 → result ≡ Ok 0 }
    {
        if piece.is_empty() {
            return Ok(0);
        }
        let count = piece.len().min(self.room());
        if count == 0 {
            return Err(EdgeFault::Failed);
        }
        let count = write_some(&mut self.sender, &piece[..count])?;
        self.put += count as u64;
        Ok(count)
    }

    /// As `get`, but that faults aren't counted.
    fn get_bytes(&mut self, buf: &mut [u8]) -> Result<usize, EdgeFault>
        ensures bytes { Gets (counts self.old.put self.old.got) (counts self.new.put self.new.got) result buf.new }
        ensures faults { self.new.faults ≡ self.old.faults }
        ensures none { self.old.got ≡ self.old.put → result ≡ Ok 0 }
    {
        let count = buf.len().min((self.put - self.got) as usize);
        if count == 0 {
            return Ok(0);
        }
        let count = read_some(&mut self.receiver, &mut buf[..count])?;
        self.got += count as u64;
        Ok(count)
    }
}

impl<S: Read + Write + Drop + Send> Line for LoopLine<S> {
    ghost told = { λ l. counts l.put l.got };

    ghost faults = { λ l. l.faults };

    fn put(&mut self, piece: &[u8]) -> Result<usize, EdgeFault>
        ensures bytes { Puts (⟦<LoopLine<S> as Line>⟧.told self.old) (⟦<LoopLine<S> as Line>⟧.told self.new) result piece.now }
        ensures cause { HasCause (⟦<LoopLine<S> as Line>⟧.faults self.old) (⟦<LoopLine<S> as Line>⟧.faults self.new) result }
        ensures counted { ⟦<LoopLine<S> as Line>⟧.faults self.new ≡ faults_after (⟦<LoopLine<S> as Line>⟧.faults self.old) result }
        ensures empty { length piece.now ≡ 0 → result ≡ Ok 0 }
        ensures bounded { (⟦<LoopLine<S> as Line>⟧.told self.new).put ≤ (⟦<LoopLine<S> as Line>⟧.told self.new).got + 4096 }
    {
        let result = self.put_bytes(piece);
        self.faults = counted(self.faults, &result);
        result
    }

    fn get(&mut self, buf: &mut [u8]) -> Result<usize, EdgeFault>
        ensures bytes { Gets (⟦<LoopLine<S> as Line>⟧.told self.old) (⟦<LoopLine<S> as Line>⟧.told self.new) result buf.new }
        ensures cause { HasCause (⟦<LoopLine<S> as Line>⟧.faults self.old) (⟦<LoopLine<S> as Line>⟧.faults self.new) result }
        ensures counted { ⟦<LoopLine<S> as Line>⟧.faults self.new ≡ faults_after (⟦<LoopLine<S> as Line>⟧.faults self.old) result }
        ensures none { (⟦<LoopLine<S> as Line>⟧.told self.old).got ≡ (⟦<LoopLine<S> as Line>⟧.told self.old).put → result ≡ Ok 0 }
    {
        let result = self.get_bytes(buf);
        self.faults = counted(self.faults, &result);
        result
    }

    ghost sound = { λ l. counts_are_sound l.put l.got l.order };
}
