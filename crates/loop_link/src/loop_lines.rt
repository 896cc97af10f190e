//! What makes lines by TCP.
ghost use Rattle.std.specs.Prelude.{ℕ, ◌≡◌, ◌+◌, ◌*◌, ◌≤◌, ◌<◌, IfOk};
ghost use Rattle.upd_base.specs.Edge.{HasCause};
ghost use Rattle.upd_lines.specs.Line.{IsFresh};
ghost use Rattle.loop_link.specs.Faults.{faults_after};

use crate::loop_line::LoopLine;
use crate::tries::{MOST_TRIES, counted, fault_of};
use std::io;
use std::io::ErrorKind;
use std::net::{Ipv4Addr, Net, OpenListener, OpenStream, SocketAddr};
use upd_base::{EdgeFault, MemberId};
use upd_lines::{Line, LineMaker};

/// Makes lines by TCP on 127.0.0.1, both ends in this process. Each line has a connection of its own, at a port that the
/// system chose; the end that was accepted is the line's only if its peer has the address of the other end. The makings
/// that failed are counted for each pair of members, up to the greatest u64; want of memory isn't counted.
#[derive(Drop)]
pub struct LoopLines<R> {
    rt: R,
    faults: [u64; 49],
}

/// The place of a pair of members in a table.
fn place_of(from: MemberId, to: MemberId) -> usize
    ensures place { result ≡ from * 7 + to }
    ensures range { result < 49 }
{
    usize::from(from.get()) * 7 + usize::from(to.get())
}

/// The end at the listener of the connection whose other end has this address. Connections of others are let go.
fn accepted<L: OpenListener>(listener: &L, other_end: SocketAddr) -> io::Result<L::Stream> {
    for _ in 0..MOST_TRIES {
        let (stream, peer) = listener.accept()?;
        if peer == other_end {
            return Ok(stream);
        }
    }
    Err(io::Error::from(ErrorKind::ConnectionRefused))
}

/// The two ends of a new connection on 127.0.0.1: what is written into the first is read from the second.
fn connected<R: Net>(rt: &R) -> io::Result<(R::Stream, R::Stream)> {
    let listener = rt.bind(SocketAddr::from((Ipv4Addr::LOCALHOST, 0)))?;
    let sender = rt.connect(listener.local_addr()?)?;
    sender.set_nodelay(true)?;
    let receiver = accepted(&listener, sender.local_addr()?)?;
    Ok((sender, receiver))
}

impl<R: Net> LoopLines<R>
where
    R::Stream: Send,
{
    /// Makes lines by the sockets of this runtime.
    pub fn new(rt: R) -> LoopLines<R>
        ensures faultless { (i j : ℕ) → ⟦<LoopLines<R> as LineMaker>⟧.faults result i j ≡ 0 }
    {
        LoopLines {
            rt,
            faults: [0; 49],
        }
    }
}

impl<R: Net> LineMaker for LoopLines<R>
where
    R::Stream: Send,
{
    ghost use Rattle.std.specs.Prelude.{slice_index};

    type Line = LoopLine<R::Stream>;

    ghost faults = { λ m from to. slice_index m.faults (from * 7 + to) };

    fn make_line(&mut self, from: MemberId, to: MemberId) -> Result<LoopLine<R::Stream>, EdgeFault>
        ensures fresh { IfOk result (λ line. IsFresh (⟦<LoopLine<R::Stream> as Line>⟧.told line)) }
        ensures faultless { IfOk result (λ line. ⟦<LoopLine<R::Stream> as Line>⟧.faults line ≡ 0) }
        ensures cause { HasCause (⟦<LoopLines<R> as LineMaker>⟧.faults self.old from to) (⟦<LoopLines<R> as LineMaker>⟧.faults self.new from to) result }
        ensures later { (i j : ℕ) → ⟦<LoopLines<R> as LineMaker>⟧.faults self.old i j ≤ ⟦<LoopLines<R> as LineMaker>⟧.faults self.new i j }
        ensures counted { ⟦<LoopLines<R> as LineMaker>⟧.faults self.new from to ≡ faults_after (⟦<LoopLines<R> as LineMaker>⟧.faults self.old from to) result }
        ensures others { (i j : ℕ) → i < 7 → j < 7 → ((i ≡ from) × (j ≡ to) → ⊥) → ⟦<LoopLines<R> as LineMaker>⟧.faults self.new i j ≡ ⟦<LoopLines<R> as LineMaker>⟧.faults self.old i j }
    {
        let result = match connected(&self.rt) {
            Ok((sender, receiver)) => Ok(LoopLine::new(sender, receiver)),
            Err(error) => Err(fault_of(&error)),
        };
        let place = place_of(from, to);
        self.faults[place] = counted(self.faults[place], &result);
        result
    }
}
