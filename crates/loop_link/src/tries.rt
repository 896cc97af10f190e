//! Calls of the system, which are made again where a signal interrupted them.
ghost use Rattle.std.specs.Prelude.{◌≡◌, ◌≤◌, ◌<◌, ◌↔◌, length, IfOk};
ghost use Rattle.std.specs.IoError.{error_kind};
ghost use Rattle.loop_link.specs.Faults.{faults_after};

use std::io::{Error, ErrorKind, Read, Write};
use upd_base::EdgeFault;

/// How often a call is made at most.
pub(crate) const MOST_TRIES: u32 = 32;

/// Why a call of the system was refused: want of memory is told as such.
pub(crate) fn fault_of(error: &Error) -> EdgeFault
    ensures { result ≡ EdgeFault.NoMemory ↔ error_kind error.now ≡ ErrorKind.OutOfMemory }
{
    match error.kind() {
        ErrorKind::OutOfMemory => EdgeFault::NoMemory,
        _ => EdgeFault::Failed,
    }
}

/// The count of faults after an answer.
pub(crate) fn counted<T>(faults: u64, answer: &Result<T, EdgeFault>) -> u64
    ensures { result ≡ faults_after faults answer.now }
{
    match answer {
        Err(EdgeFault::Failed) => faults.saturating_add(1),
        _ => faults,
    }
}

/// Writes bytes from the front of the piece, at least one.
pub(crate) fn write_some<S: Write>(stream: &mut S, piece: &[u8]) -> Result<usize, EdgeFault>
    ensures some { IfOk result (λ k. 0 < k) }
    ensures within { IfOk result (λ k. k ≤ length piece.now) }
{
    for _ in 0..MOST_TRIES {
        match stream.write(piece) {
            Ok(0) => return Err(EdgeFault::Failed),
            Ok(count) => return Ok(count),
            Err(error) if error.kind() == ErrorKind::Interrupted => {}
            Err(error) => return Err(fault_of(&error)),
        }
    }
    Err(EdgeFault::Failed)
}

/// Reads bytes into the front of the buffer, at least one. A stream that was closed is a fault.
pub(crate) fn read_some<S: Read>(stream: &mut S, buf: &mut [u8]) -> Result<usize, EdgeFault>
    ensures some { IfOk result (λ k. 0 < k) }
    ensures within { IfOk result (λ k. k ≤ length buf.new) }
{
    for _ in 0..MOST_TRIES {
        match stream.read(buf) {
            Ok(0) => return Err(EdgeFault::Failed),
            Ok(count) => return Ok(count),
            Err(error) if error.kind() == ErrorKind::Interrupted => {}
            Err(error) => return Err(fault_of(&error)),
        }
    }
    Err(EdgeFault::Failed)
}
