//! A frame's way through a line, with each piece got back and compared, and the three causes for which it fails.
ghost use Rattle.std.specs.Prelude.{◌≡◌, ◌≢◌, ◌≤◌, ◌<◌, IfOk, IfErr, IfSome, IfNone, OnOk, length, take, slice_index};
ghost use Rattle.upd_frame.specs.Spelling.{IsFrame, spelling};
ghost use Rattle.line_rules.specs.declared.line_state.TheConstants.{MAX_FRAME};
ghost use Rattle.line_rules.specs.Given.{GaveExactly, IsEven};
ghost use Rattle.frame_carriage.specs.Carry.{CarryCause, fault_of};
ghost use Rattle.frame_carriage.specs.declared.carriage.CarryFault.TheVariants.{NoMemory};

use std::alloc::{AllocError, Global};
use upd_base::{EdgeFault, Frame};
use upd_frame::{FrameFault, decode, encode};
use upd_lines::Line;

/// How many bytes of a frame are put at once at most, before they are got back.
pub const PIECE: usize = 4_096;

/// Why a frame did not come over a line.
#[derive(Clone, Copy, Debug, PartialEq, Eq)]
pub enum CarryFault {
    /// The line failed.
    Down,
    /// The line gave another byte than was put, at this place of the frame's bytes, counted from 0.
    Lied { at: u64, put: u8, got: u8 },
    /// A request for memory was refused.
    NoMemory,
}

impl From<EdgeFault> for CarryFault {
    ghost from_gives = { λ fault e. e ≡ fault_of fault };

    fn from(fault: EdgeFault) -> CarryFault {
        match fault {
            EdgeFault::Failed => CarryFault::Down,
            EdgeFault::NoMemory => CarryFault::NoMemory,
        }
    }
}

impl From<upd_base::NoMemory> for CarryFault {
    ghost from_gives = { λ _ e. e ≡ NoMemory };

    fn from(_refused: upd_base::NoMemory) -> CarryFault {
        CarryFault::NoMemory
    }
}

impl From<AllocError> for CarryFault {
    ghost from_gives = { λ _ e. e ≡ NoMemory };

    fn from(_refused: AllocError) -> CarryFault {
        CarryFault::NoMemory
    }
}

/// A frame that came over a line whole.
#[derive(Debug, Drop)]
pub struct Came {
    pub frame: Frame,
    /// How many bytes it came in.
    pub bytes: u64,
}

/// The first place at which two lists of one length differ.
fn first_difference(put: &[u8], got: &[u8]) -> Option<usize>
    requires { length put.now ≡ length got.now }
    ensures none { IfNone result (put.now ≡ got.now) }
    ensures within { IfSome result (λ i. i < length put.now) }
    ensures differs { IfSome result (λ i. slice_index put.now i ≢ slice_index got.now i) }
    ensures first { IfSome result (λ i. take i put.now ≡ take i got.now) }
{
    for (i, byte) in put.iter().enumerate() {
        if *byte != got[i] {
            return Some(i);
        }
    }
    None
}

/// Puts these bytes piece by piece, gets each piece back before the next, and compares the bytes.
fn exchange<L: Line>(line: &mut L, bytes: &[u8], back: &mut [u8]) -> Result<(), CarryFault>
    requires even { IsEven (L.told line.old) }
    requires room { length back.old ≡ length bytes.now }
    ensures back { OnOk result (back.new ≡ bytes.now) }
    ensures gave { OnOk result (GaveExactly (L.told line.old) (L.told line.new) bytes.now) }
    ensures even { OnOk result (IsEven (L.told line.new)) }
    ensures cause { IfErr result (CarryCause (L.faults line.old) (L.faults line.new) (L.told line.old) (L.told line.new) bytes.now) }
    ensures later { L.faults line.old ≤ L.faults line.new }
{
    let mut put = 0;
    let mut got = 0;
    while got < bytes.len() {
        if got == put {
            let end = bytes.len().min(put.saturating_add(PIECE));
            put += line.put(&bytes[put..end])?;
        } else {
            let count = line.get(&mut back[got..put])?;
            if let Some(i) = first_difference(&bytes[got..got + count], &back[got..got + count]) {
                let at = got + i;
                return Err(CarryFault::Lied {
                    at: at as u64,
                    put: bytes[at],
                    got: back[at],
                });
            }
            got += count;
        }
    }
    Ok(())
}

/// Carries a frame over a line, on which all that was put was got: puts its spelling in pieces, gets each piece back
/// before the next, compares the bytes, and reads what came as a frame.
#[tactic(auto, using(crate::proofs::Short::short))]
pub fn carry<L: Line>(alloc: Global, line: &mut L, frame: &Frame) -> Result<Came, CarryFault>
    requires even { IsEven (L.told line.old) }
    requires frame { IsFrame frame.now }
    ensures same { IfOk result (λ came. came.frame ≡ frame.now) }
    ensures size { IfOk result (λ came. came.bytes ≡ length (spelling frame.now)) }
    ensures gave { OnOk result (GaveExactly (L.told line.old) (L.told line.new) (spelling frame.now)) }
    ensures even { OnOk result (IsEven (L.told line.new)) }
    ensures cause { IfErr result (CarryCause (L.faults line.old) (L.faults line.new) (L.told line.old) (L.told line.new) (spelling frame.now)) }
    ensures short { length (spelling frame.now) ≤ MAX_FRAME }
    ensures later { L.faults line.old ≤ L.faults line.new }
{
    let bytes = encode(alloc, frame)?;
    let mut back = vec![in alloc; 0u8; bytes.len()]?;
    exchange(line, bytes.as_slice(), back.as_mut_slice())?;
    match decode(alloc, back.as_slice()) {
        Ok(frame) => Ok(Came {
            frame,
            bytes: back.len() as u64,
        }),
        Err(FrameFault::NoMemory) => Err(CarryFault::NoMemory),
        Err(_) => unreachable!(),
    }
}
