//! Decoding of frames from a byte stream that comes in pieces: how far an unfinished frame was read is remembered.
ghost use Rattle.std.specs.Prelude.{◌≡◌, ◌≤◌, ◌<◌, ◌-◌, ◌++◌, [], Err, IfOk, IfSome, IsTrue, OnOk, OnErr, drop, length, vec_len};
ghost use Rattle.std.specs.List.{list_all};
ghost use Rattle.upd_base.specs.Text.{is_printable};
ghost use Rattle.upd_frame.specs.Reading.{front};
ghost use Rattle.upd_frame.specs.declared.fault.FrameFault.TheVariants.{Short};
ghost use Rattle.upd_frame.specs.Spelling.{spelling, IsFrame};
ghost use Rattle.frame_feed.specs.Stream.{IsNext};
ghost use Rattle.frame_feed.specs.Fed.{with_text};

use std::alloc::Global;
use std::marker::Model;
use upd_base::{Frame, NoMemory, is_printable};
use upd_frame::{FrameFault, Stage, decode_front, read_on};

/// Below so many taken bytes it isn't worth to move those that are left.
const FEW: usize = 4_096;

/// A stream of bytes that comes in pieces, seen as the bytes of it that are not taken yet.
#[derive(Drop)]
pub struct Feed {
    bytes: Vec<u8>,
    /// How many of the bytes are taken.
    taken: usize,
    /// How many of the bytes are taken or read.
    read: usize,
    /// Where the text ends that is to come there; not behind it where none is to come.
    text_end: usize,
    /// How far the reading of the next frame has come there, but for the size of that text.
    stage: Stage,
}

impl Model for Feed {
    ghost use Rattle.std.specs.Prelude.{ℕ, List, ◌-◌, drop};
    ghost use Rattle.frame_feed.specs.Fed.{IsFed, with_text};

    ghost Value = { List ℕ };

    ghost view = { λ f. drop f.taken f.bytes.items };

    ghost invariant = { λ f. IsFed f.bytes.items f.taken f.read (with_text (f.text_end - f.read) f.stage) };
}

/// Moves the bytes behind the first so many to the front.
fn drop_front(bytes: &mut Vec<u8>, count: usize)
    requires { count ≤ vec_len bytes.old }
    ensures { bytes.new.items ≡ drop count bytes.old.items }
{
    let left = bytes.len() - count;
    bytes.copy_within(count.., 0);
    bytes.truncate(left);
}

/// Moves what is left behind so many bytes to the front, where that is worth it. How many bytes are taken then.
fn trim(bytes: &mut Vec<u8>, taken: usize) -> usize
    requires { taken ≤ vec_len bytes.old }
    ensures within { result ≤ vec_len bytes.new }
    ensures left { drop result bytes.new.items ≡ drop taken bytes.old.items }
{
    if taken < FEW || taken < bytes.len() / 2 {
        return taken;
    }
    drop_front(bytes, taken);
    0
}

fn all_printable(bytes: &[u8]) -> bool
    ensures { result ≡ list_all is_printable bytes.now }
{
    match bytes {
        [byte] => is_printable(*byte),
        _ => bytes.iter().all(|byte| is_printable(*byte)),
    }
}

/// The stage with so many bytes of text still to come, where some are.
fn with_text(size: usize, stage: Stage) -> Stage
    ensures { result ≡ with_text size stage }
{
    if size == 0 {
        return stage;
    }
    match stage {
        Stage::Start => Stage::Within {
            size,
            count: 0,
            before: None,
        },
        Stage::Within { count, before, .. } => Stage::Within {
            size,
            count,
            before,
        },
    }
}

/// Where the text ends that the stage waits for at this place.
fn text_end(at: usize, stage: Stage) -> usize
    ensures { with_text (result - at) stage ≡ stage }
{
    match stage {
        Stage::Start => at,
        // No payload is so long that its end is past all places.
        Stage::Within { size, .. } => at.checked_add(size).unwrap_or(at),
    }
}

impl Feed {
    /// A stream of which nothing has come.
    pub fn new(alloc: Global) -> Feed
        ensures { result ≡ [] }
    {
        Feed {
            bytes: Vec::new(alloc),
            taken: 0,
            read: 0,
            text_end: 0,
            stage: Stage::Start,
        }
    }

    /// Adds the piece to the stream; without memory the stream is unchanged.
    pub fn push(&mut self, piece: &[u8]) -> Result<(), NoMemory>
        ensures ok { OnOk result (self.new ≡ self.old ++ piece.now) }
        ensures err { OnErr result (self.new ≡ self.old) }
    {
        match piece {
            // Quicker than a copy of one byte.
            [byte] => self.bytes.push(*byte)?,
            _ => self.bytes.extend_from_slice(piece)?,
        }
        Ok(())
    }

    /// Takes so many bytes, those of the frame that was read.
    #[tactic(auto, using(crate::proofs::Amid::starts))]
    fn take(&mut self, size: usize)
        requires { size ≤ length self.old }
        ensures { self.new ≡ drop size self.old }
    {
        self.taken = trim(&mut self.bytes, self.taken + size);
        self.read = self.taken;
        self.text_end = self.taken;
        self.stage = Stage::Start;
    }

    /// Whether all that is left unread is text of a payload that goes on behind it. It is then read.
    fn is_amid_text(&mut self) -> bool
        ensures unchanged { self.new ≡ self.old }
        ensures short { IsTrue result → front self.old ≡ Err Short }
    {
        let came = self.bytes.len();
        if came >= self.text_end || !all_printable(&self.bytes[self.read..]) {
            return false;
        }
        self.read = came;
        true
    }

    /// The next frame. None exactly where the bytes that are left are cut short; `Short` and `LongTail` never come. A
    /// fault's place counts from the start of that frame. Only a frame takes bytes, so a fault comes again.
    pub fn next(&mut self, alloc: Global) -> Result<Option<Frame>, FrameFault>
        ensures next { IsNext result self.old self.new }
        ensures spelt { IfOk result (λ found. IfSome found (λ f. IsFrame f × (self.old ≡ spelling f ++ self.new))) }
    {
        if self.is_amid_text() {
            return Ok(None);
        }
        let mut at = self.read - self.taken;
        let mut stage = with_text(self.text_end.saturating_sub(self.read), self.stage);
        let read = read_on(&self.bytes[self.taken..], &mut at, &mut stage);
        self.read = self.taken + at;
        self.text_end = text_end(self.read, stage);
        self.stage = stage;
        match read {
            Ok(()) => self.take_frame(alloc),
            Err(FrameFault::Short) => Ok(None),
            Err(fault) => Err(fault),
        }
    }

    /// The frame that begins the bytes that are left, where one does.
    fn take_frame(&mut self, alloc: Global) -> Result<Option<Frame>, FrameFault>
        ensures next { IsNext result self.old self.new }
        ensures spelt { IfOk result (λ found. IfSome found (λ f. IsFrame f × (self.old ≡ spelling f ++ self.new))) }
    {
        match decode_front(alloc, &self.bytes[self.taken..]) {
            Ok((frame, size)) => {
                self.take(size);
                Ok(Some(frame))
            }
            Err(FrameFault::Short) => Ok(None),
            Err(fault) => Err(fault),
        }
    }
}
