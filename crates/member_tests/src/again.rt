//! Inputs that are prepared once more where memory is refused: the refusal is to have left the member as it was.
ghost use Rattle.std.specs.Prelude.{◌≡◌, IfOk};
ghost use Rattle.member_core.specs.Member.{kept_by};
ghost use Rattle.member_core.specs.Input.{MayHave};
ghost use Rattle.member_core.specs.Prepared.{IsReady};

use member_core::{Input, Member, Prepared, Sent};
use order_trait::Ordering;
use std::alloc::Global;
use std::collections::VecDeque;
use std::test::*;
use upd_base::{Answer, Frame, Kind, MemberId, NoMemory};

/// Frames that a member sent and that nobody took yet, each with its receiver.
pub type Frames = VecDeque<(MemberId, Frame)>;

/// What a member says of itself.
#[derive(Clone, Copy, Debug, PartialEq, Eq)]
pub struct Readings {
    pub entries: usize,
    pub version: u16,
    pub kind: Kind,
    pub undelivered: usize,
    pub accepted: u32,
    pub crashed: bool,
    pub ready: bool,
    pub would_fill: bool,
}

pub fn says<O: Ordering>(one: &Member<O>) -> Readings {
    Readings {
        entries: one.log().len(),
        version: one.version(),
        kind: one.kind(),
        undelivered: one.undelivered(),
        accepted: one.accepted(),
        crashed: one.crashed(),
        ready: one.ready(),
        would_fill: one.would_fill(),
    }
}

/// The member says what it said before.
fn unchanged<O: Ordering>(one: &Member<O>, before: &Readings) -> Result<(), Fail> {
    if says(one) != *before {
        return Err("an input that changed the member before its commit")?;
    }
    Ok(())
}

/// Prepares an input. The member is as it was, also where memory is refused.
fn prepare_again<O: Ordering>(
    alloc: Global,
    one: &mut Member<O>,
    input: &Input,
) -> Result<Prepared<O>, Fail>
    requires { MayHave O.Ordering (kept_by one.old) input.now }
    ensures kept { kept_by one.new ≡ kept_by one.old }
    ensures ready { IfOk result (λ p. IsReady O.Ordering one.new p) }
{
    let before = says(one);
    let first = one.prepare(alloc, input);
    unchanged(one, &before)?;
    if let Ok(prepared) = first {
        return Ok(prepared);
    }
    match one.prepare(alloc, input) {
        Ok(prepared) => Ok(prepared),
        Err(NoMemory) => Err("a second refusal")?,
    }
}

/// Commits what was prepared: what is answered, and what is sent.
fn commit<O: Ordering>(one: &mut Member<O>, prepared: Prepared<O>) -> (Option<Answer>, Sent)
    requires { IsReady O.Ordering one.old prepared }
    ensures { (kept_by one.new).members ≡ (kept_by one.old).members }
{
    one.commit(prepared)
}

/// Prepares an input and commits it: what is answered, where it is a call. What is sent comes behind the frames.
pub fn make_again<O: Ordering>(
    alloc: Global,
    one: &mut Member<O>,
    input: &Input,
    frames: &mut Frames,
) -> Result<Option<Answer>, Fail>
    requires { MayHave O.Ordering (kept_by one.old) input.now }
    ensures { (kept_by one.new).members ≡ (kept_by one.old).members }
{
    let prepared = prepare_again(alloc, one, input)?;
    let count = prepared.sent().len();
    frames.reserve(count)?;
    let (answer, mut sent) = commit(one, prepared);
    for _ in 0..count {
        if let Some(frame) = sent.drain_first() {
            frames.push_back(frame)?;
        }
    }
    Ok(answer)
}
