//! What an application may ask of a member: broadcast, replace the protocol, suspect, trust, or crash.
ghost use Rattle.std.specs.Prelude.{◌≡◌, IfOk};

use crate::kind::Kind;
use crate::member::MemberId;
use crate::no_memory::NoMemory;
use crate::text::Text;

/// What an application asks of a member.
#[derive(Debug, Drop, PartialEq, Eq)]
pub enum Call {
    /// Broadcast this message.
    Send(Text),
    /// Replace the ordering protocol by one of this kind.
    Change(Kind),
    /// Suspect this member of having stopped.
    Suspect(u8),
    /// Suspect this member no longer.
    Trust(u8),
    /// Stop for good.
    Crash,
}

impl Call {
    /// The same call; a payload's bytes are shared.
    pub fn copy(&self) -> Result<Call, NoMemory>
        ensures { IfOk result (λ call. call ≡ self.now) }
    {
        match self {
            Call::Send(text) => Ok(Call::Send(text.copy()?)),
            Call::Change(kind) => Ok(Call::Change(*kind)),
            Call::Suspect(who) => Ok(Call::Suspect(*who)),
            Call::Trust(who) => Ok(Call::Trust(*who)),
            Call::Crash => Ok(Call::Crash),
        }
    }
}

/// One planned call: which member is asked for what.
#[derive(Debug, Drop, PartialEq, Eq)]
pub struct Step {
    pub at: MemberId,
    pub call: Call,
}

impl Step {
    /// The same step; a payload's bytes are shared.
    pub fn copy(&self) -> Result<Step, NoMemory>
        ensures { IfOk result (λ step. step ≡ self.now) }
    {
        Ok(Step {
            at: self.at,
            call: self.call.copy()?,
        })
    }
}
