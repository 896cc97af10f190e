//! An event between its two phases: the change it will make, the answer of its call, and the frames that it sends.
ghost use Rattle.std.specs.Prelude.{◌≡◌, [], Some, None, option_copied};
ghost use Rattle.member_core.specs.declared.change.Change.TheVariants.{Nothing};
ghost use Rattle.member_core.specs.Prepared.{answer_of, sent_of};

use crate::change::Change;
use std::alloc::Global;
use upd_base::{Answer, Frame, MemberId};

/// An event of one member that was prepared with all its memory and can be committed without any.
#[derive(Drop)]
pub struct Prepared<O> {
    pub(crate) change: Change<O>,
    pub(crate) answer: Option<Answer>,
    pub(crate) sent: Vec<(MemberId, Frame)>,
}

impl<O> Prepared<O> {
    /// What the call is answered; None exactly where the input is no call.
    pub fn answer(&self) -> Option<Answer>
        ensures { result ≡ answer_of self.now }
    {
        self.answer
    }

    /// The frames that the event sends, each with its receiver, in order.
    pub fn sent(&self) -> &[(MemberId, Frame)]
        ensures { result.now ≡ sent_of self.now }
    {
        self.sent.as_slice()
    }
}

/// The call is refused.
pub(crate) fn refused<O>(alloc: Global, answer: Answer) -> Prepared<O>
    ensures change { result.change ≡ Nothing }
    ensures answer { result.answer ≡ Some answer }
    ensures sent { result.sent.items ≡ [] }
{
    Prepared {
        change: Change::Nothing,
        answer: Some(answer),
        sent: Vec::new(alloc),
    }
}

/// Nothing happens.
pub(crate) fn nothing<O>(alloc: Global) -> Prepared<O>
    ensures change { result.change ≡ Nothing }
    ensures answer { result.answer ≡ None }
    ensures sent { result.sent.items ≡ [] }
{
    Prepared {
        change: Change::Nothing,
        answer: None,
        sent: Vec::new(alloc),
    }
}
