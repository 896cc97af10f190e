//! The effect of one event on a member, computed beforehand and held until it is committed.
use replacement::Repl;
use upd_base::{Entry, Frame, MemberId};

/// What an event changes at a member.
#[derive(Drop)]
pub(crate) enum Change<O> {
    /// Nothing: the call is refused.
    Nothing,
    /// The member crashes.
    Stop,
    /// A frame that came early is held.
    Hold {
        from: MemberId,
        frame: Frame,
    },
    /// A suspicion came or went; the modules after they were told.
    Tell {
        who: MemberId,
        on: bool,
        modules: Vec<O>,
    },
    /// A module made a step.
    Advance(Progress<O>),
}

/// A step of one module, with what the member makes of it.
#[derive(Drop)]
pub(crate) struct Progress<O> {
    /// The version of the module.
    pub version: u16,
    /// The module after the step.
    pub module: O,
    /// The replacement, where it is another one.
    pub repl: Option<Repl>,
    /// What comes to the log.
    pub entries: Vec<Entry>,
    /// The module of the next version, where this one ended.
    pub fresh: Option<O>,
    /// Whether the step takes the first held frame whose version is reached.
    pub releases: bool,
}
