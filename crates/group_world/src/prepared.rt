//! An event between its two phases: prepared and not yet committed.
use member_core::Prepared;
use upd_base::Event;

/// An event of a world that was prepared with all its memory and can be committed without any.
#[derive(Drop)]
pub struct PreparedMove<O> {
    pub(crate) event: Event,
    pub(crate) member: Prepared<O>,
}

impl<O> PreparedMove<O> {
    ghost use Rattle.std.specs.Prelude.{◌≡◌};
    ghost use Rattle.group_world.specs.Prepared.{event_of};

    /// What the event will be.
    pub fn event(&self) -> Event
        ensures { result ≡ event_of self.now }
    {
        self.event
    }
}
