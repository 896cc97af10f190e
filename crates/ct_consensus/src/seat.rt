//! Which member of which instance this is; from it, each round's rotating coordinator and the size of a majority.
ghost use Rattle.std.specs.Prelude.{◌≡◌, ◌≤◌, ◌<◌};
ghost use Rattle.instance_rules.specs.Say as rules;
ghost use Rattle.instance_rules.specs.Says as leading;

use upd_base::MemberId;

/// Which share of which instance it is.
#[derive(Drop)]
pub struct Seat {
    /// The instance's number.
    pub number: u64,
    /// How many members there are.
    pub members: u8,
    pub me: MemberId,
    ghost counts: { 1 ≤ number },
    ghost some: { 1 ≤ members },
    ghost few: { members ≤ 7 },
    ghost seated: { me < members },
}

impl Seat {
    /// The member that coordinates a round.
    pub fn coordinator(&self, round: u64) -> MemberId
        ensures is { result ≡ rules.coordinator self.now.members round }
        ensures below { result < self.now.members }
    {
        let place = round.saturating_sub(1) % u64::from(self.members);
        MemberId::new(place as u8).unwrap()
    }

    /// Whether this member coordinates a round; rounds count from 1.
    pub fn coordinates(&self, round: u64) -> bool
        ensures { result ≡ leading.coordinates self.now.members self.now.me round }
    {
        let coordinator = self.coordinator(round);
        round > 0 && self.me == coordinator
    }

    /// How many make a majority.
    pub fn majority(&self) -> usize
        ensures { result ≡ rules.majority self.now.members }
    {
        usize::from(self.members) / 2 + 1
    }
}
