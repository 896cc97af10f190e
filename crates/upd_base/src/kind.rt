//! The three ordering protocols that a version may run: fixed sequencer, logical clocks, or consensus.
ghost use Rattle.std.specs.Prelude.{◌≡◌, IfOk, string_bytes};
ghost use Rattle.upd_base.specs.Kind.{kind_fits, kind_text};

use crate::member::MemberId;
use std::alloc::{AllocError, Global};

/// A kind of ordering module: the protocol of one version.
#[derive(Clone, Copy, Debug, PartialEq, Eq)]
pub enum Kind {
    /// One member orders for all (the class "fixed sequencer" of Défago, Schiper and Urbán, 2004).
    Sequencer(MemberId),
    /// Timestamps of logical clocks order (Lamport, 1978).
    Lamport,
    /// A sequence of consensus instances orders (Chandra and Toueg, 1996).
    Consensus,
}

impl Kind {
    /// The words for it, in scenarios, reports and journals.
    #[tactic(auto, unfolding(crate::specs::Kind::kind_text))]
    pub fn text(self, alloc: Global) -> Result<String, AllocError>
        ensures { IfOk result (λ text. string_bytes text ≡ kind_text self) }
    {
        match self {
            Kind::Sequencer(member) => format!(in alloc; "sequencer {}", member.get()),
            Kind::Lamport => String::from_str(alloc, "lamport"),
            Kind::Consensus => String::from_str(alloc, "consensus"),
        }
    }

    /// Whether each member that it names is below n.
    pub fn fits(self, n: u8) -> bool
        ensures { result ≡ kind_fits n self }
    {
        match self {
            Kind::Sequencer(sequencer) => sequencer.get() < n,
            Kind::Lamport | Kind::Consensus => true,
        }
    }
}
