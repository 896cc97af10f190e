//! The fixed sequencer: what its modules send and deliver, and the laws that they keep.
//!
//! `specs/Sequencer` has the rules; here is what holds in every run of such modules.
#![tactic(auto)]

ghost use Rattle.std.specs.Prelude.{true, ◌≡◌};
ghost use Rattle.upd_base.specs.declared.kind.Kind.{Kind};
ghost use Rattle.order_trait.specs.Runs.{KeepsAgreement, KeepsIntegrity, KeepsFulfilment, KeepsBound, NeverSaysPast};
ghost use Rattle.sequencer_rules.specs.Sequencer.{is_sequencer, sends_of, delivers_of};

/// The laws, in every run of modules of a sequencer kind: members deliver in one order, only what
/// was broadcast and nothing twice, everything without suspicion and once all is taken, and each
/// broadcast costs at most 2·n·n + 3·n bodies. At no inputs do
/// they say that a version is past.
pub fn sequencer_laws()
    ensures agreement { (kind : Kind) → is_sequencer kind ≡ true → KeepsAgreement (sends_of kind) (delivers_of kind) kind }
    ensures integrity { (kind : Kind) → is_sequencer kind ≡ true → KeepsIntegrity (sends_of kind) (delivers_of kind) kind }
    ensures fulfilment { (kind : Kind) → is_sequencer kind ≡ true → KeepsFulfilment (sends_of kind) (delivers_of kind) kind }
    ensures bound { (kind : Kind) → is_sequencer kind ≡ true → KeepsBound (sends_of kind) kind }
    ensures never_past { (kind : Kind) → is_sequencer kind ≡ true → NeverSaysPast (sends_of kind) }
{}
