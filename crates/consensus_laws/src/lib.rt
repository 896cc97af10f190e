//! Ordering by consensus: the four laws of an ordering module.
#![tactic(auto)]

ghost use Rattle.std.specs.Prelude.{true, ◌≡◌};
ghost use Rattle.upd_base.specs.declared.kind.Kind.{Kind};
ghost use Rattle.order_trait.specs.Runs.{KeepsAgreement, KeepsIntegrity, KeepsFulfilment, KeepsBound, NeverSaysPast};
ghost use Rattle.consensus_rules.specs.Consensus.{is_consensus, sends_of, delivers_of};

/// The laws, in every run of modules of this kind: under any suspicions and wherever members stop,
/// members deliver in one order, and only what was broadcast and nothing twice; without suspicion they
/// deliver everything once all is taken, and each broadcast costs at most 2·n·n + 3·n bodies. At no inputs do
/// they say that a version is past.
pub fn consensus_laws()
    ensures agreement { (kind : Kind) → is_consensus kind ≡ true → KeepsAgreement (sends_of kind) (delivers_of kind) kind }
    ensures integrity { (kind : Kind) → is_consensus kind ≡ true → KeepsIntegrity (sends_of kind) (delivers_of kind) kind }
    ensures fulfilment { (kind : Kind) → is_consensus kind ≡ true → KeepsFulfilment (sends_of kind) (delivers_of kind) kind }
    ensures bound { (kind : Kind) → is_consensus kind ≡ true → KeepsBound (sends_of kind) kind }
    ensures never_past { (kind : Kind) → is_consensus kind ≡ true → NeverSaysPast (sends_of kind) }
{}
