//! Agreement, integrity, fulfilment and the bound for every kind that is served, and a run of each kind as evidence
//! that the laws speak of something.
ghost use Rattle.std.specs.Prelude.{true, ◌≡◌, [], ◌∷◌};
ghost use Rattle.upd_base.specs.declared.kind.Kind.{Kind};
ghost use Rattle.upd_base.specs.declared.kind.Kind.TheVariants.{Sequencer, Lamport, Consensus};
ghost use Rattle.order_trait.specs.Runs.{IsModuleRun, delivered_in, KeepsAgreement, KeepsIntegrity, KeepsFulfilment, KeepsBound, NeverSaysPast};
ghost use Rattle.module_binding.specs.Kinds.{is_served, sends_of, delivers_of};
ghost use Rattle.module_binding.specs.Examples.{message, sequencer_run, lamport_run, consensus_run};

/// Every kind that is served keeps the laws.
pub fn every_kind_keeps_the_laws()
    ensures agreement { (kind : Kind) → is_served kind ≡ true → KeepsAgreement (sends_of kind) (delivers_of kind) kind }
    ensures integrity { (kind : Kind) → is_served kind ≡ true → KeepsIntegrity (sends_of kind) (delivers_of kind) kind }
    ensures fulfilment { (kind : Kind) → is_served kind ≡ true → KeepsFulfilment (sends_of kind) (delivers_of kind) kind }
    ensures bound { (kind : Kind) → is_served kind ≡ true → KeepsBound (sends_of kind) kind }
    ensures never_past { (kind : Kind) → is_served kind ≡ true → NeverSaysPast (sends_of kind) }
{}

/// The laws are not about nothing: of each kind a short run of two members, in which both deliver.
pub fn a_run_of_each_kind()
    ensures sequencer { IsModuleRun (sends_of (Sequencer 0)) (Sequencer 0) 2 sequencer_run }
    ensures sequencer_first { delivered_in (delivers_of (Sequencer 0)) 2 sequencer_run 0 ≡ message ∷ [] }
    ensures sequencer_second { delivered_in (delivers_of (Sequencer 0)) 2 sequencer_run 1 ≡ message ∷ [] }
    ensures lamport { IsModuleRun (sends_of Lamport) Lamport 2 lamport_run }
    ensures lamport_first { delivered_in (delivers_of Lamport) 2 lamport_run 0 ≡ message ∷ [] }
    ensures lamport_second { delivered_in (delivers_of Lamport) 2 lamport_run 1 ≡ message ∷ [] }
    ensures consensus { IsModuleRun (sends_of Consensus) Consensus 2 consensus_run }
    ensures consensus_first { delivered_in (delivers_of Consensus) 2 consensus_run 0 ≡ message ∷ [] }
    ensures consensus_second { delivered_in (delivers_of Consensus) 2 consensus_run 1 ≡ message ∷ [] }
{}
