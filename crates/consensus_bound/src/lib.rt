//! Ordering by consensus: the bound on the bodies, without suspicion.
#![tactic(auto)]

ghost use Rattle.upd_base.specs.declared.kind.Kind.TheVariants.{Consensus};
ghost use Rattle.order_trait.specs.Runs.{KeepsBound};
ghost use Rattle.consensus_rules.specs.Consensus.{sends_by};

/// In every run of modules of this kind without suspicion at most 2·n·n + 3·n bodies are sent for each
/// item that was broadcast.
///
/// An item costs n bodies at each member, which tells all of it once. An instance costs at each member an
/// estimate, a reply and n bodies of the decision, and at the coordinator of round 1 n bodies of the
/// proposal. There are no more instances than items.
pub fn trusting_runs_are_bounded()
    ensures bound { KeepsBound sends_by Consensus }
{}
