//! Ordering by consensus: fulfilment, without suspicion.
#![tactic(auto)]

ghost use Rattle.upd_base.specs.declared.kind.Kind.TheVariants.{Consensus};
ghost use Rattle.order_trait.specs.Runs.{KeepsFulfilment};
ghost use Rattle.consensus_rules.specs.Consensus.{sends_by};
ghost use Rattle.consensus_rules.specs.Delivered.{delivers_by};

/// In every run of modules of this kind without suspicion and with every body taken that was sent, each
/// member has delivered every item that was broadcast.
///
/// Without suspicion an instance has one round, in which all say yes. With all taken all members have
/// decided the same instances. Where an item waited, each member would be in the next instance and none
/// would have decided it; but then its coordinator would have all estimates, hence have proposed, and
/// all replies, hence have decided.
pub fn trusting_runs_deliver()
    ensures fulfilment { KeepsFulfilment sends_by delivers_by Consensus }
{}
