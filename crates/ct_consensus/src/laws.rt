//! Inputs after which an instance of consensus need not be changed: a trust, and a suspicion without effect.
ghost use Rattle.std.specs.Prelude.{ℕ, ◌∷◌};
ghost use Rattle.fifo_net.specs.Net.{Called};
ghost use Rattle.instance_rules.specs.Say.{Turns, Suspects, Trusts};
ghost use Rattle.ct_consensus.specs.declared.instance.Instance.{Instance};
ghost use Rattle.ct_consensus.specs.Instance.{StandsFor, ChangesNothing, members_of, me_of};

/// For which longer lists an instance stands that stands for a list: one with a trust more, and one with a
/// suspicion more that changes nothing.
pub fn stands_longer()
    ensures trust { (i : Instance) (past : Turns) (who : ℕ) → StandsFor i past → StandsFor i (Called (Trusts who) ∷ past) }
    ensures suspicion { (i : Instance) (past : Turns) (who : ℕ) → ChangesNothing (members_of i) (me_of i) who past → StandsFor i past → StandsFor i (Called (Suspects who) ∷ past) }
{}
