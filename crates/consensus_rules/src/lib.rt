//! Ordering by consensus: what modules of this kind send and deliver, and what a run of them is to each
//! instance of consensus.
//!
//! `specs/Consensus` has the two functions of the kind.
#![tactic(auto)]

ghost use Rattle.std.specs.Prelude.{ℕ, ◌∷◌};
ghost use Rattle.fifo_net.specs.Net.{Input, IsPrefix};
ghost use Rattle.upd_base.specs.declared.body.Body.{Body};
ghost use Rattle.upd_base.specs.declared.kind.Kind.TheVariants.{Consensus};
ghost use Rattle.order_trait.specs.Runs.{Order, Inputs, Steps, IsModuleRun};
ghost use Rattle.instance_rules.specs.Run.{IsInstanceRun};
ghost use Rattle.consensus_rules.specs.Projection.{rounds_of};
ghost use Rattle.consensus_rules.specs.Consensus.{sends_by};
ghost use Rattle.consensus_rules.specs.Delivered.{delivers_by};

/// At every list of inputs, what was delivered stays. Of every run of modules of this kind, what it is to
/// one instance is a run of that instance.
pub fn instances_of_modules()
    ensures grows { (n m : ℕ) (x : Input Order Body) (past : Inputs) → IsPrefix (delivers_by n m past) (delivers_by n m (x ∷ past)) }
    ensures projects { (n k : ℕ) (past : Steps) → IsModuleRun sends_by Consensus n past → IsInstanceRun n (rounds_of n k past) }
{}
