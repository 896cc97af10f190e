//! Ordering by consensus: agreement and integrity, under any suspicions and wherever members stop.
#![tactic(auto)]

ghost use Rattle.std.specs.Prelude.{ℕ, ◌≤◌, length};
ghost use Rattle.fifo_net.specs.Net.{inputs_of};
ghost use Rattle.upd_base.specs.declared.kind.Kind.TheVariants.{Consensus};
ghost use Rattle.order_trait.specs.Runs.{Steps, IsModuleRun, broadcast_in, KeepsAgreement, KeepsIntegrity};
ghost use Rattle.consensus_rules.specs.Consensus.{sends_by};
ghost use Rattle.consensus_rules.specs.Delivered.{delivers_by, next};
ghost use Rattle.consensus_rules.specs.Waiting.{waiting};

/// In every run of modules of this kind: of what any two members delivered one list begins the other;
/// only what was broadcast is delivered, and nothing twice. And where something waits, the instance that
/// is next has a number of at most as many items as were broadcast, since each instance decides an item
/// of its own.
pub fn agreement_and_integrity()
    ensures agreement { KeepsAgreement sends_by delivers_by Consensus }
    ensures integrity { KeepsIntegrity sends_by delivers_by Consensus }
    ensures numbers { (n : ℕ) (past : Steps) → IsModuleRun sends_by Consensus n past → (i : ℕ) → 1 ≤ length (waiting (inputs_of i past)) → next (inputs_of i past) ≤ length (broadcast_in past) }
{}
