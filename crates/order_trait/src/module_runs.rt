//! What holds of runs of ordering modules of every kind, whatever they send: links are first in, first out, and no
//! item is broadcast twice.
ghost use Rattle.std.specs.Prelude.{ℕ, ◌≡◌, ◌≤◌, ◌∷◌, count_by};
ghost use Rattle.fifo_net.specs.Net.{Step, taken_on, sent_on, IsPrefix};
ghost use Rattle.upd_base.specs.Item.{has_id};
ghost use Rattle.upd_base.specs.declared.body.Body.{Body};
ghost use Rattle.upd_base.specs.declared.kind.Kind.{Kind};
ghost use Rattle.order_trait.specs.Runs.{Order, Steps, KindSends, IsModuleRun, broadcast_in};

/// Of modules of any kind: a run without its newest step is a run, no (origin, number) is broadcast
/// twice in a run, and what was taken from a link begins what was sent on it.
pub fn every_module_run()
    ensures shorter { (sends : KindSends) (kind : Kind) (n : ℕ) (step : Step Order Body) (past : Steps) → IsModuleRun sends kind n (step ∷ past) → IsModuleRun sends kind n past }
    ensures once { (sends : KindSends) (kind : Kind) (n : ℕ) (past : Steps) → IsModuleRun sends kind n past → (id : ℕ × ℕ) → count_by (has_id id) (broadcast_in past) ≤ 1 }
    ensures begins { (sends : KindSends) (kind : Kind) (n : ℕ) (past : Steps) → IsModuleRun sends kind n past → (from to : ℕ) → IsPrefix (taken_on from to past) (sent_on (sends n) from to past) }
{}
