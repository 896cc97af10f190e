//! Whether every protocol that a plan names, at first or in a later change, is one that this type of module serves.
ghost use Rattle.std.specs.Prelude.{ℕ, true, ◌≡◌, ◌<◌, IsTrue, length};
ghost use Rattle.upd_base.specs.Plan.{steps_of};
ghost use Rattle.group_run.specs.Laws.{ServesPlan};
ghost use Rattle.member_rules.specs.Kept.{rules_of};
ghost use Rattle.run_journal.specs.Serving.{ServesStep, ServesThread};

use order_trait::Ordering;
use upd_base::{Call, Plan, Step};

/// Whether modules of this type serve the kinds of a plan: that of version 0, and those that its changes ask for.
pub fn serves<O: Ordering>(plan: &Plan) -> bool
    ensures first { IsTrue result → O.is_served plan.now.first ≡ true }
    ensures changes { IsTrue result → ServesPlan (rules_of O.Ordering) plan.now }
    ensures all { O.is_served plan.now.first ≡ true → ServesPlan (rules_of O.Ordering) plan.now → IsTrue result }
{
    if !O::serves(plan.first()) {
        return false;
    }
    for thread in 0..plan.threads() {
        if !serves_thread::<O>(plan, thread) {
            return false;
        }
    }
    true
}

fn serves_thread<O: Ordering>(plan: &Plan, thread: u8) -> bool
    requires { thread < length plan.now.threads }
    ensures some { IsTrue result → ServesThread O.is_served plan.now thread (length (steps_of plan.now thread)) }
    ensures all { ServesThread O.is_served plan.now thread (length (steps_of plan.now thread)) → IsTrue result }
{
    for index in 0..plan.steps(thread) {
        if !serves_step::<O>(plan.step(thread, index)) {
            return false;
        }
    }
    true
}

fn serves_step<O: Ordering>(step: &Step) -> bool
    ensures some { IsTrue result → ServesStep O.is_served step.now }
    ensures all { ServesStep O.is_served step.now → IsTrue result }
{
    match &step.call {
        Call::Change(kind) => O::serves(*kind),
        Call::Send(_) | Call::Suspect(_) | Call::Trust(_) | Call::Crash => true,
    }
}
