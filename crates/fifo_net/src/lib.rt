//! Networks of deterministic members joined by links that are first in, first out.
//!
//! `specs/Net` says what a network, its links and its runs are; here is what holds of every one.
#![tactic(auto)]

ghost use Rattle.std.specs.Prelude.{◌≡◌, ℕ, List, ◌∷◌, take, length};
ghost use Rattle.fifo_net.specs.Net.{Step, Sends, taken_on, sent_on, IsPrefix, IsRun};

/// In every run and on every link, what was taken begins what was sent. At every list of steps, what
/// was sent and what was taken only grow. A run without its newest step is a run.
pub fn first_in_first_out<X, B>()
    ensures begins { (sends : Sends X B) (past : List (Step X B)) → IsRun sends past → (from to : ℕ) → IsPrefix (taken_on from to past) (sent_on sends from to past) }
    ensures take { (sends : Sends X B) (past : List (Step X B)) → IsRun sends past → (from to : ℕ) → taken_on from to past ≡ take (length (taken_on from to past)) (sent_on sends from to past) }
    ensures sent_grows { (sends : Sends X B) (step : Step X B) (past : List (Step X B)) (from to : ℕ) → IsPrefix (sent_on sends from to past) (sent_on sends from to (step ∷ past)) }
    ensures taken_grows { (step : Step X B) (past : List (Step X B)) (from to : ℕ) → IsPrefix (taken_on from to past) (taken_on from to (step ∷ past)) }
    ensures shorter { (sends : Sends X B) (step : Step X B) (past : List (Step X B)) → IsRun sends (step ∷ past) → IsRun sends past }
{}
