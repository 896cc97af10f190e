//! A lock with history: the value under it stands for a list of entries, and a pass knows a beginning of that list
//! and which of its places are the pass's own.
//!
//! Turns go by tickets: one word deals them out and another counts the turns finished, as the sequencer and the
//! eventcount of Reed and Kanodia (1979) and the ticket lock of Mellor-Crummey and Scott (1991) do. What passes know of
//! the list, and their parts, stand in proofs alone. `docs/LOCK.md` tells the rule in words.
#![tactic(auto)]

mod kept;
mod lock;
mod pass;
mod rule;
mod stage;
mod steps;
mod turn;
mod view;

pub use kept::Kept;
pub use lock::TurnLock;
pub use pass::{PARTS, Pass};
pub use rule::LockRule;
pub use stage::Stage;
pub use turn::Turn;
pub use view::View;
