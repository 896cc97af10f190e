//! What an ordering module is: its interface, its runs, and the four laws that every kind keeps.
#![tactic(auto)]

mod module_runs;
mod ordering;
mod outbox;

pub use module_runs::every_module_run;
pub use ordering::Ordering;
pub use outbox::Outbox;
