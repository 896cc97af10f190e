//! The lines of a group while a run goes on: which of them are still used, what came over them, and how what is left of a run is
//! made through them on one thread.
#![tactic(auto)]

mod bringing;
mod ending;
mod finishing;
mod links;
mod ran;
mod rounds;
mod visits;

pub use bringing::bring;
pub use finishing::{finish, finish_from};
pub use links::link_at;
pub use ran::Ran;
