//! The members of a group and the links between them: one event at a time, prepared with all its memory and then
//! committed without any.
#![tactic(auto)]

mod commit;
mod fresh;
mod moves;
mod prepared;
mod ready;
mod visit;
mod world;

pub use moves::Move;
pub use prepared::PreparedMove;
pub use world::World;
