//! One member of a group whose ordering protocol is replaced while calls go on. Each input makes exactly the turn of the
//! definition; an event is prepared with all its memory and then committed without any.
#![tactic(auto)]

mod acts;
mod change;
mod commit;
mod input;
mod member;
mod prepared;
mod sent;
mod start;
mod steps;

pub use input::Input;
pub use member::Member;
pub use prepared::Prepared;
pub use sent::Sent;
