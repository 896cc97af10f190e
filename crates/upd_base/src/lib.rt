//! Types and limits that every layer shares.
#![tactic(auto)]

mod answer;
mod batch;
mod body;
mod call;
mod edge;
mod entry;
mod event;
mod frame;
mod item;
mod kind;
mod limits;
mod log;
mod member;
mod no_memory;
mod plan;
mod text;

pub use answer::Answer;
pub use batch::Batch;
pub use body::Body;
pub use call::{Call, Step};
pub use edge::{EdgeFault, NoLine, Sink, Source};
pub use entry::Entry;
pub use event::Event;
pub use frame::Frame;
pub use item::Item;
pub use kind::Kind;
pub use limits::{
    MAX_BATCH, MAX_CALLS, MAX_CHANGES, MAX_MEMBERS, MAX_PAYLOAD, MAX_THREADS, MAX_UNDELIVERED,
    MAX_VERSION,
};
pub use log::Log;
pub use member::{MemberId, member_at};
pub use no_memory::NoMemory;
pub use plan::Plan;
pub use text::{Text, is_printable};
