//! Requests that wait, in the order of their timestamps.
#![tactic(auto)]

mod queue;
mod request;

pub use queue::RequestQueue;
pub use request::Request;
