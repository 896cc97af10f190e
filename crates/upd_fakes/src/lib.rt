//! Edges in memory: sources and sinks that fail where a list says, or never.
#![tactic(auto)]

mod mem_sink;
mod mem_source;
mod piece;
mod sure_sink;
mod sure_source;

pub use mem_sink::MemSink;
pub use mem_source::MemSource;
pub use sure_sink::SureSink;
pub use sure_source::SureSource;
