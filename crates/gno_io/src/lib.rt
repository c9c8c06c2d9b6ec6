//! Where bytes come from and where they go: traits with a written meaning and a count of faults,
//! objects in memory that meet it as data, and adapters over std's streams.
#![tactic(auto)]

mod mem_sink;
mod mem_source;
mod sink;
mod source;
mod std_streams;

pub use mem_sink::MemSink;
pub use mem_source::MemSource;
pub use sink::{Sink, put_all};
pub use source::Source;
pub use std_streams::{StdSink, StdSource};

#[cfg(test)]
mod tests;
