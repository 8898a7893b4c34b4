//! The outside: sources of bytes, sinks of bytes, and a reader of lines.
//!
//! A `Source` and a `Sink` each mean two things: the bytes that are left or held, where they are
//! told, and a count of faults that never falls. So a caller can say which bytes became which, and
//! that it failed only where the count rose. `MemSource` and `MemSink` tell their bytes, fail
//! where they are told to, and move as few bytes at a time as one likes. `StdSource` and `StdSink`
//! are the edge to a real reader and a real writer.
#![tactic(auto)]

mod failed;
mod held;
mod input;
mod input_lines;
mod intake;
mod laws;
mod line_fault;
mod line_reader;
mod lines;
mod mem_sink;
mod mem_source;
mod run_fault;
mod sink;
mod sink_buffer;
mod source;
mod std_sink;
mod std_source;

pub use failed::Failed;
pub use input::read_input;
pub use input_lines::next_line;
pub use laws::{faults_law, last_read_law, prefixes_law, puts_law};
pub use line_fault::LineFault;
pub use line_reader::LineReader;
pub use lines::lines_law;
pub use mem_sink::MemSink;
pub use mem_source::MemSource;
pub use run_fault::RunFault;
pub use sink::{Sink, write_all, write_text};
pub use sink_buffer::SinkBuffer;
pub use source::Source;
pub use std_sink::StdSink;
pub use std_source::StdSource;

/// The most bytes of input, 64 MiB.
pub const MAX_INPUT: u64 = 67_108_864;

/// The most bytes that a line reader asks for at once, 64 KiB.
pub const MAX_READ: usize = 65_536;

/// The most bytes that are gathered for a sink before they are written, 32 KiB.
pub const MAX_GATHERED: usize = 32_768;
