//! Input and output of the host: byte sources and byte sinks that count their errors, in memory and over std's
//! streams; reading and writing of whole texts; buffered output; and a hook for the turns of workers.
#![tactic(auto)]

mod buffered_sink;
mod failed;
mod gate;
mod line;
mod line_buffer;
mod memory;
mod read_write;
mod sink;
mod source;
mod std_streams;
mod write_buffer;

pub use buffered_sink::BufferedSink;
pub use failed::{Failed, NoMemory, ReadEnd};
pub use gate::{Gate, NoGate};
pub use line::{Field, prepend_line, write_line, write_spaced_field};
pub use line_buffer::{prepend, prepend_number, prepend_short};
pub use memory::{MemSink, MemSource};
pub use read_write::{read_all, write_all, write_parts};
pub use sink::Sink;
pub use source::Source;
pub use std_streams::{StdSink, StdSource};
