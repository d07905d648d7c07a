//! A sink in memory that grows.

use pct_io::{Failed, Sink};
use std::alloc::Global;

/// A text in memory that is written as a sink. A write fails only where memory runs out.
#[derive(Drop)]
pub(crate) struct TextSink {
    bytes: Vec<u8>,
    errors: u64,
}

impl TextSink {
    ghost use Rattle.std.specs.Prelude.{◌≡◌, []};

    /// The empty text.
    pub(crate) fn new(alloc: Global) -> TextSink
        ensures { result.bytes.items ≡ [] }
    {
        TextSink {
            bytes: Vec::new(alloc),
            errors: 0,
        }
    }

    /// The bytes written so far.
    pub(crate) fn into_bytes(self) -> Vec<u8>
        ensures { result.items ≡ self.bytes.items }
    {
        self.bytes
    }
}

impl Sink for TextSink {
    ghost use Rattle.std.specs.Prelude.{[], Some};

    ghost written = { λ sink. Some sink.bytes.items };

    ghost errors = { λ sink. sink.errors };

    ghost inners = { λ _. [] };

    fn write(&mut self, piece: &[u8]) -> Result<usize, Failed> {
        match self.bytes.extend_from_slice(piece) {
            Ok(()) => Ok(piece.len()),
            Err(_) => {
                self.errors = self.errors.saturating_add(1);
                Err(Failed)
            }
        }
    }
}
