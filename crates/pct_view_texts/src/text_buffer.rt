//! A text in memory.

use itoa::Buffer;
use pct_io::{Failed, Field, NoMemory, Sink};
use std::alloc::Global;

/// A text in memory, which grows at its end. As a sink it fails only where memory runs out.
#[derive(Drop)]
pub struct TextBuffer {
    bytes: Vec<u8>,
    errors: u64,
}

impl TextBuffer {
    ghost use Rattle.std.specs.Prelude.{◌≡◌, [], ◌∷◌, ◌++◌, map, decimal};
    ghost use Rattle.std.specs.List.{flat_map, join_with_byte};
    ghost use Rattle.pct_io.specs.Fields.{field_text};
    ghost use Rattle.pct_view_texts.specs.TextBuffers.{text_in, Appends};

    /// The empty text.
    pub fn new(alloc: Global) -> TextBuffer
        ensures { text_in result ≡ [] }
    {
        TextBuffer {
            bytes: Vec::new(alloc),
            errors: 0,
        }
    }

    /// Its bytes.
    pub fn as_slice(&self) -> &[u8]
        ensures { result.now ≡ text_in self.now }
    {
        self.bytes.as_slice()
    }

    /// Its bytes, as a list.
    pub fn into_bytes(self) -> Vec<u8>
        ensures { result.items ≡ text_in self }
    {
        self.bytes
    }

    /// Appends bytes. `NoMemory` is returned if memory runs out.
    pub(crate) fn push(&mut self, piece: &[u8]) -> Result<(), NoMemory>
        ensures { Appends self.old self.new piece.now result }
    {
        self.bytes.extend_from_slice(piece)?;
        Ok(())
    }

    /// Appends a number in decimal.
    pub(crate) fn push_number(&mut self, number: u32) -> Result<(), NoMemory>
        ensures { Appends self.old self.new (decimal number) result }
    {
        self.push(Buffer::new().format(number).as_bytes())
    }

    /// Appends a count in decimal.
    pub(crate) fn push_count(&mut self, count: usize) -> Result<(), NoMemory>
        ensures { Appends self.old self.new (decimal count) result }
    {
        self.push(Buffer::new().format(count).as_bytes())
    }

    /// Appends two numbers in decimal, separated by a dot.
    pub(crate) fn push_dotted(&mut self, first: u32, second: u32) -> Result<(), NoMemory>
        ensures { Appends self.old self.new (decimal first ++ 46 ∷ decimal second) result }
    {
        self.push_number(first)?;
        self.push(b".")?;
        self.push_number(second)
    }

    /// Appends a field.
    pub(crate) fn push_field(&mut self, field: &Field) -> Result<(), NoMemory>
        ensures { Appends self.old self.new (field_text field.now) result }
    {
        match field {
            Field::Text(text) => self.push(text),
            Field::Number(number) => self.push_number(*number),
            Field::Count(count) => self.push_count(*count),
            Field::Dotted(first, second) => self.push_dotted(*first, *second),
        }
    }

    /// Appends fields, separated by one space.
    pub(crate) fn push_words(&mut self, words: &[Field]) -> Result<(), NoMemory>
        ensures { Appends self.old self.new (join_with_byte 32 (map field_text words.now)) result }
    {
        match words.split_first() {
            None => Ok(()),
            Some((first, rest)) => {
                self.push_field(first)?;
                self.push_spaced(rest)
            }
        }
    }

    // Appends each field after a space.
    fn push_spaced(&mut self, words: &[Field]) -> Result<(), NoMemory>
        ensures { Appends self.old self.new (flat_map (λ word. 32 ∷ field_text word) words.now) result }
    {
        for word in words {
            self.push(b" ")?;
            self.push_field(word)?;
        }
        Ok(())
    }

    /// Appends a line: the fields, separated by one space, then LF (byte 10).
    pub(crate) fn push_line(&mut self, words: &[Field]) -> Result<(), NoMemory>
        ensures { Appends self.old self.new (join_with_byte 32 (map field_text words.now) ++ 10 ∷ []) result }
    {
        self.push_words(words)?;
        self.push(b"\n")
    }
}

impl Sink for TextBuffer {
    ghost use Rattle.std.specs.Prelude.{[], Some};
    ghost use Rattle.pct_view_texts.specs.TextBuffers.{text_in};

    ghost written = { λ buffer. Some (text_in buffer) };

    ghost errors = { λ buffer. buffer.errors };

    ghost inners = { λ _. [] };

    fn write(&mut self, piece: &[u8]) -> Result<usize, Failed> {
        match self.bytes.extend_from_slice(piece) {
            Ok(()) => Ok(piece.len()),
            Err(_) => {
                self.errors = self.errors.saturating_add(1);
                Err(Failed)
            }
        }
    }
}
