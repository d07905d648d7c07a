//! Parts of a text.

/// A part of a text: the index of its first byte, and the index after its last byte.
#[derive(Clone, Copy, Debug)]
pub struct Span {
    pub start: u32,
    pub end: u32,
}
