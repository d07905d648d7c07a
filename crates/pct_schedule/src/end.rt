//! The end of a schedule's text.

/// Whether the line `end N` is required after the entries, or they may go to the end of the text.
#[derive(Clone, Copy)]
pub enum End {
    Required,
    Optional,
}
