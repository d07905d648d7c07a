//! What a table lends of the frames of a thread, where they lie: a frame, and the list of frames.

use crate::frame_words::kind_in;
use crate::held::FRAME_WORDS;
use crate::row::Row;
use pct_model::FrameKind;
use pct_stack::{StackBlock, WordsFrom};
use std::marker::Model;

/// A frame of a thread, where it lies in the table. In a contract it is the frame.
#[derive(Drop)]
pub struct FrameRef<'a> {
    /// From its first word on.
    words: WordsFrom<'a>,
}

impl<'a> Model for FrameRef<'a> {
    ghost use Rattle.std.specs.Prelude.{◌≤◌, length};
    ghost use Rattle.pct_model.specs.declared.frame.Frame.{Frame};
    ghost use Rattle.pct_threads.specs.StackFrames.{frame_from};

    ghost Value = { Frame };

    ghost view = { λ r. frame_from r.words 0 };

    ghost invariant = { λ r. 12 ≤ length r.words };
}

impl<'a> FrameRef<'a> {
    ghost use Rattle.std.specs.Prelude.{◌≡◌, slice_get, slice_index_or};
    ghost use Rattle.pct_stack.specs.Stacks.{words_at};
    ghost use Rattle.pct_threads.specs.Rows.{IsHeld, row_frames};

    // The newest frame of the thread on a slot, by its row.
    #[inline(always)]
    pub(crate) fn top(row: &Row, stacks: &'a StackBlock, slot: u32) -> Option<FrameRef<'a>>
        requires { IsHeld row.now stacks.now slot }
        ensures { result ≡ slice_get (row_frames row.now (words_at stacks.now slot)) 0 }
    {
        if row.depth == 0 {
            return None;
        }
        let words = stacks.words_from(slot, row.end - FRAME_WORDS as usize);
        Some(FrameRef { words })
    }

    /// The function of the frame.
    #[inline(always)]
    pub fn func(&self) -> u32
        ensures { result ≡ self.now.func }
    {
        self.words.word(0)
    }

    /// Its program counter.
    #[inline(always)]
    pub fn pc(&self) -> u32
        ensures { result ≡ self.now.pc }
    {
        self.words.word(1)
    }

    /// Its kind.
    #[inline(always)]
    pub fn kind(&self) -> FrameKind
        ensures { result ≡ self.now.kind }
    {
        kind_in(self.words.word(2), self.words.word(11))
    }

    /// The local with an index. 0 if there is no such local.
    #[inline(always)]
    pub fn local(&self, i: u32) -> u32
        ensures { result ≡ slice_index_or self.now.locals i 0 }
    {
        if i < 8 { self.words.word(3 + i) } else { 0 }
    }

    /// Its locals.
    #[inline(always)]
    pub fn locals(&self) -> [u32; 8]
        ensures { result ≡ self.now.locals }
    {
        let words = &self.words;
        [
            words.word(3),
            words.word(4),
            words.word(5),
            words.word(6),
            words.word(7),
            words.word(8),
            words.word(9),
            words.word(10),
        ]
    }
}

/// The frames of a thread, the newest first. In a contract it is the list.
#[derive(Drop)]
pub struct Frames<'a> {
    /// From the first word of the oldest on.
    words: WordsFrom<'a>,
    /// The number of frames.
    depth: u32,
}

impl<'a> Model for Frames<'a> {
    ghost use Rattle.std.specs.Prelude.{◌≤◌, List, length};
    ghost use Rattle.pct_model.specs.declared.frame.Frame.{Frame};
    ghost use Rattle.pct_threads.specs.StackFrames.{frames_in};

    ghost Value = { List Frame };

    ghost view = { λ f. frames_in f.words f.depth };

    ghost invariant = { λ f. (204 ≤ length f.words) × (f.depth ≤ 17) };
}

impl<'a> Frames<'a> {
    ghost use Rattle.std.specs.Prelude.{◌≡◌, ◌≤◌, length, slice_get};
    ghost use Rattle.pct_threads.specs.declared.row.TheConstants.{MAX_DEPTH};
    ghost use Rattle.pct_stack.specs.Stacks.{words_at};
    ghost use Rattle.pct_threads.specs.Rows.{IsHeld, row_frames};

    // The frames of the thread on a slot, by its row.
    #[inline(always)]
    pub(crate) fn new(row: &Row, stacks: &'a StackBlock, slot: u32) -> Frames<'a>
        requires { IsHeld row.now stacks.now slot }
        ensures { result ≡ row_frames row.now (words_at stacks.now slot) }
    {
        Frames {
            words: stacks.words_from(slot, stacks.first_of(slot)),
            depth: row.depth,
        }
    }

    /// The number of frames, at most 17 (MAX_DEPTH).
    #[inline(always)]
    pub fn len(&self) -> usize
        ensures value { result ≡ length self.now }
        ensures few { result ≤ MAX_DEPTH }
    {
        self.depth as usize
    }

    /// The frame at an index. `None` exactly if there are not more frames than that.
    #[inline(always)]
    pub fn get(&self, index: usize) -> Option<FrameRef<'a>>
        ensures { result ≡ slice_get self.now index }
    {
        if index >= self.depth as usize {
            return None;
        }
        let frame = self.depth - 1 - index as u32;
        Some(FrameRef {
            words: self.words.after(FRAME_WORDS * frame),
        })
    }
}
