//! The frames of a thread, with the values of their locals.

ghost use Rattle.std.specs.Prelude.{◌∷◌, ◌++◌, [], flat_map, map, slice_get, zip, codes};
ghost use Rattle.std.specs.Option.{option_map_or};
ghost use Rattle.pct_view_texts.specs.Fields.{field_text, phrase_text};
ghost use Rattle.pct_view_texts.specs.Positions.{locals_of};
ghost use Rattle.pct_view_texts.specs.States.{frame_phrase, value_words};
ghost use Rattle.pct_view_texts.specs.TextBuffers.{Appends};

use crate::TextBuffer;
use crate::phrases::push_phrases;
use crate::values::push_values;
use pct_event_texts::names::func;
use pct_io::NoMemory;
use pct_model::Script;
use pct_threads::{FrameRef, Frames};
use std::alloc::Global;

/// Appends a tab and the field of frames.
pub(crate) fn push_frames(
    alloc: Global,
    text: &mut TextBuffer,
    script: &Script,
    frames: &Frames,
) -> Result<(), NoMemory>
    ensures { Appends text.old text.new (9 ∷ field_text (map (frame_phrase script.now) frames.now)) result }
{
    let mut phrases = TextBuffer::new(alloc);
    push_each_frame(&mut phrases, script, frames)?;
    push_phrases(text, &phrases)
}

// Appends each frame after a comma.
fn push_each_frame(
    phrases: &mut TextBuffer,
    script: &Script,
    frames: &Frames,
) -> Result<(), NoMemory>
    ensures { Appends phrases.old phrases.new (flat_map (λ frame. codes ", " ++ phrase_text (frame_phrase script.now frame)) frames.now) result }
{
    for index in 0..frames.len() {
        push_frame_at(phrases, script, frames, index)?;
    }
    Ok(())
}

// Appends the frame at an index after a comma, if there is one.
fn push_frame_at(
    phrases: &mut TextBuffer,
    script: &Script,
    frames: &Frames,
    index: usize,
) -> Result<(), NoMemory>
    ensures { Appends phrases.old phrases.new (option_map_or (λ frame. codes ", " ++ phrase_text (frame_phrase script.now frame)) (slice_get frames.now index) []) result }
{
    match frames.get(index) {
        None => Ok(()),
        Some(frame) => push_frame(phrases, script, &frame),
    }
}

// Appends a frame after a comma: its function, and each local that the function declares, with its value.
fn push_frame(phrases: &mut TextBuffer, script: &Script, frame: &FrameRef) -> Result<(), NoMemory>
    ensures { Appends phrases.old phrases.new (codes ", " ++ phrase_text (frame_phrase script.now frame.now)) result }
{
    let name = func(script, frame.func());
    phrases.push(b", ")?;
    phrases.push_field(&name)?;
    push_locals(phrases, script, frame)
}

// Appends each local that the function of a frame declares, with its value, each after a space.
fn push_locals(text: &mut TextBuffer, script: &Script, frame: &FrameRef) -> Result<(), NoMemory>
    ensures { Appends text.old text.new (flat_map (λ v. 32 ∷ phrase_text (value_words v)) (zip (locals_of script.now frame.now.func) frame.now.locals)) result }
{
    match script.funcs.as_slice().get(frame.func() as usize) {
        None => Ok(()),
        Some(func) => push_values(text, b" ", func.locals.as_slice(), &frame.locals()),
    }
}
