//! The keys of thread-specific data, and the values that a thread has for them.

ghost use Rattle.std.specs.Prelude.{◌≡◌, ◌<◌, [], ◌∷◌, ◌++◌, length, codes};
ghost use Rattle.std.specs.Option.{option_map_or};
ghost use Rattle.pct_io.specs.Fields.{field_text as word_text};
ghost use Rattle.pct_keys.specs.Tables.{row_at};
ghost use Rattle.pct_model.specs.declared.limits.TheConstants.{MAX_KEYS};
ghost use Rattle.pct_view_texts.specs.Fields.{after_commas, field_text};
ghost use Rattle.pct_view_texts.specs.States.{func_or_dash, key_on, key_phrases, specific_on, specific_phrases};
ghost use Rattle.pct_view_texts.specs.TextBuffers.{Appends};

use crate::TextBuffer;
use crate::phrases::{push_phrase, push_phrases};
use pct_event_texts::names::func;
use pct_io::{Field, NoMemory};
use pct_keys::Keys;
use pct_model::{MAX_KEYS, Script};
use std::alloc::Global;

/// Appends a tab and the field of the keys of a process.
pub(crate) fn push_keys(
    alloc: Global,
    text: &mut TextBuffer,
    script: &Script,
    keys: &Keys,
) -> Result<(), NoMemory>
    ensures { Appends text.old text.new (9 ∷ field_text (key_phrases script.now keys.now.places)) result }
{
    let mut phrases = TextBuffer::new(alloc);
    push_each_key(&mut phrases, script, keys)?;
    push_phrases(text, &phrases)
}

// Appends each key after a comma.
fn push_each_key(phrases: &mut TextBuffer, script: &Script, keys: &Keys) -> Result<(), NoMemory>
    ensures { Appends phrases.old phrases.new (after_commas (key_phrases script.now keys.now.places)) result }
{
    for place in 0..MAX_KEYS {
        push_key(phrases, script, keys, place)?;
    }
    Ok(())
}

// Appends the key on a place after a comma, if there is one.
fn push_key(
    phrases: &mut TextBuffer,
    script: &Script,
    keys: &Keys,
    place: u32,
) -> Result<(), NoMemory>
    requires { place < MAX_KEYS }
    ensures { Appends phrases.old phrases.new (after_commas (key_on script.now keys.now.places place)) result }
{
    if !keys.is_live(place) {
        return Ok(());
    }
    push_phrase(
        phrases,
        &[
            Field::Number(keys.number(place)),
            func_or_dash(script, keys.destructor(place)),
        ],
    )
}

/// The name of a function, or `-` if there is none.
pub(crate) fn func_or_dash(script: &Script, index: Option<u32>) -> Field<'_>
    ensures { word_text result ≡ func_or_dash script.now index }
{
    match index {
        None => Field::Text(b"-"),
        Some(index) => func(script, index),
    }
}

/// Appends a tab and the field of the thread-specific data of the thread on a slot.
pub(crate) fn push_specific(
    alloc: Global,
    text: &mut TextBuffer,
    keys: &Keys,
    slot: u32,
) -> Result<(), NoMemory>
    requires { slot < length keys.now.rows }
    ensures { Appends text.old text.new (9 ∷ field_text (specific_phrases keys.now.places (row_at keys.now slot))) result }
{
    let mut phrases = TextBuffer::new(alloc);
    push_each_value(&mut phrases, keys, slot)?;
    push_phrases(text, &phrases)
}

// Appends each key for which the thread on a slot has a value after a comma, and the value.
fn push_each_value(phrases: &mut TextBuffer, keys: &Keys, slot: u32) -> Result<(), NoMemory>
    requires { slot < length keys.now.rows }
    ensures { Appends phrases.old phrases.new (after_commas (specific_phrases keys.now.places (row_at keys.now slot))) result }
{
    for place in 0..MAX_KEYS {
        push_value_on(phrases, keys, slot, place)?;
    }
    Ok(())
}

// Appends the key on a place after a comma, and the value of the thread on a slot, unless the value is 0.
fn push_value_on(
    phrases: &mut TextBuffer,
    keys: &Keys,
    slot: u32,
    place: u32,
) -> Result<(), NoMemory>
    requires slot { slot < length keys.now.rows }
    requires place { place < MAX_KEYS }
    ensures { Appends phrases.old phrases.new (after_commas (specific_on keys.now.places (row_at keys.now slot) place)) result }
{
    let value = keys.get(slot, place);
    if value == 0 {
        return Ok(());
    }
    push_phrase(
        phrases,
        &[Field::Number(keys.number(place)), Field::Number(value)],
    )
}
