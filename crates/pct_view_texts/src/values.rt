//! Names and their values.

ghost use Rattle.std.specs.Prelude.{◌∷◌, ◌++◌, flat_map, map, zip, codes};
ghost use Rattle.pct_view_texts.specs.Fields.{field_text, phrase_text};
ghost use Rattle.pct_view_texts.specs.States.{mutex_phrase, mutex_phrases, value_phrases, value_words};
ghost use Rattle.pct_view_texts.specs.TextBuffers.{Appends};

use crate::TextBuffer;
use crate::phrases::{push_phrase, push_phrases};
use pct_io::{Field, NoMemory};
use pct_model::{Name, SemDecl};
use std::alloc::Global;

/// Appends a tab and the field of the globals with these names and values.
pub(crate) fn push_globals(
    alloc: Global,
    text: &mut TextBuffer,
    names: &[Name],
    values: &[u32],
) -> Result<(), NoMemory>
    ensures { Appends text.old text.new (9 ∷ field_text (value_phrases names.now values.now)) result }
{
    let mut phrases = TextBuffer::new(alloc);
    push_values(&mut phrases, b", ", names, values)?;
    push_phrases(text, &phrases)
}

/// Appends each name after this text, and its value after a space.
pub(crate) fn push_values(
    text: &mut TextBuffer,
    before: &[u8],
    names: &[Name],
    values: &[u32],
) -> Result<(), NoMemory>
    ensures { Appends text.old text.new (flat_map (λ v. before.now ++ phrase_text (value_words v)) (zip names.now values.now)) result }
{
    for (name, value) in names.iter().zip(values) {
        push_value(text, before, name.as_bytes(), *value)?;
    }
    Ok(())
}

// Appends a name after a text, and its value after a space.
fn push_value(text: &mut TextBuffer, before: &[u8], name: &[u8], value: u32) -> Result<(), NoMemory>
    ensures { Appends text.old text.new (before.now ++ phrase_text (value_words (name.now, value))) result }
{
    text.push(before)?;
    text.push_words(&[Field::Text(name), Field::Number(value)])
}

/// Appends a tab and the field of semaphores with these counts.
pub(crate) fn push_semaphores(
    alloc: Global,
    text: &mut TextBuffer,
    sems: &[SemDecl],
    counts: &[u32],
) -> Result<(), NoMemory>
    ensures { Appends text.old text.new (9 ∷ field_text (value_phrases (map (λ d. d.name) sems.now) counts.now)) result }
{
    let mut phrases = TextBuffer::new(alloc);
    push_counts(&mut phrases, sems, counts)?;
    push_phrases(text, &phrases)
}

// Appends each semaphore and its count after a comma.
fn push_counts(phrases: &mut TextBuffer, sems: &[SemDecl], counts: &[u32]) -> Result<(), NoMemory>
    ensures { Appends phrases.old phrases.new (flat_map (λ v. codes ", " ++ phrase_text (value_words v)) (zip (map (λ d. d.name) sems.now) counts.now)) result }
{
    for (sem, count) in sems.iter().zip(counts) {
        push_value(phrases, b", ", sem.name.as_bytes(), *count)?;
    }
    Ok(())
}

/// Appends a tab and the field of the mutexes of a process with these names and owners.
pub(crate) fn push_mutexes(
    alloc: Global,
    text: &mut TextBuffer,
    pid: u32,
    names: &[Name],
    owners: &[u32],
) -> Result<(), NoMemory>
    ensures { Appends text.old text.new (9 ∷ field_text (mutex_phrases pid names.now owners.now)) result }
{
    let mut phrases = TextBuffer::new(alloc);
    push_owners(&mut phrases, pid, names, owners)?;
    push_phrases(text, &phrases)
}

// Appends each mutex after a comma, with who holds it.
fn push_owners(
    phrases: &mut TextBuffer,
    pid: u32,
    names: &[Name],
    owners: &[u32],
) -> Result<(), NoMemory>
    ensures { Appends phrases.old phrases.new (flat_map (λ m. codes ", " ++ phrase_text (mutex_phrase pid m)) (zip names.now owners.now)) result }
{
    for (name, owner) in names.iter().zip(owners) {
        push_mutex(phrases, pid, name.as_bytes(), *owner)?;
    }
    Ok(())
}

// Appends a mutex after a comma: `free`, or who holds it.
#[tactic(auto, unfolding(pct_model::specs::Report::thread_text))]
fn push_mutex(phrases: &mut TextBuffer, pid: u32, name: &[u8], owner: u32) -> Result<(), NoMemory>
    ensures { Appends phrases.old phrases.new (codes ", " ++ phrase_text (mutex_phrase pid (name.now, owner))) result }
{
    if owner == 0 {
        push_phrase(phrases, &[Field::Text(name), Field::Text(b"free")])
    } else {
        push_phrase(
            phrases,
            &[
                Field::Text(name),
                Field::Text(b"held by"),
                Field::Dotted(pid, owner),
            ],
        )
    }
}
