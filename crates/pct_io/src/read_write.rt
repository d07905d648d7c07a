//! Reading to the end of a source, and writing of whole texts.
ghost use Rattle.std.specs.Prelude.{◌≡◌, ◌≤◌, length, take, OnOk};
ghost use Rattle.std.specs.List.{flat_map};
ghost use Rattle.std.specs.Io.KnownBytes.{Appends};
ghost use Rattle.pct_io.specs.ErrorCounts.{HasCause};
ghost use Rattle.pct_io.specs.Inners.{KeepsInners};
ghost use Rattle.pct_io.specs.Writes.{Writes};
ghost use Rattle.pct_io.specs.Reads.{ReadsAll};

use crate::{Failed, ReadEnd, Sink, Source};
use std::alloc::Global;

// The size of the read buffer in bytes.
const CHUNK: usize = 65536;

/// Reads all bytes up to the end of the input. `TooLong` is returned only if more than `limit` bytes were read, and `Failed`
/// only if a read failed after at most `limit` bytes. `NoMemory` is returned only after at least one byte was read.
pub fn read_all<S: Source>(alloc: Global, source: &mut S, limit: u32) -> Result<Vec<u8>, ReadEnd>
    ensures { ReadsAll S.left S.errors source.old source.new limit result }
{
    let mut all = Vec::new(alloc);
    let mut chunk = [0; CHUNK];
    loop {
        let count = source.read(&mut chunk)?;
        if count == 0 {
            return Ok(all);
        }
        if count > limit as usize - all.len() {
            return Err(ReadEnd::TooLong);
        }
        all.extend_from_slice(&chunk[..count])?;
    }
}

/// Writes the whole piece. `Failed` means that a prefix of the piece was written and that the sink recorded one error.
/// It allocates no memory.
#[inline]
pub fn write_all<K: Sink>(sink: &mut K, piece: &[u8]) -> Result<(), Failed>
    ensures { Writes K.written K.errors K.inners sink.old sink.new piece.now result }
{
    write_prefix(sink, piece).1
}

// Writes the piece until a write fails, and returns the number of bytes written.
#[inline]
pub(crate) fn write_prefix<K: Sink>(sink: &mut K, piece: &[u8]) -> (usize, Result<(), Failed>)
    ensures bound { result.0 ≤ length piece.now }
    ensures whole { OnOk result.1 (result.0 ≡ length piece.now) }
    ensures bytes { Appends (K.written sink.old) (K.written sink.new) (take result.0 piece.now) }
    ensures cause { HasCause (K.errors sink.old) (K.errors sink.new) result.1 }
    ensures inners { KeepsInners (K.inners sink.old) (K.inners sink.new) }
{
    let mut done = 0;
    while done < piece.len() {
        match sink.write(&piece[done..]) {
            Ok(count) => done += count,
            Err(failed) => return (done, Err(failed)),
        }
    }
    (done, Ok(()))
}

/// Writes the parts one after the other, as `write_all` writes their concatenation.
pub fn write_parts<K: Sink>(sink: &mut K, parts: &[&[u8]]) -> Result<(), Failed>
    ensures { Writes K.written K.errors K.inners sink.old sink.new (flat_map (λ part. part.now) parts.now) result }
{
    for part in parts {
        write_all(sink, part)?;
    }
    Ok(())
}
