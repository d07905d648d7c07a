//! The table of cancellation points (XSH 2.9.5.2).

ghost use Rattle.std.specs.Prelude.{◌≡◌, ◌<◌, Some, bytes_eq, flat_map, map, position, slice_get};
ghost use Rattle.pct_io.specs.Writes.{Writes};
ghost use Rattle.pct_model.specs.Keywords.{line_text};
ghost use Rattle.pct_model.specs.Points.{points, point_at, point_of, point_name, row_words, points_text};
ghost use Rattle.pct_cancel.specs.declared.point.TheConstants.{POINT_COUNT};
ghost use Rattle.pct_cancel.specs.Rows.{as_row};

use crate::PointKind::{Optional, Required};
use crate::PointWait::{Inside, Never, NoWait, Outside};
use crate::{Point, PointKind, PointWait};
use pct_io::{BufferedSink, Failed, Field, Sink, write_all, write_line};

/// The number of cancellation points; their indexes are below it.
pub const POINT_COUNT: usize = 58;

// A point's index is its row number, from 0.
static POINTS: [(&[u8], PointKind, PointWait); POINT_COUNT] = [
    (b"accept", Required, Outside),
    (b"aio_suspend", Required, Outside),
    (b"clock_nanosleep", Required, Outside),
    (b"close", Required, Outside),
    (b"connect", Required, Outside),
    (b"creat", Required, Outside),
    (b"fdatasync", Required, Outside),
    (b"fsync", Required, Outside),
    (b"mq_receive", Required, Outside),
    (b"mq_send", Required, Outside),
    (b"msgrcv", Required, Outside),
    (b"msgsnd", Required, Outside),
    (b"msync", Required, Outside),
    (b"nanosleep", Required, Outside),
    (b"open", Required, Outside),
    (b"openat", Required, Outside),
    (b"pause", Required, Never),
    (b"poll", Required, Outside),
    (b"pread", Required, Outside),
    (b"pselect", Required, Outside),
    (b"pthread_cond_timedwait", Required, Inside),
    (b"pthread_cond_wait", Required, Inside),
    (b"pthread_join", Required, Inside),
    (b"pthread_testcancel", Required, NoWait),
    (b"pwrite", Required, Outside),
    (b"read", Required, Outside),
    (b"readv", Required, Outside),
    (b"recv", Required, Outside),
    (b"recvfrom", Required, Outside),
    (b"recvmsg", Required, Outside),
    (b"select", Required, Outside),
    (b"sem_timedwait", Required, Inside),
    (b"sem_wait", Required, Inside),
    (b"send", Required, Outside),
    (b"sendmsg", Required, Outside),
    (b"sendto", Required, Outside),
    (b"sigsuspend", Required, Never),
    (b"sigtimedwait", Required, Outside),
    (b"sigwait", Required, Never),
    (b"sigwaitinfo", Required, Never),
    (b"sleep", Required, Outside),
    (b"tcdrain", Required, Outside),
    (b"wait", Required, Inside),
    (b"waitid", Required, Inside),
    (b"waitpid", Required, Inside),
    (b"write", Required, Outside),
    (b"writev", Required, Outside),
    (b"fclose", Optional, NoWait),
    (b"fflush", Optional, NoWait),
    (b"fgets", Optional, NoWait),
    (b"fopen", Optional, NoWait),
    (b"fprintf", Optional, NoWait),
    (b"fputs", Optional, NoWait),
    (b"printf", Optional, NoWait),
    (b"puts", Optional, NoWait),
    (b"opendir", Optional, NoWait),
    (b"closedir", Optional, NoWait),
    (b"readdir", Optional, NoWait),
];

/// The cancellation point with this name: its index in the table, its kind (required or optional), and what a thread
/// suspended at it waits for. The result is `None` exactly if no cancellation point has the name (XSH 2.9.5.2).
pub fn point_of(name: &[u8]) -> Option<Point>
    ensures { result ≡ point_of name.now }
{
    let index = index_of(table(), name)?;
    let (_, kind, wait) = row_at(index);
    Some(Point {
        index: index as u32,
        kind,
        wait,
    })
}

/// The cancellation point with this index, or `None` if the index is not in the table.
pub fn point_at(index: u32) -> Option<Point>
    ensures { result ≡ point_at index }
{
    if (index as usize) < POINT_COUNT {
        let (_, kind, wait) = row_at(index as usize);
        Some(Point { index, kind, wait })
    } else {
        None
    }
}

/// Writes the name of the point with this index to the sink. After `Failed` a prefix of the name was written, and the
/// sink recorded an error.
pub fn write_point<K: Sink>(index: u32, sink: &mut K) -> Result<(), Failed>
    requires { index < POINT_COUNT }
    ensures { Writes K.written K.errors K.inners sink.old sink.new (point_name index) result }
{
    write_all(sink, row_at(index as usize).0)
}

/// Writes the table to the sink: a line `NAME KIND WAIT` for each point, in the order of the indexes. After `Failed` a
/// prefix of this text was written, and the sink recorded an error. It allocates no memory.
pub fn write_points<K: Sink>(sink: &mut K) -> Result<(), Failed>
    ensures { Writes K.written K.errors K.inners sink.old sink.new points_text result }
{
    let mut out = BufferedSink::new(sink);
    write_rows(&mut out, table())?;
    out.flush()
}

fn write_rows<K: Sink>(sink: &mut K, rows: &[(&[u8], PointKind, PointWait)]) -> Result<(), Failed>
    ensures { Writes K.written K.errors K.inners sink.old sink.new (flat_map (λ row. line_text (row_words (as_row row))) rows.now) result }
{
    for (name, kind, wait) in rows {
        write_row(sink, name, *kind, *wait)?;
    }
    Ok(())
}

fn write_row<K: Sink>(
    sink: &mut K,
    name: &[u8],
    kind: PointKind,
    wait: PointWait,
) -> Result<(), Failed>
    ensures { Writes K.written K.errors K.inners sink.old sink.new
        (line_text (row_words (record { name = name.now; kind = kind; wait = wait }))) result }
{
    write_line(
        sink,
        &[
            Field::Text(name),
            Field::Text(kind.text()),
            Field::Text(wait.text()),
        ],
    )
}

/// The name of the point with this index, or the empty name if the index is not in the table.
pub fn point_name(index: u32) -> &'static [u8]
    ensures { result.now ≡ point_name index }
{
    if (index as usize) < POINT_COUNT {
        row_at(index as usize).0
    } else {
        &[]
    }
}

// The rows of the table.
fn table() -> &'static [(&'static [u8], PointKind, PointWait)]
    ensures { map as_row result.now ≡ points }
{
    &POINTS
}

// The index of the first row with this name.
fn index_of(rows: &[(&[u8], PointKind, PointWait)], name: &[u8]) -> Option<usize>
    ensures { result ≡ position (λ row. bytes_eq row.0.now name.now) rows.now }
{
    rows.iter().position(|row| row.0 == name)
}

// The row with this index.
fn row_at(index: usize) -> (&'static [u8], PointKind, PointWait)
    requires { index < POINT_COUNT }
    ensures { slice_get points index
        ≡ Some (record { name = result.0.now; kind = result.1; wait = result.2 }) }
{
    table()[index]
}
