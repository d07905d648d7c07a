//! Writing a schedule.

ghost use Rattle.std.specs.Prelude.{◌≡◌, ◌≤◌, [], ◌∷◌, ◌++◌, length, map, take, decimal};
ghost use Rattle.std.specs.List.{flat_map};
ghost use Rattle.pct_io.specs.Fields.{field_text};
ghost use Rattle.pct_io.specs.Prepends.{Prepends};
ghost use Rattle.pct_io.specs.Writes.{Writes};
ghost use Rattle.pct_model.specs.declared.keyword.Keyword.TheVariants as keyword;
ghost use Rattle.pct_model.specs.Keywords.{keyword_text, line_text, text_of};
ghost use Rattle.pct_model.specs.Report.{header_line, entry_line, end_line, schedule_lines};

use pct_io::{Failed, Field, Sink, prepend, prepend_line, prepend_number, write_all, write_line};
use pct_model::{Alt, Config, Entry, Keyword};

/// Writes the schedule: the numbers under which the run goes, its entries, and the number of entries. `read_schedule`
/// reads it back where the numbers are within the limits, the entries at most as many as the budget and their workers at
/// most 16.
///
/// At `Failed` the sink recorded an error, and it took a prefix of the text. The call allocates no memory.
pub fn write_schedule<K: Sink>(
    config: Config,
    entries: &[Entry],
    sink: &mut K,
) -> Result<(), Failed>
    ensures { Writes K.written K.errors K.inners sink.old sink.new (text_of (schedule_lines config entries.now)) result }
{
    write_header(sink, config)?;
    write_list(sink, entries)
}

#[tactic(auto, unfolding(pct_model::specs::Report::header_line))]
fn write_header<K: Sink>(sink: &mut K, config: Config) -> Result<(), Failed>
    ensures { Writes K.written K.errors K.inners sink.old sink.new (line_text (header_line config)) result }
{
    write_line(
        sink,
        &[
            Field::Text(Keyword::Schedule.text()),
            Field::Number(config.format.number()),
            Field::Number(config.budget),
            Field::Number(config.passes),
            Field::Number(config.slots),
        ],
    )
}

// The entries, and the last line with their number.
fn write_list<K: Sink>(sink: &mut K, entries: &[Entry]) -> Result<(), Failed>
    ensures { Writes K.written K.errors K.inners sink.old sink.new (flat_map (λ e. line_text (entry_line e)) entries.now ++ line_text (end_line (length entries.now))) result }
{
    write_entries(sink, entries)?;
    write_count(sink, entries.len())
}

// The size in bytes of the buffer in which lines are gathered, and how many lines at most are gathered in it.
const CAPACITY: usize = 4096;

const MOST_LINES: usize = 64;

fn write_entries<K: Sink>(sink: &mut K, entries: &[Entry]) -> Result<(), Failed>
    ensures { Writes K.written K.errors K.inners sink.old sink.new (flat_map (λ e. line_text (entry_line e)) entries.now) result }
{
    let mut buffer = [0; CAPACITY];
    let mut rest = entries;
    while !rest.is_empty() {
        let (few, after) = rest.split_at(rest.len().min(MOST_LINES));
        write_together(sink, few, &mut buffer)?;
        rest = after;
    }
    Ok(())
}

// Gathers the lines of the entries and writes them at once. Lines that do not fit together are written one by one.
fn write_together<K: Sink>(sink: &mut K, entries: &[Entry], buffer: &mut [u8]) -> Result<(), Failed>
    ensures { Writes K.written K.errors K.inners sink.old sink.new (flat_map (λ e. line_text (entry_line e)) entries.now) result }
{
    match prepend_entries(entries, buffer, buffer.len()) {
        Some(start) => write_all(sink, &buffer[start..]),
        None => write_each(sink, entries),
    }
}

// Writes the lines of the entries, as `prepend_line` writes one.
fn prepend_entries(entries: &[Entry], buffer: &mut [u8], end: usize) -> Option<usize>
    requires { end ≤ length buffer.old }
    ensures { Prepends buffer.old buffer.new end (flat_map (λ e. line_text (entry_line e)) entries.now) result }
{
    let mut start = end;
    for position in (0..entries.len()).rev() {
        start = prepend_entry(entries[position], buffer, start)?;
    }
    Some(start)
}

// Writes the lines of the entries one by one.
#[cold]
fn write_each<K: Sink>(sink: &mut K, entries: &[Entry]) -> Result<(), Failed>
    ensures { Writes K.written K.errors K.inners sink.old sink.new (flat_map (λ e. line_text (entry_line e)) entries.now) result }
{
    for entry in entries {
        write_entry(sink, *entry)?;
    }
    Ok(())
}

#[tactic(auto, unfolding(pct_model::specs::Report::end_line))]
fn write_count<K: Sink>(sink: &mut K, count: usize) -> Result<(), Failed>
    ensures { Writes K.written K.errors K.inners sink.old sink.new (line_text (end_line count)) result }
{
    write_line(
        sink,
        &[Field::Text(Keyword::End.text()), Field::Count(count)],
    )
}

// Writes the line of an entry, as `prepend_line` does. Nearly every entry has the choice `go`.
#[inline(always)]
#[tactic(auto, unfolding(pct_model::specs::Report::entry_line, pct_model::specs::Report::alt_words))]
fn prepend_entry(entry: Entry, buffer: &mut [u8], end: usize) -> Option<usize>
    requires { end ≤ length buffer.old }
    ensures { Prepends buffer.old buffer.new end (line_text (entry_line entry)) result }
{
    match entry.alt {
        Alt::Go => prepend_go(entry, buffer, end),
        _ => {
            let (fields, count) = fields_of(entry);
            prepend_line(&fields[..count], buffer, end)
        }
    }
}

// Writes the line of an entry with the choice `go`.
#[inline(always)]
#[tactic(auto, unfolding(pct_model::specs::Keywords::keyword_text))]
fn prepend_go(entry: Entry, buffer: &mut [u8], end: usize) -> Option<usize>
    requires { end ≤ length buffer.old }
    ensures { Prepends buffer.old buffer.new end (line_text (decimal entry.worker ∷ decimal entry.pid ∷ decimal entry.tid ∷ keyword_text keyword.Go ∷ [])) result }
{
    if entry.worker < 10 && entry.pid < 10 && entry.tid < 10 {
        return prepend(
            &[
                b'0' + entry.worker as u8,
                b' ',
                b'0' + entry.pid as u8,
                b' ',
                b'0' + entry.tid as u8,
                b' ',
                b'g',
                b'o',
                b'\n',
            ],
            buffer,
            end,
        );
    }
    let choice = prepend(b" go\n", buffer, end)?;
    let thread = prepend_number(entry.tid as u64, buffer, choice)?;
    let process = prepend_before_space(entry.pid, buffer, thread)?;
    prepend_before_space(entry.worker, buffer, process)
}

// Writes a number and a space, as `prepend` writes a text.
#[inline(always)]
fn prepend_before_space(number: u32, buffer: &mut [u8], end: usize) -> Option<usize>
    requires { end ≤ length buffer.old }
    ensures { Prepends buffer.old buffer.new end (decimal number ++ 32 ∷ []) result }
{
    let space = prepend(b" ", buffer, end)?;
    prepend_number(number as u64, buffer, space)
}

fn write_entry<K: Sink>(sink: &mut K, entry: Entry) -> Result<(), Failed>
    ensures { Writes K.written K.errors K.inners sink.old sink.new (line_text (entry_line entry)) result }
{
    let (fields, count) = fields_of(entry);
    write_line(sink, &fields[..count])
}

// The fields of an entry's line: the first fields of the array, as many as the count says.
#[inline(always)]
#[tactic(auto, unfolding(pct_model::specs::Report::entry_line, pct_model::specs::Report::alt_words))]
fn fields_of(entry: Entry) -> ([Field<'static>; 5], usize)
    ensures count { result.1 ≤ 5 }
    ensures fields { map field_text (take result.1 result.0) ≡ entry_line entry }
{
    let (kind, number, count) = match entry.alt {
        Alt::Go => (Keyword::Go, 0, 4),
        Alt::Act(n) => (Keyword::Act, n, 5),
        Alt::New(n) => (Keyword::New, n, 5),
        Alt::Pick(n) => (Keyword::Pick, n, 5),
        Alt::Dtor(n) => (Keyword::Dtor, n, 5),
        Alt::Expire => (Keyword::Expire, 0, 4),
    };
    let fields = [
        Field::Number(entry.worker),
        Field::Number(entry.pid),
        Field::Number(entry.tid),
        Field::Text(kind.text()),
        Field::Number(number),
    ];
    (fields, count)
}
