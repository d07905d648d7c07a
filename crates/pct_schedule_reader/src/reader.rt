//! Reading a schedule, or a prefix of one: the header is found, then each line after it is parsed once, and its entry is
//! stored.

ghost use Rattle.std.specs.Prelude.{◌≡◌, ◌+◌, ◌-◌, ◌<◌, ◌≤◌, ◌^◌, ◌∷◌, ◌++◌, true, length, map, Err, IfSome, IfOk, OnOk, OnErr, []};
ghost use Rattle.std.specs.Option.{option_map};
ghost use Rattle.pct_model.specs.declared.limits.TheConstants.{MAX_INPUT};
ghost use Rattle.pct_model.specs.Lines.{lines_of, strip_cr};
ghost use Rattle.pct_model.specs.Schedule.{entry_in, read_entry, read_end, with_config, sched_of};
ghost use Rattle.pct_schedule.specs.declared.fault.ScheduleFault.TheVariants.{NoMemory};
ghost use Rattle.pct_schedule.specs.Ends.{entries_to, schedule_to};
ghost use Rattle.pct_schedule.specs.Gives.{Gives, GivesAlways};
ghost use Rattle.pct_schedule.specs.Memory.{header_line, entry_is_first, stores_an_entry};
ghost use Rattle.pct_schedule.specs.Prefix.{prefix_of};
ghost use Rattle.pct_schedule.specs.Schedules.{IsSchedule};

use pct_model::{Config, Entry, Format, Keyword, ScheduleWhy, Sequence};
use pct_schedule::{End, ScheduleFault, begins_with, entry_in, header_of, is_end, split_go};
use pct_text::{first_line, strip_cr};
use std::alloc::{AllocError, Global};

/// The entries of a schedule, in order. A contract sees the list.
pub type Entries = Sequence<Entry>;

// The lines after a header: the number of the first of them, and their text.
#[derive(Clone, Copy)]
struct Lines<'a> {
    first: u32,
    text: &'a [u8],
}

// The first line that begins with `schedule `: its number, the line, and the rest of the text after it.
fn find_header(text: &[u8]) -> Option<(u32, &[u8], &[u8])>
    requires { length text.now ≤ MAX_INPUT }
    ensures found { header_line 1 (lines_of text.now)
        ≡ option_map (λ found. (found.0, found.1.now, lines_of found.2.now)) result }
    ensures bound { IfSome result (λ found. found.0 + length found.2.now ≤ MAX_INPUT) }
{
    let mut number = 1;
    let mut rest = text;
    while let Some((raw, after)) = first_line(rest) {
        let line = strip_cr(raw);
        if begins_with(line, Keyword::Schedule) {
            return Some((number, line, after));
        }
        number += 1;
        rest = after;
    }
    None
}

// Line `number` as an entry, after `count` entries.
fn entry_at(number: u32, config: Config, count: usize, line: &[u8]) -> Result<Entry, ScheduleFault>
    ensures { GivesAlways (λ entry. entry) result (read_entry number config.budget count (entry_in config.format line.now)) }
{
    let Some(entry) = entry_in(config.format, line) else {
        return Err(ScheduleFault::Refused {
            line: number,
            why: ScheduleWhy::BadEntry,
        });
    };
    if count < config.budget as usize {
        Ok(entry)
    } else {
        Err(ScheduleFault::Refused {
            line: number,
            why: ScheduleWhy::TooMany,
        })
    }
}

// Line `number` as the last line, after `count` entries.
fn end_at(number: u32, count: usize, line: &[u8], after: &[u8]) -> Result<(), ScheduleFault>
    requires { number < 2 ^ 32 - 1 }
    ensures { GivesAlways (λ _. []) result (read_end number count line.now (lines_of after.now)) }
{
    if !is_end(count, line) {
        return Err(ScheduleFault::Refused {
            line: number,
            why: ScheduleWhy::BadEnd,
        });
    }
    if after.is_empty() {
        Ok(())
    } else {
        Err(ScheduleFault::Refused {
            line: number + 1,
            why: ScheduleWhy::Trailing,
        })
    }
}

// Adds an entry to a list. `AllocError` comes only where it has no room, and then the list stays.
#[inline(always)]
fn add_entry(entries: &mut Vec<Entry>, entry: Entry) -> Result<(), AllocError>
    ensures items { OnOk result (entries.new.items ≡ entries.old.items ++ entry ∷ []) }
    ensures same { OnErr result (entries.new.items ≡ entries.old.items) }
{
    if entries.len() == entries.capacity() {
        entries.reserve(1)?;
    }
    entries.push_reserved(entry);
    Ok(())
}

// The entries down to the line `end N` or, where it is optional, to the end of the text.
#[inline(never)]
fn read_entries(
    alloc: Global,
    config: Config,
    lines: Lines,
    end: End,
) -> Result<Entries, ScheduleFault>
    requires { lines.first + length lines.text.now < 2 ^ 32 }
    ensures read { Gives (λ entries. (config, entries)) result (with_config config
        (entries_to end lines.entry.first config 0 (map strip_cr (lines_of lines.entry.text.now)))) }
    ensures memory { result ≡ Err NoMemory → entry_is_first config.format (lines_of lines.entry.text.now) ≡ true }
{
    let mut entries = Vec::new(alloc);
    let mut number = lines.first;
    let mut rest = lines.text;
    while !rest.is_empty() {
        if let Some((entry, after)) = split_go(rest)
            && entries.len() < config.budget as usize
        {
            add_entry(&mut entries, entry)?;
            number += 1;
            rest = after;
            continue;
        }
        let (raw, after) = first_line(rest).unwrap();
        let line = strip_cr(raw);
        if begins_with(line, Keyword::End) {
            end_at(number, entries.len(), line, after)?;
            return Ok(Sequence::of(entries));
        }
        let entry = entry_at(number, config, entries.len(), line)?;
        add_entry(&mut entries, entry)?;
        number += 1;
        rest = after;
    }
    match end {
        End::Required => Err(ScheduleFault::Refused {
            line: number,
            why: ScheduleWhy::BadEnd,
        }),
        End::Optional => Ok(Sequence::of(entries)),
    }
}

// The configuration and the entries in a text with a header.
fn read_text(alloc: Global, text: &[u8], end: End) -> Result<(Config, Entries), ScheduleFault>
    requires { length text.now ≤ MAX_INPUT }
    ensures read { Gives (λ schedule. (schedule.0, schedule.1)) result (schedule_to end text.now) }
    ensures within { IfOk result (λ schedule. IsSchedule schedule.0 schedule.1) }
    ensures memory { result ≡ Err NoMemory → stores_an_entry text.now ≡ true }
{
    let Some((number, line, after)) = find_header(text) else {
        return Err(ScheduleFault::Refused {
            line: 1,
            why: ScheduleWhy::BadHeader,
        });
    };
    let Some(config) = header_of(line) else {
        return Err(ScheduleFault::Refused {
            line: number,
            why: ScheduleWhy::BadHeader,
        });
    };
    let lines = Lines {
        first: number + 1,
        text: after,
    };
    let entries = read_entries(alloc, config, lines, end)?;
    Ok((config, entries))
}

/// The schedule in a text of at most 16,777,216 bytes, which may be a whole report: the numbers under which the run
/// goes, and its entries.
///
/// The lines before the first line that begins with `schedule ` are skipped. That line is the header, with a format of 1
/// or 2, a budget of 1 to 200,000, 4 to 16 passes and 1 to 64 slots. After the header come the entries, at most as many as
/// the budget, with workers of at most 16; the choice `expire` is one of format 2 alone. The last line is `end` with the
/// number of entries.
///
/// `Refused` names the first fault and its line, counted from 1. `NoMemory` is possible only where an entry is stored:
/// the text has a legal header, and the line after it is an entry.
pub fn read_schedule(alloc: Global, text: &[u8]) -> Result<(Config, Entries), ScheduleFault>
    requires { length text.now ≤ MAX_INPUT }
    ensures read { Gives (λ schedule. (schedule.0, schedule.1)) result (sched_of text.now) }
    ensures within { IfOk result (λ schedule. IsSchedule schedule.0 schedule.1) }
    ensures memory { result ≡ Err NoMemory → stores_an_entry text.now ≡ true }
{
    read_text(alloc, text, End::Required)
}

/// The prefix of a schedule in a text of at most 16,777,216 bytes: the numbers under which the run goes, and its first
/// entries.
///
/// The text is one that `read_schedule` takes, in which the line `end` with the number of entries may be missing: then
/// the entries go to the end of the text. A text with no byte has no entry; its numbers are those of `Config::DEFAULT`, and
/// its format is the one given.
///
/// `Refused` and `NoMemory` are as in `read_schedule`.
pub fn read_prefix(
    alloc: Global,
    text: &[u8],
    format: Format,
) -> Result<(Config, Entries), ScheduleFault>
    requires { length text.now ≤ MAX_INPUT }
    ensures read { Gives (λ schedule. (schedule.0, schedule.1)) result (prefix_of format text.now) }
    ensures within { IfOk result (λ schedule. IsSchedule schedule.0 schedule.1) }
    ensures memory { result ≡ Err NoMemory → stores_an_entry text.now ≡ true }
{
    if text.is_empty() {
        let config = Config {
            format,
            ..Config::DEFAULT
        };
        return Ok((config, Sequence::of(Vec::new(alloc))));
    }
    read_text(alloc, text, End::Optional)
}
