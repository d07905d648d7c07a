//! Where things stand in a picture, in pixels.

use crate::caption::Caption;
use crate::run::{Row, Run};
use crate::thread::{Thread, bars_up_to};
use crate::waits::Owner;
use pct_io::NoMemory;
use std::alloc::Global;

/// The height of a row.
pub(crate) const ROW_HEIGHT: usize = 18;

/// The height of a line of a name or a wait.
pub(crate) const LINE_HEIGHT: usize = 14;

/// Around the picture, and between its parts.
pub(crate) const MARGIN: usize = 14;

/// The radius of a mark.
pub(crate) const RADIUS: usize = 5;

/// From the middle of a row to the base line of its texts.
pub(crate) const DROP: usize = 4;

// The distance of two bars beside a lane.
const BAR_DISTANCE: usize = 6;

/// The base line of the title.
pub(crate) const TITLE_BASELINE: usize = MARGIN + 8;

/// The most characters of a function's name above a lane.
pub(crate) const FUNCTION_LIMIT: usize = 12;

/// The height of an entry of the legend.
pub(crate) const LEGEND_HEIGHT: usize = 24;

/// The width of an entry of the legend.
pub(crate) const LEGEND_WIDTH: usize = 270;

// From a lane to the text beside it.
const TEXT_GAP: usize = 12;

// The room that a text beside a mark leaves for an arrow.
const ARROW_ROOM: usize = 20;

// The width of a slide, which a picture does not exceed if that can be helped.
const SLIDE: usize = 1280;

// The width of a picture in which the title has room.
const LEAST_WIDTH: usize = 380;

// The least distance of two lanes with texts between.
const WIDE_LANE: usize = 90;

// The least distance of two lanes with names side by side.
const LEVEL_LANE: usize = 70;

// The least distance of two lanes.
const NARROW_LANE: usize = 26;

/// The greatest number of characters of a place.
pub(crate) const PLACE_LIMIT: usize = 24;

// The greatest number of characters of a statement, with few lanes and with more.
const STATEMENT_LIMIT: usize = 48;

const SHORT_STATEMENT_LIMIT: usize = 30;

const FEW_LANES: usize = 4;

/// The greatest number of characters of the name of a mutex.
pub(crate) const MUTEX_LIMIT: usize = 10;

// The number of characters of it that are shown where lanes are close.
const SHORT_MUTEX: usize = 4;

/// The width of the bar of a mutex.
pub(crate) const BAR_WIDTH: usize = 4;

/// The height of the tag of a mutex.
pub(crate) const TAG_HEIGHT: usize = 14;

/// From the sides of the tag of a mutex to its name.
pub(crate) const TAG_MARGIN: usize = 2;

// The words of a pending request at the end of a lane.
pub(crate) const PENDING: &str = "request pending";

// The greatest number of characters of events, and the least to which they are cut so that the picture is no wider than a slide.
const EVENTS_LIMIT: usize = 44;

const LEAST_EVENTS: usize = 10;

// A lane.
#[derive(Clone, Copy)]
struct Lane {
    // Its place.
    place: usize,
    // The row in which its thread comes into being.
    first: usize,
    // The number of characters of the longest events, name or wait, which stand at the right side.
    right: usize,
    // The number of characters of the longest name of a mutex, at the left side.
    left: usize,
    // The number of characters of those at the row with a fork that makes it, where an arrow leads to it.
    forked: usize,
}

impl Lane {
    // The lane of a thread, without its place, its events and its mutexes.
    fn of(thread: &Thread) -> Lane {
        let request = if thread.has_request { PENDING.len() } else { 0 };
        Lane {
            place: 0,
            first: thread.first,
            right: thread.id.len().max(thread.wait.len()).max(request),
            left: 0,
            forked: 0,
        }
    }
}

/// The tags of the mutexes whose bars begin at one position beside a lane.
#[derive(Clone, Copy)]
pub(crate) struct Tags {
    /// The number of characters of those that are counted, with a space after each.
    pub(crate) characters: usize,
    /// The places of all bars.
    places: u32,
}

/// Where the parts of a picture stand.
#[derive(Drop)]
pub(crate) struct Layout {
    // The lane of each thread.
    lanes: Vec<Lane>,
    /// Whether texts beside marks extend over the lanes at their right side.
    pub(crate) is_narrow: bool,
    /// Whether the lanes have no room for their names side by side.
    pub(crate) is_dense: bool,
    /// Where the numbers of the steps end.
    pub(crate) numbers_end: usize,
    /// Where the places begin.
    pub(crate) places: usize,
    /// Where the statements begin.
    pub(crate) statements: usize,
    /// The greatest number of characters of a statement.
    pub(crate) statement_limit: usize,
    // The number of characters of the longest events, cut.
    longest_events: usize,
    // The distance of the lanes in a narrow picture.
    distance: usize,
    // Where the statements end.
    texts_end: usize,
    /// The width of the whole.
    pub(crate) width: usize,
    /// The top of the first row.
    pub(crate) top: usize,
    /// The number of rows that are shown.
    pub(crate) rows: usize,
    /// The number of threads with a text at the end of the lane.
    pub(crate) last_texts: usize,
    /// The number of lines at the end of the lanes.
    pub(crate) last_lines: usize,
    /// The greatest number of characters of a name with its function.
    pub(crate) longest_name: usize,
}

impl Layout {
    /// The layout of the picture of a run.
    pub(crate) fn new(alloc: Global, run: &Run) -> Result<Layout, NoMemory> {
        let mut lanes = Vec::new(alloc);
        for thread in run.threads.iter() {
            lanes.push(Lane::of(thread))?;
        }
        let mut layout = Layout {
            lanes,
            is_narrow: false,
            is_dense: false,
            numbers_end: 0,
            places: 0,
            statements: 0,
            statement_limit: if run.shown_threads > FEW_LANES {
                SHORT_STATEMENT_LIMIT
            } else {
                STATEMENT_LIMIT
            },
            longest_events: 0,
            distance: 0,
            texts_end: 0,
            width: 0,
            top: MARGIN * 5,
            rows: run.shown_rows,
            last_texts: 0,
            last_lines: 0,
            longest_name: 0,
        };
        layout.measure(run);
        Ok(layout)
    }

    // ---- measures

    fn measure(&mut self, run: &Run) {
        for thread in run.threads.iter() {
            self.measure_thread(thread);
        }
        self.measure_rows(run);
        for owner in run.owners.iter() {
            if let (Some(thread), true) = (owner.thread, self.has_bar(run, owner)) {
                let tags = self.tags_below(run, owner, thread);
                let name = owner.name.len().min(MUTEX_LIMIT);
                let characters = tags.characters.saturating_add(name);
                if let Some(lane) = self.lanes.get_mut(thread) {
                    lane.left = lane.left.max(characters);
                    if lane.first == owner.first {
                        lane.forked = lane.forked.max(characters);
                    }
                }
            }
        }
        self.place_lanes(run);
    }

    fn measure_thread(&mut self, thread: &Thread) {
        if thread.is_shown {
            let function = thread.function.len().min(FUNCTION_LIMIT);
            let both = thread.id.len().saturating_add(1).saturating_add(function);
            self.longest_name = self.longest_name.max(both);
            if thread.has_last_text() {
                self.last_texts = self.last_texts.saturating_add(1);
                let request_lines = if thread.has_request { 1 } else { 0 };
                let wait_lines = if thread.wait.is_empty() { 0 } else { 2 };
                self.last_lines = self.last_lines.max(request_lines + wait_lines);
            }
        }
    }

    // Measures the texts of the rows, and places those at the left side.
    fn measure_rows(&mut self, run: &Run) {
        let mut number = 0;
        let mut place = 0;
        let mut statement = 0;
        for row in run.rows.iter() {
            if let (true, Some(thread)) = (row.is_shown, row.thread) {
                number = number.max(row.step.number.len());
                place = place.max(row.place.len()).min(PLACE_LIMIT);
                statement = statement.max(Caption::of_statement(row, self.statement_limit).len());
                if let Some(lane) = self.lanes.get_mut(thread) {
                    let events = Caption::of_events(row, EVENTS_LIMIT);
                    lane.right = lane.right.max(events.total());
                    self.longest_events = self.longest_events.max(lane.right).min(EVENTS_LIMIT);
                }
            }
        }
        self.numbers_end = text_end(MARGIN, number);
        self.places = self.numbers_end.saturating_add(MARGIN);
        self.statements = text_end(self.places, place).saturating_add(TEXT_GAP);
        self.texts_end = text_end(self.statements, statement).saturating_add(MARGIN);
    }

    // ---- lanes

    // Cuts the room of the events until the picture is no wider than a slide. If it would be too short the lanes become narrow.
    fn place_lanes(&mut self, run: &Run) {
        for cut in 0..EVENTS_LIMIT - LEAST_EVENTS + 1 {
            self.place_wide(run, EVENTS_LIMIT - cut);
            if self.width <= SLIDE {
                return;
            }
        }
        self.is_narrow = true;
        self.place_narrow(run);
        if self.distance < LEVEL_LANE {
            self.is_dense = true;
            self.top = text_end(MARGIN * 3, self.longest_name);
        }
    }

    // Between two lanes there is room for the events of the first one and the bars of the second one, or for the names of its mutexes, which
    // stand in other rows.
    fn place_wide(&mut self, run: &Run, limit: usize) {
        let mut place = self.texts_end.saturating_sub(WIDE_LANE / 2);
        let mut end = self.texts_end;
        let mut width = LEAST_WIDTH;
        for (index, thread) in run.threads.iter().enumerate() {
            if !thread.is_shown {
                continue;
            }
            if let Some(lane) = self.lanes.get_mut(index) {
                let bars = left_of(thread.most_owned);
                let names = text_end(bars.saturating_add(RADIUS), lane.left);
                let beside_arrow = text_end(bars, lane.forked);
                place = place
                    .saturating_add(names.max(WIDE_LANE))
                    .max(end.saturating_add(beside_arrow));
                end = text_end(place, lane.right.min(limit)).saturating_add(TEXT_GAP + ARROW_ROOM);
                width = width.max(text_end(place, lane.right).saturating_add(TEXT_GAP + MARGIN));
                lane.place = place;
            }
        }
        self.width = width;
    }

    // Places lanes side by side, with room for the events of the last one.
    fn place_narrow(&mut self, run: &Run) {
        let right = text_end(TEXT_GAP + MARGIN, self.longest_events);
        let room = SLIDE.saturating_sub(self.texts_end).saturating_sub(right);
        self.distance = (room / run.shown_threads.max(1)).clamp(NARROW_LANE, WIDE_LANE);
        let mut place = self.texts_end;
        for (index, thread) in run.threads.iter().enumerate() {
            if !thread.is_shown {
                continue;
            }
            if let Some(lane) = self.lanes.get_mut(index) {
                place = place.saturating_add(self.distance);
                lane.place = place;
            }
        }
        self.width = place.saturating_add(right).max(LEAST_WIDTH);
    }

    /// The place of the lane of this thread.
    pub(crate) fn lane(&self, thread: usize) -> usize {
        match self.lanes.get(thread) {
            Some(lane) => lane.place,
            None => 0,
        }
    }

    /// The left side of what belongs to the lane with this index.
    pub(crate) fn left_edge(&self, index: usize, thread: &Thread) -> usize {
        self.lane(index).saturating_sub(left_of(thread.most_owned))
    }

    /// Where the events of a step stand, and how many characters have room. In a narrow picture they stand beside the last lane that an
    /// arrow of the row concerns, else beside the mark.
    pub(crate) fn events(&self, run: &Run, row: &Row<'_>, thread: usize) -> (usize, usize) {
        let beside = if self.is_narrow { row.reach } else { thread };
        let start = self.lane(beside).saturating_add(TEXT_GAP);
        let end = self.events_end(run, row, beside);
        (start, characters_between(start, end))
    }

    // Up to where the events extend that stand beside a lane: to an arrow, to the tag of a mutex, or to the end of the picture.
    fn events_end(&self, run: &Run, row: &Row<'_>, beside: usize) -> usize {
        for at in beside.saturating_add(1)..self.lanes.len() {
            let tags = self.left_of_tags(run, at, row);
            if !self.is_narrow && row.near == Some(at) {
                let bars = match run.threads.get(at) {
                    Some(thread) => left_of(thread.most_owned),
                    None => 0,
                };
                let edge = self.lane(at).saturating_sub(bars);
                return edge.min(tags).saturating_sub(ARROW_ROOM);
            } else if tags < self.width {
                return tags;
            }
        }
        self.width.saturating_sub(MARGIN)
    }

    /// The next place at the right side of the lane with this index where a lane has a line in this row, or the end of the picture.
    pub(crate) fn next_edge(&self, run: &Run, index: usize, row: usize) -> usize {
        for at in index.saturating_add(1)..run.threads.len() {
            if let Some(thread) = run.threads.get(at) {
                if thread.is_drawn(row) {
                    return self.left_edge(at, thread);
                }
            }
        }
        self.width.saturating_sub(MARGIN)
    }

    // ---- tags of mutexes

    /// Whether the rows in which a mutex has this owner have a place in the picture. Those in which a once control is busy have none.
    pub(crate) fn has_bar(&self, run: &Run, owner: &Owner) -> bool {
        !owner.is_control && self.y(run, owner.first) < self.owner_bottom(run, owner)
    }

    /// Down to where a mutex has this owner.
    pub(crate) fn owner_bottom(&self, run: &Run, owner: &Owner) -> usize {
        match owner.last {
            None => self.bottom(),
            Some(last) => self.y(run, last),
        }
    }

    /// The tags between that of this owner and the lane.
    pub(crate) fn tags_below(&self, run: &Run, owner: &Owner, thread: usize) -> Tags {
        self.tags(run, owner.group, thread, owner.position, owner.place)
    }

    // The tags beside the lane of a thread at a position, counting those of bars that are nearer to the lane than this place.
    fn tags(&self, run: &Run, first: usize, thread: usize, position: usize, place: u32) -> Tags {
        let mut tags = Tags {
            characters: 0,
            places: 0,
        };
        for at in first..run.owners.len() {
            let Some(owner) = run.owners.get(at) else {
                break;
            };
            if owner.position != position {
                break;
            }
            if owner.thread == Some(thread) && self.has_bar(run, owner) {
                tags.places |= owner.place;
                if owner.place < place {
                    let name = owner.name.len().min(MUTEX_LIMIT).saturating_add(1);
                    tags.characters = tags.characters.saturating_add(name);
                }
            }
        }
        tags
    }

    /// Where the tag of a mutex ends: at the last of the bars that begin in its row, and before the tags of those that are nearer to the lane.
    pub(crate) fn tag_end(&self, tags: Tags, thread: usize) -> usize {
        let bars = left_of(bars_up_to(tags.places)).saturating_sub(1);
        self.lane(thread)
            .saturating_sub(bars)
            .saturating_sub(text_end(0, tags.characters))
    }

    /// The left side of the tags that a lane has in a row, or the end of the picture.
    pub(crate) fn left_of_tags(&self, run: &Run, thread: usize, row: &Row<'_>) -> usize {
        let tags = self.tags(run, row.owners, thread, row.position, u32::MAX);
        if run.has_lane(thread) && tags.places > 0 {
            self.tag_end(tags, thread)
        } else {
            self.width
        }
    }

    /// At most how many characters of the name of a mutex are in a tag that ends there. Lanes that are close are covered by a short one.
    pub(crate) fn tag_limit(&self, thread: usize, end: usize) -> usize {
        if self.is_narrow {
            let before = self.lane(thread).saturating_sub(self.distance);
            characters_between(before.saturating_add(RADIUS), end).clamp(SHORT_MUTEX, MUTEX_LIMIT)
        } else {
            MUTEX_LIMIT
        }
    }
}

/// From a lane to the left side of what belongs to it: its marks, and so many bars of mutexes.
pub(crate) fn left_of(bars: usize) -> usize {
    bars.saturating_mul(BAR_DISTANCE).saturating_add(RADIUS + 1)
}

/// Where a text ends: 7.25 pixels for each character, at a font size of 12.
pub(crate) fn text_end(start: usize, characters: usize) -> usize {
    start.saturating_add(characters.saturating_mul(29).div_ceil(4))
}

/// The number of characters that have room between two places.
pub(crate) fn characters_between(start: usize, end: usize) -> usize {
    end.saturating_sub(start).saturating_mul(4) / 29
}
