//! The lanes of a picture: their names, when each thread is there, what it owns and when it waits.

use crate::caption::Caption;
use crate::drawing::Drawing;
use crate::kinds::Kind;
use crate::layout::{
    BAR_WIDTH, DROP, FUNCTION_LIMIT, LINE_HEIGHT, PENDING, RADIUS, TAG_HEIGHT, TAG_MARGIN,
    characters_between, left_of, text_end,
};
use crate::thread::{Thread, bars_up_to};
use crate::waits::{Owner, Wait};

// From the middle of a row to the bar of a thread that ends there.
const END_DROP: usize = 8;

impl Drawing<'_, '_> {
    // ---- names

    // In a long picture a lane is named below it too, and where it begins.
    pub(crate) fn draw_names(&mut self) {
        let top = self.layout.top.saturating_sub(DROP * 2);
        let lower = self.layout.lower_names();
        self.svg.push("<g class=\"names\">\n");
        for (index, thread) in self.run.threads.iter().enumerate() {
            if thread.is_shown {
                let lane = self.layout.lane(index);
                if self.layout.is_dense {
                    self.draw_turned_name("name turned", lane, top, thread);
                } else {
                    self.draw_level_name(lane, top, thread);
                }
                if self.layout.is_long() {
                    if self.layout.is_dense {
                        self.draw_turned_name("name turned lower", lane, lower, thread);
                    } else {
                        self.draw_level_name(lane, lower.saturating_add(LINE_HEIGHT * 2), thread);
                    }
                    if !self.layout.is_narrow {
                        self.draw_first_name(index, thread);
                    }
                }
            }
        }
        self.svg.push("</g>\n");
    }

    // The name of a thread, and on the base line below it its function.
    fn draw_level_name(&mut self, lane: usize, baseline: usize, thread: &Thread) {
        let function = Caption::new(thread.function, FUNCTION_LIMIT);
        self.draw_name("name", lane, baseline.saturating_sub(LINE_HEIGHT), thread);
        self.draw_text("name function", lane, baseline, function);
    }

    // The name of a thread and its function, from the bottom to the top.
    fn draw_turned_name(&mut self, class: &str, lane: usize, y: usize, thread: &Thread) {
        self.svg.begin(
            "text",
            class,
            "\" transform=\"translate(% %) rotate(-90)\">%.% ",
            &[
                lane.saturating_add(DROP),
                y,
                thread.id.process,
                thread.id.thread,
            ],
        );
        self.svg.push_escaped(thread.function, FUNCTION_LIMIT);
        self.svg.push("</text>\n");
    }

    // The name of a thread that another one makes, at the beginning of its lane.
    fn draw_first_name(&mut self, index: usize, thread: &Thread) {
        if let (true, Some(row)) = (index > 0, self.run.rows.get(thread.first)) {
            if row.is_shown {
                let x = self.layout.lane(index).saturating_add(RADIUS);
                self.draw_name("name first", x, self.layout.baseline(row.position), thread);
            }
        }
    }

    fn draw_name(&mut self, class: &str, x: usize, y: usize, thread: &Thread) {
        self.svg.begin(
            "text",
            class,
            "\" x=\"%\" y=\"%\">%.%</text>\n",
            &[x, y, thread.id.process, thread.id.thread],
        );
    }

    // ---- lines

    // A line while a thread is there, broken while it waits, and dotted after its end.
    pub(crate) fn draw_lanes(&mut self) {
        self.svg.push("<g class=\"lanes\">\n");
        for wait in self.run.waits.iter() {
            self.draw_wait(wait);
        }
        for (index, thread) in self.run.threads.iter().enumerate() {
            if thread.is_shown {
                self.draw_lane(index, thread);
            }
        }
        self.svg.push("</g>\n");
    }

    // The lane of a thread while it waits, and before that.
    fn draw_wait(&mut self, wait: &Wait) {
        if let Some(thread) = self.run.threads.get(wait.thread) {
            if thread.is_shown {
                let after = self.layout.y(self.run, wait.after);
                let first = self.layout.y(self.run, wait.first);
                let last = self.layout.y(self.run, wait.last);
                self.draw_line("lane", wait.thread, after, first);
                if self.draw_line("waiting", wait.thread, first, last) {
                    self.note(Kind::Waiting);
                }
            }
        }
    }

    // The lane of a thread after its waits. The first thread is there before its first step.
    fn draw_lane(&mut self, index: usize, thread: &Thread) {
        if index == 0 {
            self.draw_line("lane", index, self.layout.top, self.layout.y(self.run, 0));
        }
        let waited = self.layout.y(self.run, thread.waited);
        let bottom = self.lane_bottom(thread);
        self.draw_line("lane", index, waited, bottom);
        if self.draw_line(
            "ended",
            index,
            bottom,
            self.layout.y(self.run, thread.last_seen),
        ) {
            self.note(Kind::Ended);
        }
    }

    // Draws a line in a lane, and returns whether there is one.
    fn draw_line(&mut self, class: &str, index: usize, top: usize, bottom: usize) -> bool {
        if top >= bottom {
            return false;
        }
        let lane = self.layout.lane(index);
        self.svg
            .begin("path", class, "\" d=\"M% %V%\"/>\n", &[lane, top, bottom]);
        true
    }

    fn lane_bottom(&self, thread: &Thread) -> usize {
        match thread.last {
            None => self.layout.bottom(),
            Some(last) if thread.is_cut_off => self.layout.y(self.run, last),
            Some(last) => self.layout.y(self.run, last).saturating_add(END_DROP),
        }
    }

    // A bar where a thread ends, or a cross where it is cut off.
    pub(crate) fn draw_ends(&mut self) {
        self.svg.push("<g class=\"ends\">\n");
        for (index, thread) in self.run.threads.iter().enumerate() {
            if let (true, Some(kind)) = (thread.is_shown, self.end_of(thread)) {
                self.draw_form(kind, self.layout.lane(index), self.lane_bottom(thread));
            }
        }
        self.svg.push("</g>\n");
    }

    // The kind of the end of a thread, if it is shown. One that ends its process has that end.
    fn end_of(&self, thread: &Thread) -> Option<Kind> {
        let row = self.run.rows.get(thread.last?)?;
        if !row.is_shown || row.step.ends_process() && !thread.is_cut_off {
            None
        } else if thread.is_cut_off {
            Some(Kind::CutOff)
        } else {
            Some(Kind::End)
        }
    }

    // ---- mutexes

    // A bar beside the lane of the owner of a mutex, and over the bars a tag with the name of the mutex at the top of each.
    pub(crate) fn draw_owners(&mut self) {
        self.svg.push("<g class=\"owners\">\n");
        for owner in self.run.owners.iter() {
            if let Some(index) = self.bar_of(owner) {
                self.draw_bar(owner, index);
            }
        }
        for owner in self.run.owners.iter() {
            if let Some(index) = self.bar_of(owner) {
                self.draw_tag(owner, index);
            }
        }
        self.svg.push("</g>\n");
    }

    // The index of the thread beside whose lane a mutex has a bar.
    fn bar_of(&self, owner: &Owner) -> Option<usize> {
        let index = owner.thread?;
        if self.run.has_lane(index) && self.layout.has_bar(self.run, owner) {
            Some(index)
        } else {
            None
        }
    }

    fn draw_bar(&mut self, owner: &Owner, index: usize) {
        let top = self.layout.y(self.run, owner.first);
        let bottom = self.layout.owner_bottom(self.run, owner);
        let place = bars_up_to(owner.place);
        let left = self
            .layout
            .lane(index)
            .saturating_sub(left_of(place).saturating_sub(1));
        self.svg.fill(
            "<rect class=\"owner\" x=\"%\" y=\"%\" width=\"%\" height=\"%\"/>\n",
            &[left, top, BAR_WIDTH, bottom.saturating_sub(top)],
        );
        self.note(Kind::Owner);
    }

    // The tag of a mutex is in the first row that is shown of its bar. Several tags in one row are in the order of their bars.
    fn draw_tag(&mut self, owner: &Owner, index: usize) {
        let tags = self.layout.tags_below(self.run, owner, index);
        let end = self.layout.tag_end(tags, index);
        let limit = self.layout.tag_limit(index, end);
        let name = Caption::new(owner.name, limit);
        let width = text_end(TAG_MARGIN * 2, name.len());
        let baseline = self.layout.baseline(owner.position);
        self.svg.fill(
            "<rect class=\"tag\" x=\"%\" y=\"%\" width=\"%\" height=\"%\"/>\n",
            &[
                end.saturating_sub(width),
                baseline.saturating_sub(DROP).saturating_sub(TAG_HEIGHT / 2),
                width,
                TAG_HEIGHT,
            ],
        );
        self.draw_text(
            "label mutex",
            end.saturating_sub(TAG_MARGIN),
            baseline,
            name,
        );
    }

    // ---- after the last step

    // What each thread waits for, and whether its end is requested, below its lane; if the lanes have no room below the other lines after the
    // steps.
    pub(crate) fn draw_last_texts(&mut self) {
        self.svg.push("<g class=\"waits\">\n");
        let mut line = self.run.closing.len();
        for (index, thread) in self.run.threads.iter().enumerate() {
            if thread.has_last_text() {
                if self.layout.is_dense {
                    self.draw_last_line(thread, self.layout.closing(line));
                    line = line.saturating_add(1);
                } else {
                    self.draw_last_texts_below(thread, index);
                }
            }
        }
        self.svg.push("</g>\n");
    }

    fn draw_last_line(&mut self, thread: &Thread, y: usize) {
        self.svg.fill(
            "<text class=\"label wait\" x=\"14\" y=\"%\">%.% ",
            &[y, thread.id.process, thread.id.thread],
        );
        self.svg.push_escaped(thread.wait, thread.wait.len());
        if thread.has_request {
            let both = if thread.wait.is_empty() { "" } else { ", " };
            self.svg.push(both);
            self.svg.push(PENDING);
        }
        self.svg.push("</text>\n");
    }

    // A wait is in one line, or in two if that has no room, and a request in a line of its own.
    fn draw_last_texts_below(&mut self, thread: &Thread, index: usize) {
        let x = self.layout.lane(index).saturating_sub(RADIUS);
        let limit = characters_between(x, self.next_last_text(index));
        let second = thread.wait.strip_prefix("waits for ").unwrap_or("");
        let mut y = self.layout.bottom().saturating_add(LINE_HEIGHT);
        if thread.has_request {
            self.draw_text("label wait", x, y, Caption::new(PENDING, limit));
            y = y.saturating_add(LINE_HEIGHT);
        }
        if thread.wait.len() <= limit || second.is_empty() {
            self.draw_text("label wait", x, y, Caption::new(thread.wait, limit));
        } else {
            self.draw_text("label wait", x, y, Caption::new("waits for", limit));
            self.draw_text(
                "label wait",
                x,
                y.saturating_add(LINE_HEIGHT),
                Caption::new(second, limit),
            );
        }
    }

    // Where the next lane with a text at its end begins, or the end of the picture.
    fn next_last_text(&self, index: usize) -> usize {
        for at in index.saturating_add(1)..self.run.threads.len() {
            if let Some(thread) = self.run.threads.get(at) {
                if thread.has_last_text() {
                    return self.layout.lane(at).saturating_sub(RADIUS * 2);
                }
            }
        }
        self.layout.width.saturating_sub(RADIUS)
    }
}
