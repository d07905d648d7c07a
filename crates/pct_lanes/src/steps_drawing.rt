//! The steps of a picture: marks, arrows and texts.

use crate::caption::Caption;
use crate::drawing::Drawing;
use crate::kinds::Kind;
use crate::layout::{PLACE_LIMIT, RADIUS, ROW_HEIGHT, left_of, text_end};
use crate::run::{Arrow, Row};

// From a lane to the ends of an arrow which the lane interrupts.
const GAP: usize = 4;

// From a text to the arrow that begins or ends there.
const ARROW_GAP: usize = 4;

impl Drawing<'_, '_> {
    // ---- marks

    // The mark of each step. Below one with which a process ends there are two bars.
    pub(crate) fn draw_marks(&mut self) {
        self.svg.push("<g class=\"marks\">\n");
        for row in self.run.rows.iter() {
            if let (true, Some(thread)) = (row.is_shown, row.thread) {
                let lane = self.layout.lane(thread);
                let y = self.layout.middle(row.position);
                if row.step.ends_process() {
                    self.draw_form(Kind::ProcessEnd, lane, y.saturating_add(RADIUS * 2));
                }
                self.draw_form(row.kind, lane, y);
            }
        }
        self.svg.push("</g>\n");
    }

    // ---- arrows

    pub(crate) fn draw_arrows(&mut self) {
        self.svg.push("<g class=\"arrows\">\n");
        for arrow in self.run.arrows.iter() {
            if let Some(row) = self.run.rows.get(arrow.row) {
                if row.is_shown {
                    self.draw_arrow(arrow, row);
                }
            }
        }
        self.svg.push("</g>\n");
    }

    fn draw_arrow(&mut self, arrow: &Arrow, row: &Row) {
        let first = arrow.from.min(arrow.to);
        let last = arrow.from.max(arrow.to);
        if first < last && self.run.has_lane(first) && self.run.has_lane(last) {
            let left = self.right_of_mark(first, row);
            let bars = left_of(arrow.bars);
            let right = self
                .layout
                .lane(last)
                .saturating_sub(bars)
                .min(self.layout.left_of_tags(self.run, last, row));
            self.draw_arrow_between(arrow, row, left, right);
        }
    }

    // Where an arrow at the right side of the lane of this thread begins or ends. If the step is made by the thread its events stand before.
    fn right_of_mark(&self, thread: usize, row: &Row) -> usize {
        let (start, limit) = self.layout.events(self.run, row, thread);
        let events = Caption::of_events(row, limit).len();
        if self.layout.is_narrow || row.thread != Some(thread) || events == 0 {
            self.layout.lane(thread).saturating_add(RADIUS)
        } else {
            text_end(start, events).saturating_add(ARROW_GAP)
        }
    }

    // An arrow in its row, from the left to the right place. It is interrupted at the lanes between these two.
    fn draw_arrow_between(&mut self, arrow: &Arrow, row: &Row, left: usize, right: usize) {
        let y = self.layout.y(self.run, arrow.row);
        let (class, _, _) = arrow.kind.look();
        self.note(arrow.kind);
        self.svg.begin("path", class, "\" d=\"M% %", &[left, y]);
        for at in arrow.from.min(arrow.to).saturating_add(1)..arrow.from.max(arrow.to) {
            if let Some(thread) = self.run.threads.get(at) {
                let tags = self.layout.left_of_tags(self.run, at, row);
                let edge = self.layout.left_edge(at, thread).min(tags);
                if thread.is_drawn(arrow.row) && left < edge {
                    let after = self.layout.lane(at).saturating_add(GAP);
                    self.svg.fill("H%M% %", &[edge, after, y]);
                }
            }
        }
        let (to_right, to_left) = arrow.kind.heads();
        let head = if arrow.from < arrow.to {
            (right, to_right)
        } else {
            (left, to_left)
        };
        self.svg.fill("H%M% %", &[right, head.0, y]);
        self.svg.push(head.1);
        self.svg.push("\"/>\n");
    }

    // ---- texts

    // The texts of each row: at the left side the number, the place and the statement; and the events.
    pub(crate) fn draw_texts(&mut self) {
        self.svg.push("<g class=\"texts\">\n");
        for (index, row) in self.run.rows.iter().enumerate() {
            if row.is_shown {
                let y = self.layout.baseline(row.position);
                let number = Caption::new(row.step.number, row.step.number.len());
                let place = Caption::new(row.place, PLACE_LIMIT);
                let statement = Caption::of_statement(row, self.layout.statement_limit);
                self.draw_text("label number", self.layout.numbers_end, y, number);
                self.draw_text("label place", self.layout.places, y, place);
                self.draw_text("label statement", self.layout.statements, y, statement);
                if let Some(thread) = row.thread {
                    self.draw_events(index, row, thread);
                }
            }
        }
        self.svg.push("</g>\n");
    }

    // The events of a step. Where they extend over lanes these are pale.
    fn draw_events(&mut self, index: usize, row: &Row, thread: usize) {
        let (x, limit) = self.layout.events(self.run, row, thread);
        let events = Caption::of_events(row, limit);
        let top = self.layout.row_top(row.position);
        let width = text_end(0, events.len());
        let edge = self.layout.next_edge(self.run, thread, index);
        if width > 0 && (self.layout.is_narrow || x.saturating_add(width) > edge) {
            self.svg.fill(
                "<rect class=\"ground\" x=\"%\" y=\"%\" width=\"%\" height=\"%\"/>\n",
                &[x, top, width, ROW_HEIGHT],
            );
        }
        self.draw_text(
            "label events",
            x,
            self.layout.baseline(row.position),
            events,
        );
    }
}
