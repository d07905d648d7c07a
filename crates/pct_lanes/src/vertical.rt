//! Where things stand in a picture from top to bottom, in pixels.

use crate::layout::{DROP, LINE_HEIGHT, Layout, MARGIN, ROW_HEIGHT, text_end};
use crate::run::Run;

// A picture with more rows is long.
const FEW_ROWS: usize = 24;

impl Layout {
    /// The top of the row at this position.
    pub(crate) fn row_top(&self, position: usize) -> usize {
        position.saturating_mul(ROW_HEIGHT).saturating_add(self.top)
    }

    /// The middle of the row at this position.
    pub(crate) fn middle(&self, position: usize) -> usize {
        self.row_top(position).saturating_add(ROW_HEIGHT / 2)
    }

    /// The base line of the texts of the row at this position.
    pub(crate) fn baseline(&self, position: usize) -> usize {
        self.middle(position).saturating_add(DROP)
    }

    /// Where a row is: the middle of one that is shown. One that is left out is between its neighbors, and one past the last step at the
    /// bottom of the lanes.
    pub(crate) fn y(&self, run: &Run, row: usize) -> usize {
        match run.rows.get(row) {
            None => self.bottom(),
            Some(row) if row.is_shown => self.middle(row.position),
            Some(row) => self.row_top(row.position),
        }
    }

    /// The bottom of the lanes. If a text stands at the end of one, the lanes go on for a row.
    pub(crate) fn bottom(&self) -> usize {
        let more = if self.last_texts > 0 { 1 } else { 0 };
        self.row_top(self.rows.saturating_add(more))
    }

    /// Whether a reader of the last rows may not see the first ones.
    pub(crate) fn is_long(&self) -> bool {
        self.rows > FEW_ROWS
    }

    /// The top of the names below the lanes, which stand there in a long picture.
    pub(crate) fn lower_names(&self) -> usize {
        let lines = if self.is_dense { 0 } else { self.last_lines };
        lines
            .saturating_mul(LINE_HEIGHT)
            .saturating_add(self.bottom())
            .saturating_add(DROP * 2)
    }

    /// The base line of the line with this index after the steps.
    pub(crate) fn closing(&self, index: usize) -> usize {
        let names = if !self.is_long() {
            0
        } else if self.is_dense {
            text_end(MARGIN, self.longest_name)
        } else {
            2 * LINE_HEIGHT
        };
        index
            .saturating_mul(ROW_HEIGHT)
            .saturating_add(self.lower_names())
            .saturating_add(names)
            .saturating_add(ROW_HEIGHT)
    }

    /// The base line of the first line of the legend.
    pub(crate) fn legend(&self, run: &Run) -> usize {
        let texts = if self.is_dense { self.last_texts } else { 0 };
        self.closing(run.closing.len().saturating_add(texts))
            .saturating_add(ROW_HEIGHT / 2)
    }
}
