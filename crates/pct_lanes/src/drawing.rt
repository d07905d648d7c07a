//! The picture of a run.

use crate::caption::Caption;
use crate::kinds::{KIND_COUNT, KINDS, Kind};
use crate::layout::{
    DROP, LEGEND_HEIGHT, LEGEND_WIDTH, Layout, MARGIN, ROW_HEIGHT, TITLE_BASELINE,
};
use crate::page::Page;
use crate::run::Run;
use crate::selection::Selection;
use pct_io::NoMemory;
use std::alloc::Global;

// How what has a class looks. A style sheet of the page that has the picture may say otherwise.
const STYLE: &str = "<style>
text{font-family:monospace;font-size:12px;fill:#000;stroke:none}
.title,.closing,.name{font-weight:bold}
.name{text-anchor:middle}
.function{font-weight:normal}
.first,.turned{text-anchor:start}
.lower,.number,.mutex{text-anchor:end}
.number,.place{fill:#555}
.paper{fill:#fff}
.stripe{fill:#f3f3f3}
.ground{fill:#fff;fill-opacity:.8}
.lane,.waiting,.ended{fill:none;stroke:#555;stroke-width:2}
.waiting{stroke-dasharray:6 4}
.ended{stroke-width:1.5;stroke-dasharray:2 3}
.owner{fill:#bbb;stroke:#000;stroke-width:1}
.tag{fill:#fff;stroke:#000;stroke-width:.5}
.arrow{fill:#000;stroke:#000;stroke-width:1}
.fork{stroke-width:3}
.request{stroke-dasharray:6 3}
.signal{stroke-dasharray:2 2}
.end{fill:none;stroke:#000;stroke-width:2}
.mark{fill:#000;stroke:#000;stroke-width:1.5}
.act,.stop{fill:#fff}
</style>
";

/// The picture of a run: an SVG document that shows the same as `lanes`, from the texts of `trace` and of `choices`.
///
/// Each thread has a lane, from the step that makes it to its end, and each step a row. At the left side stands where the thread
/// was, and the statement. A mark in the lane of the thread is the step: its shape says of which kind. The events stand beside it. An arrow
/// leads to a thread that the step makes, signals, or requests the end of, and from the thread that it has joined. A bar ends a lane where the
/// thread ends, and a cross where its process ends in a step of another thread. The lane is dotted from the end of a thread to the last row
/// that has something of it, and dashed while the thread waits. Beside it there is a bar for each mutex that it owns. The verdict stands at
/// the bottom, and what the marks mean. Long texts are cut. What the selection leaves out is not shown.
pub fn picture(
    alloc: Global,
    trace: &[u8],
    choices: &[u8],
    selection: Selection,
) -> Result<Vec<u8>, NoMemory> {
    let run = Run::parse(alloc, trace, choices, selection)?;
    let layout = Layout::new(alloc, &run)?;
    let mut body = Page::new(alloc);
    let mut drawing = Drawing {
        run: &run,
        layout: &layout,
        svg: &mut body,
        has: [false; KIND_COUNT],
    };
    let bottom = drawing.draw();
    let mut document = Page::new(alloc);
    open_document(&mut document, &run, layout.width, bottom);
    document.push_page(&body);
    document.push("</svg>\n");
    document.finish()
}

fn open_document(svg: &mut Page, run: &Run, width: usize, height: usize) {
    svg.push("<?xml version=\"1.0\" encoding=\"UTF-8\"?>\n");
    svg.fill(
        "<svg xmlns=\"http://www.w3.org/2000/svg\" version=\"1.1\" role=\"img\" width=\"%\" height=\"%\" viewBox=\"0 0 % %\">\n",
        &[width, height, width, height],
    );
    svg.push("<title>");
    push_title(svg, run);
    svg.push(
        "</title>\n<desc>The steps of a run from top to bottom, and a lane for each thread from left to right.</desc>\n",
    );
    svg.push(STYLE);
    svg.fill(
        "<rect class=\"paper\" width=\"%\" height=\"%\"/>\n<text class=\"title\" x=\"14\" y=\"%\">",
        &[width, height, TITLE_BASELINE],
    );
    push_title(svg, run);
    svg.push("</text>\n");
}

// The verdict, and which of the steps are shown.
fn push_title(svg: &mut Page, run: &Run) {
    if let Some(verdict) = run.closing.first() {
        svg.push_escaped(verdict, verdict.len());
    }
    let all = run.rows.len();
    let (first, last) = run.selection.range();
    let last = last.min(all);
    let selected = last.saturating_add(1).saturating_sub(first);
    if selected == 0 || selected == all {
        svg.fill(", steps: %", &[all]);
    } else if first == last {
        svg.fill(", step %", &[first]);
    } else {
        svg.fill(", steps % to %", &[first, last]);
    }
    if last < all {
        svg.fill(" of %", &[all]);
    }
    if run.shown_rows < selected || selected == 0 && all > 0 {
        svg.fill(", shown: %", &[run.shown_rows]);
    }
}

/// The picture of a run, while it is drawn.
#[derive(Drop)]
pub(crate) struct Drawing<'a, 't> {
    pub(crate) run: &'a Run<'t>,
    pub(crate) layout: &'a Layout,
    pub(crate) svg: &'a mut Page,
    // Which kinds have been drawn.
    has: [bool; KIND_COUNT],
}

impl Drawing<'_, '_> {
    // Draws all, and returns the height of the picture.
    fn draw(&mut self) -> usize {
        self.draw_stripes();
        self.draw_names();
        self.draw_lanes();
        self.draw_owners();
        self.draw_arrows();
        self.draw_ends();
        self.draw_marks();
        self.draw_texts();
        self.draw_last_texts();
        self.draw_closing();
        self.draw_legend()
    }

    // Every second row is gray.
    fn draw_stripes(&mut self) {
        self.svg.push("<g class=\"stripe\">\n");
        for position in 0..self.layout.rows {
            if position % 2 == 0 {
                self.svg.fill(
                    "<rect y=\"%\" width=\"%\" height=\"%\"/>\n",
                    &[self.layout.row_top(position), self.layout.width, ROW_HEIGHT],
                );
            }
        }
        self.svg.push("</g>\n");
    }

    /// Notes that something of this kind is drawn.
    pub(crate) fn note(&mut self, kind: Kind) {
        if let Some(has) = self.has.get_mut(kind as usize) {
            *has = true;
        }
    }

    fn has_drawn(&self, kind: Kind) -> bool {
        match self.has.get(kind as usize) {
            Some(has) => *has,
            None => false,
        }
    }

    /// Draws a form at a point.
    pub(crate) fn draw_form(&mut self, kind: Kind, x: usize, y: usize) {
        let (class, form, _) = kind.look();
        self.svg.begin("path", class, "\" d=\"M% %", &[x, y]);
        self.svg.push(form);
        self.svg.push("\"/>\n");
        self.note(kind);
    }

    /// Draws a text. Of one that is cut, the first characters and two dots are shown, and a title has all.
    pub(crate) fn draw_text(&mut self, class: &str, x: usize, y: usize, caption: Caption) {
        let total = caption.total();
        let is_cut = total > caption.limit;
        if total == 0 || is_cut && caption.limit < 3 {
            return;
        }
        self.svg
            .begin("text", class, "\" x=\"%\" y=\"%\">", &[x, y]);
        if is_cut {
            self.svg.push("<title>");
            self.push_caption(&caption, total);
            self.svg.push("</title>");
            self.push_caption(&caption, caption.limit.saturating_sub(2));
            self.svg.push("..");
        } else {
            self.push_caption(&caption, total);
        }
        self.svg.push("</text>\n");
    }

    // Adds the first characters of a text.
    fn push_caption(&mut self, caption: &Caption, count: usize) {
        let rest = count.saturating_sub(caption.before.len());
        let last = rest.saturating_sub(caption.text.len());
        self.svg.push_escaped(caption.before, count);
        self.svg.push_escaped(caption.text, rest);
        self.svg.push_escaped(caption.after, last);
    }

    // ---- after the steps

    // The lines after the steps.
    fn draw_closing(&mut self) {
        self.svg.push("<g class=\"closings\">\n");
        for (index, line) in self.run.closing.iter().enumerate() {
            let caption = Caption::new(line, line.len());
            self.draw_text("label closing", MARGIN, self.layout.closing(index), caption);
        }
        self.svg.push("</g>\n");
    }

    // What the kinds that have been drawn mean, in columns. Returns the height of the picture.
    fn draw_legend(&mut self) -> usize {
        let top = self.layout.legend(self.run);
        let columns = (self.layout.width / LEGEND_WIDTH).max(1);
        let mut count: usize = 0;
        self.svg.push("<g class=\"legend\">\n");
        for kind in KINDS.iter() {
            if self.has_drawn(*kind) {
                let x = (count % columns)
                    .saturating_mul(LEGEND_WIDTH)
                    .saturating_add(MARGIN * 2);
                let y = (count / columns)
                    .saturating_mul(LEGEND_HEIGHT)
                    .saturating_add(top);
                let (_, _, words) = kind.look();
                self.draw_form(*kind, x, y.saturating_sub(DROP));
                let caption = Caption::new(words, words.len());
                self.draw_text("label", x.saturating_add(MARGIN * 2), y, caption);
                count = count.saturating_add(1);
            }
        }
        self.svg.push("</g>\n");
        count
            .div_ceil(columns)
            .saturating_mul(LEGEND_HEIGHT)
            .saturating_add(top)
    }
}
