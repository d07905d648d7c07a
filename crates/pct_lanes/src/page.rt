//! The text of a view.

use pct_io::NoMemory;
use std::alloc::Global;
use std::fmt;

/// A text that grows. If there is no memory for a part of it, `finish` says so.
#[derive(Drop)]
pub(crate) struct Page {
    text: String,
    is_whole: bool,
}

impl Page {
    /// An empty page.
    pub(crate) fn new(alloc: Global) -> Page {
        Page {
            text: String::new(alloc),
            is_whole: true,
        }
    }

    /// Makes room for so many bytes.
    pub(crate) fn reserve(&mut self, count: usize) -> Result<(), NoMemory> {
        self.text.reserve(count)?;
        Ok(())
    }

    /// Adds a text.
    pub(crate) fn push(&mut self, text: &str) {
        if self.text.push_str(text).is_err() {
            self.is_whole = false;
        }
    }

    /// Adds at most so many characters of a text of SVG.
    pub(crate) fn push_escaped(&mut self, text: &str, count: usize) {
        for character in text.chars().take(count) {
            self.push_character(character);
        }
    }

    /// Adds the beginning of an element of SVG: its name, its class, and a form with these values.
    pub(crate) fn begin(&mut self, name: &str, class: &str, form: &str, values: &[usize]) {
        self.push("<");
        self.push(name);
        self.push(" class=\"");
        self.push(class);
        self.fill(form, values);
    }

    // Adds a character of a text of SVG. One that is no visible ASCII character is shown as `?`.
    fn push_character(&mut self, character: char) {
        match character {
            '&' => self.push("&amp;"),
            '<' => self.push("&lt;"),
            '>' => self.push("&gt;"),
            ' '..='~' => write!(self, "{character}"),
            _ => self.push("?"),
        }
    }

    /// Adds a form. Each `%` in it stands for the next of the values.
    pub(crate) fn fill(&mut self, form: &str, values: &[usize]) {
        let mut values = values.iter();
        for part in form.split('%') {
            self.push(part);
            if let Some(value) = values.next() {
                write!(self, "{value}");
            }
        }
    }

    /// Adds what `write!` formats.
    pub(crate) fn write_fmt<D: fmt::Display + Drop>(&mut self, formatted: D) {
        if self.text.write_fmt(formatted).is_err() {
            self.is_whole = false;
        }
    }

    /// Adds a page.
    pub(crate) fn push_page(&mut self, page: &Page) {
        self.push(page.text.as_str());
        self.is_whole = self.is_whole && page.is_whole;
    }

    /// The bytes of the text.
    pub(crate) fn finish(self) -> Result<Vec<u8>, NoMemory> {
        if self.is_whole {
            Ok(self.text.into_bytes())
        } else {
            Err(NoMemory)
        }
    }
}
