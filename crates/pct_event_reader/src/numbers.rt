//! The numbers of the names of a report, each kind of name by itself.

ghost use Rattle.std.specs.Prelude.{◌≡◌, ◌+◌, ◌<◌, ◌≤◌, List, ℕ, IfOk, OnOk, true};
ghost use Rattle.pct_model.specs.EventTexts.{EventNames};
ghost use Rattle.pct_model.specs.Names.{is_name};
ghost use Rattle.pct_name_numbers.specs.EventReading.{no_names};
ghost use Rattle.pct_report_reader.specs.Texts.{is_word};

use crate::value::{Value, positive};
use pct_cancel::point_of;
use pct_io::NoMemory;
use pct_model::SymbolKind;
use pct_name_numbers::NameNumbers;
use pct_report_reader::{WordKind, caller_of, stop_of};
use pct_text::number_of;
use std::alloc::Global;

/// The names that were read: those of functions, mutexes, condition variables, semaphores and once controls.
#[derive(Drop)]
pub(crate) struct EventNumbers<'a> {
    functions: NameNumbers<'a>,
    mutexes: NameNumbers<'a>,
    conds: NameNumbers<'a>,
    sems: NameNumbers<'a>,
    onces: NameNumbers<'a>,
}

impl<'a> EventNumbers<'a> {
    ghost use Rattle.pct_event_reader.specs.Numberings.{IsNumberings, Numbers, name_count};
    ghost use Rattle.pct_event_reader.specs.Values.{field_of, value_of};

    /// No name was read.
    pub(crate) fn new(alloc: Global) -> EventNumbers<'a>
        ensures names { IsNumberings result no_names }
        ensures count { name_count result ≡ 0 }
    {
        EventNumbers {
            functions: NameNumbers::new(alloc),
            mutexes: NameNumbers::new(alloc),
            conds: NameNumbers::new(alloc),
            sems: NameNumbers::new(alloc),
            onces: NameNumbers::new(alloc),
        }
    }

    // Reads a name, and returns its number among the names of its kind. Events have no names of variables.
    fn number(&mut self, kind: SymbolKind, name: &'a [u8]) -> Result<u32, NoMemory>
        requires room { name_count self.old < 4294967295 }
        requires name { is_name name.now ≡ true }
        ensures number { IfOk result (λ number. (names : EventNames) → IsNumberings self.old names → Numbers (field_of kind names name.now) self.new number) }
        ensures count { OnOk result (name_count self.new ≤ name_count self.old + 1) }
    {
        match kind {
            SymbolKind::Function => self.functions.number(name),
            SymbolKind::Mutex => self.mutexes.number(name),
            SymbolKind::Cond => self.conds.number(name),
            SymbolKind::Sem => self.sems.number(name),
            SymbolKind::Once => self.onces.number(name),
            SymbolKind::Global => Ok(0),
        }
    }

    /// Reads a word of a kind. There must be fewer than 4,294,967,295 names before.
    pub(crate) fn value(&mut self, kind: WordKind, word: &'a [u8]) -> Result<Value, NoMemory>
        requires room { name_count self.old < 4294967295 }
        requires kind { is_word kind word.now ≡ true }
        ensures value { IfOk result (λ value. (names : EventNames) → IsNumberings self.old names → Numbers (value_of kind names word.now) self.new value) }
        ensures count { OnOk result (name_count self.new ≤ name_count self.old + 1) }
    {
        Ok(match kind {
            WordKind::Number => Value::Number(number_of(word).unwrap()),
            WordKind::Positive => Value::Number(positive(word)),
            WordKind::Name(kind) => Value::Number(self.number(kind, word)?),
            WordKind::Point => Value::Number(point_of(word).unwrap().index),
            WordKind::Call => Value::Call(caller_of(word).unwrap()),
            WordKind::Word(_) => Value::Word,
            WordKind::Either(first, _) => Value::Flag(first.text() == word),
            WordKind::Stop(class) => Value::Stop(stop_of(class, word).unwrap()),
        })
    }
}
