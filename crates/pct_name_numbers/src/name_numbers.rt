//! A table of the names that were read.

ghost use Rattle.std.specs.Prelude.{◌≡◌, ◌+◌, ◌<◌, ◌≤◌, ℕ, List, [], Some, IfOk, OnOk, OnErr};
ghost use Rattle.pct_model.specs.Names.{index_among};

use pct_io::NoMemory;
use std::alloc::Global;
use std::collections::BTreeMap;

/// The names that were read, which are slices of the text. The number of a name is how many other names occurred before it.
#[derive(Drop)]
pub struct NameNumbers<'a> {
    numbers: BTreeMap<&'a [u8], u32>,
    // How many names there are.
    count: u32,
}

impl<'a> NameNumbers<'a> {
    ghost use Rattle.pct_name_numbers.specs.Numbering.{IsNumbering, count_of, names_with};

    /// No name was read.
    pub fn new(alloc: Global) -> NameNumbers<'a>
        ensures { IsNumbering result [] }
    {
        NameNumbers {
            numbers: BTreeMap::new(alloc),
            count: 0,
        }
    }

    /// Reads a name, and returns its number. There must be fewer than 4,294,967,295 names before.
    pub fn number(&mut self, name: &'a [u8]) -> Result<u32, NoMemory>
        requires { count_of self.old < 4294967295 }
        ensures number { IfOk result (λ number. (names : List (List ℕ)) → IsNumbering self.old names → Some number ≡ index_among (names_with name.now names) name.now) }
        ensures names { OnOk result ((names : List (List ℕ)) → IsNumbering self.old names → IsNumbering self.new (names_with name.now names)) }
        ensures count { OnOk result (count_of self.new ≤ count_of self.old + 1) }
        ensures unchanged { OnErr result ((names : List (List ℕ)) → IsNumbering self.old names → IsNumbering self.new names) }
    {
        match self.numbers.get(name) {
            Some(number) => Ok(*number),
            None => {
                let number = self.count;
                self.numbers.insert(name, number)?;
                self.count = number + 1;
                Ok(number)
            }
        }
    }
}
