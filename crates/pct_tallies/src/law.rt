//! The laws of the sums and of the texts of tallies.

ghost use Rattle.pct_tallies.specs.SumLaws.{SumsCountAll};
ghost use Rattle.pct_tallies.specs.Totals.{TotalsAreOne};
ghost use Rattle.pct_tallies.specs.TextLaws.{ReadIsSpelled, SpelledIsRead};

/// An empty function whose contract states a theorem: the tally of some runs and of others is the sum of their tallies.
pub fn sums_count_all()
    ensures { SumsCountAll }
{}

/// An empty function whose contract states a theorem: the text of tallies of ranges, one after the other, is read as these tallies.
pub fn written_tallies_are_read()
    ensures { SpelledIsRead }
{}

/// An empty function whose contract states a theorem: a text that is read as tallies has their lines, one after the other, and no others.
pub fn tallies_are_spelled()
    ensures { ReadIsSpelled }
{}

/// An empty function whose contract states a theorem: tallies of ranges have one sum, or one fault.
pub fn totals_are_one()
    ensures { TotalsAreOne }
{}
