//! Tallies: what is counted of the runs of one script under a range of seeds. They are counted of runs, added, written and read.
#![tactic(auto)]

mod count;
mod fault;
mod law;
mod line;
mod range_tally;
mod reader;
mod seed_run;
mod seeds;
mod sum;
mod tally;
mod tally_text;
mod total;

pub use count::{Count, StopCount, Stops};
pub use fault::{TallyFault, TallyWhy};
pub use law::{sums_count_all, tallies_are_spelled, totals_are_one, written_tallies_are_read};
pub use range_tally::{Limits, PlacedTally, RangeTally, Subject};
pub use reader::read_tallies;
pub use seed_run::SeedRun;
pub use seeds::{MAX_TALLIED, Seeds};
pub use sum::{fits, sum_of};
pub use tally::{Tally, tally_of};
pub use tally_text::{write_range_tally, write_tally};
pub use total::total_of;
