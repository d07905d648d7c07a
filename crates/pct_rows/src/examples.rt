//! The outcome of two example scripts.

ghost use Rattle.std.specs.Prelude.{[], ◌∷◌, replicate, codes};
ghost use Rattle.pct_model.specs.Outcome.{Outcome};
ghost use Rattle.pct_rows.specs.Examples.{smallest_text, smallest_report, cleanup_text, cleanup_report, first_goes};

/// An empty function whose contract states two theorems: `run` with the script of `examples/smallest.pct` or
/// `examples/cleanup.pct` as its input, under the schedule in which thread 1 makes every step, exits with code 0 and
/// writes this report.
pub fn worked_examples()
    ensures smallest { Outcome (codes "run" ∷ []) smallest_text (replicate 2 first_goes) 0 smallest_report }
    ensures cleanup { Outcome (codes "run" ∷ []) cleanup_text (replicate 7 first_goes) 0 cleanup_report }
{}
