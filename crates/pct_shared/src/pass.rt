//! Passes.

use crate::turns::Chair;
use crate::view::Opening;
use std::marker::Model;
use std::snapshot::Snapshot;

/// The right of a worker to take turns on a host. In a contract it is the host and the pass's view: what the worker knows of the history.
/// It has no memory of its own.
#[derive(Drop)]
pub struct Pass {
    pub(crate) seat: Chair,
    number: u32,
    opening: Snapshot<Opening>,
}

impl Model for Pass {
    ghost use Rattle.pct_shared.specs.Passes.{IsAtRest, PassValue, view_on};

    ghost Value = { PassValue };

    ghost view = { λ p. record { host = p.seat.table_id; view = view_on p.opening.value p.seat.me.0 } };

    ghost invariant = { λ p. IsAtRest p.number p.opening.value p.seat.me };
}

impl Pass {
    ghost use Rattle.std.specs.Prelude.{◌≡◌, ◌≤◌, ℕ, false, [], Some};
    ghost use Rattle.pct_model.specs.declared.limits.TheConstants.{MAX_WORKER};
    ghost use Rattle.pct_shared.specs.Views.{new_view};

    /// The pass of a new seat.
    pub(crate) fn new(seat: Chair, number: u32, opening: &Opening) -> Pass
        requires seat { (made : ℕ) × seat.me ≡ (Some (record (new_view opening.now number) { made = made }), []) }
        requires few { number ≤ MAX_WORKER }
        ensures host { result.host ≡ seat.table_id }
        ensures view { seat.me ≡ (Some result.view, []) }
    {
        Pass {
            seat,
            number,
            opening: Snapshot::of(opening),
        }
    }

    /// The seat of the pass.
    pub(crate) fn into_seat(self) -> Chair
        ensures host { result.table_id ≡ self.host }
        ensures view { result.me ≡ (Some self.view, []) }
        ensures rests { (self.view.holding ≡ false) × (self.view.olds ≡ []) }
    {
        self.seat
    }

    /// The number of the worker, from 1 to 16.
    pub fn number(&self) -> u32
        ensures number { result ≡ self.now.view.known.number }
        ensures few { result ≤ MAX_WORKER }
        ensures at_rest { self.now.view.holding ≡ false }
    {
        self.number
    }
}
