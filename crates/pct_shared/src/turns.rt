//! The rule of the turn, and what each step on the table of a host tells.

use crate::view::{Opening, View};
use atomic_table::{Join, Play, Seat, Split, Table, TableRule};
use pct_engine::Engine;
use std::alloc::Global;

/// The slot of a host: its engine, or nothing while a pass has it.
pub type Slot = Option<Box<Engine>>;

/// What a seat knows: the view of a pass, or nothing once another pass has taken it in.
pub type SeatView = Option<View>;

/// The rule of the turn. No value of it is made.
pub struct Turns;

impl TableRule<Slot, SeatView, Opening> for Turns {
    ghost use Rattle.pct_shared.specs.TurnRule.{KeepsTurn};
    ghost use Rattle.pct_shared.specs.Views.{first_view};
    ghost use Rattle.std.specs.Prelude.{Some};

    ghost holds = { KeepsTurn };

    ghost first = { λ opening. Some (first_view opening) };
}

/// The table of a host.
pub type Desk = Table<Slot, SeatView, Opening, Turns, Global>;

/// The seat of a pass.
pub type Chair = Seat<Slot, SeatView>;

/// The step that takes the turn, or finds it taken.
pub struct Takes;

impl Play<Slot, SeatView> for Takes {
    ghost use Rattle.pct_shared.specs.TurnSteps.{Took};

    ghost then = { λ _ before found after. Took before found after };
}

/// The step that gives the turn back.
pub struct Gives;

impl Play<Slot, SeatView> for Gives {
    ghost use Rattle.pct_shared.specs.TurnSteps.{Gave};

    ghost then = { λ _ before _ after. Gave before after };
}

/// The split that makes the pass of the next worker.
pub struct NextPass;

impl Split<SeatView> for NextPass {
    ghost use Rattle.std.specs.Prelude.{option_map};
    ghost use Rattle.pct_shared.specs.Views.{next_view, without_next};

    ghost left = { option_map without_next };

    ghost right = { option_map next_view };
}

/// The join by which a pass takes another in.
pub struct TakesIn;

impl Join<SeatView> for TakesIn {
    ghost use Rattle.std.specs.Prelude.{None};
    ghost use Rattle.pct_shared.specs.Views.{taken_in};

    ghost both = { taken_in };

    ghost spent = { None };
}
