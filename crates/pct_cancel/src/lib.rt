//! Cancelability (XSH 2.9.5): the cancelability of a thread, and the table of cancellation points.
#![tactic(auto)]

mod cancel;
mod point;

pub use cancel::Cancel;
pub use pct_model::{Mode, Point, PointKind, PointWait, State};
pub use point::{POINT_COUNT, point_at, point_name, point_of, write_point, write_points};
