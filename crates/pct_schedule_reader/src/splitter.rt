//! The two parts of an input of `replay`: the script and the schedule.

ghost use Rattle.std.specs.Prelude.{◌≡◌, ◌≤◌, length};
ghost use Rattle.pct_model.specs.Schedule.{replay_parts};

use pct_text::{first_line, strip_cr};

/// Where the script of an input ends, and where the text after the first line `%%` begins. Without such a line both are
/// the input's length.
pub fn split_replay(input: &[u8]) -> (usize, usize)
    ensures parts { result ≡ replay_parts input.now }
    ensures within { (result.0 ≤ length input.now) × (result.1 ≤ length input.now) }
{
    let mut rest = input;
    while let Some((raw, after)) = first_line(rest) {
        if strip_cr(raw) == b"%%".as_slice() {
            return (input.len() - rest.len(), input.len() - after.len());
        }
        rest = after;
    }
    (input.len(), input.len())
}
