//! Frames of a thread's stack.

use crate::state::FrameKind;

/// A frame: the function's index, the program counter (the index in its body of the statement to execute next), the
/// locals, of which those that the function does not declare are 0, and why the function was called.
#[derive(Clone, Copy, Debug, Default)]
pub struct Frame {
    pub func: u32,
    pub pc: u32,
    pub locals: [u32; 8],
    pub kind: FrameKind,
}
