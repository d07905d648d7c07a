//! The kind of a frame as a number, and as two words: its number, and the index of the once control whose init routine it is.

ghost use Rattle.std.specs.Prelude.{◌≡◌};
ghost use Rattle.pct_threads.specs.FrameWords.{kind_of, kind_number};
ghost use Rattle.pct_threads.specs.StackFrames.{kind_in};

use pct_model::FrameKind;

/// The kind with this number.
#[inline(always)]
pub(crate) fn kind_of(number: u32) -> FrameKind
    ensures { result ≡ kind_of number }
{
    match number {
        0 => FrameKind::Main,
        1 => FrameKind::Start,
        2 => FrameKind::Call,
        3 => FrameKind::PopHandler,
        4 => FrameKind::Handler,
        5 => FrameKind::Destructor,
        6 => FrameKind::ForkFn,
        7 => FrameKind::ExitFn,
        _ => FrameKind::OnceFn(number - 8),
    }
}

/// The kind with this number, if it is below 8; else that of an init routine of this once control.
#[inline(always)]
pub(crate) fn kind_in(number: u32, once: u32) -> FrameKind
    ensures { result ≡ kind_in number once }
{
    match number {
        0 => FrameKind::Main,
        1 => FrameKind::Start,
        2 => FrameKind::Call,
        3 => FrameKind::PopHandler,
        4 => FrameKind::Handler,
        5 => FrameKind::Destructor,
        6 => FrameKind::ForkFn,
        7 => FrameKind::ExitFn,
        _ => FrameKind::OnceFn(once),
    }
}

/// The two words of a kind: its number, which is 8 for each init routine, and the index of its once control.
#[inline(always)]
pub(crate) fn words_of_kind(kind: FrameKind) -> (u32, u32)
    ensures { kind_in result.0 result.1 ≡ kind }
{
    match kind {
        FrameKind::Main => (0, 0),
        FrameKind::Start => (1, 0),
        FrameKind::Call => (2, 0),
        FrameKind::PopHandler => (3, 0),
        FrameKind::Handler => (4, 0),
        FrameKind::Destructor => (5, 0),
        FrameKind::ForkFn => (6, 0),
        FrameKind::ExitFn => (7, 0),
        FrameKind::OnceFn(once) => (8, once),
    }
}

/// The number of a kind, which has 32 bits.
#[inline(always)]
pub(crate) fn kind_number(kind: FrameKind) -> u32
    ensures { result ≡ kind_number kind }
{
    match kind {
        FrameKind::Main => 0,
        FrameKind::Start => 1,
        FrameKind::Call => 2,
        FrameKind::PopHandler => 3,
        FrameKind::Handler => 4,
        FrameKind::Destructor => 5,
        FrameKind::ForkFn => 6,
        FrameKind::ExitFn => 7,
        FrameKind::OnceFn(once) => once.wrapping_add(8),
    }
}
