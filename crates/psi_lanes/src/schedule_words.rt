// The words of message schedules.
ghost use Rattle.std.specs.Prelude.{◌≡◌, length, replicate};

use std::simd::u32x8;

/// A word of the message schedule of each of eight blocks. It is a struct of its own so that an
/// `EndBlock` can hold an array of them.
#[derive(Clone, Copy)]
pub(crate) struct ScheduleWord {
    pub(crate) lanes: u32x8,
    ghost eight: { length lanes ≡ 8 },
}

impl ScheduleWord {
    /// Zeros, for room that is to be written over.
    #[inline(always)]
    pub(crate) fn zero() -> ScheduleWord
        ensures { result.lanes ≡ replicate 8 0 }
    {
        ScheduleWord {
            lanes: u32x8::splat(0),
        }
    }
}
