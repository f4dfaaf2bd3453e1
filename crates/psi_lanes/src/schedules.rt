// The message schedules of eight blocks (6.2.2, step 1).
ghost use Rattle.std.specs.Prelude.{◌≡◌, ◌<◌, ◌≤◌, ◌+◌, ◌*◌, ℕ, List, [], length, slice_index, slice_index_or};
ghost use Rattle.sha2.specs.Sha256.{word_at as word_at_of};
ghost use Rattle.psi_lanes.specs.Rounds.{IsScheduled, word_list};

use crate::operators::{add, small_sigma0, small_sigma1};
use crate::schedule_words::ScheduleWord;
use std::simd::u32x8;

/// The message schedules of eight blocks, W 0 to W 63.
pub(crate) type Schedule = [ScheduleWord; 64];

/// Room for the message schedules of eight blocks, which each call writes over. It is made once for
/// many calls, so that none of them has to clear it.
#[derive(Drop)]
pub struct Schedules {
    pub(crate) words: Schedule,
}

impl Schedules {
    /// Room that is cleared.
    pub fn new() -> Schedules {
        Schedules {
            words: [ScheduleWord::zero(); 64],
        }
    }
}

// The word at byte `at` of a block (5.2.1).
#[inline(always)]
fn word_at(block: &[u8; 64], at: usize) -> u32
    requires { at + 4 ≤ 64 }
    ensures { result ≡ word_at_of block.now at }
{
    u32::from_be_bytes([block[at], block[at + 1], block[at + 2], block[at + 3]])
}

// The word at byte `at` of each block.
#[inline(always)]
fn words_at(blocks: &[[u8; 64]; 8], at: usize) -> u32x8
    requires { at + 4 ≤ 64 }
    ensures length { length result ≡ 8 }
    ensures value { (j : ℕ) → j < 8 → slice_index result j ≡ word_at_of (slice_index_or blocks.now j []) at }
{
    u32x8::from_array([
        word_at(&blocks[0], at),
        word_at(&blocks[1], at),
        word_at(&blocks[2], at),
        word_at(&blocks[3], at),
        word_at(&blocks[4], at),
        word_at(&blocks[5], at),
        word_at(&blocks[6], at),
        word_at(&blocks[7], at),
    ])
}

/// Writes the first 16 words of each block to the front of schedules.
#[inline(always)]
pub(crate) fn write_first_words(blocks: &[[u8; 64]; 8], words: &mut Schedule)
    ensures { (j : ℕ) → j < 8 → IsScheduled 16 (slice_index_or blocks.now j []) (word_list j words.new) }
{
    for i in 0..16 {
        words[i] = ScheduleWord {
            lanes: words_at(blocks, 4 * i),
        };
    }
}

/// Writes word `t` of the schedules, which the words before it give (step 1).
#[inline(always)]
pub(crate) fn extend(w: &mut Schedule, t: usize)
    requires low { 16 ≤ t }
    requires high { t < 64 }
    ensures { (j : ℕ) → j < 8 → (b : List ℕ) →
        IsScheduled t b (word_list j w.old) → IsScheduled (t + 1) b (word_list j w.new) }
{
    let lanes = add(
        add(
            add(small_sigma1(w[t - 2].lanes), w[t - 7].lanes),
            small_sigma0(w[t - 15].lanes),
        ),
        w[t - 16].lanes,
    );
    w[t] = ScheduleWord { lanes };
}
