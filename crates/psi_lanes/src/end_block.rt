// A block that many messages end in.
ghost use Rattle.std.specs.Prelude.{◌≡◌, ◌<◌, ℕ};
ghost use Rattle.psi_lanes.specs.Rounds.{IsScheduled, word_list};
ghost use Rattle.psi_lanes.specs.Digests.{AreDigestsWith};

use crate::digests::{digests, initial};
use crate::rounds::{compress, compress_scheduled};
use crate::schedule_words::ScheduleWord;
use crate::schedules::{Schedule, Schedules, extend, write_first_words};
use std::marker::Model;

// The message schedule of a block, in each lane (6.2.2, step 1).
fn whole_schedule(block: &[u8; 64]) -> Schedule
    ensures { (j : ℕ) → j < 8 → IsScheduled 64 block.now (word_list j result) }
{
    let mut words = [ScheduleWord::zero(); 64];
    write_first_words(&[*block; 8], &mut words);
    for t in 16..64 {
        extend(&mut words, t);
    }
    words
}

/// A block of 64 bytes that many messages end in, with its message schedule, which is computed once.
/// Messages of one length from 56 to 63 bytes end so: their second block is only padding (5.1.1).
#[derive(Drop)]
pub struct EndBlock {
    bytes: [u8; 64],
    words: Schedule,
}

impl Model for EndBlock {
    ghost use Rattle.std.specs.Prelude.{◌<◌, ℕ, List};
    ghost use Rattle.psi_lanes.specs.Rounds.{IsScheduled, word_list};

    ghost Value = { List ℕ };

    ghost view = { λ b. b.bytes };

    ghost invariant = { λ b. (j : ℕ) → j < 8 → IsScheduled 64 b.bytes (word_list j b.words) };
}

impl EndBlock {
    /// The block of these bytes.
    pub fn new(bytes: &[u8; 64]) -> EndBlock
        ensures { result ≡ bytes.now }
    {
        EndBlock {
            bytes: *bytes,
            words: whole_schedule(bytes),
        }
    }

    /// The digests of eight messages, each of which is, with its padding, a first block of 64 bytes
    /// and this one.
    pub fn digests(&self, first: &[[u8; 64]; 8], room: &mut Schedules) -> [[u8; 32]; 8]
        ensures { AreDigestsWith self.now first.now result }
    {
        write_first_words(first, &mut room.words);
        let state = compress(&initial(), &mut room.words);
        digests(&compress_scheduled(&state, &self.words))
    }
}
