// The digests of eight messages.
ghost use Rattle.std.specs.Prelude.{◌≡◌, ◌<◌, ◌≤◌, ◌+◌, ◌*◌, ℕ, [], slice_index_or};
ghost use Rattle.sha2.specs.Sha256.{initial_hash_256, digest_bytes};
ghost use Rattle.psi_lanes.specs.Lanes.{AreLanes, lane};
ghost use Rattle.psi_lanes.specs.Digests.{AreDigests};

use crate::constants::INITIAL;
use crate::rounds::{State, compress};
use crate::schedules::{Schedules, write_first_words};
use std::simd::u32x8;

/// The initial hash value of each message.
#[inline(always)]
pub(crate) fn initial() -> State
    ensures lanes { AreLanes 8 result }
    ensures value { (j : ℕ) → j < 8 → lane j result ≡ initial_hash_256 }
{
    [
        u32x8::splat(INITIAL[0]),
        u32x8::splat(INITIAL[1]),
        u32x8::splat(INITIAL[2]),
        u32x8::splat(INITIAL[3]),
        u32x8::splat(INITIAL[4]),
        u32x8::splat(INITIAL[5]),
        u32x8::splat(INITIAL[6]),
        u32x8::splat(INITIAL[7]),
    ]
}

// The hash value of message `j`.
#[inline(always)]
fn hash_value(state: &State, j: usize) -> [u32; 8]
    requires state { AreLanes 8 state.now }
    requires j { j < 8 }
    ensures { result ≡ lane j state.now }
{
    [
        state[0].to_array()[j],
        state[1].to_array()[j],
        state[2].to_array()[j],
        state[3].to_array()[j],
        state[4].to_array()[j],
        state[5].to_array()[j],
        state[6].to_array()[j],
        state[7].to_array()[j],
    ]
}

// The bytes of a hash value, high byte first.
#[inline(always)]
fn digest(hash_value: [u32; 8]) -> [u8; 32]
    ensures { result ≡ digest_bytes hash_value 8 }
{
    let mut bytes = [0; 32];
    for i in 0..8 {
        bytes[4 * i..4 * i + 4].copy_from_slice(&hash_value[i].to_be_bytes());
    }
    bytes
}

/// The digests that the hash values are.
#[inline(always)]
pub(crate) fn digests(state: &State) -> [[u8; 32]; 8]
    requires { AreLanes 8 state.now }
    ensures { (j : ℕ) → j < 8 → slice_index_or result j [] ≡ digest_bytes (lane j state.now) 8 }
{
    [
        digest(hash_value(state, 0)),
        digest(hash_value(state, 1)),
        digest(hash_value(state, 2)),
        digest(hash_value(state, 3)),
        digest(hash_value(state, 4)),
        digest(hash_value(state, 5)),
        digest(hash_value(state, 6)),
        digest(hash_value(state, 7)),
    ]
}

/// The digests of eight messages of 56 to 119 bytes, each of which is, with its padding (5.1.1), a
/// first block of 64 bytes and a second one.
pub fn digests_of_two_blocks(
    first: &[[u8; 64]; 8],
    second: &[[u8; 64]; 8],
    room: &mut Schedules,
) -> [[u8; 32]; 8]
    ensures { AreDigests first.now second.now result }
{
    write_first_words(first, &mut room.words);
    let state = compress(&initial(), &mut room.words);
    write_first_words(second, &mut room.words);
    digests(&compress(&state, &mut room.words))
}
