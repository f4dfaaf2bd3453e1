// The rounds on a block of each of eight messages (6.2.2).
ghost use Rattle.std.specs.Prelude.{◌≡◌, ◌<◌, ◌≤◌, ◌+◌, ◌*◌, ℕ, List, length, slice_index};
ghost use Rattle.sha2.specs.Sha256.{round as round_of, rounds, schedule, compress as compress_of, add_state as add_state_of};
ghost use Rattle.psi_lanes.specs.Lanes.{AreLanes, lane};
ghost use Rattle.psi_lanes.specs.Rounds.{IsScheduled, IsAfterRounds, word_list};

use crate::constants::ROUND_CONSTANTS;
use crate::operators::{add, big_sigma0, big_sigma1, ch, maj};
use crate::schedules::{Schedule, extend};
use std::simd::u32x8;

/// The eight words of eight hash values, or the working variables a to h of eight blocks.
pub(crate) type State = [u32x8; 8];

// One round, with its constant and its word of each schedule (step 3).
#[inline(always)]
fn round(v: State, constant: u32, word: u32x8) -> State
    requires v { AreLanes 8 v }
    requires word { length word ≡ 8 }
    ensures lanes { AreLanes 8 result }
    ensures value { (j : ℕ) → j < 8 → lane j result ≡ round_of (lane j v) constant (slice_index word j) }
{
    let [a, b, c, d, e, f, g, h] = v;
    let temp1 = add(
        add(
            add(add(h, big_sigma1(e)), ch(e, f, g)),
            u32x8::splat(constant),
        ),
        word,
    );
    let temp2 = add(big_sigma0(a), maj(a, b, c));
    [add(temp1, temp2), a, b, c, add(d, temp1), e, f, g]
}

// Round `t`, counted from 0.
#[inline(always)]
fn round_at(v: State, w: &Schedule, t: usize) -> State
    requires v { AreLanes 8 v }
    requires t { t < 64 }
    ensures lanes { AreLanes 8 result }
    ensures value { (j : ℕ) → j < 8 → (b h : List ℕ) → IsScheduled (t + 1) b (word_list j w.now)
        → lane j v ≡ rounds h (schedule b 48) t → lane j result ≡ rounds h (schedule b 48) (t + 1) }
{
    round(v, ROUND_CONSTANTS[t], w[t].lanes)
}

// Round `t`, after word `t + 16` of the schedules, which a round 16 later takes, was written.
#[inline(always)]
fn step(v: State, w: &mut Schedule, t: usize) -> State
    requires v { AreLanes 8 v }
    requires t { t < 48 }
    ensures lanes { AreLanes 8 result }
    ensures value { (j : ℕ) → j < 8 → (b h : List ℕ) → IsAfterRounds b h (word_list j w.old) (lane j v) t
        → IsAfterRounds b h (word_list j w.new) (lane j result) (t + 1) }
{
    extend(w, t + 16);
    round_at(v, w, t)
}

// Rounds `t` to `t + 3`, each after the word that a round 16 later takes.
#[inline(always)]
fn four_steps(v: State, w: &mut Schedule, t: usize) -> State
    requires v { AreLanes 8 v }
    requires t { t + 4 ≤ 48 }
    ensures lanes { AreLanes 8 result }
    ensures value { (j : ℕ) → j < 8 → (b h : List ℕ) → IsAfterRounds b h (word_list j w.old) (lane j v) t
        → IsAfterRounds b h (word_list j w.new) (lane j result) (t + 4) }
{
    let v = step(v, w, t);
    let v = step(v, w, t + 1);
    let v = step(v, w, t + 2);
    step(v, w, t + 3)
}

// Rounds `t` to `t + 3`, with the whole schedules.
#[inline(always)]
fn four_rounds(v: State, w: &Schedule, t: usize) -> State
    requires v { AreLanes 8 v }
    requires t { t + 4 ≤ 64 }
    ensures lanes { AreLanes 8 result }
    ensures value { (j : ℕ) → j < 8 → (b h : List ℕ) → IsScheduled 64 b (word_list j w.now)
        → lane j v ≡ rounds h (schedule b 48) t → lane j result ≡ rounds h (schedule b 48) (t + 4) }
{
    let v = round_at(v, w, t);
    let v = round_at(v, w, t + 1);
    let v = round_at(v, w, t + 2);
    round_at(v, w, t + 3)
}

// The sums of the hash values and the working variables, word by word (step 4).
#[inline(always)]
fn add_state(h: &State, v: &State) -> State
    requires h { AreLanes 8 h.now }
    requires v { AreLanes 8 v.now }
    ensures lanes { AreLanes 8 result }
    ensures value { (j : ℕ) → j < 8 → lane j result ≡ add_state_of (lane j h.now) (lane j v.now) }
{
    [
        add(h[0], v[0]),
        add(h[1], v[1]),
        add(h[2], v[2]),
        add(h[3], v[3]),
        add(h[4], v[4]),
        add(h[5], v[5]),
        add(h[6], v[6]),
        add(h[7], v[7]),
    ]
}

// The hash values after a block of each message, from the hash values before it and the working
// variables after the first `4 * turns` of its 64 rounds.
#[inline(always)]
fn finished(h: &State, v: &State, w: &Schedule, turns: usize) -> State
    requires h { AreLanes 8 h.now }
    requires v { AreLanes 8 v.now }
    requires turns { turns ≤ 16 }
    ensures lanes { AreLanes 8 result }
    ensures value { (j : ℕ) → j < 8 → (b : List ℕ) → IsScheduled 64 b (word_list j w.now)
        → lane j v.now ≡ rounds (lane j h.now) (schedule b 48) (4 * turns)
        → lane j result ≡ compress_of (lane j h.now) b }
{
    let mut v = *v;
    for turn in turns..16 {
        v = four_rounds(v, w, 4 * turn);
    }
    add_state(h, &v)
}

/// The hash values after a block of each message, whose first 16 words are in `w`. The other words
/// are written there on the way.
pub(crate) fn compress(h: &State, w: &mut Schedule) -> State
    requires h { AreLanes 8 h.now }
    ensures lanes { AreLanes 8 result }
    ensures value { (j : ℕ) → j < 8 → (b : List ℕ) → IsScheduled 16 b (word_list j w.old)
        → lane j result ≡ compress_of (lane j h.now) b }
{
    let mut v = *h;
    for turn in 0..12 {
        v = four_steps(v, w, 4 * turn);
    }
    finished(h, &v, w, 12)
}

/// The hash values after a block of each message, whose whole schedule is in `w`.
pub(crate) fn compress_scheduled(h: &State, w: &Schedule) -> State
    requires h { AreLanes 8 h.now }
    ensures lanes { AreLanes 8 result }
    ensures value { (j : ℕ) → j < 8 → (b : List ℕ) → IsScheduled 64 b (word_list j w.now)
        → lane j result ≡ compress_of (lane j h.now) b }
{
    finished(h, h, w, 0)
}
