// The bins of many digests, eight side by side.
ghost use Rattle.std.specs.Prelude.{◌≡◌, ◌≤◌, ◌<◌, ◌%◌, ℕ, [], All, length, map, slice_index_or};
ghost use Rattle.psi_lanes.specs.Digests.{IsTwoBlocks};
ghost use Rattle.psi_oprf.specs.Candidates.{bins_in as bins_in_of, digest_candidates};
ghost use Rattle.psi_oprf.specs.Messages.{bins_message};

use crate::formulas::{bins_in, candidates};
use crate::messages::{BINS_END, put_bins_block};
use psi_lanes::{EndBlock, Schedules};

// Writes the first blocks of the messages of the bins of eight digests.
#[inline(always)]
fn put_blocks(key: &[u8; 16], digests: &[[u8; 32]], blocks: &mut [[u8; 64]; 8])
    requires { length digests.now ≡ 8 }
    ensures { (j : ℕ) → j < 8 →
        IsTwoBlocks (bins_message key.now (slice_index_or digests.now j [])) (slice_index_or blocks.new j []) BINS_END }
{
    for j in 0..8 {
        put_bins_block(key, &digests[j], &mut blocks[j]);
    }
}

// Writes the bins that eight hashes hold.
#[inline(always)]
fn put_bins(hashes: &[[u8; 32]; 8], bins: u32, out: &mut [[u32; 3]])
    requires bins { 1 ≤ bins }
    requires out { length out.old ≡ 8 }
    ensures { (j : ℕ) → j < 8 → slice_index_or out.new j [] ≡ bins_in_of bins (slice_index_or hashes.now j []) }
{
    for j in 0..8 {
        out[j] = bins_in(&hashes[j], bins);
    }
}

// Fills `out` with the bins of eight digests.
fn eight_candidates(
    key: &[u8; 16],
    digests: &[[u8; 32]],
    bins: u32,
    end: &EndBlock,
    room: &mut Schedules,
    out: &mut [[u32; 3]],
)
    requires digests { length digests.now ≡ 8 }
    requires bins { 1 ≤ bins }
    requires end { end.now ≡ BINS_END }
    requires out { length out.old ≡ 8 }
    ensures { out.new ≡ map (digest_candidates key.now bins) digests.now }
{
    let mut blocks = [[0; 64]; 8];
    put_blocks(key, digests, &mut blocks);
    put_bins(&end.digests(&blocks, room), bins, out);
}

// Fills `out` with the bins of digests, of which there are a multiple of eight.
fn candidates_by_eight(key: &[u8; 16], digests: &[[u8; 32]], bins: u32, out: &mut [[u32; 3]])
    requires bins { 1 ≤ bins }
    requires as_many { length digests.now ≡ length out.old }
    requires eights { length digests.now % 8 ≡ 0 }
    ensures { out.new ≡ map (digest_candidates key.now bins) digests.now }
{
    let end = EndBlock::new(&BINS_END);
    let mut room = Schedules::new();
    for turn in 0..digests.len() / 8 {
        let at = 8 * turn;
        eight_candidates(
            key,
            &digests[at..at + 8],
            bins,
            &end,
            &mut room,
            &mut out[at..at + 8],
        );
    }
}

// Fills `out` with the bins of digests, one after another.
fn candidates_by_one(key: &[u8; 16], digests: &[[u8; 32]], bins: u32, out: &mut [[u32; 3]])
    requires bins { 1 ≤ bins }
    requires as_many { length digests.now ≡ length out.old }
    ensures { out.new ≡ map (digest_candidates key.now bins) digests.now }
{
    for i in 0..digests.len() {
        out[i] = candidates(key, &digests[i], bins);
    }
}

/// Fills `out` with the three bins of as many digests, under a key of 16 bytes: each is the answer
/// of `candidates`. There is at least one bin.
pub fn candidates_of(key: &[u8; 16], digests: &[[u8; 32]], bins: u32, out: &mut [[u32; 3]])
    requires bins { 1 ≤ bins }
    requires as_many { length digests.now ≡ length out.old }
    ensures candidates { out.new ≡ map (digest_candidates key.now bins) digests.now }
    ensures below { All (λ rows. All (λ row. row < bins) rows) out.new }
{
    let eights = digests.len() / 8 * 8;
    let (digests, last_digests) = digests.split_at(eights);
    let (out, last_out) = out.split_at_mut(eights);
    candidates_by_eight(key, digests, bins, out);
    candidates_by_one(key, last_digests, bins, last_out);
}
