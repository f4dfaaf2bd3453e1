// Codes over whole slices, eight side by side.
ghost use Rattle.std.specs.Prelude.{◌≡◌, ◌≤◌, ◌<◌, ◌%◌, ◌++◌, ℕ, [], length, map, slice_index, slice_index_or, All};
ghost use Rattle.std.specs.Simd.Lanes.{zip2};
ghost use Rattle.psi_spec.specs.Formulas.{code as code_of};
ghost use Rattle.psi_lanes.specs.Digests.{IsTwoBlocks};
ghost use Rattle.psi_oprf.specs.Messages.{code_message};

use crate::formulas::code;
use crate::messages::{CODE_END, put_code_block};
use psi_bits::Word512;
use psi_lanes::{EndBlock, Schedules};

// Writes the first blocks of the messages of half `half`, 0 or 1, of the codes of eight digests, each at its own index.
#[inline(always)]
fn put_blocks(
    key: &[u8; 16],
    indices: &[u8],
    half: u8,
    digests: &[[u8; 32]],
    blocks: &mut [[u8; 64]; 8],
)
    requires indices { length indices.now ≡ 8 }
    requires digests { length digests.now ≡ 8 }
    ensures { (j : ℕ) → j < 8 →
        IsTwoBlocks (code_message key.now (slice_index indices.now j) half (slice_index_or digests.now j []))
        (slice_index_or blocks.new j []) CODE_END }
{
    for j in 0..8 {
        put_code_block(key, indices[j], half, &digests[j], &mut blocks[j]);
    }
}

// The code of its two halves.
#[inline(always)]
fn joined(low: &[u8; 32], high: &[u8; 32]) -> Word512
    ensures { result ≡ low.now ++ high.now }
{
    let mut bytes = [0; 64];
    let (low_bytes, high_bytes) = bytes.split_at_mut(32);
    low_bytes.copy_from_slice(low);
    high_bytes.copy_from_slice(high);
    Word512::from_bytes(&bytes)
}

// Writes the codes of their two halves.
#[inline(always)]
fn put_joined(low: &[[u8; 32]; 8], high: &[[u8; 32]; 8], out: &mut [Word512])
    requires { length out.old ≡ 8 }
    ensures { (j : ℕ) → j < 8 →
        slice_index_or out.new j [] ≡ slice_index_or low.now j [] ++ slice_index_or high.now j [] }
{
    for j in 0..8 {
        out[j] = joined(&low[j], &high[j]);
    }
}

// Fills `out` with the codes of eight digests, each at its own index.
fn eight_codes(
    key: &[u8; 16],
    indices: &[u8],
    digests: &[[u8; 32]],
    end: &EndBlock,
    room: &mut Schedules,
    out: &mut [Word512],
)
    requires indices { length indices.now ≡ 8 }
    requires digests { length digests.now ≡ 8 }
    requires end { end.now ≡ CODE_END }
    requires out { length out.old ≡ 8 }
    ensures { out.new ≡ zip2 (code_of key.now) indices.now digests.now }
{
    let mut blocks = [[0; 64]; 8];
    put_blocks(key, indices, 0, digests, &mut blocks);
    let low = end.digests(&blocks, room);
    put_blocks(key, indices, 1, digests, &mut blocks);
    put_joined(&low, &end.digests(&blocks, room), out);
}

// Fills `out` with the codes of digests, of which there are a multiple of eight.
fn codes_by_eight(key: &[u8; 16], index: u8, digests: &[[u8; 32]], out: &mut [Word512])
    requires as_many { length digests.now ≡ length out.old }
    requires eights { length digests.now % 8 ≡ 0 }
    ensures { out.new ≡ map (code_of key.now index) digests.now }
{
    let end = EndBlock::new(&CODE_END);
    let mut room = Schedules::new();
    for turn in 0..digests.len() / 8 {
        let at = 8 * turn;
        eight_codes(
            key,
            &[index; 8],
            &digests[at..at + 8],
            &end,
            &mut room,
            &mut out[at..at + 8],
        );
    }
}

// Fills `out` with the codes of digests, one after another.
fn codes_by_one(key: &[u8; 16], index: u8, digests: &[[u8; 32]], out: &mut [Word512])
    requires index { index ≤ 3 }
    requires as_many { length digests.now ≡ length out.old }
    ensures { out.new ≡ map (code_of key.now index) digests.now }
{
    for i in 0..digests.len() {
        out[i] = code(key, index, &digests[i]);
    }
}

/// Fills `out` with the codes of as many digests, under a key of 16 bytes, at an index from 0 to 3:
/// each is the answer of `code`.
pub fn codes(key: &[u8; 16], index: u8, digests: &[[u8; 32]], out: &mut [Word512])
    requires index { index ≤ 3 }
    requires as_many { length digests.now ≡ length out.old }
    ensures { out.new ≡ map (code_of key.now index) digests.now }
{
    let eights = digests.len() / 8 * 8;
    let (digests, last_digests) = digests.split_at(eights);
    let (out, last_out) = out.split_at_mut(eights);
    codes_by_eight(key, index, digests, out);
    codes_by_one(key, index, last_digests, last_out);
}

// Fills `out` with the codes of digests, of which there are a multiple of eight, each at its own index.
fn codes_at_by_eight(key: &[u8; 16], indices: &[u8], digests: &[[u8; 32]], out: &mut [Word512])
    requires indices { length indices.now ≡ length out.old }
    requires digests { length digests.now ≡ length out.old }
    requires eights { length out.old % 8 ≡ 0 }
    ensures { out.new ≡ zip2 (code_of key.now) indices.now digests.now }
{
    let end = EndBlock::new(&CODE_END);
    let mut room = Schedules::new();
    for turn in 0..out.len() / 8 {
        let at = 8 * turn;
        eight_codes(
            key,
            &indices[at..at + 8],
            &digests[at..at + 8],
            &end,
            &mut room,
            &mut out[at..at + 8],
        );
    }
}

// Fills `out` with the codes of digests, each at its own index, one after another.
fn codes_at_by_one(key: &[u8; 16], indices: &[u8], digests: &[[u8; 32]], out: &mut [Word512])
    requires index { All (λ index. index ≤ 3) indices.now }
    requires indices { length indices.now ≡ length out.old }
    requires digests { length digests.now ≡ length out.old }
    ensures { out.new ≡ zip2 (code_of key.now) indices.now digests.now }
{
    for i in 0..out.len() {
        out[i] = code(key, indices[i], &digests[i]);
    }
}

/// Fills `out` with the codes of as many digests, under a key of 16 bytes, each at its own index from
/// 0 to 3: each is the answer of `code`.
pub fn codes_at(key: &[u8; 16], indices: &[u8], digests: &[[u8; 32]], out: &mut [Word512])
    requires index { All (λ index. index ≤ 3) indices.now }
    requires indices { length indices.now ≡ length out.old }
    requires digests { length digests.now ≡ length out.old }
    ensures { out.new ≡ zip2 (code_of key.now) indices.now digests.now }
{
    let eights = out.len() / 8 * 8;
    let (indices, last_indices) = indices.split_at(eights);
    let (digests, last_digests) = digests.split_at(eights);
    let (out, last_out) = out.split_at_mut(eights);
    codes_at_by_eight(key, indices, digests, out);
    codes_at_by_one(key, last_indices, last_digests, last_out);
}
