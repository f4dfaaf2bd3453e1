//! The exclusive or of bytes and of words.
ghost use Rattle.std.specs.Prelude.{◌≡◌, ◌<◌, ◌≤◌, ◌+◌, ◌*◌, ◌/◌, ℕ, length, slice_index, bit_xor};
ghost use Rattle.std.specs.Simd.Lanes.{zip2};
ghost use Rattle.psi_spec.specs.Bits.{xor, both};

use psi_bits::Word512;
use std::simd::u8x32;

// The bytes of one block of 32 from byte `at` on.
#[inline(always)]
fn xor_block(out: &mut [u8], bytes: &[u8], at: usize)
    requires out { at + 32 ≤ length out.old }
    requires bytes { at + 32 ≤ length bytes.now }
    ensures inside { (k : ℕ) → at ≤ k → k < at + 32 →
        slice_index out.new k ≡ bit_xor (slice_index out.old k) (slice_index bytes.now k) }
    ensures below { (k : ℕ) → k < at → slice_index out.new k ≡ slice_index out.old k }
    ensures above { (k : ℕ) → at + 32 ≤ k → slice_index out.new k ≡ slice_index out.old k }
{
    let block = u8x32::from_slice(&out[at..]) ^ u8x32::from_slice(&bytes[at..]);
    block.copy_to_slice(&mut out[at..]);
}

// The bytes of all whole blocks.
fn xor_blocks(out: &mut [u8], bytes: &[u8])
    requires { length bytes.now ≡ length out.old }
    ensures inside { (k : ℕ) → k < length out.old / 32 * 32 →
        slice_index out.new k ≡ bit_xor (slice_index out.old k) (slice_index bytes.now k) }
    ensures above { (k : ℕ) → length out.old / 32 * 32 ≤ k → slice_index out.new k ≡ slice_index out.old k }
{
    for block in 0..out.len() / 32 {
        xor_block(out, bytes, 32 * block);
    }
}

// The bytes from byte `at` on.
fn xor_rest(out: &mut [u8], bytes: &[u8], at: usize)
    requires { length bytes.now ≡ length out.old }
    ensures inside { (k : ℕ) → at ≤ k → k < length out.old →
        slice_index out.new k ≡ bit_xor (slice_index out.old k) (slice_index bytes.now k) }
    ensures below { (k : ℕ) → k < at → slice_index out.new k ≡ slice_index out.old k }
{
    for k in at..out.len() {
        out[k] ^= bytes[k];
    }
}

/// Changes each byte by the bits that are set in the one at its place. There are as many of both.
pub fn xor_bytes(out: &mut [u8], bytes: &[u8])
    requires { length bytes.now ≡ length out.old }
    ensures { out.new ≡ xor out.old bytes.now }
{
    xor_blocks(out, bytes);
    xor_rest(out, bytes, out.len() / 32 * 32);
}

/// Changes each word by the bits that are set both in the mask and in the word at its place. There
/// are as many of both.
pub fn mask_xor(out: &mut [Word512], mask: &Word512, words: &[Word512])
    requires { length words.now ≡ length out.old }
    ensures { out.new ≡ zip2 (λ old word. xor old (both mask.now word)) out.old words.now }
{
    for j in 0..out.len() {
        out[j] = out[j].xor(&mask.and(&words[j]));
    }
}
