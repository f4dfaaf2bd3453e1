//! The transposition of 64 words of 64 bits.
ghost use Rattle.std.specs.Prelude.{◌≡◌, ◌<◌, ◌+◌, ◌≤◌, ◌*◌, ℕ, length, slice_index};
ghost use Rattle.psi_lanes.specs.Tile.{IsTransposed, IsMask, IsExchanged, MakesPair};

use std::simd::u64x4;

// The exchange of the words from `at` and `at + 32` on, four of each. They come to stand in turn.
#[inline(always)]
fn exchange_four(from: &[u64], to: &mut [u64], at: usize, shift: u64, mask: u64)
    requires place { at + 36 ≤ 64 }
    requires from { length from.now ≡ 64 }
    requires to { length to.old ≡ 64 }
    requires shift { shift < 64 }
    ensures made { (k : ℕ) → at ≤ k → k < at + 4 → MakesPair shift mask from.now to.new k }
    ensures below { (v : ℕ) → v < 2 * at → slice_index to.new v ≡ slice_index to.old v }
{
    let shifts = u64x4::splat(shift);
    let low = u64x4::from_slice(&from[at..]);
    let high = u64x4::from_slice(&from[at + 32..]);
    let turned = ((low >> shifts) ^ high) & u64x4::splat(mask);
    let (first, second) = (low ^ (turned << shifts)).interleave(high ^ turned);
    first.copy_to_slice(&mut to[2 * at..]);
    second.copy_to_slice(&mut to[2 * at + 4..]);
}

// One of the six exchanges.
#[inline(always)]
fn exchange(from: &[u64; 64], to: &mut [u64; 64], shift: u64, mask: u64)
    requires positive { 0 < shift }
    requires fits { shift < 64 }
    requires masks { IsMask shift mask }
    ensures { IsExchanged shift from.now to.new }
{
    for quarter in 0..8 {
        exchange_four(from, to, 4 * quarter, shift, mask);
    }
}

/// Exchanges bit j of word i and bit i of word j, for all i and j.
pub fn flip_tile(tile: &mut [u64; 64])
    ensures { IsTransposed tile.old tile.new }
{
    let mut other = [0; 64];
    exchange(tile, &mut other, 32, 0x0000_0000_ffff_ffff);
    exchange(&other, tile, 16, 0x0000_ffff_0000_ffff);
    exchange(tile, &mut other, 8, 0x00ff_00ff_00ff_00ff);
    exchange(&other, tile, 4, 0x0f0f_0f0f_0f0f_0f0f);
    exchange(tile, &mut other, 2, 0x3333_3333_3333_3333);
    exchange(&other, tile, 1, 0x5555_5555_5555_5555);
}
