// The operators of FIPS 180-4, 4.1.2, on the words of eight messages.
ghost use Rattle.std.specs.Prelude.{◌≡◌, ◌<◌, ◌≤◌, ◌+◌, length, bit_xor};
ghost use Rattle.std.specs.Int.{w32, rotate_right};
ghost use Rattle.sha2.specs.Sha256.{add32, ch as ch_of, maj as maj_of, big_sigma0 as big_sigma0_of, big_sigma1 as big_sigma1_of, small_sigma0 as small_sigma0_of, small_sigma1 as small_sigma1_of};
ghost use Rattle.psi_lanes.specs.Lanes.{IsEach1, IsEach2, IsEach3};

use std::simd::u32x8;

#[inline(always)]
pub(crate) fn add(x: u32x8, y: u32x8) -> u32x8
    requires x { length x ≡ 8 }
    requires y { length y ≡ 8 }
    ensures { IsEach2 add32 x y result }
{
    x + y
}

#[inline(always)]
fn xor(x: u32x8, y: u32x8) -> u32x8
    requires x { length x ≡ 8 }
    requires y { length y ≡ 8 }
    ensures { IsEach2 bit_xor x y result }
{
    x ^ y
}

// Rotates each word to the right by `count` bits.
#[inline(always)]
fn rotated(x: u32x8, count: u32) -> u32x8
    requires x { length x ≡ 8 }
    requires least { 1 ≤ count }
    requires most { count < 32 }
    ensures { IsEach1 (λ a. rotate_right w32 a count) x result }
{
    (x >> u32x8::splat(count)) | (x << u32x8::splat(32 - count))
}

#[inline(always)]
pub(crate) fn ch(x: u32x8, y: u32x8, z: u32x8) -> u32x8
    requires x { length x ≡ 8 }
    requires y { length y ≡ 8 }
    requires z { length z ≡ 8 }
    ensures { IsEach3 ch_of x y z result }
{
    (x & y) ^ (!x & z)
}

// In a form whose `x ^ y` is the next round's `y ^ z`.
#[inline(always)]
pub(crate) fn maj(x: u32x8, y: u32x8, z: u32x8) -> u32x8
    requires x { length x ≡ 8 }
    requires y { length y ≡ 8 }
    requires z { length z ≡ 8 }
    ensures { IsEach3 maj_of x y z result }
{
    y ^ ((x ^ y) & (y ^ z))
}

#[inline(always)]
pub(crate) fn big_sigma0(x: u32x8) -> u32x8
    requires { length x ≡ 8 }
    ensures { IsEach1 big_sigma0_of x result }
{
    xor(xor(rotated(x, 2), rotated(x, 13)), rotated(x, 22))
}

#[inline(always)]
pub(crate) fn big_sigma1(x: u32x8) -> u32x8
    requires { length x ≡ 8 }
    ensures { IsEach1 big_sigma1_of x result }
{
    xor(xor(rotated(x, 6), rotated(x, 11)), rotated(x, 25))
}

#[inline(always)]
pub(crate) fn small_sigma0(x: u32x8) -> u32x8
    requires { length x ≡ 8 }
    ensures { IsEach1 small_sigma0_of x result }
{
    xor(xor(rotated(x, 7), rotated(x, 18)), x >> 3)
}

#[inline(always)]
pub(crate) fn small_sigma1(x: u32x8) -> u32x8
    requires { length x ≡ 8 }
    ensures { IsEach1 small_sigma1_of x result }
{
    xor(xor(rotated(x, 17), rotated(x, 19)), x >> 10)
}
