// The seeds of base transfers.
ghost use Rattle.std.specs.Prelude.{◌≡◌, ◌≤◌, ◌<◌, ◌+◌, ◌*◌, ◌++◌, length, IfOk, OnOk};
ghost use Rattle.psi_spec.specs.Bits.{bit_of};
ghost use Rattle.psi_spec.specs.Deals.{seed_pairs, chosen_from, chosen_seed as chosen_of};
ghost use Rattle.psi_spec.specs.DealFiles.{seeds_of, pairs_bytes, seeds_bytes};
ghost use Rattle.psi_deal.specs.Pairs.{pair_of, pairs_of};

use crate::arrays::array_at;
use psi_bits::Word512;
use std::alloc::{AllocError, Global};

/// The two seeds of a base transfer.
#[derive(Clone, Copy, Debug, PartialEq, Eq)]
pub struct SeedPair {
    /// The seed that a choice of 0 names.
    pub zero: [u8; 32],
    /// The seed that a choice of 1 names.
    pub one: [u8; 32],
}

impl SeedPair {
    ghost use Rattle.psi_spec.specs.Deals.{chosen_seed as chosen_of};
    ghost use Rattle.psi_deal.specs.Pairs.{pair_of};

    /// The zero seed where `which` is 0, and else the one seed.
    pub fn seed(&self, which: u8) -> &[u8; 32]
        ensures { result.now ≡ chosen_of which (pair_of self.now) }
    {
        if which == 0 { &self.zero } else { &self.one }
    }
}

/// The pairs of 512 base transfers that stand one after another in the first 32,768 bytes.
pub fn pairs_in(alloc: Global, bytes: &[u8]) -> Result<Vec<SeedPair>, AllocError>
    requires { 32768 ≤ length bytes.now }
    ensures { IfOk result (λ pairs. pairs_of pairs.items ≡ seed_pairs 512 bytes.now) }
{
    let mut pairs = Vec::with_capacity(alloc, 512)?;
    for c in 0..512usize {
        let zero = array_at(bytes, 64 * c);
        let one = array_at(bytes, 64 * c + 32);
        pairs.push(SeedPair { zero, one })?;
    }
    Ok(pairs)
}

/// The seeds of 512 base transfers that stand one after another in the first 16,384 bytes.
pub fn seeds_in(alloc: Global, bytes: &[u8]) -> Result<Vec<[u8; 32]>, AllocError>
    requires { 16384 ≤ length bytes.now }
    ensures { IfOk result (λ seeds. seeds.items ≡ seeds_of 512 bytes.now) }
{
    let mut seeds = Vec::with_capacity(alloc, 512)?;
    for c in 0..512usize {
        seeds.push(array_at(bytes, 32 * c))?;
    }
    Ok(seeds)
}

/// The seed of a pair that bit `c`, below 512, of a choice word names.
pub fn chosen_seed<'a>(pair: &'a SeedPair, choice: &Word512, c: u16) -> &'a [u8; 32]
    requires { c < 512 }
    ensures { result.now ≡ chosen_of (bit_of choice.now c) (pair_of pair.now) }
{
    if choice.bit(c) { &pair.one } else { &pair.zero }
}

/// The seed that a choice word names of each of at most 512 pairs.
pub fn chosen_seeds(
    alloc: Global,
    pairs: &[SeedPair],
    choice: &Word512,
) -> Result<Vec<[u8; 32]>, AllocError>
    requires { length pairs.now ≤ 512 }
    ensures { IfOk result (λ seeds. seeds.items ≡ chosen_from choice.now 0 (pairs_of pairs.now)) }
{
    let mut seeds = Vec::with_capacity(alloc, pairs.len())?;
    for (c, pair) in pairs.iter().enumerate() {
        seeds.push(*chosen_seed(pair, choice, c as u16))?;
    }
    Ok(seeds)
}

/// Adds the seeds of each pair to the bytes.
pub fn add_pairs(bytes: &mut Vec<u8>, pairs: &[SeedPair]) -> Result<(), AllocError>
    ensures { OnOk result (bytes.new.items ≡ bytes.old.items ++ pairs_bytes (pairs_of pairs.now)) }
{
    for pair in pairs {
        bytes.extend_from_slice(&pair.zero)?;
        bytes.extend_from_slice(&pair.one)?;
    }
    Ok(())
}

/// Adds the seeds to the bytes.
pub fn add_seeds(bytes: &mut Vec<u8>, seeds: &[[u8; 32]]) -> Result<(), AllocError>
    ensures { OnOk result (bytes.new.items ≡ bytes.old.items ++ seeds_bytes seeds.now) }
{
    for seed in seeds {
        bytes.extend_from_slice(seed)?;
    }
    Ok(())
}
