// Whether two deals are a pair.
ghost use Rattle.std.specs.Prelude.{◌≡◌, ◌<◌, ◌↔◌, length, IsNone};
ghost use Rattle.psi_spec.specs.Deals.{ArePair, chosen_from};
ghost use Rattle.psi_deal.specs.Pairs.{pairs_of};
ghost use Rattle.psi_deal.specs.Differences.{differ_from, first_difference};

use crate::errors::DealField;
use crate::receiver::ReceiverDeal;
use crate::seeds::{SeedPair, chosen_seed};
use crate::sender::SenderDeal;
use psi_bits::Word512;

/// The first field, in the order of `DealField`, in which the two deals are no pair. None exactly
/// where what both hold agrees and each chosen seed is the one that the choice word names.
pub fn deals_differ(first: &ReceiverDeal, second: &SenderDeal) -> Option<DealField>
    ensures field { result ≡ first_difference first.now second.now }
    ensures pair { IsNone result ↔ ArePair first.now second.now }
{
    if first.head.id != second.head.id {
        return Some(DealField::Id);
    }
    if first.head.session != second.head.session {
        return Some(DealField::Session);
    }
    if first.head.key != second.head.key {
        return Some(DealField::Key);
    }
    if first.head.tag_length != second.head.tag_length {
        return Some(DealField::TagBytes);
    }
    if first.head.stash != second.head.stash {
        return Some(DealField::StashRows);
    }
    let column = seeds_differ(&first.pairs, &second.choice, &second.seeds)?;
    Some(DealField::Seed { column })
}

// The least place at which a chosen seed is not the one that the choice word names.
fn seeds_differ(pairs: &[SeedPair], choice: &Word512, seeds: &[[u8; 32]]) -> Option<u16>
    requires pairs { length pairs.now ≡ 512 }
    requires seeds { length seeds.now ≡ 512 }
    ensures { result ≡ differ_from 0 (chosen_from choice.now 0 (pairs_of pairs.now)) seeds.now }
{
    for c in 0..512u16 {
        let i = usize::from(c);
        if chosen_seed(&pairs[i], choice, c) != &seeds[i] {
            return Some(c);
        }
    }
    None
}
