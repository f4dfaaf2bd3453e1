// The placement of the receiver's items.
ghost use Rattle.std.specs.Prelude.{◌≡◌, IfOk, length, map};
ghost use Rattle.psi_spec.specs.Formulas.{item_digest};
ghost use Rattle.psi_spec.specs.Limits.{bins_for};
ghost use Rattle.psi_spec.specs.Placement.{IsPlacementOf};
ghost use Rattle.psi_walk.specs.Placing.{placing_of};
ghost use Rattle.psi_walk.specs.Walk.{Places};

use psi_base::{NoMemory, bins};
use psi_cuckoo::{NoFit, Placement, place};
use psi_deal::ReceiverDeal;
use psi_items::Items;
use psi_oprf::item_candidates;
use psi_texts::Status;
use std::alloc::Global;

/// Places the items of the file that this word names, which have these digests.
pub fn place_items(
    alloc: Global,
    word: u8,
    items: &Items,
    digests: &[[u8; 32]],
    deal: &ReceiverDeal,
) -> Result<Placement, Status>
    requires { digests.now ≡ map item_digest items.now }
    ensures places { Places word (placing_of deal.now items.now) result }
    ensures placed { IfOk result
        (IsPlacementOf deal.now.stash deal.now.key (bins_for (length items.now)) items.now) }
{
    let bin_count = bins(items.len());
    let candidates = item_candidates(alloc, deal.key(), bin_count, digests)?;
    match place(alloc, &candidates, bin_count, deal.stash()) {
        Ok(placement) => Ok(placement),
        Err(NoFit::Crowded { items, touched }) => Err(Status::NoPlacement {
            word,
            items,
            touched,
        }),
        Err(NoFit::NoMemory) => Err(Status::NoMemory),
    }
}
