// What is hashed of each item once.
ghost use Rattle.std.specs.Prelude.{◌≤◌, IfOk};
ghost use Rattle.psi_sender.specs.Hashed.{AreHashes};

use psi_base::NoMemory;
use psi_bits::Word512;
use psi_deal::SenderDeal;
use psi_items::Items;
use psi_oprf::{codes, item_candidates};
use std::alloc::Global;

/// What is hashed of each of the sender's items once, in their order.
#[derive(Drop)]
pub(crate) struct Hashes {
    /// The digests.
    pub(crate) digests: Vec<[u8; 32]>,
    /// The three bins of each.
    pub(crate) bins: Vec<[u32; 3]>,
    /// The codes at index 0, which serve all rows of the stash; none where it has no rows.
    pub(crate) codes: Vec<Word512>,
}

impl Hashes {
    /// The hashes of items for so many bins. It is refused only where memory is wanting.
    pub(crate) fn of(
        alloc: Global,
        deal: &SenderDeal,
        items: &Items,
        bins: u32,
    ) -> Result<Hashes, NoMemory>
        requires { 1 ≤ bins }
        ensures { IfOk result (AreHashes deal.now bins items.now) }
    {
        let size = items.len() as usize;
        let stored = if deal.stash() == 0 { 0 } else { size };
        let digests = items.digests(alloc)?;
        let bins = item_candidates(alloc, deal.key(), bins, &digests)?;
        let mut stash_codes = vec![in alloc; Word512::zero(); stored]?;
        codes(deal.key(), 0, &digests[..stored], &mut stash_codes);
        Ok(Hashes {
            digests,
            bins,
            codes: stash_codes,
        })
    }
}
