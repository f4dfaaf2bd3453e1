// The digests of items.
ghost use Rattle.std.specs.Prelude.{◌≡◌, IfOk, map};
ghost use Rattle.psi_spec.specs.Formulas.{item_digest};

use crate::items::Items;
use sha2::{Digest, Sha256};
use std::alloc::{AllocError, Global};

/// The 32 bytes of SHA-256 over `psi-item` and the item's bytes.
#[tactic(auto, unfolding(psi_spec::specs::Formulas::item_digest))]
pub fn digest(item: &[u8]) -> [u8; 32]
    ensures { result ≡ item_digest item.now }
{
    let mut hasher = Sha256::new();
    hasher.update("psi-item");
    hasher.update(item);
    hasher.finalize()
}

impl Items {
    /// The digests of the items, in their order: each is the answer of `digest`. Err where memory is wanting.
    pub fn digests(&self, alloc: Global) -> Result<Vec<[u8; 32]>, AllocError>
        ensures { IfOk result (λ digests. digests.items ≡ map item_digest self.now) }
    {
        let mut digests = Vec::with_capacity(alloc, self.len() as usize)?;
        for place in 0..self.len() {
            let item = self.get(place).unwrap();
            digests.push(digest(item))?;
        }
        Ok(digests)
    }
}
