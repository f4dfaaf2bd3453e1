// What is hashed of items into memory of its own.
ghost use Rattle.std.specs.Prelude.{◌≡◌, ◌≤◌, ◌<◌, All, IfOk, map};
ghost use Rattle.psi_oprf.specs.Candidates.{digest_candidates};

use crate::bin_batches::candidates_of;
use psi_base::NoMemory;
use std::alloc::Global;

/// The three bins, of so many, of the items with these digests, in their order, under a key of 16 bytes: each is the
/// answer of `candidates`. There is at least one bin. It is refused only where memory is wanting.
pub fn item_candidates(
    alloc: Global,
    key: &[u8; 16],
    bins: u32,
    digests: &[[u8; 32]],
) -> Result<Vec<[u32; 3]>, NoMemory>
    requires { 1 ≤ bins }
    ensures made { IfOk result (λ made. made.items ≡ map (digest_candidates key.now bins) digests.now) }
    ensures below { IfOk result (λ made. All (λ rows. All (λ row. row < bins) rows) made.items) }
{
    let mut made = vec![in alloc; [0; 3]; digests.len()]?;
    candidates_of(key, digests, bins, &mut made);
    Ok(made)
}
