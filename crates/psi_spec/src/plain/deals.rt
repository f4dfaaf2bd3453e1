//! The deals of a seed.
ghost use Rattle.std.specs.Prelude.{◌≡◌, ℕ, IfOk, vec_len};
ghost use Rattle.psi_spec.specs.Deals.{deal_bytes, dealt_sender, dealt_receiver};

use crate::plain::streams::key_stream;
use std::alloc::{AllocError, Global};

/// What a seed deals besides the seeds of the base transfers.
#[derive(Clone, Copy, Debug, PartialEq, Eq)]
pub struct DealHead {
    /// The name that both halves of the deal have.
    pub id: [u8; 16],
    /// The key of all hashes but the items' digests.
    pub key: [u8; 16],
    /// The sender's choice word: bit c chooses the seed of base transfer c.
    pub choice: [u8; 64],
}

// All bytes of the deals of a seed.
fn dealt_bytes(alloc: Global, seed: &[u8; 32]) -> Result<Vec<u8>, AllocError>
    ensures bytes { IfOk result (λ bytes. bytes.items ≡ deal_bytes seed.now) }
    ensures len { IfOk result (λ bytes. vec_len bytes ≡ 32864) }
{
    let mut bytes = vec![in alloc; 0; 32864]?;
    key_stream(seed, 0, &mut bytes);
    Ok(bytes)
}

/// The head of the deals of a seed, whatever their session, tag length and stash rows. Err where
/// memory is wanting.
#[tactic(auto, unfolding(crate::specs::Deals::dealt_sender, crate::specs::Deals::dealt_receiver))]
pub fn deal_head(alloc: Global, seed: &[u8; 32]) -> Result<DealHead, AllocError>
    ensures id { IfOk result (λ head. (session tag_length stash : ℕ) →
        head.id ≡ (dealt_sender seed.now session tag_length stash).id) }
    ensures key { IfOk result (λ head. (session tag_length stash : ℕ) →
        head.key ≡ (dealt_sender seed.now session tag_length stash).key) }
    ensures choice { IfOk result (λ head. (session tag_length stash : ℕ) →
        head.choice ≡ (dealt_sender seed.now session tag_length stash).choice) }
    ensures both_id { IfOk result (λ head. (session tag_length stash : ℕ) →
        head.id ≡ (dealt_receiver seed.now session tag_length stash).id) }
    ensures both_key { IfOk result (λ head. (session tag_length stash : ℕ) →
        head.key ≡ (dealt_receiver seed.now session tag_length stash).key) }
{
    let bytes = dealt_bytes(alloc, seed)?;
    let mut head = DealHead {
        id: [0; 16],
        key: [0; 16],
        choice: [0; 64],
    };
    head.id.copy_from_slice(&bytes[..16]);
    head.key.copy_from_slice(&bytes[16..32]);
    head.choice.copy_from_slice(&bytes[32..96]);
    Ok(head)
}
