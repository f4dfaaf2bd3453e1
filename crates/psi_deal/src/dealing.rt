// The pair of deals of a seed.
ghost use Rattle.std.specs.Prelude.{◌≡◌, IfOk, None, vec_len};
ghost use Rattle.psi_spec.specs.Deals.{ArePair, IsReceiverDeal, IsSenderDeal, deal_bytes, dealt_receiver, dealt_sender};
ghost use Rattle.psi_deal.specs.BadDeals.{IsJudged, bad_request};

use crate::arrays::array_at;
use crate::columns::fill_stream;
use crate::errors::BadDeal;
use crate::head::Head;
use crate::judging::{judge_lengths, judged_tag_length};
use crate::receiver::ReceiverDeal;
use crate::seeds::{chosen_seeds, pairs_in};
use crate::sender::SenderDeal;
use psi_base::TagLength;
use psi_bits::Word512;
use std::alloc::{AllocError, Global};

/// The bytes of a deal: its id, key and choice word, and then two seeds for each of 512 base
/// transfers.
const DEAL_BYTES: usize = 32_864;

/// The place of the first seed.
const SEEDS: usize = 96;

// All bytes of the deals of a seed.
fn dealt_bytes(alloc: Global, seed: &[u8; 32]) -> Result<Vec<u8>, AllocError>
    ensures bytes { IfOk result (λ bytes. bytes.items ≡ deal_bytes seed.now) }
    ensures len { IfOk result (λ bytes. vec_len bytes ≡ 32864) }
{
    let mut bytes = vec![in alloc; 0; DEAL_BYTES]?;
    fill_stream(seed, 0, &mut bytes);
    Ok(bytes)
}

/// The pair of deals of a seed, for a session, tags of `tag_length` bytes and a stash of `stash`
/// rows.
///
/// `TagBytes` where `tag_length` is 0 or above `psi_base::TAG_LIMIT`, else `StashRows` where `stash` is above
/// `psi_base::STASH_LIMIT`. `NoMemory` comes where memory is wanting.
pub fn deal(
    alloc: Global,
    seed: &[u8; 32],
    session: u64,
    tag_length: u8,
    stash: u8,
) -> Result<(ReceiverDeal, SenderDeal), BadDeal>
    ensures answers { IsJudged (bad_request tag_length stash) (
      dealt_receiver seed.now session tag_length stash,
      dealt_sender seed.now session tag_length stash,
    ) result }
    ensures pair { IfOk result (λ deals. ArePair deals.0 deals.1) }
    ensures sizes { IfOk result (λ deals. IsReceiverDeal deals.0 × IsSenderDeal deals.1) }
{
    if let Some(bad) = judge_lengths(tag_length, stash) {
        return Err(bad);
    }
    let tag_length = judged_tag_length(tag_length);
    dealt(alloc, seed, session, tag_length, stash).map_err(|_| BadDeal::NoMemory)
}

// The pair of deals with lengths that deals can have.
fn dealt(
    alloc: Global,
    seed: &[u8; 32],
    session: u64,
    tag_length: TagLength,
    stash: u8,
) -> Result<(ReceiverDeal, SenderDeal), AllocError>
    requires { bad_request tag_length stash ≡ None }
    ensures receiver { IfOk result (λ pair. pair.0 ≡ dealt_receiver seed.now session tag_length stash) }
    ensures sender { IfOk result (λ pair. pair.1 ≡ dealt_sender seed.now session tag_length stash) }
{
    let bytes = dealt_bytes(alloc, seed)?;
    let choice = Word512::from_bytes(&array_at(&bytes, 32));
    let pairs = pairs_in(alloc, &bytes[SEEDS..])?;
    let seeds = chosen_seeds(alloc, &pairs, &choice)?;
    let head = Head {
        id: array_at(&bytes, 0),
        session,
        key: array_at(&bytes, 16),
        tag_length,
        stash,
    };
    let receiver = ReceiverDeal { head, pairs };
    let sender = SenderDeal {
        head: receiver.head,
        choice,
        seeds,
    };
    Ok((receiver, sender))
}
