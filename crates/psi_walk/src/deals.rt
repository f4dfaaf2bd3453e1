// The pair of deals of a seed, and the one that words name.
ghost use Rattle.std.specs.Prelude.{◌≡◌, None, IfOk};
ghost use Rattle.psi_spec.specs.Deals.{ArePair, IsReceiverDeal, IsSenderDeal, dealt_receiver, dealt_sender};
ghost use Rattle.psi_deal.specs.BadDeals.{bad_request};
ghost use Rattle.psi_walk.specs.NamedDeals.{NameDeals, receiver_of_words, sender_of_words};

use psi_base::{NoMemory, Words};
use psi_deal::{ReceiverDeal, SenderDeal, deal};
use psi_words::{seed_of, session_of, sizes_of, word_at};
use std::alloc::Global;

/// The pair of deals of a seed, for a session, with sizes that deals can have.
pub fn deals_of_seed(
    alloc: Global,
    seed: &[u8; 32],
    session: u64,
    tag_length: u8,
    stash: u8,
) -> Result<(ReceiverDeal, SenderDeal), NoMemory>
    // So that only memory can be wanting.
    requires fit { bad_request tag_length stash ≡ None }
    ensures receiver { IfOk result (λ deals. deals.0 ≡ dealt_receiver seed.now session tag_length stash) }
    ensures sender { IfOk result (λ deals. deals.1 ≡ dealt_sender seed.now session tag_length stash) }
    ensures sizes { IfOk result (λ deals. IsReceiverDeal deals.0 × IsSenderDeal deals.1) }
    ensures pair { IfOk result (λ deals. ArePair deals.0 deals.1) }
{
    deal(alloc, seed, session, tag_length, stash).map_err(|_| NoMemory)
}

/// The pair of deals that three words name: a seed at this place, and behind it the session and the sizes.
#[tactic(auto, unfolding(crate::specs::NamedDeals::receiver_of_words, crate::specs::NamedDeals::sender_of_words))]
pub fn deals_of_words(
    alloc: Global,
    words: &Words,
    at: u8,
) -> Result<(ReceiverDeal, SenderDeal), NoMemory>
    requires form { NameDeals words.now at }
    ensures receiver { IfOk result (λ deals. deals.0 ≡ receiver_of_words words.now at) }
    ensures sender { IfOk result (λ deals. deals.1 ≡ sender_of_words words.now at) }
    ensures sizes { IfOk result (λ deals. IsReceiverDeal deals.0 × IsSenderDeal deals.1) }
    ensures pair { IfOk result (λ deals. ArePair deals.0 deals.1) }
{
    let at = usize::from(at);
    let seed = seed_of(word_at(words, at));
    let session = session_of(word_at(words, at + 1));
    let (tag_length, stash) = sizes_of(word_at(words, at + 2));
    deals_of_seed(alloc, &seed, session, tag_length, stash)
}
