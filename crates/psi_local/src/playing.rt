// A whole session in memory: of a pair of deals, the receiver's placed items and the sender's items.
ghost use Rattle.std.specs.Prelude.{◌≡◌, ◌+◌, ◌≤◌, IfOk, length, map};
ghost use Rattle.psi_spec.specs.Deals.{ArePair, IsReceiverDeal, IsSenderDeal};
ghost use Rattle.psi_spec.specs.Formulas.{item_digest};
ghost use Rattle.psi_spec.specs.Limits.{bins_for, limit_items};
ghost use Rattle.psi_spec.specs.Placement.{IsPlacementOf};
ghost use Rattle.psi_base.specs.Outside.{Outside};
ghost use Rattle.psi_walk.specs.Tree.{carrying, closed, ended};
ghost use Rattle.psi_local.specs.Transcript.{IsPlayed, log_of, receiver_stream_size, sender_stream_size};

use crate::transcript::SessionTranscript;
use psi_base::{NoMemory, rows};
use psi_cuckoo::Placement;
use psi_deal::{ReceiverDeal, SenderDeal};
use psi_frames::{DONE_SIZE, HELLO_SIZE, columns_size, lists_size};
use psi_items::Items;
use psi_log::Recorder;
use psi_receiver::ReceiverCore;
use psi_sender::SenderCore;
use psi_session::exchange;
use psi_texts::Status;
use psi_walk::{Outcome, Placements};
use std::alloc::Global;

/// A session that was run whole: the receiver's end, which tells what is shown, and the transcript.
#[derive(Drop)]
pub struct PlayedSession<'a> {
    pub receiver: ReceiverCore<'a>,
    pub transcript: SessionTranscript,
}

/// How many bytes the receiver of a deal sends, which has so many items: its hello, its columns and the end.
pub fn receiver_length(deal: &ReceiverDeal, own: u32) -> u64
    requires deal { IsReceiverDeal deal.now }
    requires own { own ≤ limit_items }
    ensures { result ≡ receiver_stream_size deal.now own }
{
    u64::from(HELLO_SIZE + DONE_SIZE) + columns_size(rows(own, deal.stash()))
}

/// How many bytes the sender of the other half of a deal sends, which has so many items: its hello and its lists.
pub fn sender_length(deal: &ReceiverDeal, peer: u32) -> u64
    requires { IsReceiverDeal deal.now }
    ensures { result ≡ sender_stream_size deal.now peer }
{
    u64::from(HELLO_SIZE) + lists_size(3 + deal.stash(), deal.tag_length(), peer)
}

/// How many bytes both ends exchange: the receiver, which has so many items, and a sender of so many.
pub fn session_length(deal: &ReceiverDeal, own: u32, peer: u32) -> u64
    requires deal { IsReceiverDeal deal.now }
    requires own { own ≤ limit_items }
    ensures { result ≡ receiver_stream_size deal.now own + sender_stream_size deal.now peer }
{
    receiver_length(deal, own) + sender_length(deal, peer)
}

/// Runs the whole session of a pair of deals, of the receiver's placed items and the sender's items. What is on the
/// wire goes into the record, if there is one.
pub fn play<'a>(
    alloc: Global,
    x: &'a Items,
    y: &Items,
    digests: &[[u8; 32]],
    deals: &'a (ReceiverDeal, SenderDeal),
    placement: &'a Placement,
    log: Option<Recorder>,
) -> Result<PlayedSession<'a>, NoMemory>
    requires digests { digests.now ≡ map item_digest x.now }
    requires sizes { IsReceiverDeal deals.now.0 × IsSenderDeal deals.now.1 }
    requires pair { ArePair deals.now.0 deals.now.1 }
    requires few { length x.now ≤ limit_items }
    requires few_peers { length y.now ≤ limit_items }
    requires placed { IsPlacementOf deals.now.0.stash deals.now.0.key (bins_for (length x.now)) x.now placement.now }
    ensures { IfOk result (IsPlayed deals.now.0 deals.now.1 x.now placement.now y.now (log_of log)) }
{
    let mut receiver = ReceiverCore::new(alloc, x, digests, &deals.0, placement)?;
    let mut sender = SenderCore::new(alloc, y, &deals.1);
    let mut transcript = SessionTranscript::begin(log);
    exchange(alloc, &mut receiver, &mut sender, &mut transcript)?;
    Ok(PlayedSession {
        receiver,
        transcript,
    })
}

/// How a run ended that placed a set: the rest of it was done, with the digest of its session, or refused.
pub fn placed_outcome(placement: Placement, rest: Result<[u8; 32], Status>) -> Outcome
    ensures { (after : Outside) → ended result after ≡ carrying placement (closed rest after) }
{
    let placements = Placements::One(placement);
    match rest {
        Ok(digest) => Outcome {
            status: Status::Done,
            placements,
            wire: Some(digest),
        },
        Err(status) => Outcome {
            status,
            placements,
            wire: None,
        },
    }
}
