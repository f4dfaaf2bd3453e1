// What files hold that words name: read, and judged as what they are to hold.
ghost use Rattle.std.specs.Prelude.{◌≤◌, List, ℕ, IfOk, Result, length};
ghost use Rattle.psi_spec.specs.Deals.{IsReceiverDeal, IsSenderDeal};
ghost use Rattle.psi_spec.specs.Frames.{AreBytes};
ghost use Rattle.psi_spec.specs.Limits.{file_limit};
ghost use Rattle.psi_texts.specs.declared.status.Status.{Status};
ghost use Rattle.psi_walk.specs.Files.{items_in, old_deal_in, reads_file, receiver_in, sender_in};
ghost use Rattle.psi_walk.specs.Walk.{Settles, Steps};

use crate::steps::read_bytes;
use psi_base::{FILE_LIMIT, Words, World};
use psi_deal::{BadDeal, OldDeal, ReceiverDeal, SenderDeal, read_old, read_receiver, read_sender};
use psi_items::{BadItems, Items};
use psi_texts::Status;
use std::alloc::Global;

/// What a file may hold that a word names.
pub trait FromFile: Sized {
    // What the bytes of the file of a word hold, or why it is refused.
    ghost held: { ℕ → List ℕ → Result Self Status };

    // What is known of each value that a file holds.
    ghost is_sound: { Self → Type 0 } = { λ _. Unit {0} };

    /// Judges the bytes of the file that this word names.
    fn judge(alloc: Global, word: u8, bytes: &[u8]) -> Result<Self, Status>
        requires { length bytes.now ≤ file_limit }
        ensures settles { Settles (held word bytes.now) result }
        ensures are_bytes { AreBytes bytes.now }
        ensures sound { IfOk result is_sound };
}

impl FromFile for Items {
    ghost held = { items_in };

    #[tactic(auto, unfolding(crate::specs::Files::items_in))]
    fn judge(alloc: Global, word: u8, bytes: &[u8]) -> Result<Items, Status> {
        match Items::read(alloc, bytes) {
            Ok(items) => Ok(items),
            Err(BadItems::NoMemory) => Err(Status::NoMemory),
            Err(fault) => Err(Status::BadItems { word, fault }),
        }
    }
}

impl FromFile for SenderDeal {
    ghost held = { sender_in };

    ghost is_sound = { IsSenderDeal };

    #[tactic(auto, unfolding(crate::specs::Files::sender_in))]
    fn judge(alloc: Global, word: u8, bytes: &[u8]) -> Result<SenderDeal, Status> {
        match read_sender(alloc, bytes) {
            Ok(deal) => Ok(deal),
            Err(BadDeal::NoMemory) => Err(Status::NoMemory),
            Err(fault) => Err(Status::BadDeal { word, fault }),
        }
    }
}

impl FromFile for ReceiverDeal {
    ghost held = { receiver_in };

    ghost is_sound = { IsReceiverDeal };

    #[tactic(auto, unfolding(crate::specs::Files::receiver_in))]
    fn judge(alloc: Global, word: u8, bytes: &[u8]) -> Result<ReceiverDeal, Status> {
        match read_receiver(alloc, bytes) {
            Ok(deal) => Ok(deal),
            Err(BadDeal::NoMemory) => Err(Status::NoMemory),
            Err(fault) => Err(Status::BadDeal { word, fault }),
        }
    }
}

impl FromFile for OldDeal {
    ghost held = { old_deal_in };

    #[tactic(auto, unfolding(crate::specs::Files::old_deal_in))]
    fn judge(alloc: Global, word: u8, bytes: &[u8]) -> Result<OldDeal, Status> {
        match read_old(alloc, bytes) {
            Ok(deal) => Ok(deal),
            Err(BadDeal::NoMemory) => Err(Status::NoMemory),
            Err(fault) => Err(Status::BadDeal { word, fault }),
        }
    }
}

/// Reads the file that the word at this place names, and judges it as what is asked for.
pub fn read_as<T: FromFile, W: World>(
    alloc: Global,
    words: &Words,
    word: u8,
    world: &mut W,
) -> Result<T, Status>
    ensures steps { Steps W.known words.now (reads_file T.held word) (W.outside world.old) result
        (W.outside world.new) }
    ensures sound { IfOk result T.is_sound }
{
    match read_bytes(alloc, words, word, FILE_LIMIT, world) {
        Ok(bytes) => T::judge(alloc, word, &bytes),
        Err(status) => Err(status),
    }
}
