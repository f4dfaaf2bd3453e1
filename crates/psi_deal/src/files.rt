// Deal files.
ghost use Rattle.std.specs.Prelude.{◌≡◌, ◌≤◌, length, IfOk, None};
ghost use Rattle.psi_spec.specs.Limits.{file_limit};
ghost use Rattle.psi_spec.specs.Deals.{ReceiverDeal as Receiver, SenderDeal as Sender, IsReceiverDeal, IsSenderDeal};
ghost use Rattle.psi_spec.specs.DealFiles.{sealed, receiver_file_size, sender_file_size, receiver_of, sender_of, receiver_bytes, sender_bytes};
ghost use Rattle.psi_deal.specs.BadDeals.{IsJudged, bad_deal};

use crate::arrays::array_at;
use crate::errors::BadDeal;
use crate::head::Head;
use crate::judging::judge;
use crate::receiver::ReceiverDeal;
use crate::role::Role;
use crate::seeds::{add_pairs, add_seeds, pairs_in, seeds_in};
use crate::sender::SenderDeal;
use psi_base::NoMemory;
use psi_bits::Word512;
use sha2::{Digest, Sha256};
use std::alloc::{AllocError, Global};

/// The receiver's deal that a file of at most `psi_base::FILE_LIMIT` bytes spells.
///
/// The first fault decides, in the order of `BadDeal`: `Magic`, `Version`, `Role`, `Length`,
/// `TagBytes`, `StashRows`, `Seal`. A version or a role that the file is too short to hold is passed
/// over. `NoMemory` comes after all of them, where memory is wanting.
pub fn read_receiver(alloc: Global, bytes: &[u8]) -> Result<ReceiverDeal, BadDeal>
    requires { length bytes.now ≤ file_limit }
    ensures exact { IsJudged (bad_deal 0 receiver_file_size bytes.now) (receiver_of bytes.now) result }
    ensures found { IfOk result (λ deal. IsReceiverDeal deal × (bytes.now ≡ receiver_bytes deal)) }
    ensures only { (deal : Receiver) → IsReceiverDeal deal → bytes.now ≡ receiver_bytes deal →
        IsJudged None deal result }
{
    if let Some(bad) = judge(bytes, Role::Receiver) {
        return Err(bad);
    }
    receiver_in(alloc, bytes).map_err(|_| BadDeal::NoMemory)
}

// The deal of a receiver's file without a fault.
fn receiver_in(alloc: Global, bytes: &[u8]) -> Result<ReceiverDeal, AllocError>
    requires { bad_deal 0 receiver_file_size bytes.now ≡ None }
    ensures { IfOk result (λ deal. deal ≡ receiver_of bytes.now) }
{
    let head = Head::read(bytes, bytes[47]);
    let pairs = pairs_in(alloc, &bytes[48..])?;
    Ok(ReceiverDeal { head, pairs })
}

/// The sender's deal that a file of at most `psi_base::FILE_LIMIT` bytes spells. Its faults are those of a
/// receiver's file, with the sender's role and length.
pub fn read_sender(alloc: Global, bytes: &[u8]) -> Result<SenderDeal, BadDeal>
    requires { length bytes.now ≤ file_limit }
    ensures exact { IsJudged (bad_deal 1 sender_file_size bytes.now) (sender_of bytes.now) result }
    ensures found { IfOk result (λ deal. IsSenderDeal deal × (bytes.now ≡ sender_bytes deal)) }
    ensures only { (deal : Sender) → IsSenderDeal deal → bytes.now ≡ sender_bytes deal →
        IsJudged None deal result }
{
    if let Some(bad) = judge(bytes, Role::Sender) {
        return Err(bad);
    }
    sender_in(alloc, bytes).map_err(|_| BadDeal::NoMemory)
}

// The deal of a sender's file without a fault.
fn sender_in(alloc: Global, bytes: &[u8]) -> Result<SenderDeal, AllocError>
    requires { bad_deal 1 sender_file_size bytes.now ≡ None }
    ensures { IfOk result (λ deal. deal ≡ sender_of bytes.now) }
{
    let head = Head::read(bytes, bytes[47]);
    let choice = Word512::from_bytes(&array_at(bytes, 48));
    let seeds = seeds_in(alloc, &bytes[112..])?;
    Ok(SenderDeal {
        head,
        choice,
        seeds,
    })
}

// Bytes with their hash behind them.
fn seal(mut bytes: Vec<u8>) -> Result<Vec<u8>, AllocError>
    ensures { IfOk result (λ file. file.items ≡ sealed bytes.items) }
{
    let hash = Sha256::digest(&bytes);
    bytes.extend_from_slice(&hash)?;
    Ok(bytes)
}

/// The one file of a receiver's deal, of 32,848 bytes. Err where memory is wanting.
#[tactic(auto, unfolding(psi_spec::specs::DealFiles::receiver_bytes))]
pub fn write_receiver(alloc: Global, deal: &ReceiverDeal) -> Result<Vec<u8>, NoMemory>
    ensures file { IfOk result (λ bytes. bytes.items ≡ receiver_bytes deal.now) }
    ensures size { IfOk result (λ bytes. length bytes.items ≡ receiver_file_size) }
    ensures deal { IsReceiverDeal deal.now }
{
    let mut bytes = deal.head.write(alloc, Role::Receiver)?;
    add_pairs(&mut bytes, &deal.pairs)?;
    Ok(seal(bytes)?)
}

/// The one file of a sender's deal, of 16,528 bytes. Err where memory is wanting.
#[tactic(auto, unfolding(psi_spec::specs::DealFiles::sender_bytes))]
pub fn write_sender(alloc: Global, deal: &SenderDeal) -> Result<Vec<u8>, NoMemory>
    ensures file { IfOk result (λ bytes. bytes.items ≡ sender_bytes deal.now) }
    ensures size { IfOk result (λ bytes. length bytes.items ≡ sender_file_size) }
    ensures deal { IsSenderDeal deal.now }
{
    let mut bytes = deal.head.write(alloc, Role::Sender)?;
    bytes.extend_from_slice(&deal.choice.to_bytes())?;
    add_seeds(&mut bytes, &deal.seeds)?;
    Ok(seal(bytes)?)
}
