// Deal files of version 1. They have no byte for the rows of the stash: each of their deals has the usual ones.
ghost use Rattle.std.specs.Prelude.{◌≡◌, ◌≤◌, ◌<◌, ◌^◌, length, IfOk, None};
ghost use Rattle.psi_spec.specs.Limits.{file_limit};
ghost use Rattle.psi_spec.specs.OldDealFiles.{old_receiver_of, old_sender_of};
ghost use Rattle.psi_deal.specs.BadDeals.{IsJudged, bad_old_deal};
ghost use Rattle.psi_deal.specs.Roles.{named_role};
ghost use Rattle.psi_deal.specs.declared.role.Role.TheVariants.{Receiver, Sender};
ghost use Rattle.psi_deal.specs.OldDeals.{IsOldFile, old_deal_of, renewed};
ghost use Rattle.psi_deal.specs.declared.old_files.OldDeal.{OldDeal as Old};

use crate::arrays::array_at;
use crate::errors::BadDeal;
use crate::files::{write_receiver, write_sender};
use crate::head::Head;
use crate::judging::{fits_tag_length, has_above, has_magic, has_other, is_sealed};
use crate::receiver::ReceiverDeal;
use crate::role::Role;
use crate::seeds::{pairs_in, seeds_in};
use crate::sender::SenderDeal;
use psi_base::{NoMemory, USUAL_STASH};
use psi_bits::Word512;
use std::alloc::{AllocError, Global};

// The version of these files.
const OLD_VERSION: u8 = 1;

/// A deal that a file of version 1 holds.
#[derive(Drop)]
pub enum OldDeal {
    /// The receiver's deal.
    Receiver(ReceiverDeal),
    /// The sender's deal.
    Sender(SenderDeal),
}

impl OldDeal {
    /// The one file of version 2 of the deal, for the same end: 32,848 bytes of a receiver's, and 16,528 of a sender's.
    /// Err where memory is wanting.
    pub fn renew(&self, alloc: Global) -> Result<Vec<u8>, NoMemory>
        ensures { IfOk result (λ bytes. bytes.items ≡ renewed self.now) }
    {
        match self {
            OldDeal::Receiver(deal) => write_receiver(alloc, deal),
            OldDeal::Sender(deal) => write_sender(alloc, deal),
        }
    }
}

/// The deal that a file of version 1, of at most `psi_base::FILE_LIMIT` bytes, spells. Its stash has the usual rows
/// (`psi_base::USUAL_STASH`).
///
/// The first fault decides, in the order of `BadDeal`: `Magic`, `Version` where it is not 1, `Role` where it is above
/// 1, `Length` where it is not that of the role's files, `TagBytes`, `Seal`. A version or a role that the file is too
/// short to hold is passed over, and the length decides. `NoMemory` comes after all of them, where memory is wanting.
pub fn read_old(alloc: Global, bytes: &[u8]) -> Result<OldDeal, BadDeal>
    requires { length bytes.now ≤ file_limit }
    ensures exact { IsJudged (bad_old_deal bytes.now) (old_deal_of bytes.now) result }
    ensures found { IfOk result (λ deal. IsOldFile deal bytes.now) }
    ensures only { (deal : Old) → IsOldFile deal bytes.now → IsJudged None deal result }
{
    if let Some(bad) = judge_old(bytes) {
        return Err(bad);
    }
    old_in(alloc, bytes).map_err(|_| BadDeal::NoMemory)
}

// Why bytes are no deal file of version 1.
fn judge_old(bytes: &[u8]) -> Option<BadDeal>
    requires { length bytes.now < 2 ^ 32 }
    ensures { result ≡ bad_old_deal bytes.now }
{
    if !has_magic(bytes) {
        return Some(BadDeal::Magic);
    }
    if has_other(bytes, 4, OLD_VERSION) {
        return Some(BadDeal::Version { found: bytes[4] });
    }
    if has_above(bytes, 5, 1) {
        return Some(BadDeal::Role { found: bytes[5] });
    }
    if bytes.len() != Role::named(bytes).old_size() {
        return Some(BadDeal::Length {
            found: bytes.len() as u32,
        });
    }
    if !fits_tag_length(bytes[46]) {
        return Some(BadDeal::TagBytes { found: bytes[46] });
    }
    if !is_sealed(bytes) {
        return Some(BadDeal::Seal);
    }
    None
}

// The deal of a file without a fault.
fn old_in(alloc: Global, bytes: &[u8]) -> Result<OldDeal, AllocError>
    requires { bad_old_deal bytes.now ≡ None }
    ensures { IfOk result (λ deal. deal ≡ old_deal_of bytes.now) }
{
    match Role::named(bytes) {
        Role::Receiver => Ok(OldDeal::Receiver(old_receiver_in(alloc, bytes)?)),
        Role::Sender => Ok(OldDeal::Sender(old_sender_in(alloc, bytes)?)),
    }
}

// The deal of a receiver's file without a fault.
fn old_receiver_in(alloc: Global, bytes: &[u8]) -> Result<ReceiverDeal, AllocError>
    requires good { bad_old_deal bytes.now ≡ None }
    requires role { named_role bytes.now ≡ Receiver }
    ensures { IfOk result (λ deal. deal ≡ old_receiver_of bytes.now) }
{
    let head = Head::read(bytes, USUAL_STASH);
    let pairs = pairs_in(alloc, &bytes[47..])?;
    Ok(ReceiverDeal { head, pairs })
}

// The deal of a sender's file without a fault.
fn old_sender_in(alloc: Global, bytes: &[u8]) -> Result<SenderDeal, AllocError>
    requires good { bad_old_deal bytes.now ≡ None }
    requires role { named_role bytes.now ≡ Sender }
    ensures { IfOk result (λ deal. deal ≡ old_sender_of bytes.now) }
{
    let head = Head::read(bytes, USUAL_STASH);
    let choice = Word512::from_bytes(&array_at(bytes, 47));
    let seeds = seeds_in(alloc, &bytes[111..])?;
    Ok(SenderDeal {
        head,
        choice,
        seeds,
    })
}
