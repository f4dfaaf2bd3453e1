// What is wrong with the bytes of a deal file.
ghost use Rattle.std.specs.Prelude.{◌≡◌, ◌≤◌, ◌<◌, ◌^◌, length, true};
ghost use Rattle.psi_spec.specs.Deals.{fits_tag_length as tag_length_fits, fits_stash as stash_fits};
ghost use Rattle.psi_spec.specs.DealFiles.{has_magic as magic_of, has_other as other_at, is_sealed as sealed_by};
ghost use Rattle.psi_deal.specs.Roles.{role_byte, role_size};
ghost use Rattle.psi_deal.specs.BadDeals.{bad_deal, bad_request, has_above as above_at};

use crate::errors::BadDeal;
use crate::head::VERSION;
use crate::role::Role;
use psi_base::{STASH_LIMIT, TagLength};
use sha2::{Digest, Sha256};

/// Whether bytes begin with `PSID`.
pub fn has_magic(bytes: &[u8]) -> bool
    ensures { result ≡ magic_of bytes.now }
{
    bytes.len() >= 4 && &bytes[..4] == b"PSID".as_slice()
}

/// Whether there is a byte at a place, and another one than is wanted.
pub fn has_other(bytes: &[u8], at: usize, wanted: u8) -> bool
    ensures { result ≡ other_at at wanted bytes.now }
{
    at < bytes.len() && bytes[at] != wanted
}

/// Whether there is a byte at a place, and it is above a number.
pub fn has_above(bytes: &[u8], at: usize, most: u8) -> bool
    ensures { result ≡ above_at at most bytes.now }
{
    at < bytes.len() && bytes[at] > most
}

/// Whether the last 32 bytes are the hash of those before.
#[tactic(auto, unfolding(psi_spec::specs::DealFiles::is_sealed))]
pub fn is_sealed(bytes: &[u8]) -> bool
    requires { 32 ≤ length bytes.now }
    ensures { result ≡ sealed_by bytes.now }
{
    let (body, seal) = bytes.split_at(bytes.len() - 32);
    seal == Sha256::digest(body).as_slice()
}

/// Whether a tag can have so many bytes.
pub fn fits_tag_length(tag_length: u8) -> bool
    ensures { result ≡ tag_length_fits tag_length }
{
    TagLength::new(tag_length).is_some()
}

/// The length of a tag of so many bytes, as many as one can have.
pub fn judged_tag_length(tag_length: u8) -> TagLength
    requires { tag_length_fits tag_length ≡ true }
    ensures { result ≡ tag_length }
{
    TagLength::new(tag_length).unwrap()
}

// Whether a stash can have so many rows.
fn fits_stash(stash: u8) -> bool
    ensures { result ≡ stash_fits stash }
{
    stash <= STASH_LIMIT
}

/// Why a deal can't have these lengths.
pub fn judge_lengths(tag_length: u8, stash: u8) -> Option<BadDeal>
    ensures { result ≡ bad_request tag_length stash }
{
    if !fits_tag_length(tag_length) {
        return Some(BadDeal::TagBytes { found: tag_length });
    }
    if !fits_stash(stash) {
        return Some(BadDeal::StashRows { found: stash });
    }
    None
}

/// Why bytes are no deal file of a role.
pub fn judge(bytes: &[u8], role: Role) -> Option<BadDeal>
    requires { length bytes.now < 2 ^ 32 }
    ensures { result ≡ bad_deal (role_byte role) (role_size role) bytes.now }
{
    if !has_magic(bytes) {
        return Some(BadDeal::Magic);
    }
    if has_other(bytes, 4, VERSION) {
        return Some(BadDeal::Version { found: bytes[4] });
    }
    if has_other(bytes, 5, role.byte()) {
        return Some(BadDeal::Role { found: bytes[5] });
    }
    if bytes.len() != role.size() {
        return Some(BadDeal::Length {
            found: bytes.len() as u32,
        });
    }
    if let Some(bad) = judge_lengths(bytes[46], bytes[47]) {
        return Some(bad);
    }
    if !is_sealed(bytes) {
        return Some(BadDeal::Seal);
    }
    None
}
