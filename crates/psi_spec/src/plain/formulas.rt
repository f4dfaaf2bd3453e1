//! Digests, codes, bins and tags: each is the hash of one message, which is put together whole.
ghost use Rattle.std.specs.Prelude.{◌≡◌, ◌≤◌, ◌++◌, ◌∷◌, [], IfOk};
ghost use Rattle.sha2.specs.Sha256.{sha256 as hash_of};
ghost use Rattle.psi_spec.specs.Formulas.{
  item_digest as digest_of,
  code as code_of,
  code_half,
  bin as bin_of,
  tag as tag_of,
};

use sha2::{Digest, Sha256};
use std::alloc::{AllocError, Global};

/// The SHA-256 of a message.
pub fn sha256(message: &[u8]) -> [u8; 32]
    ensures { result ≡ hash_of message.now }
{
    Sha256::digest(message)
}

/// The digest of an item. Err where memory is wanting.
#[tactic(auto, unfolding(crate::specs::Formulas::item_digest))]
pub fn item_digest(alloc: Global, item: &[u8]) -> Result<[u8; 32], AllocError>
    ensures { IfOk result (λ digest. digest ≡ digest_of item.now) }
{
    let mut message = Vec::from_slice(alloc, b"psi-item")?;
    message.extend_from_slice(item)?;
    Ok(sha256(&message))
}

// One of the two halves, 0 or 1, of a code.
fn half_code(
    alloc: Global,
    key: &[u8; 16],
    index: u8,
    half: u8,
    digest: &[u8; 32],
) -> Result<[u8; 32], AllocError>
    ensures { IfOk result (λ hash. hash ≡ code_half key.now index half digest.now) }
{
    let mut message = Vec::from_slice(alloc, b"psi-code")?;
    message.extend_from_slice(key)?;
    message.extend_from_slice(&[index, half])?;
    message.extend_from_slice(digest)?;
    Ok(sha256(&message))
}

/// The 64 bytes of the code of an item's digest at an index from 0 to 3. Err where memory is
/// wanting.
#[tactic(auto, unfolding(crate::specs::Formulas::code))]
pub fn code(
    alloc: Global,
    key: &[u8; 16],
    index: u8,
    digest: &[u8; 32],
) -> Result<Vec<u8>, AllocError>
    requires { index ≤ 3 }
    ensures { IfOk result (λ code. code.items ≡ code_of key.now index digest.now) }
{
    let mut code = Vec::from_slice(alloc, &half_code(alloc, key, index, 0, digest)?)?;
    code.extend_from_slice(&half_code(alloc, key, index, 1, digest)?)?;
    Ok(code)
}

/// The bin, of so many bins, of an item's digest at an index from 1 to 3. Err where memory is
/// wanting.
#[tactic(auto, unfolding(crate::specs::Formulas::bin))]
pub fn bin(
    alloc: Global,
    key: &[u8; 16],
    bins: u32,
    index: u8,
    digest: &[u8; 32],
) -> Result<u32, AllocError>
    requires bins { 1 ≤ bins }
    requires first { 1 ≤ index }
    requires last { index ≤ 3 }
    ensures { IfOk result (λ bin. bin ≡ bin_of key.now bins index digest.now) }
{
    let mut message = Vec::from_slice(alloc, b"psi-bins")?;
    message.extend_from_slice(key)?;
    message.extend_from_slice(digest)?;
    let hash = sha256(&message);
    let at = 8 * (usize::from(index) - 1);
    let mut part = [0; 8];
    part.copy_from_slice(&hash[at..at + 8]);
    Ok((u64::from_be_bytes(part) % u64::from(bins)) as u32)
}

/// The tag, of 1 to 16 bytes, of a row and the 64 bytes of its word. Err where memory is wanting.
#[tactic(auto, unfolding(crate::specs::Formulas::tag))]
pub fn tag(
    alloc: Global,
    key: &[u8; 16],
    tag_length: usize,
    row: u32,
    word: &[u8; 64],
) -> Result<Vec<u8>, AllocError>
    requires least { 1 ≤ tag_length }
    requires most { tag_length ≤ 16 }
    ensures { IfOk result (λ tag. tag.items ≡ tag_of key.now tag_length row word.now) }
{
    let mut message = Vec::from_slice(alloc, b"psi-tags")?;
    message.extend_from_slice(key)?;
    message.extend_from_slice(&row.to_be_bytes())?;
    message.extend_from_slice(word)?;
    Vec::from_slice(alloc, &sha256(&message)[..tag_length])
}
