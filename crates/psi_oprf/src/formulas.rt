// Codes and bins of item digests, and tags of words, over the SHA-256 of FIPS 180-4.
ghost use Rattle.std.specs.Prelude.{◌≡◌, ◌≤◌, ◌<◌, ◌++◌, length, codes, All};
ghost use Rattle.sha2.specs.Sha256.{sha256};
ghost use Rattle.psi_spec.specs.Bits.{xor, both};
ghost use Rattle.psi_spec.specs.Formulas.{bin, code as code_of, code_half, tag, padded_tag};
ghost use Rattle.psi_oprf.specs.Candidates.{bin_in as bin_in_of, bins_in as bins_in_of, digest_candidates};

use psi_base::TagLength;
use psi_bits::Word512;
use sha2::{Digest, Sha256};

/// A tag, with zeros behind its bytes.
pub type Tag = [u8; 16];

// One of the two halves, 0 or 1, of a code.
fn half_code(key: &[u8; 16], index: u8, half: u8, digest: &[u8; 32]) -> [u8; 32]
    ensures { result ≡ code_half key.now index half digest.now }
{
    let mut hasher = Sha256::new();
    hasher.update("psi-code");
    hasher.update(key);
    hasher.update([index, half]);
    hasher.update(digest);
    hasher.finalize()
}

/// The code, under a key of 16 bytes, of an item with this digest at an index: 1 to 3 for the bin
/// of that number, and 0 for the stash.
#[tactic(auto, unfolding(psi_spec::specs::Formulas::code))]
pub fn code(key: &[u8; 16], index: u8, digest: &[u8; 32]) -> Word512
    requires { index ≤ 3 }
    ensures { result ≡ code_of key.now index digest.now }
{
    let mut bytes = [0; 64];
    let (low, high) = bytes.split_at_mut(32);
    low.copy_from_slice(&half_code(key, index, 0, digest));
    high.copy_from_slice(&half_code(key, index, 1, digest));
    Word512::from_bytes(&bytes)
}

// The hash that holds the three bins of an item with this digest.
fn bins_hash(key: &[u8; 16], digest: &[u8; 32]) -> [u8; 32]
    ensures { result ≡ sha256 (codes "psi-bins" ++ key.now ++ digest.now) }
{
    let mut hasher = Sha256::new();
    hasher.update("psi-bins");
    hasher.update(key);
    hasher.update(digest);
    hasher.finalize()
}

// The bin at an index from 1 to 3, of so many bins, that a hash holds.
fn bin_in(hash: &[u8; 32], i: u8, bins: u32) -> u32
    requires bins { 1 ≤ bins }
    requires first { 1 ≤ i }
    requires last { i ≤ 3 }
    ensures bin { result ≡ bin_in_of bins i hash.now }
    ensures below { result < bins }
{
    let at = 8 * (usize::from(i) - 1);
    let mut number = [0; 8];
    number.copy_from_slice(&hash[at..at + 8]);
    (u64::from_be_bytes(number) % u64::from(bins)) as u32
}

/// The bins at index 1, 2 and 3, of so many bins, that a hash holds.
pub(crate) fn bins_in(hash: &[u8; 32], bins: u32) -> [u32; 3]
    requires { 1 ≤ bins }
    ensures bins { result ≡ bins_in_of bins hash.now }
    ensures below { All (λ candidate. candidate < bins) result }
{
    [
        bin_in(hash, 1, bins),
        bin_in(hash, 2, bins),
        bin_in(hash, 3, bins),
    ]
}

/// The bin at index `i`, from 1 to 3, of an item with this digest, under a key of 16 bytes: a number
/// below `bins`, of which there is at least one.
#[tactic(auto, unfolding(psi_spec::specs::Formulas::bin))]
pub fn bin_of(key: &[u8; 16], i: u8, digest: &[u8; 32], bins: u32) -> u32
    requires bins { 1 ≤ bins }
    requires first { 1 ≤ i }
    requires last { i ≤ 3 }
    ensures bin { result ≡ bin key.now bins i digest.now }
    ensures below { result < bins }
{
    bin_in(&bins_hash(key, digest), i, bins)
}

/// The bins at index 1, 2 and 3 of an item with this digest, from one hash: each is the answer of
/// `bin_of`.
#[tactic(auto, unfolding(psi_spec::specs::Formulas::bin))]
pub fn candidates(key: &[u8; 16], digest: &[u8; 32], bins: u32) -> [u32; 3]
    requires { 1 ≤ bins }
    ensures bins { result ≡ digest_candidates key.now bins digest.now }
    ensures below { All (λ candidate. candidate < bins) result }
{
    bins_in(&bins_hash(key, digest), bins)
}

/// Fills `out`, of 1 to 16 bytes, with the tag of that many bytes of a word at a row.
#[tactic(auto, unfolding(psi_spec::specs::Formulas::tag))]
pub fn tag_into(key: &[u8; 16], row: u32, word: &Word512, out: &mut [u8])
    requires least { 1 ≤ length out.old }
    requires most { length out.old ≤ 16 }
    ensures { out.new ≡ tag key.now (length out.old) row word.now }
{
    let mut hasher = Sha256::new();
    hasher.update("psi-tags");
    hasher.update(key);
    hasher.update(row.to_be_bytes());
    hasher.update(word.to_bytes());
    let hash = hasher.finalize();
    out.copy_from_slice(&hash[..out.len()]);
}

/// The tag, of this length, of the receiver's own word `t` at a row.
#[tactic(auto, unfolding(psi_spec::specs::Formulas::padded_tag))]
pub fn own_tag(key: &[u8; 16], tag_length: TagLength, row: u32, t: &Word512) -> Tag
    ensures { result ≡ padded_tag key.now tag_length row t.now }
{
    let mut tag = [0; 16];
    tag_into(key, row, t, &mut tag[..usize::from(tag_length.get())]);
    tag
}

/// The tag, of this length, of the word that a code makes of the sender's word `q` at a row: `q` with the bits
/// flipped that both the choice word and the code have.
pub fn peer_tag(
    key: &[u8; 16],
    tag_length: TagLength,
    row: u32,
    q: &Word512,
    choice: &Word512,
    code: &Word512,
) -> Tag
    ensures { result ≡ padded_tag key.now tag_length row (xor q.now (both choice.now code.now)) }
{
    own_tag(key, tag_length, row, &q.xor(&choice.and(code)))
}
