// Tags over whole slices, eight side by side.
ghost use Rattle.std.specs.Prelude.{◌≡◌, ◌≤◌, ◌<◌, ◌%◌, ℕ, [], length, slice_index, slice_index_or, take};
ghost use Rattle.std.specs.Simd.Lanes.{zip2};
ghost use Rattle.psi_spec.specs.Formulas.{padded, padded_tag};
ghost use Rattle.psi_lanes.specs.Digests.{IsTwoBlocks};
ghost use Rattle.psi_oprf.specs.Messages.{tag_message};

use crate::formulas::{Tag, own_tag};
use crate::messages::put_tag_blocks;
use psi_base::TagLength;
use psi_bits::Word512;
use psi_lanes::{Schedules, digests_of_two_blocks};

// The tag of this length that begins a digest.
#[inline(always)]
fn front(digest: &[u8; 32], tag_length: TagLength) -> Tag
    ensures { result ≡ padded tag_length (take tag_length digest.now) }
{
    let length = usize::from(tag_length.get());
    let mut tag = [0; 16];
    let (bytes, _) = tag.split_at_mut(length);
    bytes.copy_from_slice(&digest[..length]);
    tag
}

// Writes the blocks of the messages of the tags of eight words at their rows.
#[inline(always)]
fn put_blocks(
    key: &[u8; 16],
    rows: &[u32],
    words: &[Word512],
    first: &mut [[u8; 64]; 8],
    second: &mut [[u8; 64]; 8],
)
    requires rows { length rows.now ≡ 8 }
    requires words { length words.now ≡ 8 }
    ensures { (j : ℕ) → j < 8 →
        IsTwoBlocks (tag_message key.now (slice_index rows.now j) (slice_index_or words.now j []))
        (slice_index_or first.new j []) (slice_index_or second.new j []) }
{
    for j in 0..8 {
        let word = words[j].to_bytes();
        put_tag_blocks(key, rows[j], &word, &mut first[j], &mut second[j]);
    }
}

// Writes the tags that begin eight digests.
#[inline(always)]
fn put_fronts(digests: &[[u8; 32]; 8], tag_length: TagLength, tags: &mut [Tag])
    requires tags { length tags.old ≡ 8 }
    ensures { (j : ℕ) → j < 8 →
        slice_index_or tags.new j [] ≡ padded tag_length (take tag_length (slice_index_or digests.now j [])) }
{
    for j in 0..8 {
        tags[j] = front(&digests[j], tag_length);
    }
}

// Fills `out` with the tags of eight words at their rows.
fn eight_tags(
    key: &[u8; 16],
    tag_length: TagLength,
    rows: &[u32],
    words: &[Word512],
    room: &mut Schedules,
    out: &mut [Tag],
)
    requires rows { length rows.now ≡ 8 }
    requires words { length words.now ≡ 8 }
    requires out { length out.old ≡ 8 }
    ensures { out.new ≡ zip2 (padded_tag key.now tag_length) rows.now words.now }
{
    let mut first = [[0; 64]; 8];
    let mut second = [[0; 64]; 8];
    put_blocks(key, rows, words, &mut first, &mut second);
    put_fronts(
        &digests_of_two_blocks(&first, &second, room),
        tag_length,
        out,
    );
}

// Fills `out` with the tags of words, of which there are a multiple of eight.
fn tags_by_eight(
    key: &[u8; 16],
    tag_length: TagLength,
    rows: &[u32],
    words: &[Word512],
    out: &mut [Tag],
)
    requires rows { length rows.now ≡ length out.old }
    requires words { length words.now ≡ length out.old }
    requires eights { length out.old % 8 ≡ 0 }
    ensures { out.new ≡ zip2 (padded_tag key.now tag_length) rows.now words.now }
{
    let mut room = Schedules::new();
    for turn in 0..out.len() / 8 {
        let at = 8 * turn;
        eight_tags(
            key,
            tag_length,
            &rows[at..at + 8],
            &words[at..at + 8],
            &mut room,
            &mut out[at..at + 8],
        );
    }
}

// Fills `out` with the tags of words, one after another.
fn tags_by_one(
    key: &[u8; 16],
    tag_length: TagLength,
    rows: &[u32],
    words: &[Word512],
    out: &mut [Tag],
)
    requires rows { length rows.now ≡ length out.old }
    requires words { length words.now ≡ length out.old }
    ensures { out.new ≡ zip2 (padded_tag key.now tag_length) rows.now words.now }
{
    for i in 0..out.len() {
        out[i] = own_tag(key, tag_length, rows[i], &words[i]);
    }
}

/// Fills `out` with the tags, of this length, of as many words at as many rows: each is the answer of `own_tag`.
pub fn tags(key: &[u8; 16], tag_length: TagLength, rows: &[u32], words: &[Word512], out: &mut [Tag])
    requires rows { length rows.now ≡ length out.old }
    requires words { length words.now ≡ length out.old }
    ensures { out.new ≡ zip2 (padded_tag key.now tag_length) rows.now words.now }
{
    let eights = out.len() / 8 * 8;
    let (rows, last_rows) = rows.split_at(eights);
    let (words, last_words) = words.split_at(eights);
    let (out, last_out) = out.split_at_mut(eights);
    tags_by_eight(key, tag_length, rows, words, out);
    tags_by_one(key, tag_length, last_rows, last_words, last_out);
}
