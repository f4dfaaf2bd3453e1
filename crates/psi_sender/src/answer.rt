// The lists of tags that answer a receiver's columns.
ghost use Rattle.std.specs.Prelude.{◌≡◌, ◌≤◌, ◌<◌, ◌+◌, ◌-◌, ◌*◌, ◌^◌, [], length, map, take, slice_index, slice_index_or, All};
ghost use Rattle.std.specs.List.{concat};
ghost use Rattle.std.specs.Ordering.{nat_cmp};
ghost use Rattle.std.specs.Cmp.Lexicographic.{slice_cmp};
ghost use Rattle.std.specs.Simd.Lanes.{zip2};
ghost use Rattle.psi_spec.specs.Rising.{rising};
ghost use Rattle.psi_spec.specs.Frames.{layout};
ghost use Rattle.psi_spec.specs.Streams.{block_frame, block_tags};
ghost use Rattle.psi_frames.specs.Boxes.{with_added};
ghost use Rattle.psi_sender.specs.Answering.{AreFor, flipped_word, word_tag, bin_list, made_list};

use crate::hashes::Hashes;
use psi_base::TagLength;
use psi_bits::Word512;
use psi_deal::SenderDeal;
use psi_frames::{BLOCK_TAGS, Frame, Outbox, put};
use psi_lanes::mask_xor;
use psi_oprf::{Tag, codes, tags};
use std::cmp::Ordering;

// How many tags are made at once.
const BATCH: usize = 64;

// Makes `words` the words of these opened rows.
fn gather_rows(opened: &[Word512], rows: &[u32], words: &mut [Word512])
    requires rows { length rows.now ≡ length words.old }
    requires within { All (λ row. row < length opened.now) rows.now }
    ensures { words.new ≡ map (λ row. slice_index_or opened.now row []) rows.now }
{
    for i in 0..words.len() {
        words[i] = opened[rows[i] as usize];
    }
}

// Makes `words` the words of opened rows, changed by what the choice word and as many codes share.
#[tactic(auto, using(crate::proofs::Making::changed_as_gathered))]
fn put_words(
    choice: &Word512,
    opened: &[Word512],
    rows: &[u32],
    codes: &[Word512],
    words: &mut [Word512],
)
    requires rows { length rows.now ≡ length words.old }
    requires codes { length codes.now ≡ length words.old }
    requires within { All (λ row. row < length opened.now) rows.now }
    ensures { words.new ≡ zip2 (flipped_word choice.now opened.now) rows.now codes.now }
{
    gather_rows(opened, rows, words);
    mask_xor(words, choice, codes);
}

// Makes `out` the tags of as many items, at most `BATCH`, with these rows and codes.
fn tag_batch(
    deal: &SenderDeal,
    opened: &[Word512],
    rows: &[u32],
    codes: &[Word512],
    out: &mut [Tag],
)
    requires few { length out.old ≤ 64 }
    requires rows { length rows.now ≡ length out.old }
    requires codes { length codes.now ≡ length out.old }
    requires within { All (λ row. row < length opened.now) rows.now }
    ensures { out.new ≡ zip2 (word_tag deal.now opened.now) rows.now codes.now }
{
    let mut words = [Word512::zero(); BATCH];
    let words = &mut words[..out.len()];
    put_words(deal.choice(), opened, rows, codes, words);
    tags(deal.key(), deal.tag_length(), rows, words, out);
}

// The bin of each item at one index, 0 to 2 for the first to the third.
fn put_rows(bins: &[[u32; 3]], index: usize, rows: &mut [u32])
    requires index { index < 3 }
    requires as_many { length rows.old ≡ length bins.now }
    ensures { rows.new ≡ map (λ three. slice_index three index) bins.now }
{
    for i in 0..bins.len() {
        rows[i] = bins[i][index];
    }
}

// The tags of at most `BATCH` items in one of the lists 0 to 2.
fn bin_batch(
    deal: &SenderDeal,
    list: u8,
    opened: &[Word512],
    digests: &[[u8; 32]],
    bins: &[[u32; 3]],
    out: &mut [Tag],
)
    requires list { list < 3 }
    requires few { length out.old ≤ 64 }
    requires digests { length digests.now ≡ length out.old }
    requires bins { length bins.now ≡ length out.old }
    requires within { All (λ three. All (λ row. row < length opened.now) three) bins.now }
    ensures { out.new ≡ bin_list deal.now opened.now list bins.now digests.now }
{
    let mut rows = [0; BATCH];
    let mut words = [Word512::zero(); BATCH];
    let rows = &mut rows[..out.len()];
    let words = &mut words[..out.len()];
    put_rows(bins, usize::from(list), rows);
    codes(deal.key(), list + 1, digests, words);
    tag_batch(deal, opened, rows, words, out);
}

// The tags of at most `BATCH` items in the list of a row of the stash. `stored` has their codes at index 0.
fn stash_batch(deal: &SenderDeal, row: u32, opened: &[Word512], stored: &[Word512], out: &mut [Tag])
    requires few { length out.old ≤ 64 }
    requires stored { length stored.now ≡ length out.old }
    requires within { row < length opened.now }
    ensures { out.new ≡ map (word_tag deal.now opened.now row) stored.now }
{
    let rows = [row; BATCH];
    tag_batch(deal, opened, &rows[..out.len()], stored, out);
}

// Makes `out` the tags of all items in one of the lists 0 to 2, in the order of the items.
fn bin_tags(
    deal: &SenderDeal,
    list: u8,
    opened: &[Word512],
    digests: &[[u8; 32]],
    bins: &[[u32; 3]],
    out: &mut [Tag],
)
    requires list { list < 3 }
    requires digests { length digests.now ≡ length out.old }
    requires bins { length bins.now ≡ length out.old }
    requires within { All (λ three. All (λ row. row < length opened.now) three) bins.now }
    ensures { out.new ≡ bin_list deal.now opened.now list bins.now digests.now }
{
    for turn in 0..out.len().div_ceil(BATCH) {
        let at = BATCH * turn;
        let end = out.len().min(at + BATCH);
        bin_batch(
            deal,
            list,
            opened,
            &digests[at..end],
            &bins[at..end],
            &mut out[at..end],
        );
    }
}

// Makes `out` the tags of all items in the list of a row of the stash, in the order of the items. `stored` has their
// codes at index 0.
fn stash_tags(deal: &SenderDeal, row: u32, opened: &[Word512], stored: &[Word512], out: &mut [Tag])
    requires stored { length stored.now ≡ length out.old }
    requires within { row < length opened.now }
    ensures { out.new ≡ map (word_tag deal.now opened.now row) stored.now }
{
    for turn in 0..out.len().div_ceil(BATCH) {
        let at = BATCH * turn;
        let end = out.len().min(at + BATCH);
        stash_batch(deal, row, opened, &stored[at..end], &mut out[at..end]);
    }
}

// Makes `out` the tags of all items in a list, in the order of the items.
fn list_tags(
    deal: &SenderDeal,
    bins: u32,
    list: u8,
    opened: &[Word512],
    hashes: &Hashes,
    out: &mut [Tag],
)
    requires bins { bins + list < 2 ^ 32 }
    requires hashed { AreFor hashes.now opened.now bins list (length out.old) }
    ensures { out.new ≡ made_list deal.now opened.now bins hashes.now list }
{
    if list < 3 {
        bin_tags(deal, list, opened, &hashes.digests, &hashes.bins, out);
    } else {
        stash_tags(deal, bins + u32::from(list - 3), opened, &hashes.codes, out);
    }
}

// The order of two tags. It compares them as numbers, where the order of arrays goes byte by byte; the high halves are
// words of the machine, and decide nearly always.
fn tag_order(left: &Tag, right: &Tag) -> Ordering
    ensures { result ≡ slice_cmp nat_cmp left.now right.now }
{
    let (left, right) = (u128::from_be_bytes(*left), u128::from_be_bytes(*right));
    let (left_high, right_high) = ((left >> 64) as u64, (right >> 64) as u64);
    if left_high == right_high {
        left.cmp(&right)
    } else {
        left_high.cmp(&right_high)
    }
}

/// Makes `out` the tags of all items in a list, in rising order. `opened` has the words of the rows.
pub(crate) fn make_list(
    deal: &SenderDeal,
    bins: u32,
    list: u8,
    opened: &[Word512],
    hashes: &Hashes,
    out: &mut [Tag],
)
    requires bins { bins + list < 2 ^ 32 }
    requires hashed { AreFor hashes.now opened.now bins list (length out.old) }
    ensures { out.new ≡ rising (made_list deal.now opened.now bins hashes.now list) }
{
    list_tags(deal, bins, list, opened, hashes, out);
    out.sort_unstable_by(tag_order);
}

// Makes `out` the bytes of tags of this length, one after another, without the zeros behind them.
fn join_tags(tags: &[Tag], tag_length: TagLength, out: &mut [u8])
    requires { length out.old ≡ length tags.now * tag_length }
    ensures { out.new ≡ concat (map (λ tag. take tag_length tag) tags.now) }
{
    let length = usize::from(tag_length.get());
    for i in 0..tags.len() {
        let at = i * length;
        out[at..at + length].copy_from_slice(&tags[i][..length]);
    }
}

/// Puts the frame of a block of a list into the outbox. `room` has room for the bytes of `BLOCK_TAGS` tags.
pub(crate) fn put_block(
    list: u8,
    block: u32,
    tag_length: TagLength,
    tags: &[Tag],
    room: &mut [u8],
    outbox: &mut Outbox,
)
    requires block { block_tags * block ≤ length tags.now }
    requires room { block_tags * tag_length ≤ length room.old }
    requires spare { 10 + block_tags * tag_length ≤ outbox.old.spare }
    ensures { outbox.new ≡
        with_added (layout (block_frame list (map (λ tag. take tag_length tag) tags.now) block)) outbox.old }
{
    let start = BLOCK_TAGS as usize * block as usize;
    let end = tags.len().min(start + BLOCK_TAGS as usize);
    let bytes = &mut room[..(end - start) * usize::from(tag_length.get())];
    join_tags(&tags[start..end], tag_length, bytes);
    put(outbox, &Frame::Tags { list, block, bytes });
}
