// Own tags that are found among the tags of a block.
ghost use Rattle.std.specs.Prelude.{◌≡◌, ◌≤◌, ◌<◌, ◌^◌, ◌||◌, ℕ, [], false, length, slice_index_or, IsSorted};
ghost use Rattle.std.specs.Cmp.Lexicographic.{slice_cmp};
ghost use Rattle.std.specs.Ordering.{nat_cmp};
ghost use Rattle.std.specs.Str.{bytes_eq};
ghost use Rattle.psi_spec.specs.Frames.{is_below};
ghost use Rattle.psi_receiver.specs.Marking.{IsBlock, first_in, is_among, last_in, not_above, padded_tags, PartsAt};

use psi_base::TagLength;
use psi_frames::tag_at;
use psi_oprf::Tag;

// Marks the own tags from a place on that are this tag, and answers the place that parts the own tags there. Those
// before the first place are not above the tag.
fn mark_tag(own: &[Tag], from: u32, tag: &Tag, hits: &mut [bool]) -> u32
    requires rises { IsSorted (slice_cmp nat_cmp) own.now }
    requires few { length own.now < 2 ^ 32 }
    requires hits { length hits.old ≡ length own.now }
    requires from { from ≤ length own.now }
    requires passed { (i : ℕ) → i < from → is_below tag.now (slice_index_or own.now i []) ≡ false }
    ensures kept { (i : ℕ) → i < from → slice_index_or hits.new i false ≡ slice_index_or hits.old i false }
    ensures marked { (i : ℕ) → from ≤ i → i < length own.now →
        slice_index_or hits.new i false
        ≡ (slice_index_or hits.old i false || bytes_eq (slice_index_or own.now i []) tag.now) }
    ensures onward { from ≤ result }
    ensures place { PartsAt tag.now own.now result }
{
    for i in from as usize..own.len() {
        let order = own[i].cmp(tag);
        if order.is_gt() {
            return i as u32;
        }
        if order.is_eq() {
            hits[i] = true;
        }
    }
    own.len() as u32
}

/// Marks the own tags from a place on that are among the tags of a block, and answers how many own tags are not above
/// the block's last.
///
/// `own` has fewer than 2^32 tags in rising order, and `hits` a mark for each. `bytes` has 1 to 1,024 tags of this
/// length in rising order, and nothing else: each counts with zeros behind it. The own tags before `from` are not above
/// its first. A mark that is set stays, and so do all before `from`.
pub fn mark(own: &[Tag], from: u32, bytes: &[u8], tag_length: TagLength, hits: &mut [bool]) -> u32
    requires rises { IsSorted (slice_cmp nat_cmp) own.now }
    requires few { length own.now < 2 ^ 32 }
    requires hits { length hits.old ≡ length own.now }
    requires from { from ≤ length own.now }
    requires block { IsBlock tag_length bytes.now }
    requires passed { (i : ℕ) → i < from →
        is_below (first_in tag_length bytes.now) (slice_index_or own.now i []) ≡ false }
    ensures kept { (i : ℕ) → i < from → slice_index_or hits.new i false ≡ slice_index_or hits.old i false }
    ensures marked { (i : ℕ) → from ≤ i → i < length own.now →
        slice_index_or hits.new i false
        ≡ (slice_index_or hits.old i false
        || is_among (padded_tags tag_length bytes.now) (slice_index_or own.now i [])) }
    ensures passed { result ≡ not_above (last_in tag_length bytes.now) own.now }
{
    let mut at = from;
    for index in 0..(bytes.len() / usize::from(tag_length.get())) as u16 {
        at = mark_tag(own, at, &tag_at(bytes, tag_length, index), hits);
    }
    at
}
