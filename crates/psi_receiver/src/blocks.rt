// Blocks of tags that are merged with the own tags of their list.
ghost use Rattle.std.specs.Prelude.{◌≡◌, ◌≤◌, ◌<◌, ◌^◌, ◌||◌, ℕ, [], false, length, slice_index_or, IsSorted};
ghost use Rattle.std.specs.Cmp.Lexicographic.{slice_cmp};
ghost use Rattle.std.specs.Ordering.{nat_cmp};
ghost use Rattle.psi_receiver.specs.Marking.{IsBlock, first_in, is_among, last_in, padded_tags};
ghost use Rattle.psi_receiver.specs.Own.{IsMerging, marked_of};

use crate::marking::mark;
use crate::own::OwnList;
use psi_base::TagLength;

/// Marks the own tags of a list that are among the tags of its next block, and answers the place at which the block
/// behind this one goes on.
///
/// The own tags rise, there are fewer than 2^32, and each has a mark. `bytes` is a block of tags of this length, which
/// goes on at the place `from`: no own tag before that place is above its first, and those that equal it are marked.
pub(crate) fn mark_block(list: &mut OwnList, from: u32, bytes: &[u8], tag_length: TagLength) -> u32
    requires rises { IsSorted (slice_cmp nat_cmp) list.old.tags.items }
    requires few { length list.old.tags.items < 2 ^ 32 }
    requires hits { length list.old.hits.items ≡ length list.old.tags.items }
    requires block { IsBlock tag_length bytes.now }
    requires merging { IsMerging (first_in tag_length bytes.now) from (marked_of list.old) }
    ensures tags { list.new.tags.items ≡ list.old.tags.items }
    ensures items { list.new.items.items ≡ list.old.items.items }
    ensures hits { length list.new.hits.items ≡ length list.old.hits.items }
    ensures marked { (i : ℕ) → i < length list.old.tags.items →
        slice_index_or list.new.hits.items i false
        ≡ (slice_index_or list.old.hits.items i false
        || is_among (padded_tags tag_length bytes.now) (slice_index_or list.old.tags.items i [])) }
    ensures merging { IsMerging (last_in tag_length bytes.now) result (marked_of list.new) }
{
    mark(&list.tags, from, bytes, tag_length, &mut list.hits)
}
