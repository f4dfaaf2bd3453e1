// The own tags of the items.
ghost use Rattle.std.specs.Prelude.{◌≡◌, ◌≤◌, ◌<◌, ◌+◌, ◌^◌, ℕ, [], length, map, take, drop, slice_index_or, All, IfOk, IsPermutation};
ghost use Rattle.psi_spec.specs.Columns.{row_of};
ghost use Rattle.psi_spec.specs.Deals.{zero_columns};
ghost use Rattle.psi_spec.specs.Hits.{list_of_slot};
ghost use Rattle.psi_spec.specs.Limits.{bins_for, limit_items, row_limit, rows_for};
ghost use Rattle.psi_spec.specs.Rising.{rising};
ghost use Rattle.psi_cuckoo.specs.Table.{slot_of};
ghost use Rattle.psi_receiver.specs.Own.{AreOwnTags, AreUnmarked, marks_of};
ghost use Rattle.psi_receiver.specs.Unmarked.{AreUnmarkedLists, IsUnmarked, IsUnmarkedList};
ghost use Rattle.psi_receiver.specs.Slots.{AreWithin, is_in_list, tag_of_word, tags_where};

use crate::rows::BATCH;
use psi_base::{NoMemory, bins};
use psi_bits::{Rows, Word512};
use psi_cuckoo::{Placement, Slot};
use psi_deal::ReceiverDeal;
use psi_oprf::{Tag, tags};
use std::alloc::Global;

/// The own tags of one list, whose they are, and which of them came.
#[derive(Drop)]
pub(crate) struct OwnList {
    /// The tags, padded, in rising order.
    pub(crate) tags: Vec<Tag>,
    /// The number of the item of each of them.
    pub(crate) items: Vec<u32>,
    /// A mark for each of them.
    pub(crate) hits: Vec<bool>,
}

/// The own tags of all items.
#[derive(Drop)]
pub(crate) struct OwnTags {
    /// The tags that are looked up in each list.
    pub(crate) lists: Vec<OwnList>,
}

// A tag, padded, and the number of its item.
type ItemTag = (Tag, u32);

// The row of each slot from a place on.
fn put_numbers(placement: &Placement, at: u32, numbers: &mut [u32])
    requires few { length placement.now < 2 ^ 32 }
    requires within { at + length numbers.old ≤ length placement.now }
    ensures { numbers.new ≡ map (λ slot. slot.row) (take (length numbers.new) (drop at placement.now)) }
{
    for i in 0..numbers.len() {
        numbers[i] = placement.slot(at + i as u32).unwrap().row;
    }
}

// The words of the rows with these numbers.
fn put_words(rows: &Rows, numbers: &[u32], words: &mut [Word512])
    requires many { length words.old ≡ length numbers.now }
    requires within { All (λ number. number < length rows.now) numbers.now }
    ensures { words.new ≡ map (λ number. slice_index_or rows.now number []) numbers.now }
{
    for i in 0..words.len() {
        words[i] = *rows.row(numbers[i]);
    }
}

// Makes `out` the tags of as many items, at most `BATCH`, from a place on.
fn tag_batch(deal: &ReceiverDeal, placement: &Placement, rows: &Rows, at: u32, out: &mut [Tag])
    requires batch { length out.old ≤ 64 }
    requires few { length placement.now < 2 ^ 32 }
    requires within { at + length out.old ≤ length placement.now }
    requires slots { AreWithin (length rows.now) placement.now }
    ensures { out.new ≡ map (tag_of_word deal.now rows.now) (take (length out.new) (drop at placement.now)) }
{
    let mut numbers = [0; BATCH];
    let mut words = [Word512::zero(); BATCH];
    let numbers = &mut numbers[..out.len()];
    let words = &mut words[..out.len()];
    put_numbers(placement, at, numbers);
    put_words(rows, numbers, words);
    tags(deal.key(), deal.tag_length(), numbers, words, out);
}

// Makes `out` the tags of all items.
fn item_tags(deal: &ReceiverDeal, placement: &Placement, rows: &Rows, out: &mut [Tag])
    requires few { length placement.now < 2 ^ 32 }
    requires many { length out.old ≡ length placement.now }
    requires slots { AreWithin (length rows.now) placement.now }
    ensures { out.new ≡ map (tag_of_word deal.now rows.now) placement.now }
{
    for turn in 0..out.len().div_ceil(BATCH) {
        let at = BATCH * turn;
        let end = out.len().min(at + BATCH);
        tag_batch(deal, placement, rows, at as u32, &mut out[at..end]);
    }
}

// The number of the list in which the tag of a slot is looked up, where there are so many bins.
fn list_of(slot: Slot, bins: u32) -> usize
    ensures { result ≡ list_of_slot bins (slot_of slot) }
{
    if slot.index == 0 {
        3 + slot.row.saturating_sub(bins) as usize
    } else {
        usize::from(slot.index) - 1
    }
}

// Of the tags by item those that are looked up in a list, each with its item, in the order of the items.
fn tags_of_list(
    alloc: Global,
    placement: &Placement,
    by_item: &[Tag],
    list: u32,
) -> Result<Vec<ItemTag>, NoMemory>
    requires many { length by_item.now ≡ length placement.now }
    requires few { length placement.now ≤ limit_items }
    requires slots { AreWithin row_limit placement.now }
    ensures { IfOk result (λ found. found.items
        ≡ tags_where (is_in_list (bins_for (length placement.now)) list) placement.now by_item.now) }
{
    let bins = bins(placement.len());
    let mut found = Vec::new(alloc);
    for i in 0..placement.len() {
        let slot = placement.slot(i).unwrap();
        if list_of(slot, bins) == list as usize {
            found.push((by_item[i as usize], i))?;
        }
    }
    Ok(found)
}

// Puts tags into rising order, each with its item.
fn sort_tags(tags: &mut [ItemTag])
    ensures moved { IsPermutation tags.old tags.new }
    ensures rise { map (λ t. t.0) tags.new ≡ rising (map (λ t. t.0) tags.old) }
{
    tags.sort_unstable();
}

// Parts tags from their items.
fn split(tagged: &[ItemTag], tags: &mut [Tag], items: &mut [u32])
    requires tags { length tags.old ≡ length tagged.now }
    requires items { length items.old ≡ length tagged.now }
    ensures tags { tags.new ≡ map (λ t. t.0) tagged.now }
    ensures items { items.new ≡ map (λ t. t.1) tagged.now }
{
    for place in 0..tagged.len() {
        tags[place] = tagged[place].0;
        items[place] = tagged[place].1;
    }
}

// The list of these tags with their items, of which none is marked.
fn unmarked(alloc: Global, tagged: &[ItemTag]) -> Result<OwnList, NoMemory>
    ensures { IfOk result (IsUnmarked tagged.now) }
{
    let mut tags = vec![in alloc; [0; 16]; tagged.len()]?;
    let mut items = vec![in alloc; 0; tagged.len()]?;
    let hits = vec![in alloc; false; tagged.len()]?;
    split(tagged, &mut tags, &mut items);
    Ok(OwnList { tags, items, hits })
}

// The tags of a list with their items, of which none is marked.
fn own_list(
    alloc: Global,
    placement: &Placement,
    by_item: &[Tag],
    list: u32,
) -> Result<OwnList, NoMemory>
    requires many { length by_item.now ≡ length placement.now }
    requires few { length placement.now ≤ limit_items }
    requires slots { AreWithin row_limit placement.now }
    ensures { IfOk result (IsUnmarkedList placement.now by_item.now list) }
{
    let mut tags = tags_of_list(alloc, placement, by_item, list)?;
    sort_tags(&mut tags);
    unmarked(alloc, &tags)
}

// The tags of so many lists with their items, of which none is marked.
fn own_lists(
    alloc: Global,
    placement: &Placement,
    by_item: &[Tag],
    count: u32,
) -> Result<Vec<OwnList>, NoMemory>
    requires many { length by_item.now ≡ length placement.now }
    requires few { length placement.now ≤ limit_items }
    requires slots { AreWithin row_limit placement.now }
    ensures { IfOk result (λ lists. AreUnmarkedLists placement.now by_item.now count lists.items) }
{
    let mut lists = Vec::with_capacity(alloc, count as usize)?;
    for list in 0..count {
        lists.push(own_list(alloc, placement, by_item, list)?)?;
    }
    Ok(lists)
}

/// The own tags of the items that have these slots, of which none is marked. `rows` has the words of the zero columns.
/// It is refused only where memory is wanting.
pub(crate) fn own_tags(
    alloc: Global,
    deal: &ReceiverDeal,
    placement: &Placement,
    rows: &Rows,
) -> Result<OwnTags, NoMemory>
    requires few { length placement.now ≤ limit_items }
    requires count { length rows.now ≡ rows_for deal.now.stash (length placement.now) }
    requires slots { AreWithin (length rows.now) placement.now }
    requires words { (row : ℕ) → row < length rows.now →
        slice_index_or rows.now row [] ≡ row_of (zero_columns deal.now (length rows.now)) row }
    ensures own { IfOk result (AreOwnTags deal.now placement.now) }
    ensures unmarked { IfOk result (λ own. AreUnmarked (marks_of own)) }
{
    let mut by_item = vec![in alloc; [0; 16]; placement.len() as usize]?;
    item_tags(deal, placement, rows, &mut by_item);
    let lists = own_lists(alloc, placement, &by_item, 3 + u32::from(deal.stash()))?;
    Ok(OwnTags { lists })
}
