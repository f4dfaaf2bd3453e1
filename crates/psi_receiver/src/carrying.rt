// Marks that are carried to the items whose own tags came.
ghost use Rattle.std.specs.Prelude.{◌≡◌, ◌<◌, ℕ, false, length, slice_index_or, All, Contains};
ghost use Rattle.psi_receiver.specs.Own.{AreCarriable, AreCarried, IsShownAmong};

use crate::own::OwnTags;

// Sets of each of these items whether it is shown: whether it is marked.
fn carry_list(items: &[u32], hits: &[bool], shown: &mut [bool])
    requires long { length hits.now ≡ length items.now }
    requires low { All (λ item. item < length shown.old) items.now }
    ensures carried { (item : ℕ) → Contains items.now item →
        IsShownAmong items.now hits.now item (slice_index_or shown.new item false) }
    ensures kept { (item : ℕ) → ¬ Contains items.now item →
        slice_index_or shown.new item false ≡ slice_index_or shown.old item false }
{
    for place in 0..items.len() {
        shown[items[place] as usize] = hits[place];
    }
}

/// Sets of each item whether it is shown: whether its own tag is marked in its list.
///
/// `shown` has a place for each item, and no item is in two lists.
pub(crate) fn carry_marks(own: &OwnTags, shown: &mut [bool])
    requires { AreCarriable (length shown.old) own.now.lists.items }
    ensures { AreCarried own.now.lists.items shown.new }
{
    for list in &own.lists {
        carry_list(&list.items, &list.hits, shown);
    }
}
