// The words of the receiver's rows.
ghost use Rattle.std.specs.Prelude.{◌≡◌, ◌≤◌, ◌<◌, ◌+◌, ◌^◌, drop, length, map, replicate, take};
ghost use Rattle.psi_spec.specs.Bits.{zero_word};
ghost use Rattle.psi_spec.specs.Formulas.{item_digest};
ghost use Rattle.psi_spec.specs.Meeting.{placed_of};
ghost use Rattle.psi_spec.specs.Streams.{row_words as row_words_of};
ghost use Rattle.psi_receiver.specs.Slots.{AreSlotsFor};

use psi_bits::{Rows, Word512};
use psi_cuckoo::Placement;
use psi_items::Items;
use psi_oprf::codes_at;

/// How many items are worked on at once.
pub(crate) const BATCH: usize = 64;

// The index of each slot from a place on.
fn put_indices(placement: &Placement, at: u32, indices: &mut [u8])
    requires few { length placement.now < 2 ^ 32 }
    requires within { at + length indices.old ≤ length placement.now }
    ensures { indices.new ≡ map (λ slot. slot.index) (take (length indices.new) (drop at placement.now)) }
{
    for i in 0..indices.len() {
        indices[i] = placement.slot(at + i as u32).unwrap().index;
    }
}

// Puts the codes of the items from a place on, at most `BATCH`, into their rows. Those of the items before are there.
fn put_codes(
    items: &Items,
    digests: &[[u8; 32]],
    key: &[u8; 16],
    placement: &Placement,
    at: u32,
    out: &mut Rows,
)
    requires digests { digests.now ≡ map item_digest items.now }
    requires slots { AreSlotsFor (length items.now) (length out.old) placement.now }
    requires at { at ≤ length items.now }
    requires before { out.old ≡ row_words_of key.now (take at (placed_of items.now placement.now)) (length out.old) }
    ensures { out.new ≡ row_words_of key.now
        (take (at + 64) (placed_of items.now placement.now)) (length out.old) }
{
    let mut indices = [0; BATCH];
    let mut words = [Word512::zero(); BATCH];
    let count = (items.len() - at).min(BATCH as u32) as usize;
    let indices = &mut indices[..count];
    let words = &mut words[..count];
    put_indices(placement, at, indices);
    codes_at(
        key,
        indices,
        &digests[at as usize..at as usize + count],
        words,
    );
    for i in 0..words.len() {
        let slot = placement.slot(at + i as u32).unwrap();
        *out.row_mut(slot.row) = words[i];
    }
}

/// Puts the codes of items, which have these digests and slots, into their rows of `out`, whose words are zero: row j
/// becomes the code of the item that is placed there, at the index of its slot, and the other rows stay zero.
pub fn row_words(
    items: &Items,
    digests: &[[u8; 32]],
    key: &[u8; 16],
    placement: &Placement,
    out: &mut Rows,
)
    requires digests { digests.now ≡ map item_digest items.now }
    requires slots { AreSlotsFor (length items.now) (length out.old) placement.now }
    requires zero { out.old ≡ replicate (length out.old) zero_word }
    ensures words { out.new ≡ row_words_of key.now (placed_of items.now placement.now) (length out.old) }
    ensures count { length out.new ≡ length out.old }
{
    for turn in 0..items.len().div_ceil(BATCH as u32) {
        put_codes(items, digests, key, placement, BATCH as u32 * turn, out);
    }
}
