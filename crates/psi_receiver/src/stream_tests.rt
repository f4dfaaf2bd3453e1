//! The stream of two placed lists over columns and over their change.
ghost use Rattle.std.specs.Prelude.{◌≡◌, length, map};
ghost use Rattle.psi_spec.specs.Formulas.{item_digest};
ghost use Rattle.psi_spec.specs.Limits.{bins_for};
ghost use Rattle.psi_spec.specs.Placement.{IsPlacementOf};

use crate::inputs::Inputs;
use crate::tests::placement;
use crate::{receiver_stream, row_words};
use psi_base::{NoMemory, rows};
use psi_bits::{Columns, Rows};
use psi_deal::{ReceiverDeal, deal};
use psi_items::Items;
use psi_oprf::change;
use std::alloc::Global;
use std::process::Abort;
use std::test::Fail;

// The row words of items in a placement.
fn words_in(alloc: Global, inputs: &Inputs<'_, '_>) -> Result<Rows, NoMemory>
    requires digests { inputs.now.digests.now ≡ map item_digest inputs.now.items.now }
    requires placed { IsPlacementOf inputs.now.deal.now.stash inputs.now.deal.now.key
        (bins_for (length inputs.now.items.now)) inputs.now.items.now inputs.now.placement.now }
{
    let mut words = Rows::with_rows(alloc, rows(inputs.items.len(), inputs.deal.stash()))?;
    row_words(
        inputs.items,
        inputs.digests,
        inputs.deal.key(),
        inputs.placement,
        &mut words,
    );
    Ok(words)
}

// The row words of items that are placed.
fn placed_words(
    rt: &impl Abort,
    alloc: Global,
    items: &Items,
    deal: &ReceiverDeal,
) -> Result<Rows, Fail> {
    let digests = items.digests(alloc)?;
    let placement = placement(rt, alloc, items, &digests, deal)?;
    let inputs = Inputs {
        items,
        digests: &digests,
        deal,
        placement: &placement,
    };
    let words = words_in(alloc, &inputs)?;
    Ok(words)
}

#[test]
fn another_list_sends_the_same_over_changed_columns(rt: HostRuntime) -> Result<(), Fail> {
    let alloc = rt.alloc();
    let (receiver, sender) = deal(alloc, &[0; 32], 0, 16, 4)?;
    let items = Items::read(alloc, b"ann\nbob\n")?;
    let other_items = Items::read(alloc, b"cid\ndan\n")?;
    let words = placed_words(&rt, alloc, &items, &receiver)?;
    let others = placed_words(&rt, alloc, &other_items, &receiver)?;
    let rows = rows(2, receiver.stash());
    assert_eq!(rt; words.rows(), rows);
    assert_eq!(rt; others.rows(), rows);
    let mut zeros = Columns::zero(alloc, rows)?;
    let mut ones = Columns::zero(alloc, rows)?;
    let mut room = Columns::zero(alloc, rows)?;
    receiver.columns(&mut zeros, &mut ones);
    let sent = receiver_stream(alloc, &receiver, 2, &words, &zeros, &ones)?;
    assert_eq!(rt; sent.len(), 4_135);
    let other = receiver_stream(alloc, &receiver, 2, &others, &zeros, &ones)?;
    assert!(rt; other.as_slice() != sent.as_slice());
    change(
        &mut zeros,
        &mut ones,
        sender.choice(),
        &words,
        &others,
        &mut room,
    );
    let hidden = receiver_stream(alloc, &receiver, 2, &others, &zeros, &ones)?;
    assert_eq!(rt; hidden.as_slice(), sent.as_slice());
    Ok(())
}
