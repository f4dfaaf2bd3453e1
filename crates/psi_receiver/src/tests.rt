//! Worked rows.
ghost use Rattle.std.specs.Prelude.{◌≡◌, IfOk, length, map, true};
ghost use Rattle.psi_spec.specs.Deals.{fits_tag_length};
ghost use Rattle.psi_spec.specs.Formulas.{item_digest};
ghost use Rattle.psi_spec.specs.Limits.{bins_for};
ghost use Rattle.psi_spec.specs.Placement.{IsPlacementOf};

use crate::inputs::Inputs;
use crate::marking::mark;
use crate::own::OwnTags;
use crate::preparing::prepare;
use psi_base::{TagLength, bins};
use psi_cuckoo::{Placement, place};
use psi_deal::{ReceiverDeal, deal};
use psi_items::Items;
use psi_oprf::{Tag, item_candidates};
use std::alloc::Global;
use std::process::Abort;
use std::test::Fail;

// Own tags of one byte each, padded.
const OWN: [Tag; 4] = [
    [3, 0, 0, 0, 0, 0, 0, 0, 0, 0, 0, 0, 0, 0, 0, 0],
    [5, 0, 0, 0, 0, 0, 0, 0, 0, 0, 0, 0, 0, 0, 0, 0],
    [5, 0, 0, 0, 0, 0, 0, 0, 0, 0, 0, 0, 0, 0, 0, 0],
    [9, 0, 0, 0, 0, 0, 0, 0, 0, 0, 0, 0, 0, 0, 0, 0],
];

// The length of a tag.
fn tag_length(bytes: u8) -> TagLength
    requires { fits_tag_length bytes ≡ true }
    ensures { result ≡ bytes }
{
    TagLength::new(bytes).unwrap()
}

#[test]
fn blocks_mark_own_tags(rt: HostRuntime) {
    let mut hits = [false; 4];
    assert_eq!(rt; mark(&OWN, 0, &[4, 5], tag_length(1), &mut hits), 3);
    assert_eq!(rt; hits, [false, true, true, false]);
    assert_eq!(rt; mark(&OWN, 3, &[5, 9], tag_length(1), &mut hits), 4);
    assert_eq!(rt; hits, [false, true, true, true]);
}

#[test]
fn no_own_tags_are_marked(rt: HostRuntime) {
    assert_eq!(rt; mark(&[], 0, &[7], tag_length(1), &mut []), 0);
}

// The placement of items with these digests.
pub(crate) fn placement(
    rt: &impl Abort,
    alloc: Global,
    items: &Items,
    digests: &[[u8; 32]],
    deal: &ReceiverDeal,
) -> Result<Placement, Fail>
    requires { digests.now ≡ map item_digest items.now }
    ensures { IfOk result (IsPlacementOf deal.now.stash deal.now.key (bins_for (length items.now)) items.now) }
{
    let bins = bins(items.len());
    let candidates = item_candidates(alloc, deal.key(), bins, digests)?;
    let placement = place(alloc, &candidates, bins, deal.stash())
        .ok()
        .expect(rt, "a placement");
    Ok(placement)
}

// How many own tags the lists have.
fn count_tags(own: &OwnTags) -> usize {
    let mut count = 0usize;
    for list in &own.lists {
        count = count.saturating_add(list.items.len());
    }
    count
}

#[test]
fn three_items_are_prepared(rt: HostRuntime) -> Result<(), Fail> {
    let alloc = rt.alloc();
    let items = Items::read(alloc, b"a\nb\nc\n")?;
    let (deal, _sender) = deal(alloc, &[0; 32], 0, 16, 4)?;
    let digests = items.digests(alloc)?;
    let placement = placement(&rt, alloc, &items, &digests, &deal)?;
    let inputs = Inputs {
        items: &items,
        digests: &digests,
        deal: &deal,
        placement: &placement,
    };
    let made = prepare(alloc, &inputs)?;
    assert_eq!(rt; made.sent.rows(), 8);
    assert_eq!(rt; made.own.lists.len(), 7);
    assert_eq!(rt; count_tags(&made.own), 3);
    Ok(())
}
