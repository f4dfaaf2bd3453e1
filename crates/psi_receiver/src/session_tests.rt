//! Whole sessions with a sender of one item.
ghost use Rattle.std.specs.Prelude.{◌≡◌, length, map};
ghost use Rattle.psi_spec.specs.Formulas.{item_digest};
ghost use Rattle.psi_spec.specs.Limits.{bins_for};
ghost use Rattle.psi_spec.specs.Placement.{IsPlacementOf};

use crate::inputs::Inputs;
use crate::own::OwnTags;
use crate::preparing::prepare;
use crate::tests::placement;
use crate::{LoggedReceiver, ReceiverCore, run_receiver};
use psi_base::{QuietMem, Side, World};
use psi_deal::deal;
use psi_items::Items;
use psi_log::Recorder;
use psi_oprf::Tag;
use std::alloc::{AllocError, Global};
use std::process::Abort;
use std::test::Fail;

// The sender's hello, of one item, for the zero seed's deal of session 0.
const HELLO: [u8; 34] = [
    2, 0, 0, 0, 29, 1, 0x76, 0xb8, 0xe0, 0xad, 0xa0, 0xf1, 0x3d, 0x90, 0x40, 0x5d, 0x6a, 0xe5,
    0x53, 0x86, 0xbd, 0x28, 0, 0, 0, 0, 0, 0, 0, 0, 0, 0, 0, 1,
];

// The stream of a sender that has this tag of 4 bytes in each of 4 lists.
fn sender_bytes(alloc: Global, tag: &[u8; 4]) -> Result<Vec<u8>, AllocError> {
    let mut bytes = Vec::from_slice(alloc, &HELLO)?;
    for list in 0..4u8 {
        bytes.extend_from_slice(&[4, 0, 0, 0, 9, list, 0, 0, 0, 0])?;
        bytes.extend_from_slice(tag)?;
    }
    Ok(bytes)
}

// Whether the first item is shown by a session with that sender.
fn shows(alloc: Global, inputs: &Inputs<'_, '_>, tag: &[u8; 4]) -> Result<bool, Fail>
    requires digests { inputs.now.digests.now ≡ map item_digest inputs.now.items.now }
    requires placed { IsPlacementOf inputs.now.deal.now.stash inputs.now.deal.now.key
        (bins_for (length inputs.now.items.now)) inputs.now.items.now inputs.now.placement.now }
{
    let core = ReceiverCore::new(
        alloc,
        inputs.items,
        inputs.digests,
        inputs.deal,
        inputs.placement,
    )?;
    let log = Recorder::begin(alloc, inputs.placement)?;
    let mut end = LoggedReceiver::new(alloc, core, log)?;
    let mut world = QuietMem::new(alloc);
    world.set_incoming(&sender_bytes(alloc, tag)?, &[5, 40])?;
    world.open_link(Side::Connect, "here")?;
    run_receiver(alloc, &mut end, &mut world)?;
    Ok(end.shown().first() == Some(&true))
}

// The own tag of the only item.
fn only_tag(own: &OwnTags) -> Option<Tag> {
    own.lists.iter().find_map(|list| list.tags.first().copied())
}

// Whether an item is shown by a session with a sender whose tags are all its own tag with these bits flipped.
fn shows_own(rt: &impl Abort, alloc: Global, flip: u8) -> Result<bool, Fail> {
    let items = Items::read(alloc, b"ann\n")?;
    let (deal, _sender) = deal(alloc, &[0; 32], 0, 4, 1)?;
    let digests = items.digests(alloc)?;
    let placement = placement(rt, alloc, &items, &digests, &deal)?;
    let inputs = Inputs {
        items: &items,
        digests: &digests,
        deal: &deal,
        placement: &placement,
    };
    let made = prepare(alloc, &inputs)?;
    let [a, b, c, d, ..] = only_tag(&made.own).expect(rt, "a tag");
    shows(alloc, &inputs, &[a, b, c, d ^ flip])
}

#[test]
fn an_item_whose_tag_comes_is_shown(rt: HostRuntime) -> Result<(), Fail> {
    assert!(rt; shows_own(&rt, rt.alloc(), 0)?);
    Ok(())
}

#[test]
fn an_item_whose_tag_does_not_come_is_not_shown(rt: HostRuntime) -> Result<(), Fail> {
    assert!(rt; !shows_own(&rt, rt.alloc(), 1)?);
    Ok(())
}
