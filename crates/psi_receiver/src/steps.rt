// The steps of a session, each over its memory.
ghost use Rattle.std.specs.Prelude.{◌≡◌, ◌≤◌, ◌<◌, ◌+◌, ◌*◌, ℕ, List, Some, length, slice_get};
ghost use Rattle.psi_spec.specs.Columns.{column_bytes};
ghost use Rattle.psi_spec.specs.Frames.{column_frame, done_frame, layout};
ghost use Rattle.psi_spec.specs.Limits.{limit_items};
ghost use Rattle.psi_spec.specs.Matrices.{column_of};
ghost use Rattle.psi_spec.specs.Placement.{Slot};
ghost use Rattle.psi_spec.specs.Streams.{blocks_for};
ghost use Rattle.psi_frames.specs.Boxes.{with_added};
ghost use Rattle.psi_receiver.specs.Marking.{IsBlock, first_in, last_in, padded_tags};
ghost use Rattle.psi_receiver.specs.Own.{AreCarriable, AreCarried, AreOwnTags, IsMerging, Marked, marks_of};
ghost use Rattle.psi_receiver.specs.Phases.{next_phase, phase_after_column};
ghost use Rattle.psi_receiver.specs.Running.{IsMergeable, IsMergedWith};
ghost use Rattle.psi_receiver.specs.Script.{tags_at};

use crate::blocks::mark_block;
use crate::carrying::carry_marks;
use crate::memory::Memory;
use crate::own::OwnTags;
use crate::phase::{Merge, Phase};
use psi_deal::ReceiverDeal;
use psi_frames::{Frame, put, tag_at};

/// Puts the frame of a column, for a sender of `count` items, and answers what comes next.
pub(crate) fn put_column(memory: &mut Memory, index: u16, count: u32) -> Phase
    requires index { index < 512 }
    requires room { 7 + column_bytes memory.old.sent.rows ≤ memory.old.outbox.spare }
    ensures memory { memory.new ≡ record memory.old { outbox = memory.new.outbox } }
    ensures outbox { memory.new.outbox
        ≡ with_added (layout (column_frame index (column_of memory.old.sent index))) memory.old.outbox }
    ensures phase { result ≡ phase_after_column index count }
{
    put(
        &mut memory.outbox,
        &Frame::Column {
            index,
            bytes: memory.sent.column(index),
        },
    );
    if index < 511 {
        return Phase::Columns {
            next: index + 1,
            count,
        };
    }
    if count > 0 {
        Phase::Tags(Merge::first(0, count))
    } else {
        Phase::Done
    }
}

/// Puts the end of the session, and finds which of the items are shown.
pub(crate) fn put_done(memory: &mut Memory)
    requires room { 5 ≤ memory.old.outbox.spare }
    requires carriable { AreCarriable (length memory.old.shown.items) memory.old.own.lists.items }
    ensures memory { memory.new ≡ record memory.old { outbox = memory.new.outbox; shown = memory.new.shown } }
    ensures outbox { memory.new.outbox ≡ with_added (layout done_frame) memory.old.outbox }
    ensures long { length memory.new.shown.items ≡ length memory.old.shown.items }
    ensures carried { AreCarried memory.old.own.lists.items memory.new.shown.items }
{
    put(&mut memory.outbox, &Frame::Done);
    carry_marks(&memory.own, &mut memory.shown);
}

/// Marks the own tags that are among those of a block, and answers what comes next.
pub(crate) fn merge_block(
    deal: &ReceiverDeal,
    own: &mut OwnTags,
    merge: &Merge,
    bytes: &[u8],
) -> Phase
    requires list { merge.now.list < 3 + deal.now.stash }
    requires block { merge.now.block < blocks_for merge.now.count }
    requires few { merge.now.count ≤ limit_items }
    requires many { length own.old.lists.items ≡ 3 + deal.now.stash }
    requires tags { IsBlock deal.now.tag_length bytes.now }
    requires long { length bytes.now ≡ tags_at merge.now.count merge.now.block * deal.now.tag_length }
    requires ready { (m : Marked) → slice_get (marks_of own.old) merge.now.list ≡ Some m →
        IsMergeable (first_in deal.now.tag_length bytes.now) merge.now.from m }
    ensures own { (slots : List Slot) → AreOwnTags deal.now slots own.old → AreOwnTags deal.now slots own.new }
    ensures merged { IsMergedWith (padded_tags deal.now.tag_length bytes.now) merge.now.list
        (marks_of own.old) (marks_of own.new) }
    ensures phase { (place : ℕ) × (result ≡ next_phase (3 + deal.now.stash) merge.now
        (last_in deal.now.tag_length bytes.now) place)
        × ((m : Marked) → slice_get (marks_of own.new) merge.now.list ≡ Some m →
        IsMerging (last_in deal.now.tag_length bytes.now) place m) }
{
    let tag_length = deal.tag_length();
    let list = &mut own.lists[usize::from(merge.list)];
    let from = mark_block(list, merge.from, bytes, tag_length);
    let last = tag_at(bytes, tag_length, merge.tags() - 1);
    merge.after(3 + deal.stash(), last, from)
}
