// The memory of a session.
ghost use Rattle.std.specs.Prelude.{◌≡◌, ◌≤◌, [], map, length, IfOk};
ghost use Rattle.psi_spec.specs.Formulas.{item_digest};
ghost use Rattle.psi_spec.specs.Limits.{bins_for, limit_items};
ghost use Rattle.psi_spec.specs.Placement.{IsPlacementOf};
ghost use Rattle.psi_receiver.specs.Own.{AreUnmarked, AreUnshown, marks_of};
ghost use Rattle.psi_receiver.specs.Running.{IsMemory};

use crate::inputs::Inputs;
use crate::own::OwnTags;
use crate::preparing::prepare;
use psi_base::NoMemory;
use psi_bits::Columns;
use psi_frames::{COLUMN_HEAD, HELLO_SIZE, Outbox};
use std::alloc::Global;

/// All memory of a session, taken at once.
#[derive(Drop)]
pub(crate) struct Memory {
    /// The masked columns.
    pub(crate) sent: Columns,
    /// The own tags of the items, with their marks.
    pub(crate) own: OwnTags,
    /// Of each item whether it is shown: none is before all tags were taken.
    pub(crate) shown: Vec<bool>,
    /// What is to be sent, one frame at a time.
    pub(crate) outbox: Outbox,
}

impl Memory {
    /// The memory for a session of items in their slots, with no own tag marked and nothing to be sent. It is refused
    /// only where memory is wanting.
    pub(crate) fn new(alloc: Global, inputs: &Inputs<'_, '_>) -> Result<Memory, NoMemory>
        requires few { length inputs.now.items.now ≤ limit_items }
        requires digests { inputs.now.digests.now ≡ map item_digest inputs.now.items.now }
        requires placed { IsPlacementOf inputs.now.deal.now.stash inputs.now.deal.now.key
            (bins_for (length inputs.now.items.now)) inputs.now.items.now inputs.now.placement.now }
        ensures memory { IfOk result (IsMemory inputs.now.deal.now inputs.now.items.now inputs.now.placement.now) }
        ensures unmarked { IfOk result (λ memory. AreUnmarked (marks_of memory.own)) }
        ensures unshown { IfOk result (λ memory. AreUnshown memory.shown.items) }
        ensures empty { IfOk result (λ memory. memory.outbox.pending ≡ []) }
    {
        let prepared = prepare(alloc, inputs)?;
        let shown = vec![in alloc; false; inputs.items.len() as usize]?;
        let column = COLUMN_HEAD + prepared.sent.rows().div_ceil(8);
        let outbox = Outbox::with_room(alloc, column.max(HELLO_SIZE))?;
        Ok(Memory {
            sent: prepared.sent,
            own: prepared.own,
            shown,
            outbox,
        })
    }
}
