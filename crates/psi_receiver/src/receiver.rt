// The receiver's end as a machine over frames.
ghost use Rattle.std.specs.Prelude.{◌≡◌, ◌+◌, ◌*◌, [], map, length, IfOk};
ghost use Rattle.psi_spec.specs.Deals.{IsReceiverDeal};
ghost use Rattle.psi_spec.specs.Formulas.{item_digest};
ghost use Rattle.psi_spec.specs.Limits.{bins_for};
ghost use Rattle.psi_spec.specs.Meeting.{placed_of};
ghost use Rattle.psi_spec.specs.Placement.{IsPlacementOf};

use crate::inputs::Inputs;
use crate::session::Session;
use psi_base::NoMemory;
use psi_cuckoo::Placement;
use psi_deal::ReceiverDeal;
use psi_frames::{End, Expect, Frame, Turn};
use psi_items::Items;
use std::alloc::Global;
use std::marker::Model;

/// The receiver's end of a session, as a machine over frames.
///
/// It takes all memory of the session when it is made, and none later.
#[derive(Drop)]
pub struct ReceiverCore<'a> {
    session: Session<'a>,
}

impl<'a> Model for ReceiverCore<'a> {
    ghost use Rattle.std.specs.Prelude.{◌≡◌, []};
    ghost use Rattle.psi_receiver.specs.Running.{ReceiverState};

    ghost Value = { ReceiverState };

    ghost view = { λ e. e.session };

    ghost invariant = { λ e. e.session.pending ≡ [] → e.session.rest ≡ [] };
}

impl<'a> ReceiverCore<'a> {
    ghost use Rattle.psi_spec.specs.Columns.{column_bytes};
    ghost use Rattle.psi_spec.specs.Sessions.{dealt_masked};
    ghost use Rattle.psi_spec.specs.Streams.{layouts, column_frames};
    ghost use Rattle.psi_receiver.specs.Running.{IsNewReceiver, KeptSince, TellsShown};

    /// The end of items in their slots, whose hello is pending. `digests` are those of the items, in their order, and
    /// the placement is one of the items for the deal's key and stash. It is refused only where memory is wanting.
    pub fn new(
        alloc: Global,
        items: &'a Items,
        digests: &[[u8; 32]],
        deal: &'a ReceiverDeal,
        placement: &'a Placement,
    ) -> Result<ReceiverCore<'a>, NoMemory>
        requires digests { digests.now ≡ map item_digest items.now }
        requires placed { IsPlacementOf deal.now.stash deal.now.key (bins_for (length items.now))
            items.now placement.now }
        ensures new { IfOk result IsNewReceiver }
        ensures deal { IfOk result (λ core. core.deal ≡ deal.now) }
        ensures placed { IfOk result (λ core. core.placed ≡ placed_of items.now placement.now) }
        ensures sizes { IsReceiverDeal deal.now }
        ensures keeps { IfOk result (λ core. KeptSince core core []) }
    {
        let _id = deal.id();
        let inputs = Inputs {
            items,
            digests,
            deal,
            placement,
        };
        let session = Session::begin(alloc, &inputs)?;
        Ok(ReceiverCore { session })
    }

    /// Of each item whether it is shown, in the order of the items: none is before all tags were taken, and then each
    /// is whose own tag is in the list of its slot.
    pub fn shown(&self) -> &[bool]
        ensures shown { result.now ≡ self.now.shown }
        ensures tells { TellsShown self.now }
    {
        self.session.shown()
    }

    /// The deal.
    pub(crate) fn deal(&self) -> &ReceiverDeal
        ensures { result.now ≡ self.now.deal }
    {
        self.session.deal()
    }

    /// How many rows its columns have.
    pub(crate) fn rows(&self) -> u32
        ensures { length (layouts (column_frames 0 (dealt_masked self.now.deal self.now.placed)))
            ≡ 512 * (7 + column_bytes result) }
    {
        self.session.rows()
    }
}

impl<'a> End for ReceiverCore<'a> {
    ghost use Rattle.psi_receiver.specs.Running.{KeptSince, state_of};

    ghost state = { λ e. state_of e };

    ghost front = { λ e. e.pending };

    ghost keeps = { λ e first frames wire. KeptSince first e frames };

    fn expect(&self) -> Option<Expect> {
        self.session.expect()
    }

    fn take(&mut self, frame: &Frame<'_>) -> Result<Turn, NoMemory> {
        self.session.take(frame);
        self.session.refill();
        Ok(self.session.turn())
    }

    fn pending(&self) -> &[u8] {
        self.session.pending()
    }

    fn sent(&mut self, n: usize) {
        self.session.sent(n);
        self.session.refill();
    }
}
