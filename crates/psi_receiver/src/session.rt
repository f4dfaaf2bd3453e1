// A session, from its hello on.
ghost use Rattle.std.specs.Prelude.{◌≡◌, ◌+◌, ◌*◌, ◌≤◌, ◌++◌, [], ◌∷◌, List, map, length, IfOk};
ghost use Rattle.psi_spec.specs.Formulas.{item_digest};
ghost use Rattle.psi_spec.specs.Frames.{Frame as SeenFrame};
ghost use Rattle.psi_spec.specs.Limits.{bins_for};
ghost use Rattle.psi_spec.specs.Meeting.{placed_of};
ghost use Rattle.psi_spec.specs.Placement.{IsPlacementOf};
ghost use Rattle.psi_frames.specs.Expected.{seen};
ghost use Rattle.psi_frames.specs.Script.{MayCome, after_sending, after_taking, due_frame, turn_of};
ghost use Rattle.psi_receiver.specs.Own.{AreMarked};

use crate::inputs::Inputs;
use crate::memory::Memory;
use crate::phase::{Merge, Phase};
use crate::steps::{merge_block, put_column, put_done};
use psi_base::NoMemory;
use psi_cuckoo::Placement;
use psi_deal::ReceiverDeal;
use psi_frames::{Expect, Frame, Turn, put};
use psi_items::Items;
use std::alloc::Global;
use std::marker::Model;

/// A session, from its hello on.
#[derive(Drop)]
pub(crate) struct Session<'a> {
    deal: &'a ReceiverDeal,
    items: &'a Items,
    placement: &'a Placement,
    phase: Phase,
    memory: Memory,
}

impl<'a> Model for Session<'a> {
    ghost use Rattle.psi_receiver.specs.Running.{ReceiverState, running, IsSession};

    ghost Value = { ReceiverState };

    ghost view = { λ s. running s.deal.now s.items.now s.placement.now s.memory s.phase };

    ghost invariant = { λ s. IsSession s.deal.now s.items.now s.placement.now s.memory s.phase };
}

impl<'a> Session<'a> {
    ghost use Rattle.psi_spec.specs.Columns.{column_bytes};
    ghost use Rattle.psi_spec.specs.Sessions.{dealt_masked};
    ghost use Rattle.psi_spec.specs.Streams.{layouts, column_frames};
    ghost use Rattle.psi_receiver.specs.Running.{IsNewReceiver, TellsShown, state_of};

    /// The session of items in their slots: its hello is to be sent. It is refused only where memory is wanting.
    pub(crate) fn begin(alloc: Global, inputs: &Inputs<'a, '_>) -> Result<Session<'a>, NoMemory>
        requires digests { inputs.now.digests.now ≡ map item_digest inputs.now.items.now }
        requires placed { IsPlacementOf inputs.now.deal.now.stash inputs.now.deal.now.key
            (bins_for (length inputs.now.items.now)) inputs.now.items.now inputs.now.placement.now }
        ensures new { IfOk result IsNewReceiver }
        ensures deal { IfOk result (λ s. s.deal ≡ inputs.now.deal.now) }
        ensures placed { IfOk result (λ s. s.placed ≡ placed_of inputs.now.items.now inputs.now.placement.now) }
        ensures marks { IfOk result (λ s. AreMarked inputs.now.deal.now.tag_length [] s.lists) }
    {
        let deal = inputs.deal;
        let count = inputs.items.len();
        let mut memory = Memory::new(alloc, inputs)?;
        put(
            &mut memory.outbox,
            &Frame::ReceiverHello {
                id: *deal.id(),
                session: deal.session(),
                count,
            },
        );
        Ok(Session {
            deal,
            items: inputs.items,
            placement: inputs.placement,
            phase: Phase::Hello,
            memory,
        })
    }

    /// The frame that is due, or None while bytes are owed or once all is done.
    pub(crate) fn expect(&self) -> Option<Expect>
        ensures { result ≡ due_frame (state_of self.now) }
    {
        if !self.pending().is_empty() {
            return None;
        }
        match self.phase {
            Phase::Hello => Some(Expect::SenderHello {
                id: *self.deal.id(),
                session: self.deal.session(),
            }),
            Phase::Tags(merge) => Some(Expect::Tags {
                list: merge.list,
                block: merge.block,
                tags: merge.tags(),
                tag_length: self.deal.tag_length(),
                floor: merge.floor,
            }),
            Phase::Columns { .. } | Phase::Done | Phase::Over => None,
        }
    }

    /// Takes the frame that is due.
    pub(crate) fn take(&mut self, frame: &Frame<'_>)
        requires { MayCome (due_frame (state_of self.old)) (seen frame.now) }
        ensures state { state_of self.new ≡ after_taking (seen frame.now) (state_of self.old) }
        ensures deal { self.new.deal ≡ self.old.deal }
        ensures placed { self.new.placed ≡ self.old.placed }
        ensures marks { (before : List SeenFrame) → AreMarked self.old.deal.tag_length before self.old.lists →
            AreMarked self.old.deal.tag_length (before ++ seen frame.now ∷ []) self.new.lists }
    {
        match self.phase {
            Phase::Hello => {
                if let Frame::SenderHello { count, .. } = frame {
                    self.phase = Phase::Columns {
                        next: 0,
                        count: *count,
                    };
                }
            }
            Phase::Tags(merge) => {
                if let Frame::Tags { bytes, .. } = frame {
                    self.phase = merge_block(self.deal, &mut self.memory.own, &merge, bytes);
                }
            }
            Phase::Columns { .. } | Phase::Done | Phase::Over => {}
        }
    }

    /// The bytes that are to be sent next.
    pub(crate) fn pending(&self) -> &[u8]
        ensures { result.now ≡ self.now.pending }
    {
        self.memory.outbox.pending()
    }

    /// The first `n` of them were sent.
    pub(crate) fn sent(&mut self, n: usize)
        requires { n ≤ length self.old.pending }
        ensures state { state_of self.new ≡ after_sending n (state_of self.old) }
        ensures deal { self.new.deal ≡ self.old.deal }
        ensures placed { self.new.placed ≡ self.old.placed }
        ensures lists { self.new.lists ≡ self.old.lists }
    {
        self.memory.outbox.sent(n);
    }

    /// Puts the next frame that is owed, if one is and nothing is pending.
    pub(crate) fn refill(&mut self)
        ensures state { state_of self.new ≡ state_of self.old }
        ensures ready { self.new.pending ≡ [] → self.new.rest ≡ [] }
        ensures deal { self.new.deal ≡ self.old.deal }
        ensures placed { self.new.placed ≡ self.old.placed }
        ensures lists { self.new.lists ≡ self.old.lists }
        ensures tells { TellsShown self.new }
    {
        if !self.pending().is_empty() {
            return;
        }
        match self.phase {
            Phase::Columns { next, count } => self.phase = put_column(
                &mut self.memory,
                next,
                count,
            ),
            Phase::Done => {
                put_done(&mut self.memory);
                self.phase = Phase::Over;
            }
            Phase::Hello | Phase::Tags(_) | Phase::Over => {}
        }
    }

    /// What the session does next, where something is pending if anything is owed.
    pub(crate) fn turn(&self) -> Turn
        requires { self.now.pending ≡ [] → self.now.rest ≡ [] }
        ensures { result ≡ turn_of (state_of self.now) }
    {
        if !self.pending().is_empty() {
            return Turn::Send;
        }
        match self.phase {
            Phase::Over => Turn::Finished,
            Phase::Hello | Phase::Columns { .. } | Phase::Tags(_) | Phase::Done => Turn::More,
        }
    }

    /// Of each item whether it is shown, where something is pending if anything is owed.
    pub(crate) fn shown(&self) -> &[bool]
        ensures shown { result.now ≡ self.now.shown }
        ensures tells { (self.now.pending ≡ [] → self.now.rest ≡ []) → TellsShown self.now }
    {
        &self.memory.shown
    }

    /// The deal.
    pub(crate) fn deal(&self) -> &ReceiverDeal
        ensures { result.now ≡ self.now.deal }
    {
        self.deal
    }

    /// How many rows its columns have.
    pub(crate) fn rows(&self) -> u32
        ensures { length (layouts (column_frames 0 (dealt_masked self.now.deal self.now.placed)))
            ≡ 512 * (7 + column_bytes result) }
    {
        self.memory.sent.rows()
    }
}
