// A session, from the receiver's hello on.
ghost use Rattle.std.specs.Prelude.{◌≡◌, ◌≤◌, ◌<◌, [], length, IfOk};
ghost use Rattle.psi_spec.specs.Limits.{limit_items};
ghost use Rattle.psi_frames.specs.Expected.{seen};
ghost use Rattle.psi_frames.specs.Script.{MayCome, after_sending, after_taking, due_frame, turn_of};

use crate::memory::Memory;
use crate::phase::Phase;
use crate::steps::{open_next, put_tags};
use psi_base::{NoMemory, rows};
use psi_deal::SenderDeal;
use psi_frames::{Expect, Frame, Turn, put};
use psi_items::Items;
use std::alloc::Global;
use std::marker::Model;

/// A session, from the receiver's hello on.
#[derive(Drop)]
pub(crate) struct Session<'a> {
    deal: &'a SenderDeal,
    items: &'a Items,
    count: u32,
    phase: Phase,
    memory: Memory,
}

impl<'a> Model for Session<'a> {
    ghost use Rattle.psi_sender.specs.Running.{Running, running, IsSession};

    ghost Value = { Running };

    ghost view = { λ s. running s.deal.now s.items.now s.count s.memory s.phase };

    ghost invariant = { λ s. IsSession s.deal.now s.items.now s.count s.memory s.phase };
}

impl<'a> Session<'a> {
    ghost use Rattle.psi_sender.specs.Running.{begun, mid_state};

    /// The session with a receiver of `count` items: the sender's hello is to be sent. It is refused only where
    /// memory is wanting.
    pub(crate) fn begin(
        alloc: Global,
        deal: &'a SenderDeal,
        items: &'a Items,
        count: u32,
    ) -> Result<Session<'a>, NoMemory>
        requires { count ≤ limit_items }
        ensures begun { IfOk result (λ s. s ≡ begun deal.now items.now count) }
        ensures columns { IfOk result (λ _. length deal.now.chosen ≡ 512) }
    {
        let mut memory = Memory::new(alloc, deal, items, count)?;
        put(
            &mut memory.outbox,
            &Frame::SenderHello {
                id: *deal.id(),
                session: deal.session(),
                count: items.len(),
            },
        );
        Ok(Session {
            deal,
            items,
            count,
            phase: Phase::Columns { next: 0 },
            memory,
        })
    }

    /// The frame that is due, or None while bytes are owed or once all is done.
    pub(crate) fn expect(&self) -> Option<Expect>
        ensures { result ≡ due_frame (mid_state self.now) }
    {
        if !self.pending().is_empty() {
            return None;
        }
        match self.phase {
            Phase::Columns { next } => Some(Expect::Column {
                index: next,
                rows: rows(self.count, self.deal.stash()),
            }),
            Phase::Done => Some(Expect::Done),
            Phase::Tags { .. } | Phase::Over => None,
        }
    }

    /// Takes the frame that is due.
    pub(crate) fn take(&mut self, frame: &Frame<'_>)
        requires { MayCome (due_frame (mid_state self.old)) (seen frame.now) }
        ensures { mid_state self.new ≡ after_taking (seen frame.now) (mid_state self.old) }
    {
        match self.phase {
            Phase::Columns { next } => {
                if let Frame::Column { bytes, .. } = frame {
                    self.phase = open_next(self.deal, self.items, &mut self.memory, next, bytes);
                }
            }
            Phase::Done => self.phase = Phase::Over,
            Phase::Tags { .. } | Phase::Over => {}
        }
    }

    /// The bytes that are to be sent next.
    pub(crate) fn pending(&self) -> &[u8]
        ensures { result.now ≡ self.now.pending }
    {
        self.memory.outbox.pending()
    }

    /// The first `n` of them were sent.
    pub(crate) fn sent(&mut self, n: usize)
        requires { n ≤ length self.old.pending }
        ensures { mid_state self.new ≡ after_sending n (mid_state self.old) }
    {
        self.memory.outbox.sent(n);
    }

    /// Puts the next frame of tags, if one is owed and nothing is pending.
    pub(crate) fn refill(&mut self)
        ensures state { mid_state self.new ≡ mid_state self.old }
        ensures ready { self.new.pending ≡ [] → self.new.rest ≡ [] }
    {
        if !self.pending().is_empty() {
            return;
        }
        if let Phase::Tags { list, block } = self.phase {
            self.phase = put_tags(
                self.deal,
                self.items,
                self.count,
                &mut self.memory,
                list,
                block,
            );
        }
    }

    /// What the session does next, where something is pending if anything is owed.
    pub(crate) fn turn(&self) -> Turn
        requires { self.now.pending ≡ [] → self.now.rest ≡ [] }
        ensures { result ≡ turn_of (mid_state self.now) }
    {
        if !self.pending().is_empty() {
            return Turn::Send;
        }
        match self.phase {
            Phase::Over => Turn::Finished,
            Phase::Columns { .. } | Phase::Tags { .. } | Phase::Done => Turn::More,
        }
    }
}
