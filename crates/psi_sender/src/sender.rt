// The sender's end as a machine over frames.
ghost use Rattle.std.specs.Prelude.{◌≡◌, None, ⊤};
ghost use Rattle.psi_spec.specs.Deals.{IsSenderDeal};

use crate::session::Session;
use psi_base::NoMemory;
use psi_deal::SenderDeal;
use psi_frames::{End, Expect, Frame, Turn};
use psi_items::Items;
use std::alloc::Global;
use std::marker::Model;

/// The sender's end of a session, as a machine over frames.
///
/// It takes no memory before the receiver's hello comes, and all memory of the session then: at most 170 bytes for each
/// of the receiver's items and 180 for each of its own, beside the room of one frame of tags.
#[derive(Drop)]
pub struct SenderCore<'a> {
    alloc: Global,
    deal: &'a SenderDeal,
    items: &'a Items,
    hello: Expect,
    session: Option<Session<'a>>,
}

impl<'a> Model for SenderCore<'a> {
    ghost use Rattle.psi_sender.specs.Running.{SenderState, IsSender};

    ghost Value = { SenderState };

    ghost view = { λ e. record { deal = e.deal.now; items = e.items.now; session = e.session } };

    ghost invariant = { λ e. IsSender e.deal.now e.hello e.session };
}

impl<'a> SenderCore<'a> {
    /// The end that has these items and this deal, and has taken no frame yet.
    pub fn new(alloc: Global, items: &'a Items, deal: &'a SenderDeal) -> SenderCore<'a>
        ensures state { result ≡ record { deal = deal.now; items = items.now; session = None } }
        ensures deal { IsSenderDeal deal.now }
    {
        SenderCore {
            alloc,
            deal,
            items,
            hello: Expect::ReceiverHello {
                id: *deal.id(),
                session: deal.session(),
            },
            session: None,
        }
    }
}

impl<'a> End for SenderCore<'a> {
    ghost use Rattle.psi_sender.specs.Running.{state_of, front_of};

    ghost state = { λ e. state_of e };

    ghost front = { λ e. front_of e };

    ghost keeps = { λ e first frames wire. ⊤ };

    fn expect(&self) -> Option<Expect> {
        match &self.session {
            None => Some(self.hello),
            Some(session) => session.expect(),
        }
    }

    fn take(&mut self, frame: &Frame<'_>) -> Result<Turn, NoMemory> {
        match &mut self.session {
            None => {
                if let Frame::ReceiverHello { count, .. } = frame {
                    let session = Session::begin(self.alloc, self.deal, self.items, *count)?;
                    self.session = Some(session);
                }
                Ok(Turn::Send)
            }
            Some(session) => {
                session.take(frame);
                session.refill();
                Ok(session.turn())
            }
        }
    }

    fn pending(&self) -> &[u8] {
        match &self.session {
            None => &[],
            Some(session) => session.pending(),
        }
    }

    fn sent(&mut self, n: usize) {
        if let Some(session) = &mut self.session {
            session.sent(n);
            session.refill();
        }
    }
}
