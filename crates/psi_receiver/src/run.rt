// A receiver's session over the link.
ghost use Rattle.std.specs.Prelude.{IsTrue};
ghost use Rattle.psi_spec.specs.Deals.{IsReceiverDeal};
ghost use Rattle.psi_receiver.specs.Receiving.{Receives};
ghost use Rattle.psi_receiver.specs.Running.{IsNewReceiver};

use crate::logged::LoggedReceiver;
use psi_base::World;
use psi_frames::{EndFault, converse};
use std::alloc::Global;

/// How many frames a receiver awaits at most: the sender's hello, and 1,024 blocks of each of 19 lists.
const FRAMES: u32 = 19_457;

/// Runs the session of an end that has taken no frame yet over the link, which is ready, and writes it down.
///
/// `NoMemory` comes where memory is wanting before the sender's hello came, or with it for the record, or where a send
/// had none; `Bad` with the first wrong field of a frame; `PeerEnded` where the peer sent no more bytes, with the
/// place of the frame that was due; and `Link` where a call of the link failed.
pub fn run_receiver<W: World>(
    alloc: Global,
    end: &mut LoggedReceiver<'_>,
    world: &mut W,
) -> Result<(), EndFault>
    requires ready { IsTrue (W.outside world.old).ready }
    requires new { IsNewReceiver end.old.core }
    requires deal { IsReceiverDeal end.old.core.deal }
    ensures { Receives W.known end.old.core.deal end.old.core.placed (W.outside world.old) end.old.log result
        end.new.core.shown end.new.log (W.outside world.new) }
{
    converse(alloc, end, FRAMES, world)
}
