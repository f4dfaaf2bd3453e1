// A sender's session over the link.
ghost use Rattle.std.specs.Prelude.{◌≡◌, None, IsTrue};
ghost use Rattle.psi_spec.specs.Deals.{IsSenderDeal};
ghost use Rattle.psi_frames.specs.Converse.{Converses};
ghost use Rattle.psi_sender.specs.Script.{sender_script};

use crate::sender::SenderCore;
use psi_base::World;
use psi_frames::{EndFault, converse};
use std::alloc::Global;

/// How many frames a sender awaits: the receiver's hello, 512 columns, and the end.
const FRAMES: u32 = 514;

/// Runs the session of an end that has taken no frame yet over the link, which is ready.
///
/// `NoMemory` comes where memory is wanting before the receiver's hello came, or with it for the session, or where a
/// send had none; `Bad` with the first wrong field of a frame; `PeerEnded` where the peer sent no more bytes, with the
/// place of the frame that was due; and `Link` where a call of the link failed.
pub fn run_sender<W: World>(
    alloc: Global,
    core: &mut SenderCore<'_>,
    world: &mut W,
) -> Result<(), EndFault>
    requires ready { IsTrue (W.outside world.old).ready }
    requires new { core.old.session ≡ None }
    requires deal { IsSenderDeal core.old.deal }
    ensures { Converses W.known (sender_script core.old.deal core.old.items)
        (W.outside world.old) result (W.outside world.new) }
{
    converse(alloc, core, FRAMES, world)
}
