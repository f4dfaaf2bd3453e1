// A whole session in memory.
ghost use Rattle.std.specs.Prelude.{◌≡◌, ◌≤◌, None, OnOk, length};
ghost use Rattle.psi_spec.specs.Deals.{ArePair, IsReceiverDeal, IsSenderDeal};
ghost use Rattle.psi_spec.specs.Limits.{limit_items};
ghost use Rattle.psi_spec.specs.Sessions.{session_bytes};
ghost use Rattle.psi_receiver.specs.Receiving.{hits_of};
ghost use Rattle.psi_receiver.specs.Running.{IsNewReceiver};
ghost use Rattle.psi_session.specs.Transcripts.{HearsOn};
ghost use Rattle.psi_spec.specs.Sessions.{dealt_lists};

use crate::playing::play;
use crate::transcript::Transcript;
use psi_base::NoMemory;
use psi_receiver::ReceiverCore;
use psi_sender::SenderCore;
use std::alloc::Global;

/// Runs a whole session between both ends in memory, which took no frame yet, whose deals are a pair, and each of
/// which has at most 1,048,576 items. Each frame goes from the outbox of one end into an inbox, out of which the other
/// end takes it, and its bytes into the transcript.
///
/// Once it is done, of each of the receiver's items is told whether it is shown. It is refused only where memory is
/// wanting, and then neither end is used again.
pub fn exchange<T: Transcript>(
    alloc: Global,
    receiver: &mut ReceiverCore<'_>,
    sender: &mut SenderCore<'_>,
    transcript: &mut T,
) -> Result<(), NoMemory>
    requires receiver { IsNewReceiver receiver.old }
    requires sender { sender.old.session ≡ None }
    requires receiver_deal { IsReceiverDeal receiver.old.deal }
    requires sender_deal { IsSenderDeal sender.old.deal }
    requires pair { ArePair receiver.old.deal sender.old.deal }
    requires few_of_receiver { length receiver.old.placed ≤ limit_items }
    requires few_of_sender { length sender.old.items ≤ limit_items }
    ensures shown { OnOk result (receiver.new.shown ≡ hits_of receiver.old.deal receiver.old.placed
        (dealt_lists receiver.old.deal sender.old.deal receiver.old.placed sender.old.items)) }
    ensures heard { OnOk result (HearsOn (T.hears transcript.old) (T.hears transcript.new)
        (session_bytes receiver.old.deal sender.old.deal receiver.old.placed sender.old.items)) }
{
    play(alloc, receiver, sender, transcript)
}
