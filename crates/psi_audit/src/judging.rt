// The audit of a record.
ghost use Rattle.std.specs.Prelude.{◌≡◌, ◌<◌, ◌≤◌, ◌^◌, ◌≢◌, None, Some, IfErr, IfOk, OnOk, length, map};
ghost use Rattle.psi_spec.specs.Collisions.{places_from};
ghost use Rattle.psi_spec.specs.Formulas.{item_digest};
ghost use Rattle.psi_spec.specs.Limits.{bins_for, stash_limit};
ghost use Rattle.psi_spec.specs.Meeting.{is_shown};
ghost use Rattle.psi_spec.specs.Placement.{IsPlacementOf};
ghost use Rattle.psi_cuckoo.specs.Table.{slot_of};
ghost use Rattle.psi_cuckoo.specs.declared.errors.BadSlots.TheVariants as bad;
ghost use Rattle.psi_audit.specs.Naming.{AreInputs, setup_in};
ghost use Rattle.psi_audit.specs.declared.verdict.Verdict.TheVariants as answer;
ghost use Rattle.psi_audit.specs.Verdicts.{consistent, slots_fault, verdict_of, wire_verdict};

use crate::colliding::collisions;
use crate::comparing::Comparison;
use crate::inputs::Inputs;
use crate::verdict::Verdict;
use psi_base::{NoMemory, Places, bins};
use psi_cuckoo::{BadSlots, Placement, Slot, check_placement};
use psi_deal::{ReceiverDeal, SenderDeal, deals_differ};
use psi_items::Items;
use psi_log::LoggedSession;
use psi_oprf::item_candidates;
use psi_receiver::ReceiverCore;
use psi_sender::SenderCore;
use psi_session::exchange;
use std::alloc::Global;

// The places of the marks that are set.
fn marked_places(alloc: Global, marks: &[bool]) -> Result<Places, NoMemory>
    requires { length marks.now < 2 ^ 32 }
    ensures { IfOk result (λ places. places ≡ places_from 0 marks.now) }
{
    let mut places = Places::new(alloc);
    for place in 0..marks.len() {
        if marks[place] {
            places.push(place as u32)?;
        }
    }
    Ok(places)
}

// The recorded slots as a placement of the receiver's items, which have these digests.
fn recorded_placement(
    alloc: Global,
    digests: &[[u8; 32]],
    x: &Items,
    receiver: &ReceiverDeal,
    slots: &[Slot],
) -> Result<Placement, BadSlots>
    requires digests { digests.now ≡ map item_digest x.now }
    requires few { length slots.now < 2 ^ 32 }
    ensures kept { IfOk result (λ placement. placement ≡ map slot_of slots.now) }
    ensures placed { IfOk result
        (IsPlacementOf receiver.now.stash receiver.now.key (bins_for (length x.now)) x.now) }
    ensures stash { OnOk result (receiver.now.stash ≤ stash_limit) }
    ensures right { OnOk result (slots_fault receiver.now x.now (map slot_of slots.now) ≡ None) }
    ensures wrong { IfErr result
        (λ e. e ≢ bad.NoMemory → slots_fault receiver.now x.now (map slot_of slots.now) ≡ Some e) }
{
    let bins = bins(x.len());
    let candidates = item_candidates(alloc, receiver.key(), bins, digests)?;
    check_placement(alloc, &candidates, bins, receiver.stash(), slots)
}

// The verdict on slots with this fault.
fn refused(fault: BadSlots) -> Result<Verdict, NoMemory>
    ensures slots { IfOk result (λ verdict. verdict ≡ answer.Slots fault) }
    ensures memory { OnOk result (fault ≢ bad.NoMemory) }
{
    match fault {
        BadSlots::NoMemory => Err(NoMemory),
        _ => Ok(Verdict::Slots(fault)),
    }
}

// The verdict on recorded frames that are those of the session. The items that are shown have a mark.
fn consistent(alloc: Global, inputs: &Inputs<'_>, marks: &[bool]) -> Result<Verdict, NoMemory>
    requires inputs { AreInputs inputs.now }
    requires marks { marks.now ≡ map (is_shown (setup_in inputs.now) inputs.now.peer.now) (setup_in inputs.now).placed }
    ensures { IfOk result (λ verdict. verdict ≡ consistent (setup_in inputs.now) inputs.now.peer.now) }
{
    Ok(Verdict::Consistent {
        shown: marked_places(alloc, marks)?,
        collisions: collisions(alloc, inputs, marks)?,
    })
}

// Plays the session of the inputs, and compares it with the recorded frames.
fn replay(alloc: Global, inputs: &Inputs<'_>, log: &LoggedSession<'_>) -> Result<Verdict, NoMemory>
    requires inputs { AreInputs inputs.now }
    requires slots { inputs.now.placement.now ≡ log.now.slots }
    ensures { IfOk result (λ verdict. verdict
        ≡ wire_verdict inputs.now.receiver.now inputs.now.sender.now inputs.now.own.now inputs.now.peer.now log.now) }
{
    // That neither list has too many items for a session is known of their counts.
    let _counts = (inputs.own.len(), inputs.peer.len());
    let mut receiver = ReceiverCore::new(
        alloc,
        inputs.own,
        inputs.digests,
        inputs.receiver,
        inputs.placement,
    )?;
    let mut sender = SenderCore::new(alloc, inputs.peer, inputs.sender);
    let mut comparison = Comparison::new(log.wire());
    exchange(alloc, &mut receiver, &mut sender, &mut comparison)?;
    match comparison.difference() {
        Some(difference) => Ok(Verdict::Differs {
            offset: log.wire_offset() + difference.place as u64,
            found: difference.found,
            wanted: difference.wanted,
        }),
        None => consistent(alloc, inputs, receiver.shown()),
    }
}

/// The verdict on the record of a session between a receiver with the items `x` and a sender with the items `y`. It is
/// refused only where memory is wanting.
///
/// The session is played again with the recorded slots, and its frames are compared with the recorded ones as they
/// pass: no copy of them is kept.
pub fn audit(
    alloc: Global,
    x: &Items,
    y: &Items,
    receiver: &ReceiverDeal,
    sender: &SenderDeal,
    log: &LoggedSession<'_>,
) -> Result<Verdict, NoMemory>
    ensures verdict { IfOk result (λ verdict. verdict ≡ verdict_of receiver.now sender.now x.now y.now log.now) }
{
    if let Some(field) = deals_differ(receiver, sender) {
        return Ok(Verdict::DealsDiffer(field));
    }
    let digests = x.digests(alloc)?;
    match recorded_placement(alloc, &digests, x, receiver, log.slots()) {
        Ok(placement) => {
            let inputs = Inputs {
                own: x,
                digests: &digests,
                placement: &placement,
                peer: y,
                receiver,
                sender,
            };
            replay(alloc, &inputs, log)
        }
        Err(fault) => refused(fault),
    }
}
