// The audit of a recorded session.

ghost use Rattle.std.specs.Prelude.{◌≤◌, List, ℕ, length};
ghost use Rattle.psi_spec.specs.Frames.{AreBytes};
ghost use Rattle.psi_spec.specs.Limits.{record_limit};
ghost use Rattle.psi_walk.specs.Command.{Answers, KeepsInForm};
ghost use Rattle.psi_walk.specs.Files.{record_in};
ghost use Rattle.psi_walk.specs.Tree.{decides, end_of, ended};
ghost use Rattle.psi_walk.specs.Walk.{Runs, Settles};
ghost use Rattle.psi_auditor.specs.Commands.{command_audit};
ghost use Rattle.psi_auditor.specs.Audit.{audit_record, audit_session, audit_tree, findings_of};

use crate::findings::{Findings, print_findings};
use psi_audit::{Verdict, audit};
use psi_base::{RECORD_LIMIT, Words, World};
use psi_deal::{ReceiverDeal, SenderDeal};
use psi_items::Items;
use psi_log::LoggedSession;
use psi_texts::Status;
use psi_walk::{Outcome, judge_record, outcome_of, read_as, read_bytes};
use psi_words::{CommandForms, Form, bad_word};
use std::alloc::Global;

const AUDIT: CommandForms = CommandForms {
    needed: &[Form::Name, Form::Name, Form::Name, Form::Name, Form::Name],
    optional: &[],
};

// What the session shows that is recorded, or why the record is not that of these inputs.
#[tactic(auto, unfolding(crate::specs::Audit::findings_of))]
fn judge_session(
    alloc: Global,
    x: &Items,
    y: &Items,
    receiver: &ReceiverDeal,
    sender: &SenderDeal,
    log: &LoggedSession<'_>,
) -> Result<Findings, Status>
    ensures { Settles (findings_of receiver.now sender.now x.now y.now log.now) result }
{
    match audit(alloc, x, y, receiver, sender, log)? {
        Verdict::Consistent { shown, collisions } => Ok(Findings { shown, collisions }),
        Verdict::DealsDiffer(field) => Err(Status::DealsDiffer(field)),
        Verdict::Slots(fault) => Err(Status::BadSlots(fault)),
        Verdict::Differs {
            offset,
            found,
            wanted,
        } => Err(Status::Differs {
            offset,
            found,
            wanted,
        }),
    }
}

// What `audit` does once all files are read: the bytes are those of the record.
#[tactic(auto, using(psi_walk::proofs::Walks::walk))]
fn audit_bytes<W: World>(
    alloc: Global,
    x: &Items,
    y: &Items,
    receiver: &ReceiverDeal,
    sender: &SenderDeal,
    bytes: &[u8],
    world: &mut W,
) -> Result<Outcome, Status>
    requires { length bytes.now ≤ record_limit }
    ensures steps { (words : List (List ℕ)) →
        Runs W.known words (decides (record_in bytes.now)
        (λ log. audit_session receiver.now sender.now x.now y.now log)) (W.outside world.old)
        (end_of result (W.outside world.new)) }
    ensures are_bytes { AreBytes bytes.now }
{
    let log = judge_record(alloc, bytes)?;
    let found = judge_session(alloc, x, y, receiver, sender, &log)?;
    print_findings(&found, world)?;
    Ok(Outcome::of(Status::Done))
}

// What `audit` does once the lists and the deals are read.
#[tactic(auto, using(psi_walk::proofs::Walks::walk))]
fn audit_record<W: World>(
    alloc: Global,
    words: &Words,
    x: &Items,
    y: &Items,
    receiver: &ReceiverDeal,
    sender: &SenderDeal,
    world: &mut W,
) -> Result<Outcome, Status>
    ensures { Runs W.known words.now (audit_record receiver.now sender.now x.now y.now) (W.outside world.old)
        (end_of result (W.outside world.new)) }
{
    let bytes = read_bytes(alloc, words, 5, RECORD_LIMIT, world)?;
    audit_bytes(alloc, x, y, receiver, sender, &bytes, world)
}

// What `audit` does. A refusal before there is an outcome is answered as an error.
#[tactic(auto, using(psi_walk::proofs::Walks::walk))]
fn audit_steps<W: World>(alloc: Global, words: &Words, world: &mut W) -> Result<Outcome, Status>
    ensures { Runs W.known words.now audit_tree (W.outside world.old) (end_of result (W.outside world.new)) }
{
    let x: Items = read_as(alloc, words, 1, world)?;
    let y: Items = read_as(alloc, words, 2, world)?;
    let receiver: ReceiverDeal = read_as(alloc, words, 3, world)?;
    let sender: SenderDeal = read_as(alloc, words, 4, world)?;
    audit_record(alloc, words, &x, &y, &receiver, &sender, world)
}

/// Judges a recorded session by the inputs of both ends: plays it again with the recorded slots, and prints how many
/// items are shown and each collision.
///
/// The words are `audit XFILE YFILE RFILE SFILE RECORD`: the files of the receiver's and the sender's items, their deal
/// files, and the record. A collision is a line with the place of a shown item that is no item of the sender, and that
/// of the first item of the sender whose tag it shares, both counted from 0.
pub fn audit_command<W: World>(alloc: Global, words: &Words, world: &mut W) -> Outcome
    // A bad word is refused at its place, and changes nothing. From words in form it follows the tree of the command,
    // step by step. The promise follows from it.
    ensures steps { Answers command_audit W.known words.now (W.outside world.old) (ended result (W.outside world.new)) }

    // What it may answer, and why: its files are judged in order, then the deals, the recorded slots and the recorded
    // frames. Where it is done the record is that of the session, and the text of what is shown and of each collision
    // was printed. It sends and takes nothing. From valid lists, a pair of deals and a record of their session it is
    // done where no fault was counted or the world is steady, or memory was wanting.
    ensures promise { KeepsInForm command_audit W.known words.now (W.outside world.old)
        (ended result (W.outside world.new)) }
{
    if let Some(at) = bad_word(words, AUDIT) {
        return Outcome::of(Status::BadWords { at });
    }
    outcome_of(audit_steps(alloc, words, world))
}
