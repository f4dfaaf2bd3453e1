// The receiver's end of a session.
ghost use Rattle.std.specs.Prelude.{◌≡◌, ◌∷◌, [], ℕ, List, true, IfErr, IfOk, IsTrue, None, OnOk, length, map};
ghost use Rattle.psi_spec.specs.DealFiles.{sealed};
ghost use Rattle.psi_spec.specs.Deals.{IsReceiverDeal};
ghost use Rattle.psi_spec.specs.Formulas.{item_digest};
ghost use Rattle.psi_spec.specs.Hits.{marked};
ghost use Rattle.psi_spec.specs.Limits.{bins_for};
ghost use Rattle.psi_spec.specs.Meeting.{placed_of};
ghost use Rattle.psi_spec.specs.Placement.{IsPlacementOf};
ghost use Rattle.psi_spec.specs.Records.{record_front};
ghost use Rattle.psi_spec.specs.Texts.{lines_text};
ghost use Rattle.psi_texts.specs.declared.status.Status.TheVariants as status;
ghost use Rattle.psi_receiver.specs.Laws.{receiver_dialogue};
ghost use Rattle.psi_receiver.specs.Running.{IsNewReceiver};
ghost use Rattle.psi_walk.specs.Command.{Answers, KeepsInForm};
ghost use Rattle.psi_walk.specs.Placing.{placing_of};
ghost use Rattle.psi_walk.specs.Tree.{end_of, ended, ends, places, puts, says, stopped};
ghost use Rattle.psi_walk.specs.Walk.{Follows, Runs, StepsTalk, status_of};
ghost use Rattle.psi_link.specs.Commands.{command_receive};
ghost use Rattle.psi_link.specs.Receive.{IsHeard, receive_rest, receive_tree};

use psi_base::{Side, Words, World};
use psi_cuckoo::Placement;
use psi_deal::ReceiverDeal;
use psi_items::Items;
use psi_log::{Recorder, write_record};
use psi_receiver::{LoggedReceiver, ReceiverCore, run_receiver};
use psi_texts::Status;
use psi_walk::{
    Outcome, Placements, open_link, outcome_of, place_items, print_shown, read_as, session_status,
    status, write_word,
};
use psi_words::{CommandForms, Form, bad_word};
use std::alloc::Global;

const RECEIVE: CommandForms = CommandForms {
    needed: &[
        Form::Name,
        Form::Name,
        Form::Name,
        Form::Output { from: 2, to: 4 },
    ],
    optional: &[],
};

// The receiver's end, with the record of its placement and no frame yet.
fn new_end<'a>(
    alloc: Global,
    items: &'a Items,
    digests: &[[u8; 32]],
    deal: &'a ReceiverDeal,
    placement: &'a Placement,
) -> Result<LoggedReceiver<'a>, Status>
    requires digests { digests.now ≡ map item_digest items.now }
    requires placed { IsPlacementOf deal.now.stash deal.now.key (bins_for (length items.now)) items.now placement.now }
    ensures new { IfOk result (λ end. IsNewReceiver end.core) }
    ensures deal { IfOk result (λ end. end.core.deal ≡ deal.now) }
    ensures placed { IfOk result (λ end. end.core.placed ≡ placed_of items.now placement.now) }
    ensures log { IfOk result (λ end. end.log ≡ record_front placement.now) }
    ensures fails { IfErr result (λ why. why ≡ status.NoMemory) }
{
    let core = ReceiverCore::new(alloc, items, digests, deal, placement)?;
    let log = Recorder::begin(alloc, placement)?;
    Ok(LoggedReceiver::new(alloc, core, log)?)
}

// Runs the session of an end over the link, which is ready.
fn converse<W: World>(
    alloc: Global,
    end: &mut LoggedReceiver<'_>,
    world: &mut W,
) -> Result<(), Status>
    requires ready { IsTrue (W.outside world.old).ready }
    requires new { IsNewReceiver end.old.core }
    requires deal { IsReceiverDeal end.old.core.deal }
    ensures session { (words : List (List ℕ)) →
        StepsTalk W.known words (receiver_dialogue end.old.core.deal end.old.core.placed)
        (IsHeard end.old.core.deal end.old.core.placed end.old.log end.new.core.shown end.new.log)
        (W.outside world.old) result (W.outside world.new) }
    ensures marks { OnOk result (length end.new.core.shown ≡ length end.old.core.placed) }
{
    match run_receiver(alloc, end, world) {
        Ok(()) => Ok(()),
        Err(fault) => Err(session_status(fault)),
    }
}

// Prints the items that are shown, and writes the record.
fn show_and_keep<W: World>(
    words: &Words,
    items: &Items,
    end: LoggedReceiver<'_>,
    world: &mut W,
) -> Result<(), Status>
    requires { length end.core.shown ≡ length items.now }
    ensures { Follows W.known words.now true
        (ends None (says (lines_text (marked end.entry.core.shown items.now)) ∷ puts 4 (sealed end.entry.log) ∷ []))
        (W.outside world.old) (stopped (status_of result) (W.outside world.new)) }
{
    print_shown(items, end.shown(), world)?;
    let record = write_record(end.into_log());
    write_word(words, 4, &record, world)
}

// What `receive` does once its items are placed.
#[tactic(auto, using(psi_walk::proofs::Walks::walk))]
fn receive_rest<W: World>(
    alloc: Global,
    words: &Words,
    items: &Items,
    digests: &[[u8; 32]],
    deal: &ReceiverDeal,
    placement: &Placement,
    world: &mut W,
) -> Result<(), Status>
    requires digests { digests.now ≡ map item_digest items.now }
    requires deal { IsReceiverDeal deal.now }
    requires placed { IsPlacementOf deal.now.stash deal.now.key (bins_for (length items.now)) items.now placement.now }
    ensures { Runs W.known words.now (receive_rest words.now items.now deal.now placement.now) (W.outside world.old)
        (stopped (status_of result) (W.outside world.new)) }
{
    let mut end = new_end(alloc, items, digests, deal, placement)?;
    open_link(words, 1, Side::Connect, world)?;
    converse(alloc, &mut end, world)?;
    show_and_keep(words, items, end, world)
}

// What `receive` does once its files are read.
#[tactic(auto, using(psi_walk::proofs::Walks::walk))]
fn place_and_receive<W: World>(
    alloc: Global,
    words: &Words,
    items: &Items,
    deal: &ReceiverDeal,
    world: &mut W,
) -> Result<Outcome, Status>
    requires { IsReceiverDeal deal.now }
    ensures { Runs W.known words.now
        (places 2 (placing_of deal.now items.now) (λ slots. receive_rest words.now items.now deal.now slots))
        (W.outside world.old) (end_of result (W.outside world.new)) }
{
    let digests = items.digests(alloc)?;
    let placement = place_items(alloc, 2, items, &digests, deal)?;
    let rest = receive_rest(alloc, words, items, &digests, deal, &placement, world);
    Ok(Outcome {
        status: status(rest),
        placements: Placements::One(placement),
        wire: None,
    })
}

// What `receive` does. A refusal before there is an outcome is answered as an error.
#[tactic(auto, using(psi_walk::proofs::Walks::walk))]
fn receive_steps<W: World>(alloc: Global, words: &Words, world: &mut W) -> Result<Outcome, Status>
    ensures { Runs W.known words.now (receive_tree words.now) (W.outside world.old)
        (end_of result (W.outside world.new)) }
{
    let items: Items = read_as(alloc, words, 2, world)?;
    let deal: ReceiverDeal = read_as(alloc, words, 3, world)?;
    place_and_receive(alloc, words, &items, &deal, world)
}

/// Runs the receiver's end of a session: places its items, connects to a sender, prints the items that are shown and
/// writes the record of the session.
///
/// The words are `receive ADDR XFILE RFILE RECORD`: the address, the file of the receiver's items, its deal file, and
/// the file of the record. Each shown item is printed with a line feed behind it.
pub fn receive_command<W: World>(alloc: Global, words: &Words, world: &mut W) -> Outcome
    // A bad word is refused at its place, and changes nothing. From words in form it follows the tree of the command,
    // step by step. The promise follows from it.
    ensures steps { Answers command_receive W.known words.now (W.outside world.old) (ended result (W.outside world.new)) }

    // What it may answer, and why, and what it took and sent then: its files are judged in order, then its items are
    // placed, the link is opened and the session is run, and then the lines are printed and the record is written.
    // Where it is done it printed every common item of an honest peer, and each other printed item shares its tag with
    // a named sender item. However it ends, what it sent hides its list among all of its size. From valid files, items
    // that have a placement and a peer whose bytes begin with a sender's stream it is done where no fault was counted
    // or the world is steady, or memory was wanting.
    ensures promise { KeepsInForm command_receive W.known words.now (W.outside world.old)
        (ended result (W.outside world.new)) }
{
    if let Some(at) = bad_word(words, RECEIVE) {
        return Outcome::of(Status::BadWords { at });
    }
    outcome_of(receive_steps(alloc, words, world))
}
