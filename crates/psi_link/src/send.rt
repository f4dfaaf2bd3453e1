// The sender's end of a session.
ghost use Rattle.std.specs.Prelude.{ℕ, List, IsTrue};
ghost use Rattle.psi_spec.specs.Deals.{IsSenderDeal};
ghost use Rattle.psi_sender.specs.Laws.{sender_dialogue};
ghost use Rattle.psi_walk.specs.Command.{Answers, KeepsInForm};
ghost use Rattle.psi_walk.specs.Tree.{end_of, ended};
ghost use Rattle.psi_walk.specs.Walk.{Runs, StepsTalk};
ghost use Rattle.psi_link.specs.Commands.{command_send};
ghost use Rattle.psi_link.specs.Send.{send_tree};

use psi_base::{Side, Words, World};
use psi_deal::SenderDeal;
use psi_items::Items;
use psi_sender::{SenderCore, run_sender};
use psi_texts::Status;
use psi_walk::{Outcome, open_link, outcome_of, read_as, session_status};
use psi_words::{CommandForms, Form, bad_word};
use std::alloc::Global;

const SEND: CommandForms = CommandForms {
    needed: &[Form::Name, Form::Name, Form::Name],
    optional: &[],
};

// Serves the receiver at the other end of the link.
fn serve<W: World>(
    alloc: Global,
    items: &Items,
    deal: &SenderDeal,
    world: &mut W,
) -> Result<(), Status>
    requires ready { IsTrue (W.outside world.old).ready }
    requires deal { IsSenderDeal deal.now }
    ensures { (words : List (List ℕ)) →
        StepsTalk W.known words (sender_dialogue deal.now items.now) (λ taken. Unit {0}) (W.outside world.old) result
        (W.outside world.new) }
{
    let mut core = SenderCore::new(alloc, items, deal);
    match run_sender(alloc, &mut core, world) {
        Ok(()) => Ok(()),
        Err(fault) => Err(session_status(fault)),
    }
}

// What `send` does. A refusal before there is an outcome is answered as an error.
#[tactic(auto, using(psi_walk::proofs::Walks::walk))]
fn send_steps<W: World>(alloc: Global, words: &Words, world: &mut W) -> Result<Outcome, Status>
    ensures { Runs W.known words.now (send_tree words.now) (W.outside world.old) (end_of result (W.outside world.new)) }
{
    let items: Items = read_as(alloc, words, 2, world)?;
    let deal: SenderDeal = read_as(alloc, words, 3, world)?;
    open_link(words, 1, Side::Listen, world)?;
    serve(alloc, &items, &deal, world)?;
    Ok(Outcome::of(Status::Done))
}

/// Runs the sender's end of a session: waits at an address for one receiver, serves it and ends.
///
/// The words are `send ADDR YFILE SFILE`: the address, the file of the sender's items and its deal file. Nothing is
/// printed.
pub fn send_command<W: World>(alloc: Global, words: &Words, world: &mut W) -> Outcome
    // A bad word is refused at its place, and changes nothing. From words in form it follows the tree of the command,
    // step by step. The promise follows from it.
    ensures steps { Answers command_send W.known words.now (W.outside world.old) (ended result (W.outside world.new)) }

    // What it may answer, and why, and what it took and sent then: its files are judged in order, then the link is
    // opened, and then the session is run. Where it is done it took a receiver's stream, and sent the sender's for it.
    // From valid files and a peer whose bytes begin with a receiver's stream it is done where no fault was counted or
    // the world is steady, or memory was wanting.
    ensures promise { KeepsInForm command_send W.known words.now (W.outside world.old)
        (ended result (W.outside world.new)) }
{
    if let Some(at) = bad_word(words, SEND) {
        return Outcome::of(Status::BadWords { at });
    }
    outcome_of(send_steps(alloc, words, world))
}
