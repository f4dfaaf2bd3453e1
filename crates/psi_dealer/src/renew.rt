// A deal file of version 1, made anew.
ghost use Rattle.psi_walk.specs.Command.{Answers, KeepsInForm};
ghost use Rattle.psi_walk.specs.Tree.{end_of, ended};
ghost use Rattle.psi_walk.specs.Walk.{Runs};
ghost use Rattle.psi_dealer.specs.Commands.{command_renew};
ghost use Rattle.psi_dealer.specs.Renew.{renew_tree};

use psi_base::{Words, World};
use psi_deal::OldDeal;
use psi_texts::Status;
use psi_walk::{Outcome, outcome_of, read_as, write_word};
use psi_words::{CommandForms, Form, bad_word};
use std::alloc::Global;

const RENEW: CommandForms = CommandForms {
    needed: &[Form::Name, Form::Output { from: 1, to: 2 }],
    optional: &[],
};

// What `renew` does. A refusal before there is an outcome is answered as an error.
#[tactic(auto, using(psi_walk::proofs::Walks::walk))]
fn renew_steps<W: World>(alloc: Global, words: &Words, world: &mut W) -> Result<Outcome, Status>
    ensures { Runs W.known words.now renew_tree (W.outside world.old) (end_of result (W.outside world.new)) }
{
    let deal: OldDeal = read_as(alloc, words, 1, world)?;
    let file = deal.renew(alloc)?;
    write_word(words, 2, &file, world)?;
    Ok(Outcome::of(Status::Done))
}

/// Writes the deal of a file of version 1, which has no byte for the stash, as a file of version 2.
///
/// The words are `renew OLD NEW`: the file that is read, of either end's deal, and the one that is written, which has
/// another name.
pub fn renew_command<W: World>(alloc: Global, words: &Words, world: &mut W) -> Outcome
    // A bad word is refused at its place, and changes nothing. From words in form it follows the tree of the command,
    // step by step. The promise follows from it.
    ensures steps { Answers command_renew W.known words.now (W.outside world.old) (ended result (W.outside world.new)) }

    // What it may answer, and why: its first file is judged, and then the second is written. Where it is done, that is
    // the file of version 2 of the deal in the first, for the same end. It sends and takes nothing. From a file of
    // version 1 it is done where no fault was counted or the world is steady, or memory was wanting.
    ensures promise { KeepsInForm command_renew W.known words.now (W.outside world.old)
        (ended result (W.outside world.new)) }
{
    if let Some(at) = bad_word(words, RENEW) {
        return Outcome::of(Status::BadWords { at });
    }
    outcome_of(renew_steps(alloc, words, world))
}
