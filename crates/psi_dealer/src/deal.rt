// The two deal files of a seed.
ghost use Rattle.std.specs.Prelude.{◌≡◌, None};
ghost use Rattle.psi_words.specs.Words.{bad_word};
ghost use Rattle.psi_walk.specs.Command.{Answers, KeepsInForm};
ghost use Rattle.psi_walk.specs.Tree.{end_of, ended};
ghost use Rattle.psi_walk.specs.Walk.{Runs};
ghost use Rattle.psi_dealer.specs.Commands.{command_deal, deal_forms};
ghost use Rattle.psi_dealer.specs.Deal.{deal_tree};

use psi_base::{Words, World};
use psi_deal::{write_receiver, write_sender};
use psi_texts::Status;
use psi_walk::{Outcome, deals_of_words, outcome_of, write_word};
use psi_words::{CommandForms, Form, bad_word};
use std::alloc::Global;

const DEAL: CommandForms = CommandForms {
    needed: &[
        Form::Seed,
        Form::Session,
        Form::Sizes,
        Form::Name,
        Form::Output { from: 4, to: 5 },
    ],
    optional: &[],
};

// What `deal` does. A refusal before there is an outcome is answered as an error.
#[tactic(auto, using(psi_walk::proofs::Walks::walk, crate::proofs::DealWords::deal_words))]
fn deal_steps<W: World>(alloc: Global, words: &Words, world: &mut W) -> Result<Outcome, Status>
    requires fit { bad_word deal_forms words.now ≡ None }
    ensures { Runs W.known words.now (deal_tree words.now) (W.outside world.old)
        (end_of result (W.outside world.new)) }
{
    let (receiver, sender) = deals_of_words(alloc, words, 1)?;
    let receiver = write_receiver(alloc, &receiver)?;
    let sender = write_sender(alloc, &sender)?;
    write_word(words, 4, &receiver, world)?;
    write_word(words, 5, &sender, world)?;
    Ok(Outcome::of(Status::Done))
}

/// Writes the receiver's and then the sender's deal file of a seed.
///
/// The words are `deal SEED SESSION G RFILE SFILE`: the seed, the number of the session, the length of a tag in
/// bytes, alone or with a stroke and the number of stash rows behind it, and the two files, which have different
/// names.
pub fn deal_command<W: World>(alloc: Global, words: &Words, world: &mut W) -> Outcome
    // A bad word is refused at its place, and changes nothing. From words in form it follows the tree of the command,
    // step by step. The promise follows from it.
    ensures steps { Answers command_deal W.known words.now (W.outside world.old) (ended result (W.outside world.new)) }

    // Where it is done it wrote the files of a pair of deals, and changed nothing else.
    ensures promise { KeepsInForm command_deal W.known words.now (W.outside world.old)
        (ended result (W.outside world.new)) }
{
    if let Some(at) = bad_word(words, DEAL) {
        return Outcome::of(Status::BadWords { at });
    }
    outcome_of(deal_steps(alloc, words, world))
}
