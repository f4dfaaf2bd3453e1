// Two item files that are made by rule.
ghost use Rattle.std.specs.Prelude.{◌≡◌, None, Some};
ghost use Rattle.psi_words.specs.Words.{bad_word};
ghost use Rattle.psi_walk.specs.Command.{Answers, KeepsInForm};
ghost use Rattle.psi_walk.specs.Tree.{end_of, ended};
ghost use Rattle.psi_walk.specs.Walk.{Runs};
ghost use Rattle.psi_local.specs.Commands.{command_make, make_forms};
ghost use Rattle.psi_local.specs.Make.{make_tree};

use psi_base::{Words, World};
use psi_items::{MadeFile, make_file};
use psi_texts::Status;
use psi_walk::{Outcome, outcome_of, write_word};
use psi_words::{CommandForms, Form, bad_word, counts_of, session_of, word_at};
use std::alloc::Global;

const MAKE: CommandForms = CommandForms {
    needed: &[
        Form::Count,
        Form::Shared,
        Form::Session,
        Form::Name,
        Form::Output { from: 4, to: 5 },
    ],
    optional: &[],
};

// What `make` does. A refusal before there is an outcome is answered as an error.
#[tactic(auto, using(psi_walk::proofs::Walks::walk))]
fn make_steps<W: World>(alloc: Global, words: &Words, world: &mut W) -> Result<Outcome, Status>
    requires fit { bad_word make_forms words.now ≡ None }
    ensures { Runs W.known words.now (make_tree words.now) (W.outside world.old)
        (end_of result (W.outside world.new)) }
{
    let (count, shared) = counts_of(word_at(words, 1), word_at(words, 2));
    let number = session_of(word_at(words, 3));
    let first = make_file(alloc, MadeFile::First, count, shared, number)?;
    let second = make_file(alloc, MadeFile::Second, count, shared, number)?;
    write_word(words, 4, &first, world)?;
    write_word(words, 5, &second, world)?;
    Ok(Outcome::of(Status::Done))
}

/// Writes two item files that are made by rule, to try psi on: first the receiver's, then the sender's.
///
/// The words are `make COUNT SHARED NUMBER XFILE YFILE`: how many items each file has, at most 1,048,576, how many of
/// them are in both, a number that stands in each line, and the two files, which have different names.
pub fn make_command<W: World>(alloc: Global, words: &Words, world: &mut W) -> Outcome
    // A bad word is refused at its place, and changes nothing. From words in form it follows the tree of the command,
    // step by step. The promise follows from it.
    ensures steps { Answers command_make W.known words.now (W.outside world.old) (ended result (W.outside world.new)) }

    // Where it is done it wrote both made files, and changed nothing else.
    ensures promise { KeepsInForm command_make W.known words.now (W.outside world.old)
        (ended result (W.outside world.new)) }
{
    if let Some(at) = bad_word(words, MAKE) {
        return Outcome::of(Status::BadWords { at });
    }
    outcome_of(make_steps(alloc, words, world))
}
