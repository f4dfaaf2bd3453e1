// Both ends of a session in one run.
ghost use Rattle.std.specs.Prelude.{◌≡◌, ◌∷◌, Bool, List, ℕ, Some, None, length};
ghost use Rattle.sha2.specs.Hashers.{Holds256};
ghost use Rattle.sha2.specs.Sha256.{sha256};
ghost use Rattle.psi_spec.specs.Hits.{marked};
ghost use Rattle.psi_spec.specs.Texts.{lines_text};
ghost use Rattle.psi_words.specs.Words.{bad_word};
ghost use Rattle.psi_walk.specs.Command.{Answers, KeepsInForm};
ghost use Rattle.psi_walk.specs.Tree.{closed, end_of, ended, ends, says};
ghost use Rattle.psi_walk.specs.Walk.{MakesAll, Runs};
ghost use Rattle.psi_local.specs.Commands.{command_local, local_forms};
ghost use Rattle.psi_local.specs.Local.{local_set, local_tree};
ghost use Rattle.psi_local.specs.Transcript.{writes};

use crate::playing::{PlayedSession, placed_outcome, play, session_length};
use crate::transcript::begin_record;
use psi_base::{Words, World};
use psi_items::Items;
use psi_log::{Recorder, write_record};
use psi_texts::Status;
use psi_walk::{
    Outcome, deals_of_words, outcome_of, place_items, print_shown, read_as, write_word,
};
use psi_words::{CommandForms, Form, bad_word};
use std::alloc::Global;

const LOCAL: CommandForms = CommandForms {
    needed: &[
        Form::Name,
        Form::Name,
        Form::Seed,
        Form::Session,
        Form::Sizes,
    ],
    optional: &[Form::Output { from: 1, to: 3 }],
};

// Writes a record, if there is one.
fn keep_record<W: World>(words: &Words, log: Option<Recorder>, world: &mut W) -> Result<(), Status>
    ensures { (taken : Bool) →
        MakesAll W.known words.now taken (writes log) (W.outside world.old) result (W.outside world.new) }
{
    match log {
        Some(log) => write_word(words, 6, &write_record(log), world),
        None => Ok(()),
    }
}

// Prints the items that are shown, writes the record, and answers the digest of the session.
fn show_and_keep<W: World>(
    words: &Words,
    x: &Items,
    played: PlayedSession<'_>,
    world: &mut W,
) -> Result<[u8; 32], Status>
    requires { length played.receiver.shown ≡ length x.now }
    ensures { (bytes : List ℕ) → Holds256 played.entry.transcript.hasher bytes →
        Runs W.known words.now (ends (Some (sha256 bytes))
        (says (lines_text (marked played.entry.receiver.shown x.now)) ∷ writes played.entry.transcript.log))
        (W.outside world.old) (closed result (W.outside world.new)) }
{
    print_shown(x, played.receiver.shown(), world)?;
    let (digest, log) = played.transcript.finish();
    keep_record(words, log, world)?;
    Ok(digest)
}

// What `local` does once its files are read.
#[tactic(auto, using(psi_walk::proofs::Walks::walk, crate::proofs::LocalWords::local_words))]
fn place_and_play<W: World>(
    alloc: Global,
    words: &Words,
    x: &Items,
    y: &Items,
    world: &mut W,
) -> Result<Outcome, Status>
    requires fit { bad_word local_forms words.now ≡ None }
    ensures { Runs W.known words.now (local_set words.now x.now y.now) (W.outside world.old)
        (end_of result (W.outside world.new)) }
{
    let deals = deals_of_words(alloc, words, 3)?;
    let digests = x.digests(alloc)?;
    let placement = place_items(alloc, 1, x, &digests, &deals.0)?;
    let size = session_length(&deals.0, x.len(), y.len());
    let log = begin_record(alloc, words, &placement, size)?;
    let played = play(alloc, x, y, &digests, &deals, &placement, log)?;
    let rest = show_and_keep(words, x, played, world);
    Ok(placed_outcome(placement, rest))
}

// What `local` does. A refusal before there is an outcome is answered as an error.
#[tactic(auto, using(psi_walk::proofs::Walks::walk))]
fn local_steps<W: World>(alloc: Global, words: &Words, world: &mut W) -> Result<Outcome, Status>
    requires fit { bad_word local_forms words.now ≡ None }
    ensures { Runs W.known words.now (local_tree words.now) (W.outside world.old)
        (end_of result (W.outside world.new)) }
{
    let x: Items = read_as(alloc, words, 1, world)?;
    let y: Items = read_as(alloc, words, 2, world)?;
    place_and_play(alloc, words, &x, &y, world)
}

/// Deals, runs both ends of a session in memory, prints the receiver's items that are shown, and then writes the record
/// of the session, if there is a word for its file.
///
/// The words are `local XFILE YFILE SEED SESSION G [RECORD]`: the files of the receiver's and the sender's items, the
/// seed of the deal, the number of the session, the length of a tag in bytes, alone or with a stroke and the number of
/// stash rows behind it, and the file of the record, which is neither list. The outcome's `wire` is the SHA-256 of all
/// bytes of the session, with or without a record.
pub fn local_command<W: World>(alloc: Global, words: &Words, world: &mut W) -> Outcome
    // A bad word is refused at its place, and changes nothing. From words in form it follows the tree of the command,
    // step by step. The promise follows from it.
    ensures steps { Answers command_local W.known words.now (W.outside world.old) (ended result (W.outside world.new)) }

    // What it may answer, and why: its files are judged in order, and then the receiver's items are placed, the lines
    // printed and the record written. Where it is done it printed every common item, and each other printed item shares
    // its tag with a named sender item. It sends and takes nothing. From valid lists and items that have a placement it
    // is done where no fault was counted or the world is steady, or memory was wanting.
    ensures promise { KeepsInForm command_local W.known words.now (W.outside world.old)
        (ended result (W.outside world.new)) }
{
    if let Some(at) = bad_word(words, LOCAL) {
        return Outcome::of(Status::BadWords { at });
    }
    outcome_of(local_steps(alloc, words, world))
}
