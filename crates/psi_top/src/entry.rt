// The top call.
ghost use Rattle.psi_walk.specs.Command.{CarriesOut};
ghost use Rattle.psi_walk.specs.Promises.{Completes, IsDue, StandsAt};
ghost use Rattle.psi_walk.specs.Tree.{ended};
ghost use Rattle.psi_top.specs.Commands.{RunAnswers, bad_place, command_of, commands};
ghost use Rattle.psi_top.specs.Headline.{LocalShows, ReceiveFinds, ReceiveHides, TwinHides};
ghost use Rattle.psi_top.specs.Promises.{CountsBy, DoneLeaves, IsBadWords, IsOfCommand, IsWiredAs, OnTold, Promised, RunsThrough};

use psi_base::{Words, World};
use psi_texts::Status;
use psi_walk::Outcome;
use std::alloc::Global;

// Carries out the command that the first word names, in the crate where it stands.
fn carry_out<W: World>(alloc: Global, words: &Words, world: &mut W) -> Option<Outcome>
    ensures { CarriesOut commands W.known words.now (W.outside world.old) result (W.outside world.new) }
{
    if let Some(outcome) = psi_dealer::carry_out(alloc, words, world) {
        return Some(outcome);
    }
    if let Some(outcome) = psi_local::carry_out(alloc, words, world) {
        return Some(outcome);
    }
    if let Some(outcome) = psi_link::carry_out(alloc, words, world) {
        return Some(outcome);
    }
    if let Some(outcome) = psi_auditor::carry_out(alloc, words, world) {
        return Some(outcome);
    }
    psi_twin::carry_out(alloc, words, world)
}

// The same, or a first word is refused that names no command.
fn answer<W: World>(alloc: Global, words: &Words, world: &mut W) -> Outcome
    ensures answers { RunAnswers W.known words.now (W.outside world.old) (ended result (W.outside world.new)) }
    ensures promised { Promised W.known words.now (W.outside world.old) (ended result (W.outside world.new)) }
{
    match carry_out(alloc, words, world) {
        Some(outcome) => outcome,
        None => Outcome::of(Status::BadWords { at: 0 }),
    }
}

/// Does all that the program does: reads the words of a command, and carries the command out.
pub fn run<W: World>(alloc: Global, words: &Words, world: &mut W) -> Outcome
    // How the run followed the tree of its command, step by step. The other clauses follow from it.
    ensures answers { RunAnswers W.known words.now (W.outside world.old) (ended result (W.outside world.new)) }

    // A bad word is refused at its place, and no other words are.
    ensures bad_words { IsBadWords result.status (bad_place words.now) }

    // A bad word changes nothing. A fault of the outside comes only where its count rose, in a steady world none does
    // but that of a missing file, and no other count changes.
    ensures counts { CountsBy words.now (W.outside world.old) result.status (W.outside world.new) (bad_place words.now) }

    // In every world there are contents, each given by a read of the file of its word, and placements, which are those
    // of the outcome, for which the status follows, and what was sent and taken over the link.
    ensures status { IsOfCommand W.known words.now (W.outside world.old) (ended result (W.outside world.new)) }

    // Where the contents that decide are told, each refusal comes only where it is due, in the order of the steps: the
    // files where the command reads one, and the incoming bytes where it runs a session over the link.
    ensures exact { OnTold words.now (W.outside world.old) (IsDue result.status) }

    // Where no fault was counted or the world is steady, what is due is answered, or memory was wanting.
    ensures complete { OnTold words.now (W.outside world.old)
        (Completes (W.outside world.old) result.status (W.outside world.new)) }

    // From valid files the run is done in such a world, or memory was wanting.
    ensures through { RunsThrough words.now (W.outside world.old) (ended result (W.outside world.new)) }

    // Nothing is printed or written before all is read; then each effect is whole, in part or not begun, in order: all
    // of them where the run is done, and those before the one that failed where one did.
    ensures stands { OnTold words.now (W.outside world.old)
        (StandsAt words.now (W.outside world.old) result.status (W.outside world.new)) }

    // What a run that is done read and left, in every world.
    ensures done { DoneLeaves W.known words.now (W.outside world.old) (ended result (W.outside world.new)) }

    // What the command itself promises, in its own words: its promise stands in its crate, beside its name. Each says
    // what it may answer and why, what it leaves where it is done, or from what it is done. Those that make the
    // headline are spelled out below.
    ensures promised { Promised W.known words.now (W.outside world.old) (ended result (W.outside world.new)) }

    // Where `local` is done, the outcome's slots are a placement of the receiver's items. With it `local` printed every
    // common item, and each other printed item shares its tag with a named sender item. It wrote the record of the
    // session with that placement, if there is a word for it, and the outcome has the SHA-256 of the session's bytes.
    ensures shown { LocalShows W.known words.now (W.outside world.old) (ended result (W.outside world.new)) }

    // Only a run that is done and ran a session of both ends has such a digest.
    ensures wire { IsWiredAs (command_of words.now) (ended result (W.outside world.new)) }

    // For an honest peer, whatever its list, `receive` prints every common item, and each other printed item shares its
    // tag with a named sender item.
    ensures found { ReceiveFinds W.known words.now (W.outside world.old) (ended result (W.outside world.new)) }

    // However `receive` ends, it sent a front of the one stream of its list, in the slots that are picked for it, over
    // the columns of its deal. And whatever other list with as many items that has a placement: over all columns there
    // is a change, its own inverse and the same for all of them, that keeps each column that the sender chose, and over
    // the changed columns a receiver of the other list sends byte for byte the same.
    ensures hides { ReceiveHides W.known words.now (W.outside world.old) (ended result (W.outside world.new)) }

    // Where `twin` is done, the outcome's placements are those of both lists. It wrote the receiver's stream of the
    // first over the dealt columns, and the changed columns, over which the second has that same stream. And over
    // arbitrary columns, for these two placed sets: the change is its own inverse, keeps each column that the sender
    // chose, and gives the same stream; so what a sender sees does not tell which of both sets the receiver has. With
    // `shown` and `found`, what is printed, this is all that psi promises to both firms.
    ensures hidden { TwinHides W.known words.now (W.outside world.old) (ended result (W.outside world.new)) }
{
    answer(alloc, words, world)
}
