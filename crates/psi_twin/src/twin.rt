// What the receiver sends of one list, and the columns over which it sends the same of another.
ghost use Rattle.std.specs.Prelude.{◌≡◌, IfOk, None, OnOk, length};
ghost use Rattle.psi_spec.specs.Limits.{bins_for, rows_for};
ghost use Rattle.psi_spec.specs.Meeting.{placed_of};
ghost use Rattle.psi_spec.specs.Placement.{IsPlacementOf};
ghost use Rattle.psi_spec.specs.Streams.{words_of};
ghost use Rattle.psi_walk.specs.Command.{Answers, KeepsInForm};
ghost use Rattle.psi_walk.specs.Placing.{placing_of};
ghost use Rattle.psi_walk.specs.Tree.{end_of, ended, ends, stopped};
ghost use Rattle.psi_walk.specs.Walk.{Runs, Settles, status_of};
ghost use Rattle.psi_twin.specs.Commands.{command_twin};
ghost use Rattle.psi_twin.specs.Twin.{PlacesAnd, files_of_words, twin_sets, twin_tree, twins_in};

use crate::hiding::twin_files;
use psi_base::{Words, World, rows};
use psi_bits::Rows;
use psi_cuckoo::Placement;
use psi_deal::{ReceiverDeal, SenderDeal, deals_differ};
use psi_items::Items;
use psi_receiver::row_words;
use psi_texts::Status;
use psi_walk::{Outcome, Placements, outcome_of, place_items, read_as, status, write_word};
use psi_words::{CommandForms, Form, bad_word};
use std::alloc::Global;

const TWIN: CommandForms = CommandForms {
    needed: &[
        Form::Name,
        Form::Name,
        Form::Name,
        Form::Name,
        Form::Output { from: 1, to: 5 },
        Form::Output { from: 1, to: 6 },
    ],
    optional: &[],
};

// Judges whether the deals are a pair, and both lists have one number of items.
#[tactic(auto, unfolding(crate::specs::Twin::twins_in))]
fn judge_twins(x: &Items, others: &Items, deals: &(ReceiverDeal, SenderDeal)) -> Result<(), Status>
    ensures settles { Settles (twins_in deals.now.0 deals.now.1 x.now others.now) result }
    ensures sizes { OnOk result (length x.now ≡ length others.now) }
{
    if let Some(field) = deals_differ(&deals.0, &deals.1) {
        return Err(Status::DealsDiffer(field));
    }
    let (first, second) = (x.len(), others.len());
    if first != second {
        return Err(Status::SizesDiffer { first, second });
    }
    Ok(())
}

// Places the items of the file that this word names, and makes the words of their rows.
fn placed_words(
    alloc: Global,
    word: u8,
    items: &Items,
    deal: &ReceiverDeal,
) -> Result<(Placement, Rows), Status>
    ensures places { PlacesAnd word (placing_of deal.now items.now) result }
    ensures placed { IfOk result (λ made.
        IsPlacementOf deal.now.stash deal.now.key (bins_for (length items.now)) items.now made.0) }
    ensures words { IfOk result (λ made. made.1 ≡ words_of deal.now (placed_of items.now made.0)) }
    ensures rows { IfOk result (λ made. length made.1 ≡ rows_for deal.now.stash (length items.now)) }
{
    let digests = items.digests(alloc)?;
    let placement = place_items(alloc, word, items, &digests, deal)?;
    let mut words = Rows::with_rows(alloc, rows(items.len(), deal.stash()))?;
    row_words(items, &digests, deal.key(), &placement, &mut words);
    Ok((placement, words))
}

// Writes both files of two placed sets of `count` items, which have these words in their rows.
fn write_files<W: World>(
    alloc: Global,
    words: &Words,
    deals: &(ReceiverDeal, SenderDeal),
    count: u32,
    first: Rows,
    second: Rows,
    world: &mut W,
) -> Result<(), Status>
    requires first { length first ≡ rows_for deals.now.0.stash count }
    requires second { length second ≡ rows_for deals.now.0.stash count }
    ensures { Runs W.known words.now
        (ends None (files_of_words deals.now.0 deals.now.1 count first second)) (W.outside world.old)
        (stopped (status_of result) (W.outside world.new)) }
{
    let files = twin_files(alloc, deals, count, first, second)?;
    write_word(words, 5, &files.stream, world)?;
    write_word(words, 6, &files.columns, world)?;
    Ok(())
}

// What `twin` does once all is read.
#[tactic(auto, using(psi_walk::proofs::Walks::walk))]
fn judge_and_place<W: World>(
    alloc: Global,
    words: &Words,
    x: &Items,
    others: &Items,
    deals: &(ReceiverDeal, SenderDeal),
    world: &mut W,
) -> Result<Outcome, Status>
    ensures { Runs W.known words.now (twin_sets deals.now.0 deals.now.1 x.now others.now) (W.outside world.old)
        (end_of result (W.outside world.new)) }
{
    judge_twins(x, others, deals)?;
    let (placement, first) = placed_words(alloc, 1, x, &deals.0)?;
    let (other, second) = placed_words(alloc, 2, others, &deals.0)?;
    let rest = write_files(alloc, words, deals, x.len(), first, second, world);
    Ok(Outcome {
        status: status(rest),
        placements: Placements::Two(placement, other),
        wire: None,
    })
}

// What `twin` does. A refusal before there is an outcome is answered as an error.
#[tactic(auto, using(psi_walk::proofs::Walks::walk))]
fn twin_steps<W: World>(alloc: Global, words: &Words, world: &mut W) -> Result<Outcome, Status>
    ensures { Runs W.known words.now twin_tree (W.outside world.old) (end_of result (W.outside world.new)) }
{
    let x: Items = read_as(alloc, words, 1, world)?;
    let others: Items = read_as(alloc, words, 2, world)?;
    let receiver: ReceiverDeal = read_as(alloc, words, 3, world)?;
    let sender: SenderDeal = read_as(alloc, words, 4, world)?;
    judge_and_place(alloc, words, &x, &others, &(receiver, sender), world)
}

/// Shows what a receiver's columns hide: places two lists of one number of items, writes what the receiver sends of the
/// first, and then the columns over which it sends just the same of the second.
///
/// The words are `twin XFILE X2FILE RFILE SFILE OUT1 OUT2`: the files of both lists, the deal files of a pair of deals,
/// and the two files that are written, neither of which is a file before it. OUT1 gets the receiver's stream of the
/// first list over the columns of its deal. OUT2 gets those columns, changed where the sender did not choose them: of
/// each number the zero column, and then the one column.
pub fn twin_command<W: World>(alloc: Global, words: &Words, world: &mut W) -> Outcome
    // A bad word is refused at its place, and changes nothing. From words in form it follows the tree of the command,
    // step by step. The promise follows from it.
    ensures steps { Answers command_twin W.known words.now (W.outside world.old) (ended result (W.outside world.new)) }

    // What it may answer, and why: its files are judged in order, then the deals and the numbers of the items; the
    // first list is placed, then the second, and then both files are written. Where it is done it wrote the receiver's
    // stream of the first, and the columns over which the second has that same stream. It sends and takes nothing. From
    // valid lists of one number of items that both have a placement, and a pair of deals, it is done where no fault was
    // counted or the world is steady, or memory was wanting.
    ensures promise { KeepsInForm command_twin W.known words.now (W.outside world.old)
        (ended result (W.outside world.new)) }
{
    if let Some(at) = bad_word(words, TWIN) {
        return Outcome::of(Status::BadWords { at });
    }
    outcome_of(twin_steps(alloc, words, world))
}
