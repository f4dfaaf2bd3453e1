// Both ends of a session on made lists, in one run.
ghost use Rattle.std.specs.Prelude.{◌≡◌, ◌≤◌, ◌++◌, ◌∷◌, [], List, ℕ, IfOk, None, OnOk, Some, count_by};
ghost use Rattle.sha2.specs.Hashers.{Holds256};
ghost use Rattle.sha2.specs.Sha256.{sha256};
ghost use Rattle.psi_spec.specs.Deals.{ArePair, IsReceiverDeal, IsSenderDeal};
ghost use Rattle.psi_spec.specs.Limits.{limit_items};
ghost use Rattle.psi_words.specs.Words.{bad_word};
ghost use Rattle.psi_items.specs.Made.{made_items};
ghost use Rattle.psi_items.specs.Making.{is_second};
ghost use Rattle.psi_walk.specs.Command.{Answers, KeepsInForm};
ghost use Rattle.psi_walk.specs.Tree.{closed, end_of, ended, ends, says};
ghost use Rattle.psi_walk.specs.Walk.{Runs};
ghost use Rattle.psi_local.specs.Commands.{command_trial, trial_forms};
ghost use Rattle.psi_local.specs.Trial.{measured, numbered, summary_text, trial_receiver, trial_sender, trial_set, trial_tree};

use crate::playing::{PlayedSession, placed_outcome, play, receiver_length, sender_length};
use itoa::Buffer;
use psi_base::{NoMemory, USUAL_STASH, Words, World, bins, rows};
use psi_deal::{ReceiverDeal, SenderDeal};
use psi_items::{Items, MadeFile, make_file};
use psi_texts::Status;
use psi_walk::{Outcome, deals_of_seed, outcome_of, place_items, print_text};
use psi_words::{CommandForms, Form, bad_word, counts_of, seed_of, word_at};
use std::alloc::{AllocError, Global};

const TRIAL: CommandForms = CommandForms {
    needed: &[Form::Count, Form::Shared, Form::Seed],
    optional: &[],
};

/// How large a session was.
#[derive(Debug, Drop)]
pub struct Summary {
    /// The receiver's items.
    items: u32,
    /// The bins of their placement.
    bins: u32,
    /// Its rows: the bins and the stash.
    rows: u32,
    /// The bytes of the receiver's stream.
    to_sender: u64,
    /// The bytes of the sender's stream.
    to_receiver: u64,
    /// The items that are shown.
    shown: u64,
}

// The items of a made file, which are its lines. None of them has a fault, so that only memory can be wanting.
fn made_items(alloc: Global, file: MadeFile, count: u32, shared: u32) -> Result<Items, NoMemory>
    requires shared { shared ≤ count }
    requires count { count ≤ limit_items }
    ensures { IfOk result (λ items. items ≡ made_items (is_second file) count shared 0) }
{
    let bytes = make_file(alloc, file, count, shared, 0)?;
    match Items::read(alloc, &bytes) {
        Ok(items) => Ok(items),
        Err(_) => Err(NoMemory),
    }
}

// The pair of deals of the seed that the words name.
#[tactic(auto, unfolding(crate::specs::Trial::trial_receiver, crate::specs::Trial::trial_sender))]
fn trial_deals(alloc: Global, words: &Words) -> Result<(ReceiverDeal, SenderDeal), NoMemory>
    requires fit { bad_word trial_forms words.now ≡ None }
    ensures receiver { IfOk result (λ deals. deals.0 ≡ trial_receiver words.now) }
    ensures sender { IfOk result (λ deals. deals.1 ≡ trial_sender words.now) }
    ensures sizes { IfOk result (λ deals. IsReceiverDeal deals.0 × IsSenderDeal deals.1) }
    ensures pair { IfOk result (λ deals. ArePair deals.0 deals.1) }
{
    let seed = seed_of(word_at(words, 3));
    deals_of_seed(alloc, &seed, 0, 16, USUAL_STASH)
}

// How many marks are set.
fn count_set(marks: &[bool]) -> u64
    ensures { result ≡ count_by (λ is. is) marks.now }
{
    marks.iter().filter(|is| **is).count() as u64
}

// How large a session of a deal was, by the numbers of the items of both ends and the marks of those shown.
fn summary_of(deal: &ReceiverDeal, own: u32, peer: u32, shown: &[bool]) -> Summary
    requires deal { IsReceiverDeal deal.now }
    requires own { own ≤ limit_items }
    ensures { result ≡ measured deal.now own peer shown.now }
{
    Summary {
        items: own,
        bins: bins(own),
        rows: rows(own, deal.stash()),
        to_sender: receiver_length(deal, own),
        to_receiver: sender_length(deal, peer),
        shown: count_set(shown),
    }
}

// Adds a line of a name and a number.
fn push_line(text: &mut Vec<u8>, name: &str, number: u64) -> Result<(), AllocError>
    ensures { OnOk result (text.new.items ≡ text.old.items ++ numbered name.now number) }
{
    text.extend_from_slice(name.as_bytes())?;
    text.extend_from_slice(Buffer::new().format(number).as_bytes())?;
    text.push(b'\n')?;
    Ok(())
}

// The lines of a summary.
fn summary_text(alloc: Global, summary: &Summary) -> Result<Vec<u8>, AllocError>
    ensures { IfOk result (λ text. text.items ≡ summary_text summary.now) }
{
    let mut text = Vec::new(alloc);
    push_line(&mut text, "items ", u64::from(summary.items))?;
    push_line(&mut text, "bins ", u64::from(summary.bins))?;
    push_line(&mut text, "rows ", u64::from(summary.rows))?;
    push_line(&mut text, "to-sender ", summary.to_sender)?;
    push_line(&mut text, "to-receiver ", summary.to_receiver)?;
    push_line(&mut text, "shown ", summary.shown)?;
    Ok(text)
}

// Prints the text, and answers the digest of the session.
fn print_summary<W: World>(
    text: &[u8],
    played: PlayedSession<'_>,
    world: &mut W,
) -> Result<[u8; 32], Status>
    ensures { (words : List (List ℕ)) (bytes : List ℕ) → Holds256 played.entry.transcript.hasher bytes →
        Runs W.known words (ends (Some (sha256 bytes)) (says text.now ∷ [])) (W.outside world.old)
        (closed result (W.outside world.new)) }
{
    print_text(text, world)?;
    let (digest, _log) = played.transcript.finish();
    Ok(digest)
}

// What `trial` does with both lists.
#[tactic(auto, using(psi_walk::proofs::Walks::walk))]
fn place_and_try<W: World>(
    alloc: Global,
    words: &Words,
    x: &Items,
    y: &Items,
    world: &mut W,
) -> Result<Outcome, Status>
    requires fit { bad_word trial_forms words.now ≡ None }
    ensures { Runs W.known words.now (trial_set words.now x.now y.now) (W.outside world.old)
        (end_of result (W.outside world.new)) }
{
    let (own, peer) = (x.len(), y.len());
    let deals = trial_deals(alloc, words)?;
    let digests = x.digests(alloc)?;
    let placement = place_items(alloc, 0, x, &digests, &deals.0)?;
    let played = play(alloc, x, y, &digests, &deals, &placement, None)?;
    let summary = summary_of(&deals.0, own, peer, played.receiver.shown());
    let text = summary_text(alloc, &summary)?;
    let rest = print_summary(&text, played, world);
    Ok(placed_outcome(placement, rest))
}

// What `trial` does. A refusal before there is an outcome is answered as an error.
#[tactic(auto, using(psi_walk::proofs::Walks::walk), unfolding(crate::specs::Trial::trial_items))]
fn trial_steps<W: World>(alloc: Global, words: &Words, world: &mut W) -> Result<Outcome, Status>
    requires fit { bad_word trial_forms words.now ≡ None }
    ensures { Runs W.known words.now (trial_tree words.now) (W.outside world.old)
        (end_of result (W.outside world.new)) }
{
    let (count, shared) = counts_of(word_at(words, 1), word_at(words, 2));
    let x = made_items(alloc, MadeFile::First, count, shared)?;
    let y = made_items(alloc, MadeFile::Second, count, shared)?;
    place_and_try(alloc, words, &x, &y, world)
}

/// Makes two lists, runs both ends of a session on them in memory, and prints how large it was.
///
/// The words are `trial COUNT SHARED SEED`: how many items each list has, at most 1,048,576, how many of them are in
/// both, and the seed of the deal. The lists are those of the files that `make COUNT SHARED 0` writes. The session has
/// number 0, tags of 16 bytes and 4 stash rows. Printed are the lines `items`, `bins`, `rows`, `to-sender`,
/// `to-receiver` and `shown`, each with its number: the receiver's items, its bins and rows, the bytes of the
/// receiver's and of the sender's stream, and the items that are shown. The outcome's `wire` is the SHA-256 of all
/// bytes of the session.
pub fn trial_command<W: World>(alloc: Global, words: &Words, world: &mut W) -> Outcome
    // A bad word is refused at its place, and changes nothing. From words in form it follows the tree of the command,
    // step by step. The promise follows from it.
    ensures steps { Answers command_trial W.known words.now (W.outside world.old) (ended result (W.outside world.new)) }

    // What it may answer, and why: the first made list is placed, and then the text is printed. Where it is done it
    // printed how large the session was and how many items are shown. It sends and takes nothing. From a first list
    // that has a placement it is done where no fault was counted or the world is steady, or memory was wanting.
    ensures promise { KeepsInForm command_trial W.known words.now (W.outside world.old)
        (ended result (W.outside world.new)) }
{
    if let Some(at) = bad_word(words, TRIAL) {
        return Outcome::of(Status::BadWords { at });
    }
    outcome_of(trial_steps(alloc, words, world))
}
