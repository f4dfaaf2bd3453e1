// The steps of the commands.
ghost use Rattle.std.specs.Prelude.{◌≡◌, ◌≤◌, Bool, List, ℕ, IfOk, IsTrue, OnOk, length};
ghost use Rattle.psi_spec.specs.Frames.{AreBytes};
ghost use Rattle.psi_spec.specs.Limits.{record_limit};
ghost use Rattle.psi_base.specs.Outside.{as_list, link_to};
ghost use Rattle.psi_words.specs.Words.{word_at as word_of};
ghost use Rattle.psi_walk.specs.Files.{record_in};
ghost use Rattle.psi_walk.specs.Tree.{puts, says};
ghost use Rattle.psi_walk.specs.Walk.{Makes, Settles, StepsOpen, StepsRead, status_of, talk_status};

use psi_base::{Fault, ReadFault, Side, Words, World, print_all};
use psi_frames::EndFault;
use psi_log::{BadRecord, LoggedSession, read_record};
use psi_texts::Status;
use psi_words::word_at;
use std::alloc::Global;

/// Reads the file that the word at this place names, of at most so many bytes.
pub fn read_bytes<W: World>(
    alloc: Global,
    words: &Words,
    word: u8,
    limit: u32,
    world: &mut W,
) -> Result<Vec<u8>, Status>
    ensures steps { StepsRead W.known words.now word limit (W.outside world.old) (as_list result)
        (W.outside world.new) }
    ensures short { IfOk (as_list result) (λ bytes. length bytes ≤ limit) }
    ensures unchanged { OnOk result (W.outside world.new ≡ W.outside world.old) }
{
    match world.read_file(alloc, word_at(words, usize::from(word)), limit) {
        Ok(bytes) => Ok(bytes),
        Err(ReadFault::Failed) => Err(Status::FileFault { word }),
        Err(ReadFault::TooLong { taken }) => Err(Status::TooLong { word, taken }),
        Err(ReadFault::NoMemory) => Err(Status::NoMemory),
    }
}

/// The session that the bytes of a record file hold.
#[tactic(auto, unfolding(crate::specs::Files::record_in))]
pub fn judge_record<'a>(alloc: Global, bytes: &'a [u8]) -> Result<LoggedSession<'a>, Status>
    requires { length bytes.now ≤ record_limit }
    ensures settles { Settles (record_in bytes.now) result }
    ensures are_bytes { AreBytes bytes.now }
{
    match read_record(alloc, bytes) {
        Ok(session) => Ok(session),
        Err(BadRecord::NoMemory) => Err(Status::NoMemory),
        Err(fault) => Err(Status::BadRecord(fault)),
    }
}

/// Opens the link from this side, at the address that the word at this place names.
pub fn open_link<W: World>(words: &Words, word: u8, side: Side, world: &mut W) -> Result<(), Status>
    ensures steps { StepsOpen W.known words.now (link_to side (word_of words.now word)) (W.outside world.old) result
        (W.outside world.new) }
    ensures ready { OnOk result (IsTrue (W.outside world.new).ready) }
{
    match world.open_link(side, word_at(words, usize::from(word))) {
        Ok(()) => Ok(()),
        Err(Fault::Failed) => Err(Status::LinkFault),
        Err(Fault::NoMemory) => Err(Status::NoMemory),
    }
}

/// The status of a session that was not done.
pub fn session_status(fault: EndFault) -> Status
    ensures { result ≡ talk_status fault }
{
    match fault {
        EndFault::Bad(frame) => Status::BadFrame(frame),
        EndFault::PeerEnded { offset } => Status::PeerEnded { offset },
        EndFault::Link => Status::LinkFault,
        EndFault::NoMemory => Status::NoMemory,
    }
}

/// Prints the text.
pub fn print_text<W: World>(text: &[u8], world: &mut W) -> Result<(), Status>
    ensures { (words : List (List ℕ)) (taken : Bool) →
        Makes W.known words taken (says text.now) (W.outside world.old) result (W.outside world.new) }
{
    match print_all(world, text) {
        Ok(()) => Ok(()),
        Err(Fault::Failed) => Err(Status::PrintFault),
        Err(Fault::NoMemory) => Err(Status::NoMemory),
    }
}

/// Writes the file that the word at this place names.
pub fn write_word<W: World>(
    words: &Words,
    word: u8,
    bytes: &[u8],
    world: &mut W,
) -> Result<(), Status>
    ensures { (taken : Bool) →
        Makes W.known words.now taken (puts word bytes.now) (W.outside world.old) result
        (W.outside world.new) }
{
    match world.write_file(word_at(words, usize::from(word)), bytes) {
        Ok(()) => Ok(()),
        Err(Fault::Failed) => Err(Status::FileFault { word }),
        Err(Fault::NoMemory) => Err(Status::NoMemory),
    }
}

/// The status of what is left of a command.
pub fn status(rest: Result<(), Status>) -> Status
    ensures { result ≡ status_of rest }
{
    match rest {
        Ok(()) => Status::Done,
        Err(status) => status,
    }
}
