// What is kept of a session in memory as its bytes pass.
ghost use Rattle.std.specs.Prelude.{◌≡◌, ◌++◌, [], List, ℕ, option_map, IfOk, OnOk};
ghost use Rattle.sha2.specs.Hashers.{Holds256};
ghost use Rattle.sha2.specs.Sha256.{sha256};
ghost use Rattle.psi_local.specs.Transcript.{front_for, log_of};

use psi_base::{NoMemory, Words};
use psi_cuckoo::Placement;
use psi_log::Recorder;
use psi_session::Transcript;
use sha2::{Digest, Sha256};
use std::alloc::Global;

/// The SHA-256 of the bytes of a session as far as they passed, and the record that they go into, if one is to be
/// written.
#[derive(Drop)]
pub struct SessionTranscript {
    hasher: Sha256,
    log: Option<Recorder>,
}

impl SessionTranscript {
    /// The transcript of a session of which no byte passed yet.
    pub fn begin(log: Option<Recorder>) -> SessionTranscript
        ensures hash { Holds256 result.hasher [] }
        ensures log { result.log ≡ log }
    {
        SessionTranscript {
            hasher: Sha256::new(),
            log,
        }
    }

    /// The SHA-256 of all bytes that passed, and the record.
    pub fn finish(self) -> ([u8; 32], Option<Recorder>)
        ensures digest { (bytes : List ℕ) → Holds256 self.hasher bytes → result.0 ≡ sha256 bytes }
        ensures log { result.1 ≡ self.log }
    {
        (self.hasher.finalize(), self.log)
    }
}

// Adds bytes to a record, if there is one.
fn add_to(log: &mut Option<Recorder>, bytes: &[u8]) -> Result<(), NoMemory>
    ensures { OnOk result (log_of log.new ≡ option_map (λ front. front ++ bytes.now) (log_of log.old)) }
{
    if let Some(recorder) = log {
        recorder.reserve(bytes.len() as u64)?;
        recorder.add(bytes);
    }
    Ok(())
}

impl Transcript for SessionTranscript {
    ghost use Rattle.psi_local.specs.Transcript.{WentOn};

    ghost hears = { λ now first bytes. WentOn first now bytes };

    fn add(&mut self, bytes: &[u8]) -> Result<(), NoMemory> {
        self.hasher.update(bytes);
        add_to(&mut self.log, bytes)
    }
}

/// The record of a placement, with room for a session of so many bytes, where the words name a file for it.
pub fn begin_record(
    alloc: Global,
    words: &Words,
    placement: &Placement,
    size: u64,
) -> Result<Option<Recorder>, NoMemory>
    ensures { IfOk result (λ log. log_of log ≡ front_for words.now placement.now) }
{
    if words.len() <= 6 {
        return Ok(None);
    }
    let mut recorder = Recorder::begin(alloc, placement)?;
    recorder.reserve(size)?;
    Ok(Some(recorder))
}
