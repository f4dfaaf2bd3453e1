// Records that are written while a session runs.
ghost use Rattle.std.specs.Prelude.{◌≡◌, ◌+◌, ◌*◌, ◌≤◌, [], ◌∷◌, ◌++◌, List, ℕ, length, IfOk, IsOk, OnOk, OnErr, vec_capacity, vec_len};
ghost use Rattle.std.specs.Int.{w32, to_be_bytes};
ghost use Rattle.psi_spec.specs.Placement.{Slot as PlacedSlot};
ghost use Rattle.psi_spec.specs.DealFiles as files;
ghost use Rattle.psi_spec.specs.Records.{record_file, record_front, slots_bytes};

use crate::layout::{SEAL_LENGTH, VERSION, wire_place};
use psi_base::NoMemory;
use psi_cuckoo::{Placement, Slot};
use sha2::{Digest, Sha256};
use std::alloc::{AllocError, Global};
use std::marker::Model;

/// The bytes of a record so far, in a room that also holds its seal.
#[derive(Drop)]
pub struct Recorder {
    bytes: Vec<u8>,
}

impl Model for Recorder {
    ghost use Rattle.std.specs.Prelude.{◌+◌, ◌-◌, ◌≤◌, vec_capacity, vec_len};
    ghost use Rattle.psi_log.specs.Recording.{RecorderState};

    ghost Value = { RecorderState };

    ghost view = { λ r. record {
      bytes = r.bytes.items;
      spare = vec_capacity r.bytes - (vec_len r.bytes + 32);
    } };

    ghost invariant = { λ r. vec_len r.bytes + 32 ≤ vec_capacity r.bytes };
}

impl Recorder {
    /// A record with the slots of a placement, and no frame yet. Err where memory is wanting.
    pub fn begin(alloc: Global, placement: &Placement) -> Result<Recorder, NoMemory>
        ensures front { IfOk result (λ log. log.bytes ≡ record_front placement.now) }
    {
        let bytes = front(alloc, placement)?;
        Ok(Recorder { bytes })
    }

    /// Makes room for `n` more bytes at least. Err only where memory is wanting; then nothing changes.
    pub fn reserve(&mut self, n: u64) -> Result<(), NoMemory>
        ensures bytes { self.new.bytes ≡ self.old.bytes }
        ensures room { OnOk result (n ≤ self.new.spare) }
        ensures enough { n ≤ self.old.spare → IsOk result }
        ensures kept { OnErr result (self.new ≡ self.old) }
    {
        let room = n.saturating_add(SEAL_LENGTH as u64);
        Ok(self.bytes.reserve(room as usize)?)
    }

    /// How many bytes may be added now.
    pub fn spare(&self) -> u64
        ensures { result ≡ self.now.spare }
    {
        (self.bytes.capacity() - self.bytes.len() - SEAL_LENGTH) as u64
    }

    /// Adds bytes at the end, at most as many as may be added now. It takes no memory.
    pub fn add(&mut self, bytes: &[u8])
        requires { length bytes.now ≤ self.old.spare }
        ensures bytes { self.new.bytes ≡ self.old.bytes ++ bytes.now }
        ensures spare { self.old.spare ≤ self.new.spare + length bytes.now }
    {
        self.bytes.extend_from_slice(bytes).unwrap();
    }
}

// The front of the record of a placement, with room for the seal.
#[tactic(auto, unfolding(psi_spec::specs::Records::record_front))]
fn front(alloc: Global, placement: &Placement) -> Result<Vec<u8>, AllocError>
    ensures bytes { IfOk result (λ bytes. bytes.items ≡ record_front placement.now) }
    ensures room { IfOk result (λ bytes. vec_len bytes + 32 ≤ vec_capacity bytes) }
{
    let count = placement.len();
    let mut bytes = Vec::with_capacity(alloc, wire_place(count) + SEAL_LENGTH)?;
    bytes.extend_from_slice(b"PSIR")?;
    bytes.extend_from_slice(&[VERSION])?;
    bytes.extend_from_slice(&count.to_be_bytes())?;
    add_slots(&mut bytes, placement)?;
    Ok(bytes)
}

// The row and the index of a slot.
fn slot_bytes(slot: Slot) -> [u8; 5]
    ensures { result ≡ to_be_bytes w32 slot.row ++ slot.index ∷ [] }
{
    let [a, b, c, d] = slot.row.to_be_bytes();
    [a, b, c, d, slot.index]
}

// Adds the slots of a placement.
fn add_slots(bytes: &mut Vec<u8>, placement: &Placement) -> Result<(), AllocError>
    ensures bytes { OnOk result (bytes.new.items ≡ bytes.old.items ++ slots_bytes placement.now) }
    ensures len { OnOk result (vec_len bytes.new ≡ vec_len bytes.old + 5 * length placement.now) }
    ensures capacity { vec_capacity bytes.old ≤ vec_capacity bytes.new }
{
    for i in 0..placement.len() {
        let slot = placement.slot(i).unwrap();
        bytes.extend_from_slice(&slot_bytes(slot))?;
    }
    Ok(())
}

/// The record, sealed in the room that it has: no memory is taken.
pub fn write_record(log: Recorder) -> Vec<u8>
    ensures sealed { result.items ≡ files.sealed log.bytes }
    ensures file { (slots : List PlacedSlot) (wire : List ℕ) → log.bytes ≡ record_front slots ++ wire
        → result.items ≡ record_file slots wire }
{
    let mut bytes = log.bytes;
    let hash = Sha256::digest(&bytes);
    bytes.extend_from_slice(&hash).unwrap();
    bytes
}
