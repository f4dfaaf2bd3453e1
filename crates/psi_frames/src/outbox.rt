// The bytes that are to be sent.
ghost use Rattle.std.specs.Prelude.{◌≡◌, ◌^◌, ◌<◌, ◌≤◌, [], length, IfOk};
ghost use Rattle.psi_frames.specs.Boxes.{with_added, with_sent};

use crate::room::write_at;
use psi_base::NoMemory;
use std::alloc::Global;
use std::marker::Model;

/// The bytes that are to be sent, in a room that is taken when the outbox is made.
#[derive(Drop)]
pub struct Outbox {
    bytes: Vec<u8>,
    start: usize,
    end: usize,
}

impl Model for Outbox {
    ghost use Rattle.std.specs.Prelude.{◌-◌, length, take, drop};
    ghost use Rattle.psi_frames.specs.Boxes.{OutboxState, AreEnds};

    ghost Value = { OutboxState };

    ghost view = { λ b. record {
      pending = drop b.start (take b.end b.bytes.items);
      spare = length b.bytes.items - b.end;
      room = length b.bytes.items;
    } };

    ghost invariant = { λ b. AreEnds b.start b.end (length b.bytes.items) };
}

impl Outbox {
    /// An outbox with room for `n` bytes, and nothing to be sent. It is refused only where memory is wanting;
    /// no other call takes memory.
    pub fn with_room(alloc: Global, n: u32) -> Result<Outbox, NoMemory>
        ensures { IfOk result (λ box. box ≡ record { pending = []; spare = n; room = n }) }
    {
        let bytes = vec![in alloc; 0; n as usize]?;
        Ok(Outbox {
            bytes,
            start: 0,
            end: 0,
        })
    }

    /// The bytes that are to be sent.
    pub fn pending(&self) -> &[u8]
        ensures { result.now ≡ self.now.pending }
    {
        &self.bytes[self.start..self.end]
    }

    /// How many bytes may be added now.
    pub fn spare(&self) -> u32
        ensures { result ≡ self.now.spare }
    {
        (self.bytes.len() - self.end) as u32
    }

    /// Takes the first `n` of the pending bytes away: they were sent. Once none is pending, the whole
    /// room is spare again.
    pub fn sent(&mut self, n: usize)
        requires { n ≤ length self.old.pending }
        ensures { self.new ≡ with_sent n self.old }
    {
        if self.start + n == self.end {
            self.start = 0;
            self.end = 0;
        } else {
            self.start += n;
        }
    }

    /// Adds bytes at the end.
    pub(crate) fn add(&mut self, bytes: &[u8])
        requires { length bytes.now ≤ self.old.spare }
        ensures added { self.new ≡ with_added bytes.now self.old }
        ensures small { self.new.spare < 2 ^ 32 }
    {
        write_at(&mut self.bytes, self.end, bytes);
        self.end += bytes.len();
    }
}
