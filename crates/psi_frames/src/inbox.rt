// The bytes that came of the frame in progress.
ghost use Rattle.std.specs.Prelude.{◌≡◌, ◌≤◌, [], length, None, Err, IfOk, IfSome};
ghost use Rattle.std.specs.Borrow.{sem};
ghost use Rattle.std.specs.Io.BufRead.{Rests};
ghost use Rattle.psi_spec.specs.Frames.{AreBytes};
ghost use Rattle.psi_frames.specs.contracts.inbox.Inbox.{the_row};
ghost use Rattle.psi_frames.specs.Boxes.{IsNext, Leaves, MayExpect, after_feed, missing_of, taken_of};

use crate::expect::Expect;
use crate::frame::Frame;
use crate::judging::{first_fault, frame_of};
use crate::reasons::BadFrame;
use crate::room::write_at;
use psi_base::{INBOX_ROOM, NoMemory};
use std::alloc::Global;
use std::marker::Model;

/// The bytes that came of the frame in progress, in a room that is taken when the inbox is made.
///
/// `missing`, `feed` and `next` are told which frame is expected. It fits the room and ends at a place below
/// 2^64, its tags have at most 16 bytes, and no more bytes are held than it has. After a refusal it is still
/// the frame that was refused.
#[derive(Drop)]
pub struct Inbox {
    bytes: Vec<u8>,
    held: usize,
    offset: u64,
    refused: Option<BadFrame>,
}

impl Model for Inbox {
    ghost use Rattle.std.specs.Prelude.{◌≤◌, length, take};
    ghost use Rattle.psi_spec.specs.Limits.{inbox_room};
    ghost use Rattle.psi_frames.specs.Boxes.{InboxState};

    ghost Value = { InboxState };

    ghost view = { λ b. record {
      room = length b.bytes.items;
      held = take b.held b.bytes.items;
      offset = b.offset;
      refused = b.refused;
    } };

    ghost invariant = { λ b. (b.held ≤ length b.bytes.items) × (length b.bytes.items ≤ inbox_room) };
}

impl Inbox {
    /// An inbox with room for `n` bytes, at most `INBOX_ROOM`, that holds none. It is refused only where
    /// memory is wanting; no other call takes memory.
    pub fn with_room(alloc: Global, n: u32) -> Result<Inbox, NoMemory>
        requires { n ≤ INBOX_ROOM }
        ensures { IfOk result (λ box. box ≡ record { room = n; held = []; offset = 0; refused = None }) }
    {
        let bytes = vec![in alloc; 0; n as usize]?;
        Ok(Inbox {
            bytes,
            held: 0,
            offset: 0,
            refused: None,
        })
    }

    /// The place of the first byte of the frame in progress among all that came, counted from 0.
    pub fn offset(&self) -> u64
        ensures { result ≡ self.now.offset }
    {
        self.offset
    }

    /// How many bytes of the expected frame are still to come, and 0 after a refusal.
    pub fn missing(&self, expect: &Expect) -> u32
        requires { MayExpect self.now expect.now }
        ensures exact { result ≡ missing_of self.now expect.now }
        ensures most { result ≤ INBOX_ROOM }
    {
        match self.refused {
            Some(_) => 0,
            None => (expect.frame_length() - self.held) as u32,
        }
    }

    /// Takes the bytes up to the end of the expected frame, and answers how many that were. After a
    /// refusal it takes none.
    pub fn feed(&mut self, expect: &Expect, bytes: &[u8]) -> usize
        requires { MayExpect self.old expect.now }
        ensures taken { result ≡ taken_of self.old expect.now (length bytes.now) }
        ensures fed { self.new ≡ after_feed expect.now bytes.now self.old }
        ensures are_bytes { AreBytes bytes.now }
        ensures more { MayExpect self.new expect.now }
    {
        let taken = bytes.len().min(self.missing(expect) as usize);
        write_at(&mut self.bytes, self.held, &bytes[..taken]);
        self.held += taken;
        taken
    }

    /// The frame, lent out of the inbox, where the held bytes are a whole one; the inbox then holds nothing.
    /// None where they begin one, and then nothing changes.
    ///
    /// The first field that is wrong is refused as soon as its last byte is there, and each later call
    /// answers the same refusal.
    pub fn next(&mut self, expect: &Expect) -> Result<Option<Frame<'_>>, BadFrame>
        requires { MayExpect self.old expect.now }
        ensures answer { IsNext self.old expect.now result }
        ensures again { IfSome self.old.refused (λ bad. result ≡ Err bad) }
        ensures* after { sem 𝓛 (Rests the_row self.entry (λ new. Leaves self.old expect.now result new)) }
    {
        if let Some(bad) = self.refused {
            return Err(bad);
        }
        if let Some(reason) = first_fault(expect, &self.bytes[..self.held]) {
            let bad = BadFrame {
                offset: self.offset,
                reason,
            };
            self.refused = Some(bad);
            return Err(bad);
        }
        let length = expect.frame_length();
        if self.held < length {
            return Ok(None);
        }
        self.held = 0;
        self.offset += length as u64;
        Ok(Some(frame_of(expect, &self.bytes[..length])))
    }
}
