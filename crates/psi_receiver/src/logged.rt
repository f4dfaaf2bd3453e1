// The receiver's end whose session is written down.
ghost use Rattle.std.specs.Prelude.{◌≡◌, ◌+◌, ◌^◌, ◌<◌, ◌≤◌, ◌++◌, [], false, length, IfOk, IsTrue, OnErr, OnOk};
ghost use Rattle.psi_spec.specs.Deals.{IsReceiverDeal};
ghost use Rattle.psi_spec.specs.Frames.{hello_size, layout};
ghost use Rattle.psi_frames.specs.Expected.{seen};
ghost use Rattle.psi_frames.specs.Script.{MayCome, due_frame, script_of};
ghost use Rattle.psi_receiver.specs.Logging.{HasRoomFor, IsMost, answer_size};
ghost use Rattle.psi_receiver.specs.Running.{state_of};

use crate::receiver::ReceiverCore;
use psi_base::{INBOX_ROOM, NoMemory};
use psi_deal::ReceiverDeal;
use psi_frames::{
    DONE_SIZE, End, Expect, Frame, HELLO_SIZE, Outbox, Turn, columns_size, lists_size, put,
};
use psi_log::Recorder;
use std::alloc::Global;
use std::marker::Model;

/// The receiver's end of a session, as a machine over frames, which is written down frame by frame.
///
/// The record gets the room of all the rest of a session with the sender's hello.
#[derive(Drop)]
pub struct LoggedReceiver<'a> {
    core: ReceiverCore<'a>,
    log: Recorder,
    frame: Outbox,
}

impl<'a> Model for LoggedReceiver<'a> {
    ghost use Rattle.psi_receiver.specs.Logging.{IsLogging, LoggedState};
    ghost use Rattle.psi_receiver.specs.Running.{state_of};

    ghost Value = { LoggedState };

    ghost view = { λ e. record { core = e.core; log = e.log.bytes } };

    ghost invariant = { λ e. IsLogging (state_of e.core) e.log.spare e.frame };
}

impl<'a> LoggedReceiver<'a> {
    ghost use Rattle.psi_receiver.specs.Running.{IsNewReceiver, TellsShown};

    /// The end that took no frame yet, whose session goes on a record. It is refused only where memory is wanting.
    pub fn new(
        alloc: Global,
        core: ReceiverCore<'a>,
        log: Recorder,
    ) -> Result<LoggedReceiver<'a>, NoMemory>
        requires new { IsNewReceiver core }
        requires deal { IsReceiverDeal core.deal }
        ensures core { IfOk result (λ e. e.core ≡ core.entry) }
        ensures log { IfOk result (λ e. e.log ≡ log.bytes) }
    {
        let mut log = log;
        log.reserve(core.pending().len() as u64)?;
        let frame = Outbox::with_room(alloc, INBOX_ROOM)?;
        Ok(LoggedReceiver { core, log, frame })
    }

    /// Of each item whether it is shown, in the order of the items: none is before all tags were taken, and then each
    /// is whose own tag is in the list of its slot.
    pub fn shown(&self) -> &[bool]
        ensures shown { result.now ≡ self.now.core.shown }
        ensures tells { TellsShown self.now.core }
    {
        self.core.shown()
    }

    /// The record so far.
    pub fn into_log(self) -> Recorder
        ensures { result.bytes ≡ self.entry.log }
    {
        self.log
    }
}

// How many bytes go over the wire at most after the hello of a sender of `count` items, where columns have so many
// rows.
fn most_after_hello(deal: &ReceiverDeal, rows: u32, count: u32) -> u64
    ensures exact { result ≡ answer_size rows deal.now.tag_length count (3 + deal.now.stash) }
    ensures small { result + hello_size < 2 ^ 64 }
{
    let lists = lists_size(3 + deal.stash(), deal.tag_length(), count);
    columns_size(rows) + (lists + u64::from(DONE_SIZE))
}

// Makes room in the record for a frame that is taken, and for all that goes over the wire after it. It is refused only
// for the first frame.
fn make_room(core: &ReceiverCore<'_>, frame: &Frame<'_>, log: &mut Recorder) -> Result<(), NoMemory>
    requires due { MayCome (due_frame (state_of core.now)) (seen frame.now) }
    requires all { (state_of core.now).is_new ≡ false → IsMost (script_of (state_of core.now)) log.old.spare }
    ensures bytes { log.new.bytes ≡ log.old.bytes }
    ensures room { OnOk result (HasRoomFor (state_of core.now) (seen frame.now) log.new.spare) }
    ensures kept { OnErr result (log.new ≡ log.old) }
    ensures early { OnErr result (IsTrue (state_of core.now).is_new) }
{
    if let Frame::SenderHello { count, .. } = frame {
        let most = most_after_hello(core.deal(), core.rows(), *count);
        log.reserve(u64::from(HELLO_SIZE) + most)?;
    }
    Ok(())
}

// Adds a frame to the record, by the room for one.
fn write_down(frame: &Frame<'_>, room: &mut Outbox, log: &mut Recorder)
    requires empty { room.old.pending ≡ [] }
    requires whole { room.old.spare ≡ room.old.room }
    requires fits { length (layout (seen frame.now)) ≤ room.old.spare }
    requires spare { length (layout (seen frame.now)) ≤ log.old.spare }
    ensures room { room.new ≡ room.old }
    ensures bytes { log.new.bytes ≡ log.old.bytes ++ layout (seen frame.now) }
    ensures spare { log.old.spare ≤ log.new.spare + length (layout (seen frame.now)) }
{
    put(room, frame);
    log.add(room.pending());
    let length = room.pending().len();
    room.sent(length);
}

impl<'a> End for LoggedReceiver<'a> {
    ghost use Rattle.psi_receiver.specs.Running.{state_of};
    ghost use Rattle.psi_receiver.specs.Logging.{KeptLog};

    ghost state = { λ e. state_of e.core };

    ghost front = { λ e. e.core.pending };

    ghost keeps = { λ e first frames wire. KeptLog first e frames wire };

    fn expect(&self) -> Option<Expect> {
        self.core.expect()
    }

    fn take(&mut self, frame: &Frame<'_>) -> Result<Turn, NoMemory> {
        make_room(&self.core, frame, &mut self.log)?;
        let turn = self.core.take(frame)?;
        write_down(frame, &mut self.frame, &mut self.log);
        Ok(turn)
    }

    fn pending(&self) -> &[u8] {
        self.core.pending()
    }

    fn sent(&mut self, n: usize) {
        self.log.add(&self.core.pending()[..n]);
        self.core.sent(n);
    }
}
