// The loop that plays a session in memory.
ghost use Rattle.std.specs.Prelude.{◌≡◌, ◌≤◌, [], length, take, None, Some, OnOk};
ghost use Rattle.psi_spec.specs.Frames.{Frame};
ghost use Rattle.psi_frames.specs.Boxes.{MayExpect, with_lent};
ghost use Rattle.psi_frames.specs.Expected.{frame_length};
ghost use Rattle.psi_frames.specs.Script.{KeepsOn, after_sending, due_frame};
ghost use Rattle.psi_session.specs.Playing.{AwaitsFew, CanPlay, HasPassed, HasPlayed, Sends};
ghost use Rattle.psi_session.specs.Transcripts.{HearsOn};

use crate::transcript::Transcript;
use psi_base::{INBOX_ROOM, NoMemory};
use psi_frames::{End, Expect, Inbox};
use std::alloc::Global;

// Brings the frame that is due into the inbox, piece by piece, out of what an end owes, and tells the transcript.
fn fill<F: End, T: Transcript>(
    from: &mut F,
    expect: &Expect,
    inbox: &mut Inbox,
    transcript: &mut T,
) -> Result<(), NoMemory>
    requires may { MayExpect inbox.old expect.now }
    requires empty { inbox.old.held ≡ [] }
    requires calm { inbox.old.refused ≡ None }
    requires enough { frame_length expect.now ≤ length (F.state from.old).owes }
    ensures filled { OnOk result (inbox.new ≡ record inbox.old {
      held = take (frame_length expect.now) (F.state from.old).owes;
    }) }
    ensures may { OnOk result (MayExpect inbox.new expect.now) }
    ensures state { OnOk result (F.state from.new ≡ after_sending (frame_length expect.now) (F.state from.old)) }
    ensures keeps { OnOk result (KeepsOn (F.keeps from.old) (F.keeps from.new) []
        (take (frame_length expect.now) (F.state from.old).owes)) }
    ensures heard { OnOk result (HearsOn (T.hears transcript.old) (T.hears transcript.new)
        (take (frame_length expect.now) (F.state from.old).owes)) }
{
    while inbox.missing(expect) > 0 {
        let pending = from.pending();
        let count = inbox.feed(expect, pending);
        transcript.add(&pending[..count])?;
        from.sent(count);
    }
    Ok(())
}

// Passes the frame that `to` awaits, which `from` owes first.
fn pass<F: End, G: End, T: Transcript>(
    from: &mut F,
    to: &mut G,
    expect: &Expect,
    inbox: &mut Inbox,
    transcript: &mut T,
) -> Result<(), NoMemory>
    requires due { due_frame (G.state to.old) ≡ Some expect.now }
    requires sends { (f : Frame) × Sends f (F.state from.old) (G.state to.old) }
    requires may { MayExpect inbox.old expect.now }
    requires empty { inbox.old.held ≡ [] }
    requires calm { inbox.old.refused ≡ None }
    ensures passed { OnOk result (HasPassed (F.state from.old) (G.state to.old) (F.keeps from.old) (F.keeps from.new)
        (G.keeps to.old) (G.keeps to.new) (T.hears transcript.old) (T.hears transcript.new) (F.state from.new)
        (G.state to.new)) }
    ensures lent { OnOk result (inbox.new ≡ with_lent expect.now inbox.old) }
{
    fill(from, expect, inbox, transcript)?;
    // What is owed is a whole frame, and one that may come.
    let Ok(Some(frame)) = inbox.next(expect) else {
        unreachable!()
    };
    to.take(&frame)?;
    Ok(())
}

/// Plays a session between two ends: while one of them awaits a frame, the one that the other owes is passed to it.
/// The bytes that pass are told to the transcript.
///
/// It is refused only where memory is wanting, and then neither end is used again.
pub(crate) fn play<A: End, B: End, T: Transcript>(
    alloc: Global,
    first: &mut A,
    second: &mut B,
    transcript: &mut T,
) -> Result<(), NoMemory>
    requires can_play { CanPlay (A.state first.old) (B.state second.old) }
    requires few_for_first { AwaitsFew (A.state first.old) }
    requires few_for_second { AwaitsFew (B.state second.old) }
    ensures played { OnOk result (HasPlayed (A.state first.old) (B.state second.old) (A.keeps first.old)
        (A.keeps first.new) (B.keeps second.old) (B.keeps second.new) (T.hears transcript.old)
        (T.hears transcript.new) (A.state first.new) (B.state second.new)) }
{
    let mut inbox = Inbox::with_room(alloc, INBOX_ROOM)?;
    loop {
        if let Some(expect) = second.expect() {
            pass(first, second, &expect, &mut inbox, transcript)?;
        } else if let Some(expect) = first.expect() {
            pass(second, first, &expect, &mut inbox, transcript)?;
        } else {
            return Ok(());
        }
    }
}
