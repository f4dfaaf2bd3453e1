// One end of a session, as a machine over frames.
ghost use Rattle.std.specs.Prelude.{◌≡◌, ◌≤◌, ℕ, [], List, length, take, IsTrue, IfOk, OnErr, OnOk};
ghost use Rattle.psi_frames.specs.Converse.{KeepsFrame};
ghost use Rattle.psi_frames.specs.Expected.{seen};
ghost use Rattle.psi_frames.specs.Script.{EndState, IsPending, MayCome, after_sending, after_taking, due_frame, turn_of};
ghost use Rattle.psi_frames.specs.Script.{Keeps, KeepsOn};

use crate::expect::Expect;
use crate::frame::Frame;
use crate::turns::Turn;
use psi_base::NoMemory;

/// One end of a session, as a machine over frames: bytes of its own are sent, and frames of its peer are taken.
pub trait End {
    /// What it owes, and how it goes on.
    ghost state: { Self → EndState };

    /// The bytes that `pending` gives.
    ghost front: { Self → List ℕ };

    /// What stands of it against the end that it was before, once these frames were taken, and these bytes sent and
    /// taken, in the order of the wire.
    ghost keeps: { Self → Keeps Self };

    /// The frame that is due, or None while bytes are owed or once all is done.
    fn expect(&self) -> Option<Expect>
        ensures { result ≡ due_frame (state self.now) };

    /// Takes the frame that is due.
    ///
    /// It is refused only where memory is wanting, only as the end's first frame, and then nothing changes.
    fn take(&mut self, frame: &Frame<'_>) -> Result<Turn, NoMemory>
        requires { MayCome (due_frame (state self.old)) (seen frame.now) }
        ensures taken { OnOk result (state self.new ≡ after_taking (seen frame.now) (state self.old)) }
        ensures turn { IfOk result (λ turn. turn ≡ turn_of (state self.new)) }
        ensures keeps { OnOk result (KeepsFrame (keeps self.old) (keeps self.new) (seen frame.now)) }
        ensures early { OnErr result (IsTrue (state self.old).is_new) }
        ensures kept { OnErr result (state self.new ≡ state self.old) };

    /// A front of the bytes that are owed, which has some where any are owed.
    fn pending(&self) -> &[u8]
        ensures gives { result.now ≡ front self.now }
        ensures pending { IsPending (front self.now) (state self.now).owes };

    /// The first `n` of the pending bytes were sent.
    fn sent(&mut self, n: usize)
        requires { n ≤ length (front self.old) }
        ensures state { state self.new ≡ after_sending n (state self.old) }
        ensures keeps { KeepsOn (keeps self.old) (keeps self.new) [] (take n (front self.old)) };
}
