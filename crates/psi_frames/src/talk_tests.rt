// A whole session of a small end over a link in memory, whatever pieces its bytes come and go in.
ghost use Rattle.std.specs.Prelude.{◌≡◌, ◌≤◌, [], ◌∷◌, ◌++◌, true, false, take, ⊤};
ghost use Rattle.psi_frames.specs.Script.{awaits, over, sends};

use super::*;
use psi_base::{MemWorld, NoMemory, Side, World};
use std::test::Fail;

/// The bytes of the frame that ends a session.
const DONE: &[u8] = &[5, 0, 0, 0, 0];

/// An end that awaits a frame, answers it by the same frame, and awaits another.
#[derive(Clone, Copy, Debug, PartialEq, Eq)]
enum Echo {
    First,
    Answering { rest: &'static [u8] },
    Over,
}

impl End for Echo {
    ghost use Rattle.psi_frames.specs.declared.expect.Expect.TheVariants as due;
    ghost use Rattle.psi_frames.specs.declared.talk_tests.Echo.TheVariants as echo;
    ghost use Rattle.psi_frames.specs.declared.talk_tests.TheConstants.{DONE};

    ghost state = { elim [
      | echo.First ↦ record {
        owes = [];
        next = awaits due.Done (λ _. sends DONE.now (awaits due.Done (λ _. over)));
        is_new = true;
      }
      | echo.Answering rest ↦ record { owes = rest.now; next = awaits due.Done (λ _. over); is_new = false }
      | echo.Over ↦ record { owes = []; next = over; is_new = false }
    ] };

    ghost keeps = { λ e first frames wire. ⊤ };

    ghost front = { elim [ echo.First ↦ [] | echo.Answering rest ↦ rest.now | echo.Over ↦ [] ] };

    fn expect(&self) -> Option<Expect> {
        match self {
            Echo::First => Some(Expect::Done),
            Echo::Answering { rest: [] } => Some(Expect::Done),
            Echo::Answering { .. } | Echo::Over => None,
        }
    }

    fn take(&mut self, _frame: &Frame<'_>) -> Result<Turn, NoMemory> {
        match self {
            Echo::First => {
                *self = Echo::Answering { rest: DONE };
                Ok(Turn::Send)
            }
            Echo::Answering { .. } | Echo::Over => {
                *self = Echo::Over;
                Ok(Turn::Finished)
            }
        }
    }

    fn pending(&self) -> &[u8] {
        match self {
            Echo::Answering { rest } => rest,
            Echo::First | Echo::Over => &[],
        }
    }

    fn sent(&mut self, n: usize) {
        if let Echo::Answering { rest } = self {
            *rest = &rest[n..];
        }
    }
}

#[test]
fn frames_come_and_go_in_pieces(rt: HostRuntime) -> Result<(), Fail> {
    let mut world = MemWorld::new(rt.alloc());
    world.set_incoming(
        &[5, 0, 0, 0, 0, 5, 0, 0, 0, 0, 7],
        &[1, 1, 1, 1, 1, 1, 1, 1, 1],
    )?;
    world.trickle(2);
    world.open_link(Side::Connect, "")?;
    assert_eq!(rt;
        converse(rt.alloc(), &mut Echo::First, 2, &mut world),
        Ok(())
    );
    assert_eq!(rt; world.outgoing(), DONE);
    assert_eq!(rt; world.left(), [7].as_slice());
    Ok(())
}
