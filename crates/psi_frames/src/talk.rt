// A session of an end over the link.
ghost use Rattle.std.specs.Prelude.{◌≡◌, ◌<◌, [], length, None, Some, OnOk, IsTrue};
ghost use Rattle.psi_frames.specs.Boxes.{MayExpect, missing_of};
ghost use Rattle.psi_frames.specs.Converse.{ConversesWith, Fills, Hears, KeepsAll, KeepsFrame, SendsAll};
ghost use Rattle.psi_frames.specs.Expected.{IsBegun};
ghost use Rattle.psi_frames.specs.Script.{IsSettled, IsWithin, KeepsOn, due_frame, over, script_of};

use crate::end::End;
use crate::expect::Expect;
use crate::inbox::Inbox;
use crate::turns::EndFault;
use psi_base::{INBOX_ROOM, World};
use std::alloc::Global;

// How many bytes of the link are received at once, at most.
const PIECE: usize = 16384;

// Sends all that the end owes. Where a send is refused, the bytes before it stay sent.
fn send_owed<E: End, W: World>(end: &mut E, world: &mut W) -> Result<(), EndFault>
    requires { IsTrue (W.outside world.old).ready }
    ensures sends { SendsAll (W.outside world.old) (E.state end.old).owes result (W.outside world.new) }
    ensures state { OnOk result (E.state end.new ≡ record (E.state end.old) { owes = [] }) }
    ensures keeps { OnOk result (KeepsOn (E.keeps end.old) (E.keeps end.new) [] (E.state end.old).owes) }
{
    while !end.pending().is_empty() {
        let count = world.send(end.pending())?;
        end.sent(count);
    }
    Ok(())
}

// Receives once, into the inbox, and no byte past the frame that is due.
fn receive<W: World>(
    inbox: &mut Inbox,
    expect: &Expect,
    world: &mut W,
    buffer: &mut [u8],
) -> Result<(), EndFault>
    requires ready { IsTrue (W.outside world.old).ready }
    requires due { MayExpect inbox.old expect.now }
    requires some { 0 < missing_of inbox.old expect.now }
    requires begun { IsBegun expect.now inbox.old.held }
    requires room { 0 < length buffer.old }
    ensures fills { Fills W.known expect.now inbox.old (W.outside world.old) result inbox.new (W.outside world.new) }
    ensures due { OnOk result (MayExpect inbox.new expect.now) }
{
    let room = buffer.len().min(inbox.missing(expect) as usize);
    let count = world.recv(&mut buffer[..room])?;
    if count == 0 {
        return Err(EndFault::PeerEnded {
            offset: inbox.offset(),
        });
    }
    inbox.feed(expect, &buffer[..count]);
    Ok(())
}

// Receives the frame that is due, and lets the end take it. A wrong field is refused as soon as its last byte is there.
fn hear<E: End, W: World>(
    end: &mut E,
    expect: &Expect,
    inbox: &mut Inbox,
    world: &mut W,
    buffer: &mut [u8],
) -> Result<(), EndFault>
    requires ready { IsTrue (W.outside world.old).ready }
    requires due { due_frame (E.state end.old) ≡ Some expect.now }
    requires may { MayExpect inbox.old expect.now }
    requires empty { inbox.old.held ≡ [] }
    requires calm { inbox.old.refused ≡ None }
    requires room { 0 < length buffer.old }
    ensures { Hears W.known expect.now (KeepsFrame (E.keeps end.old) (E.keeps end.new)) (E.state end.old) inbox.old
        (W.outside world.old) result (E.state end.new) inbox.new (W.outside world.new) }
{
    loop {
        receive(inbox, expect, world, buffer)?;
        if let Some(frame) = inbox.next(expect)? {
            end.take(&frame)?;
            return Ok(());
        }
    }
}

/// Runs an end's session over the link, which awaits at most so many frames: what the end owes is sent before a
/// frame is awaited, no byte past the frame that is due is asked for, and a wrong frame ends the session at once.
///
/// All memory but the end's own is taken first. `NoMemory` comes where that is wanting, where the end has none for
/// its first frame, or where a send had none; `Bad` with the first wrong field of a frame; `PeerEnded` where the peer
/// sent no more bytes, with the place of the frame that was due; and `Link` where a call of the link failed. Once it
/// is done, the end owes nothing and awaits no frame.
///
/// The link is open, and each frame that the end may await fits an inbox.
pub fn converse<E: End, W: World>(
    alloc: Global,
    end: &mut E,
    most_frames: u32,
    world: &mut W,
) -> Result<(), EndFault>
    requires ready { IsTrue (W.outside world.old).ready }
    requires settled { IsSettled (E.state end.old).next }
    requires few { IsWithin most_frames (E.state end.old).next }
    ensures converses { ConversesWith W.known (script_of (E.state end.old))
        (KeepsAll (script_of (E.state end.old)) (E.keeps end.old) (E.keeps end.new)) (W.outside world.old) result
        (W.outside world.new) }
    ensures owes { OnOk result ((E.state end.new).owes ≡ []) }
    ensures done { OnOk result ((E.state end.new).next ≡ over) }
{
    let mut inbox = Inbox::with_room(alloc, INBOX_ROOM)?;
    let mut buffer = [0; PIECE];
    for _ in 0..most_frames {
        send_owed(end, world)?;
        let Some(expect) = end.expect() else {
            return Ok(());
        };
        hear(end, &expect, &mut inbox, world, &mut buffer)?;
    }
    send_owed(end, world)
}
