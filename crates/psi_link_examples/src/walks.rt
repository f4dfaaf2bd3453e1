// Each call of the outside fails in turn: how each command ends then, what it printed and sent, and which files stand.
// What stands is compared with an unfailing run of the same command.
ghost use Rattle.std.specs.Prelude.{◌<◌};

use crate::receiving::{receiver_stream, sender_stream, world_of};
use crate::runs::{DONE, ZERO_SEED as Z, expect_run, words_of};
use psi_base::{FaultKind, MemWorld, NoMemory};
use psi_top::{Status, run};
use sha2::{Digest, Sha256};
use std::alloc::{AllocError, Global};
use std::process::Abort;
use std::test::Fail;

/// Both lists, of which two items are common.
const LISTS: [&[u8]; 2] = [b"ann\nbob\ncarol\n", b"bob\ncarol\ndave\n"];

/// The items that are common, a line each.
const COMMON: &[u8] = b"bob\ncarol\n";

/// The files of each world before its command: both lists, both deals, the record of their session, the receiver's deal
/// file of version 1, three that are written over, and a file that no command names.
const NAMES: &[&str] = &[
    "x", "y", "r", "s", "record", "old", "new", "stream", "columns", "other",
];

/// A command, the words and the names of the files of its file calls, in order, and how many of these are reads, which
/// come before it opens the link or prints.
struct Walk {
    texts: &'static [&'static str],
    calls: &'static [(u8, &'static str)],
    reads: usize,
}

/// The commands that have no other end. What they write differs from what stands there before.
const ALONE: &[Walk] = &[
    Walk {
        texts: &["deal", Z, "1", "16", "r", "s"],
        calls: &[(4, "r"), (5, "s")],
        reads: 0,
    },
    Walk {
        texts: &["make", "3", "1", "7", "x", "y"],
        calls: &[(4, "x"), (5, "y")],
        reads: 0,
    },
    Walk {
        texts: &["local", "x", "y", Z, "1", "16", "record"],
        calls: &[(1, "x"), (2, "y"), (6, "record")],
        reads: 2,
    },
    Walk {
        texts: &["trial", "3", "1", Z],
        calls: &[],
        reads: 0,
    },
    Walk {
        texts: &["audit", "x", "y", "r", "s", "record"],
        calls: &[(1, "x"), (2, "y"), (3, "r"), (4, "s"), (5, "record")],
        reads: 5,
    },
    Walk {
        texts: &["twin", "x", "y", "r", "s", "stream", "columns"],
        calls: &[
            (1, "x"),
            (2, "y"),
            (3, "r"),
            (4, "s"),
            (5, "stream"),
            (6, "columns"),
        ],
        reads: 4,
    },
    Walk {
        texts: &["renew", "old", "new"],
        calls: &[(1, "old"), (2, "new")],
        reads: 1,
    },
];

/// The receiver's end of a session.
const RECEIVE: Walk = Walk {
    texts: &["receive", "a", "x", "r", "record"],
    calls: &[(2, "x"), (3, "r"), (4, "record")],
    reads: 2,
};

/// The sender's end.
const SEND: Walk = Walk {
    texts: &["send", "a", "y", "s"],
    calls: &[(2, "y"), (3, "s")],
    reads: 2,
};

// A world with the files of this one and with what still comes, in which no call was made.
fn copy_of(rt: &(impl Abort + AllocGlobal), world: &MemWorld) -> Result<MemWorld, NoMemory> {
    let mut copy = MemWorld::new(rt.alloc());
    for name in NAMES {
        copy.put_file(name, world.file(name).unwrap_or(&[]))?;
    }
    copy.set_incoming(world.left(), &[])?;
    Ok(copy)
}

// The file of version 1 of a deal: without the byte of the stash, and sealed anew.
fn old_file(alloc: Global, file: &[u8]) -> Result<Vec<u8>, AllocError> {
    let mut bytes = file.to_vec(alloc)?;
    bytes.truncate(bytes.len().saturating_sub(32));
    if bytes.len() > 47 {
        bytes.remove(47);
    }
    if let Some(version) = bytes.get_mut(4) {
        *version = 1;
    }
    let seal = Sha256::digest(&bytes);
    bytes.extend_from_slice(&seal)?;
    Ok(bytes)
}

// The world before each run: with all the files, and with what a peer sends.
fn world_before(rt: &(impl Abort + AllocGlobal), incoming: &[u8]) -> Result<MemWorld, NoMemory> {
    let mut world = world_of(rt, "16", LISTS, incoming)?;
    let texts = ["local", "x", "y", Z, "0", "16", "record"];
    expect_run(rt, &texts, &mut world, DONE, COMMON, "record")?;
    let old = old_file(rt.alloc(), world.file("r").unwrap_or(&[]))?;
    world.put_file("old", &old)?;
    for name in ["new", "stream", "columns", "other"] {
        world.put_file(name, b"before")?;
    }
    copy_of(rt, &world)
}

// Runs the command in a copy of the world in which a call fails, and a print or a send takes at most so many bytes.
fn run_failing(
    rt: &(impl Abort + AllocGlobal),
    walk: &Walk,
    before: &MemWorld,
    call: (FaultKind, usize),
    most: u32,
) -> Result<(Status, MemWorld), NoMemory>
    requires { 0 < most }
{
    let mut world = copy_of(rt, before)?;
    world.fail(call.0, call.1 as u64)?;
    world.trickle(most);
    let words = words_of(rt.alloc(), walk.texts)?;
    let outcome = run(rt.alloc(), &words, &mut world);
    Ok((outcome.status, world))
}

// Asserts that the files of the first so many file calls are those of the second world, and all others those of the
// first.
fn expect_files(
    rt: &impl Abort,
    walk: &Walk,
    whole: usize,
    worlds: [&MemWorld; 2],
    world: &MemWorld,
) {
    let [before, done] = worlds;
    let calls = walk.calls.get(..whole).unwrap_or(&[]);
    for name in NAMES {
        let is_made = calls.iter().any(|call| call.1 == *name);
        let wanted = if is_made { done } else { before };
        assert_eq!(rt;
            world.file(name).unwrap_or(&[]),
            wanted.file(name).unwrap_or(&[]),
            "at {name}"
        );
    }
}

// Asserts what was printed, sent and left to take.
fn expect_moved(rt: &impl Abort, until: &MemWorld, world: &MemWorld, name: &str) {
    assert_eq!(rt; world.printed(), until.printed(), "at {name}");
    assert_eq!(rt; world.outgoing(), until.outgoing(), "at {name}");
    assert_eq!(rt; world.left(), until.left(), "at {name}");
}

// Fails each file call. Where a read fails nothing was printed, sent or taken, and where a write fails all was.
fn fail_file_calls(
    rt: &(impl Abort + AllocGlobal),
    walk: &Walk,
    worlds: [&MemWorld; 2],
) -> Result<(), NoMemory> {
    let [before, done] = worlds;
    for (k, &(word, name)) in walk.calls.iter().enumerate() {
        let (status, world) = run_failing(rt, walk, before, (FaultKind::File, k), u32::MAX)?;
        assert_eq!(rt; status, Status::FileFault { word }, "at {name}");
        let until = if k < walk.reads { before } else { done };
        expect_moved(rt, until, &world, name);
        expect_files(rt, walk, k, worlds, &world);
    }
    Ok(())
}

// Asserts that the bytes of a failed run are a front of those of the unfailing one, made by so many calls of at most so
// many bytes each.
fn expect_front(rt: &impl Abort, whole: &[u8], front: &[u8], calls: usize, most: u32) {
    let length = front.len();
    assert!(rt; whole.starts_with(front), "after {calls} calls");
    assert!(rt;
        length <= calls.saturating_mul(most as usize),
        "after {calls} calls"
    );
}

// Asserts that each of so many calls moved a byte, and that the run is done just where all bytes moved.
fn expect_progress(rt: &impl Abort, calls: usize, part: usize, all: usize, is_done: bool) {
    assert!(rt; calls <= part, "after {calls} calls");
    assert_eq!(rt; is_done, part == all, "after {calls} calls");
}

// How many bytes went over the link, either way.
fn moved(before: &MemWorld, world: &MemWorld) -> usize {
    let taken = before.left().len().saturating_sub(world.left().len());
    world.outgoing().len().saturating_add(taken)
}

// Fails a print call, where a print takes at most so many bytes: a front of the text was printed then, all was sent and
// taken, and nothing is written. Answers whether the run was done, and made no such call.
fn fail_print_call(
    rt: &(impl Abort + AllocGlobal),
    walk: &Walk,
    worlds: [&MemWorld; 2],
    k: usize,
    most: u32,
) -> Result<bool, NoMemory>
    requires { 0 < most }
{
    let [before, done] = worlds;
    let (status, world) = run_failing(rt, walk, before, (FaultKind::Print, k), most)?;
    let is_done = status == Status::Done;
    assert!(rt; is_done || status == Status::PrintFault, "print call {k}");
    let (part, all) = (world.printed(), done.printed());
    expect_front(rt, all, part, k, most);
    expect_progress(rt, k, part.len(), all.len(), is_done);
    assert_eq!(rt;
        moved(before, &world),
        moved(before, done),
        "print call {k}"
    );
    let whole = if is_done { walk.calls.len() } else { 0 };
    expect_files(rt, walk, whole, worlds, &world);
    Ok(is_done)
}

// Fails a call of the link, where a send takes at most so many bytes: a front of the stream was sent then, and nothing
// is printed or written. Answers whether the run was done, and made no such call.
fn fail_link_call(
    rt: &(impl Abort + AllocGlobal),
    walk: &Walk,
    worlds: [&MemWorld; 2],
    k: usize,
    most: u32,
) -> Result<bool, NoMemory>
    requires { 0 < most }
{
    let [before, done] = worlds;
    let (status, world) = run_failing(rt, walk, before, (FaultKind::Link, k), most)?;
    let is_done = status == Status::Done;
    assert!(rt; is_done || status == Status::LinkFault, "link call {k}");
    expect_front(rt, done.outgoing(), world.outgoing(), k, most);
    // The first call opens the link.
    expect_progress(
        rt,
        k.saturating_sub(1),
        moved(before, &world),
        moved(before, done),
        is_done,
    );
    assert!(rt; is_done || world.printed().is_empty(), "link call {k}");
    let whole = if is_done { walk.calls.len() } else { 0 };
    expect_files(rt, walk, whole, worlds, &world);
    Ok(is_done)
}

// Fails each print call. A run that printed all makes no further one.
fn fail_print_calls(
    rt: &(impl Abort + AllocGlobal),
    walk: &Walk,
    worlds: [&MemWorld; 2],
    most: u32,
) -> Result<(), NoMemory>
    requires { 0 < most }
{
    let [_before, done] = worlds;
    for k in 0..=done.printed().len() {
        if fail_print_call(rt, walk, worlds, k, most)? {
            break;
        }
    }
    Ok(())
}

// Fails each call of the link. A run that moved all bytes makes no further one, and the first call moves none.
fn fail_link_calls(
    rt: &(impl Abort + AllocGlobal),
    walk: &Walk,
    worlds: [&MemWorld; 2],
    most: u32,
) -> Result<(), NoMemory>
    requires { 0 < most }
{
    let [before, done] = worlds;
    for k in 0..=moved(before, done).saturating_add(1) {
        if fail_link_call(rt, walk, worlds, k, most)? {
            break;
        }
    }
    Ok(())
}

// Fails each call of a command, with prints and sends that take one byte, three, and all.
fn fail_each_call(
    rt: &(impl Abort + AllocGlobal),
    walk: &Walk,
    before: &MemWorld,
) -> Result<(), NoMemory> {
    // No file call comes behind those that are listed.
    let behind = (FaultKind::File, walk.calls.len());
    let (status, done) = run_failing(rt, walk, before, behind, u32::MAX)?;
    assert_eq!(rt; status, Status::Done);
    expect_files(rt, walk, walk.calls.len(), [before, &done], &done);

    let worlds = [before, &done];
    fail_file_calls(rt, walk, worlds)?;
    fail_print_calls(rt, walk, worlds, 1)?;
    fail_print_calls(rt, walk, worlds, 3)?;
    fail_print_calls(rt, walk, worlds, u32::MAX)?;
    fail_link_calls(rt, walk, worlds, 1)?;
    fail_link_calls(rt, walk, worlds, 3)?;
    fail_link_calls(rt, walk, worlds, u32::MAX)
}

#[test]
fn commands_without_another_end_fail_in_turn(rt: HostRuntime) -> Result<(), Fail> {
    let before = world_before(&rt, b"rest")?;
    for walk in ALONE {
        fail_each_call(&rt, walk, &before)?;
    }
    Ok(())
}

#[test]
fn the_receivers_end_fails_in_turn(rt: HostRuntime) -> Result<(), Fail> {
    let mut incoming = sender_stream(&rt, "16", LISTS, 3)?;
    incoming.extend_from_slice(b"rest")?;
    let before = world_before(&rt, &incoming)?;
    fail_each_call(&rt, &RECEIVE, &before)?;
    Ok(())
}

#[test]
fn the_senders_end_fails_in_turn(rt: HostRuntime) -> Result<(), Fail> {
    let mut incoming = receiver_stream(&rt, "16", LISTS, 3)?;
    incoming.extend_from_slice(b"rest")?;
    let before = world_before(&rt, &incoming)?;
    fail_each_call(&rt, &SEND, &before)?;
    Ok(())
}
