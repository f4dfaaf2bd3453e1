// `local` with both ends of a session in memory: what it prints and records, and the digest of the session. The digests
// and the sizes were found by programs apart from this one.
use crate::runs::{DONE, ZERO_SEED as Z, expect_run, numbered_lines, words_of, world_of};
use psi_base::{FaultKind, NoMemory};
use psi_top::{Status, run};
use std::process::Abort;
use std::test::Fail;

/// The receiver's list.
const X: &[u8] = b"a\nb\nc\n";

/// The sender's list.
const Y: &[u8] = b"b\nc\nd\n";

/// The words of a session of both lists with a record.
const RECORDED: &[&str] = &["local", "x", "y", Z, "0", "16", "record"];

/// The name of a row, the sizes of the deal, both lists, what is printed, and the size of the record.
const SESSIONS: &[(&str, &str, &[u8], &[u8], &[u8], usize)] = &[
    ("three and three", "16", X, Y, b"b\nc\n", 4631),
    ("no item of the receiver", "16", b"", b"a\n", b"", 4392),
    ("no item of the sender", "16", b"a\n", b"", b"", 4215),
    ("no stash rows", "16/0", b"a\n", b"a\n", b"a\n", 4293),
    ("sixteen stash rows", "16/16", X, Y, b"b\nc\n", 6351),
];

#[test]
fn common_items_are_printed_and_recorded(rt: HostRuntime) -> Result<(), Fail> {
    for &(name, sizes, x, y, printed, record) in SESSIONS {
        let texts = ["local", "x", "y", Z, "0", sizes, "record"];
        let mut world = world_of(rt.alloc(), Some(x), Some(y))?;
        expect_run(&rt, &texts, &mut world, DONE, printed, name)?;
        let file = world.file("record").unwrap_or(&[]);
        assert_eq!(rt; file.len(), record, "at {name}");
    }
    Ok(())
}

#[test]
fn five_items_are_placed(rt: HostRuntime) -> Result<(), Fail> {
    let texts = ["local", "x", "y", Z, "0", "16"];
    let mut world = world_of(rt.alloc(), Some(b"a\nb\nc\nd\ne\n"), Some(b"e\nb\n"))?;
    expect_run(&rt, &texts, &mut world, DONE, b"b\ne\n", "five items")?;
    assert_eq!(rt; world.file("record"), None);
    Ok(())
}

/// The SHA-256 of the bytes of session 0 of both lists, with tags of 16 bytes.
const FIRST_DIGEST: [u8; 32] = [
    0x60, 0x4d, 0x8a, 0x10, 0x4d, 0x05, 0x99, 0x2e, 0x7b, 0x22, 0xe8, 0x68, 0x81, 0x5f, 0x83, 0x1c,
    0xa8, 0x9c, 0xcd, 0xdb, 0xc6, 0x33, 0xa2, 0x98, 0xa9, 0x0e, 0xda, 0x39, 0x9f, 0x80, 0x5d, 0xee,
];

/// The same of session 1.
const SECOND_DIGEST: [u8; 32] = [
    0x12, 0xf9, 0x0e, 0x06, 0xd9, 0xf5, 0x31, 0xab, 0x60, 0xfa, 0xf2, 0xa8, 0x16, 0xcd, 0x8e, 0x3f,
    0xcb, 0xa1, 0x78, 0x5e, 0x55, 0x0c, 0x97, 0xc7, 0x48, 0x44, 0xa5, 0x0c, 0x9a, 0xc9, 0xb0, 0x76,
];

// Asserts that a run of these words over both lists is done, and the digest of its session.
fn expect_digest(
    rt: &(impl Abort + AllocGlobal),
    texts: &[&str],
    digest: [u8; 32],
) -> Result<(), NoMemory> {
    let mut world = world_of(rt.alloc(), Some(X), Some(Y))?;
    let words = words_of(rt.alloc(), texts)?;
    let outcome = run(rt.alloc(), &words, &mut world);
    assert_eq!(rt; outcome.status, Status::Done);
    assert_eq!(rt; outcome.wire, Some(digest));
    Ok(())
}

#[test]
fn a_session_has_a_digest(rt: HostRuntime) -> Result<(), Fail> {
    expect_digest(&rt, RECORDED, FIRST_DIGEST)?;
    expect_digest(&rt, &["local", "x", "y", Z, "0", "16"], FIRST_DIGEST)?;
    expect_digest(&rt, &["local", "x", "y", Z, "1", "16"], SECOND_DIGEST)?;
    Ok(())
}

/// The kind of the call that fails and its place, the line of the refusal, and what is printed.
const FAILED: &[(FaultKind, u64, &str, &[u8])] = &[
    (FaultKind::Print, 0, "psi: print fault\n", b""),
    (FaultKind::File, 2, "psi: word 6: file fault\n", b"b\nc\n"),
];

#[test]
fn no_record_stands_where_a_call_failed(rt: HostRuntime) -> Result<(), Fail> {
    for &(kind, nth, line, printed) in FAILED {
        let mut world = world_of(rt.alloc(), Some(X), Some(Y))?;
        world.fail(kind, nth)?;
        expect_run(&rt, RECORDED, &mut world, line, printed, line)?;
        assert_eq!(rt; world.file("record"), None, "at {line}");
    }
    Ok(())
}

#[test]
fn short_tags_meet_in_long_lists(rt: HostRuntime) -> Result<(), Fail> {
    let x = numbered_lines(rt.alloc(), 'x', 300)?;
    let y = numbered_lines(rt.alloc(), 'y', 300)?;
    let mut world = world_of(rt.alloc(), Some(x.as_bytes()), Some(y.as_bytes()))?;
    let words = words_of(rt.alloc(), &["local", "x", "y", Z, "0", "1", "record"])?;
    let outcome = run(rt.alloc(), &words, &mut world);
    assert_eq!(rt; outcome.status, Status::Done);
    // 197 of the items are shown, though none is common.
    assert_eq!(rt; world.printed().len(), 907);
    assert_eq!(rt; world.file("record").unwrap_or(&[]).len(), 30_920);
    Ok(())
}
