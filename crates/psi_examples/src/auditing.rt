// Audits of recorded sessions: of the records that `local` writes, and of records and deal files that were changed.
use crate::runs::{DONE, ZERO_SEED as Z, expect_run, numbered_lines, words_of, world_of};
use psi_base::{MemWorld, NoMemory};
use psi_top::{Status, run};
use sha2::{Digest, Sha256};
use std::alloc::{AllocError, Global};
use std::process::Abort;
use std::test::Fail;

/// The words of an audit.
const AUDIT: &[&str] = &["audit", "x", "y", "r", "s", "record"];

/// The receiver's list.
const X: &[u8] = b"a\nb\nc\n";

/// The sender's list.
const Y: &[u8] = b"b\nc\nd\n";

/// What `local` prints of both lists.
const COMMON: &[u8] = b"b\nc\n";

// A world with these lists, a pair of deals with tags of so many bytes, and the record of the session, which was run.
fn recorded_world(
    rt: &(impl Abort + AllocGlobal),
    tag_length: &str,
    x: &[u8],
    y: &[u8],
) -> Result<MemWorld, NoMemory> {
    let mut world = world_of(rt.alloc(), Some(x), Some(y))?;
    let deal = words_of(rt.alloc(), &["deal", Z, "0", tag_length, "r", "s"])?;
    let local = words_of(
        rt.alloc(),
        &["local", "x", "y", Z, "0", tag_length, "record"],
    )?;
    assert_eq!(rt; run(rt.alloc(), &deal, &mut world).status, Status::Done);
    assert_eq!(rt; run(rt.alloc(), &local, &mut world).status, Status::Done);
    Ok(world)
}

// A record with other bits at a place, sealed anew.
fn changed_record(
    alloc: Global,
    record: &[u8],
    place: usize,
    bits: u8,
) -> Result<Vec<u8>, AllocError> {
    let mut bytes = record.to_vec(alloc)?;
    if let Some(byte) = bytes.get_mut(place) {
        *byte ^= bits;
    }
    bytes.truncate(bytes.len().saturating_sub(32));
    let seal = Sha256::digest(&bytes);
    bytes.extend_from_slice(&seal)?;
    Ok(bytes)
}

#[test]
fn the_record_of_a_session_is_consistent(rt: HostRuntime) -> Result<(), Fail> {
    let mut world = recorded_world(&rt, "16", X, Y)?;
    let text = b"b\nc\nconsistent\nshown 2\ncollisions 0\n";
    expect_run(&rt, AUDIT, &mut world, DONE, text, "three and three")?;
    Ok(())
}

// A file as it is exported: 20,000 lines with CR LF, of which the last 1,000 repeat the first, and every third is in
// capitals. The first 5,000 items are those of every such file, and the others have a letter of their own.
fn exported_lines(alloc: Global, letter: char, capitals: u32) -> Result<String, AllocError> {
    let mut lines = String::new(alloc);
    for line in 0..20_000u32 {
        let number = line % 19_000;
        let kind = if number < 5_000 { 's' } else { letter };
        let kind = if line % 3 == capitals {
            kind.to_ascii_uppercase()
        } else {
            kind
        };
        lines.push_str(&format!(in alloc; "{kind}{number}\r\n")?)?;
    }
    Ok(lines)
}

#[test]
fn lists_of_ordinary_use_are_consistent(rt: HostRuntime) -> Result<(), Fail> {
    let x = exported_lines(rt.alloc(), 'x', 0)?;
    let y = exported_lines(rt.alloc(), 'y', 1)?;
    let mut world = recorded_world(&rt, "16", x.as_bytes(), y.as_bytes())?;
    let mut text = numbered_lines(rt.alloc(), 's', 5_000)?;
    text.push_str("consistent\nshown 5000\ncollisions 0\n")?;
    expect_run(
        &rt,
        AUDIT,
        &mut world,
        DONE,
        text.as_bytes(),
        "20,000 lines",
    )?;
    Ok(())
}

#[test]
fn items_that_meet_by_short_tags_are_collisions(rt: HostRuntime) -> Result<(), Fail> {
    let x = numbered_lines(rt.alloc(), 'x', 300)?;
    let y = numbered_lines(rt.alloc(), 'y', 300)?;
    let mut world = recorded_world(&rt, "1", x.as_bytes(), y.as_bytes())?;
    let shown = world.printed().len();
    let words = words_of(rt.alloc(), AUDIT)?;
    assert_eq!(rt; run(rt.alloc(), &words, &mut world).status, Status::Done);
    let text = world.printed().get(shown..).unwrap_or(&[]);
    let front = b"consistent\nshown 197\ncollisions 197\ncollision ";
    assert_eq!(rt; text.get(..front.len()), Some(front.as_slice()));
    Ok(())
}

/// A place in each part of the frames: the receiver's hello, the sender's, a column, and the tags of each list.
const PARTS: [usize; 11] = [30, 64, 899, 4198, 4203, 4261, 4319, 4377, 4435, 4493, 4551];

#[test]
fn a_changed_byte_of_each_part_is_found(rt: HostRuntime) -> Result<(), Fail> {
    let mut world = recorded_world(&rt, "16", X, Y)?;
    let record = world.file("record").unwrap_or(&[]).to_vec(rt.alloc())?;
    for place in PARTS {
        let wanted = record.get(place).copied().unwrap_or(0);
        let found = wanted ^ 1;
        let bytes = changed_record(rt.alloc(), &record, place, 1)?;
        world.put_file("record", &bytes)?;
        let line = format!(in rt.alloc();
            "psi: record differs at {place}: {found} not {wanted}\n"
        )?;
        expect_run(&rt, AUDIT, &mut world, &line, COMMON, "a part")?;
    }
    Ok(())
}

#[test]
fn changed_slots_and_a_changed_end_are_refused(rt: HostRuntime) -> Result<(), Fail> {
    let mut world = recorded_world(&rt, "16", X, Y)?;
    let record = world.file("record").unwrap_or(&[]).to_vec(rt.alloc())?;

    // The index of the first slot is above 3, its row is above all rows, and the end has a byte of its own.
    let rows = [
        (13, 4, "psi: record slots\n"),
        (12, 0x80, "psi: record slots\n"),
        (4598, 1, "psi: record short at 4600\n"),
    ];
    for (place, bits, line) in rows {
        let bytes = changed_record(rt.alloc(), &record, place, bits)?;
        world.put_file("record", &bytes)?;
        expect_run(&rt, AUDIT, &mut world, line, COMMON, line)?;
    }
    Ok(())
}

#[test]
fn records_of_other_lengths_are_refused(rt: HostRuntime) -> Result<(), Fail> {
    let mut world = recorded_world(&rt, "16", X, Y)?;
    let mut bytes = world.file("record").unwrap_or(&[]).to_vec(rt.alloc())?;
    bytes.push(0)?;
    world.put_file("record", &bytes)?;
    let trailing = "psi: record trailing at 4631\n";
    expect_run(&rt, AUDIT, &mut world, trailing, COMMON, "one byte more")?;
    bytes.truncate(4630);
    world.put_file("record", &bytes)?;
    let short = "psi: record short at 4599\n";
    expect_run(&rt, AUDIT, &mut world, short, COMMON, "one byte less")?;
    Ok(())
}

#[test]
fn deal_files_are_judged_before_the_record(rt: HostRuntime) -> Result<(), Fail> {
    let mut world = recorded_world(&rt, "16", X, Y)?;
    let mut deal = world.file("r").unwrap_or(&[]).to_vec(rt.alloc())?;
    world.put_file("record", b"")?;
    world.put_file("empty", b"")?;

    // One bit of a seed.
    if let Some(byte) = deal.get_mut(48) {
        *byte ^= 1;
    }
    world.put_file("changed", &deal)?;
    deal.truncate(32_847);
    world.put_file("cut", &deal)?;
    let rows = [
        ("cut", "psi: word 3: deal length 32847\n"),
        ("changed", "psi: word 3: deal seal\n"),
        ("s", "psi: word 3: deal role 1\n"),
        ("empty", "psi: word 3: not a deal file\n"),
        ("r", "psi: not a record file\n"),
    ];
    for (name, line) in rows {
        let texts = ["audit", "x", "y", name, "s", "record"];
        expect_run(&rt, &texts, &mut world, line, COMMON, name)?;
    }
    Ok(())
}

#[test]
fn deals_of_two_sessions_are_no_pair(rt: HostRuntime) -> Result<(), Fail> {
    let mut world = recorded_world(&rt, "16", X, Y)?;
    let other = ["deal", Z, "1", "16", "receiver", "sender"];
    expect_run(&rt, &other, &mut world, DONE, COMMON, "another session")?;
    let texts = ["audit", "x", "y", "r", "sender", "record"];
    let line = "psi: deals differ in session\n";
    expect_run(&rt, &texts, &mut world, line, COMMON, "two sessions")?;
    Ok(())
}
