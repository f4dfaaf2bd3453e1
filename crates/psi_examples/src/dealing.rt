// The deal files that `deal` writes, and its words.
ghost use Rattle.std.specs.Prelude.{◌≤◌, length};
ghost use Rattle.psi_spec.specs.Limits.{file_limit};

use crate::runs::{DONE, ZERO_SEED as Z, expect_run, words_of};
use psi_base::{FILE_LIMIT, MemWorld, QuietMem};
use psi_deal::{deals_differ, read_receiver, read_sender, write_receiver, write_sender};
use psi_top::{Status, run};
use std::process::Abort;
use std::test::Fail;

/// The words of a deal with tags of 16 bytes and the usual stash.
const DEAL: &[&str] = &["deal", Z, "0", "16", "r", "s"];

/// The front of the receiver's file of the seed of zeros: kind, version, role, id, session, key, tag length
/// and stash rows. Its random bytes are those of RFC 8439, appendix A.1, test vector 1.
const RECEIVER_FRONT: &[u8] = &[
    0x50, 0x53, 0x49, 0x44, 2, 0, 0x76, 0xb8, 0xe0, 0xad, 0xa0, 0xf1, 0x3d, 0x90, 0x40, 0x5d, 0x6a,
    0xe5, 0x53, 0x86, 0xbd, 0x28, 0, 0, 0, 0, 0, 0, 0, 0, 0xbd, 0xd2, 0x19, 0xb8, 0xa0, 0x8d, 0xed,
    0x1a, 0xa8, 0x36, 0xef, 0xcc, 0x8b, 0x77, 0x0d, 0xc7, 16, 4,
];

// The content of a file that is there and can be read, and else no bytes.
fn content<'a>(world: &'a MemWorld, name: &str) -> &'a [u8]
    ensures { length result.now ≤ file_limit }
{
    match world.file(name) {
        Some(bytes) if bytes.len() <= FILE_LIMIT as usize => bytes,
        _ => &[],
    }
}

#[test]
fn deal_files_are_read_again(rt: HostRuntime) -> Result<(), Fail> {
    let mut world = MemWorld::new(rt.alloc());
    expect_run(&rt, DEAL, &mut world, DONE, b"", "deal")?;
    let receiver_file = content(&world, "r");
    let sender_file = content(&world, "s");
    assert_eq!(rt; receiver_file.len(), 32_848);
    assert_eq!(rt; sender_file.len(), 16_528);
    assert!(rt; receiver_file.starts_with(RECEIVER_FRONT));
    let receiver = read_receiver(rt.alloc(), receiver_file)?;
    let sender = read_sender(rt.alloc(), sender_file)?;
    assert_eq!(rt; deals_differ(&receiver, &sender), None);
    assert_eq!(rt;
        write_receiver(rt.alloc(), &receiver)?.as_slice(),
        receiver_file
    );
    assert_eq!(rt; write_sender(rt.alloc(), &sender)?.as_slice(), sender_file);
    Ok(())
}

/// The word of the sizes, and the tag length and the stash rows that stand in the file.
const SIZES: &[(&str, u8, u8)] = &[
    ("16", 16, 4),
    ("01", 1, 4),
    ("16/0", 16, 0),
    ("1/16", 1, 16),
    ("09/07", 9, 7),
];

#[test]
fn sizes_stand_in_the_file(rt: HostRuntime) -> Result<(), Fail> {
    for &(word, tag_length, stash) in SIZES {
        let mut world = MemWorld::new(rt.alloc());
        let texts = ["deal", Z, "18446744073709551615", word, "r", "s"];
        expect_run(&rt, &texts, &mut world, DONE, b"", word)?;
        let deal = read_sender(rt.alloc(), content(&world, "s"))?;
        assert_eq!(rt; deal.tag_length().get(), tag_length, "at {word}");
        assert_eq!(rt; deal.stash(), stash, "at {word}");
        assert_eq!(rt; deal.session(), u64::MAX, "at {word}");
    }
    Ok(())
}

/// The name of a row, the words, and the line of the refusal.
const BAD_WORDS: &[(&str, &[&str], &str)] = &[
    ("no words", &["deal"], "psi: bad word at 1\n"),
    (
        "tag length 17",
        &["deal", Z, "0", "17", "r", "s"],
        "psi: bad word at 3\n",
    ),
    (
        "three digits",
        &["deal", Z, "0", "16/016", "r", "s"],
        "psi: bad word at 3\n",
    ),
    (
        "17 stash rows",
        &["deal", Z, "0", "16/17", "r", "s"],
        "psi: bad word at 3\n",
    ),
    (
        "no stash rows",
        &["deal", Z, "0", "16/", "r", "s"],
        "psi: bad word at 3\n",
    ),
    (
        "no tag length",
        &["deal", Z, "0", "/4", "r", "s"],
        "psi: bad word at 3\n",
    ),
    (
        "two strokes",
        &["deal", Z, "0", "16/4/4", "r", "s"],
        "psi: bad word at 3\n",
    ),
    (
        "tag length 0",
        &["deal", Z, "0", "0/4", "r", "s"],
        "psi: bad word at 3\n",
    ),
    (
        "empty receiver's file",
        &["deal", Z, "0", "16", "", "s"],
        "psi: bad word at 4\n",
    ),
    (
        "one name",
        &["deal", Z, "0", "16", "r", "r"],
        "psi: bad word at 5\n",
    ),
    (
        "no sender's file",
        &["deal", Z, "0", "16", "r"],
        "psi: bad word at 5\n",
    ),
    (
        "seven words",
        &["deal", Z, "0", "16", "r", "s", "t"],
        "psi: bad word at 6\n",
    ),
];

#[test]
fn bad_words_write_nothing(rt: HostRuntime) -> Result<(), Fail> {
    for &(name, texts, line) in BAD_WORDS {
        let mut world = MemWorld::new(rt.alloc());
        expect_run(&rt, texts, &mut world, line, b"", name)?;
        assert_eq!(rt; world.file("r"), None, "at {name}");
        assert_eq!(rt; world.file("s"), None, "at {name}");
    }
    Ok(())
}

// Runs the words over the steady world, and asserts whether the run is done.
fn expect_quiet(
    rt: &(impl Abort + AllocGlobal),
    world: &mut QuietMem,
    texts: &[&str],
    done: bool,
) -> Result<(), Fail> {
    let words = words_of(rt.alloc(), texts)?;
    let status = run(rt.alloc(), &words, world).status;
    assert_eq!(rt; status == Status::Done, done);
    Ok(())
}

#[test]
fn steady_worlds_lack_files_alone(rt: HostRuntime) -> Result<(), Fail> {
    let mut world = QuietMem::new(rt.alloc());
    let local = ["local", "x", "y", Z, "0", "16"];
    world.put_file("x", b"a\nb\n")?;
    expect_quiet(&rt, &mut world, &local, false)?;
    world.put_file("y", b"b\n")?;
    expect_quiet(&rt, &mut world, &local, true)?;
    expect_quiet(&rt, &mut world, DEAL, true)?;
    assert_eq!(rt; world.printed(), b"b\n".as_slice());
    assert_eq!(rt; world.file("r").map(|bytes| bytes.len()), Some(32_848));
    Ok(())
}
