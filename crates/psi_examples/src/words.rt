// The words of `local`: which are taken, and the place of the first that is not.
use crate::runs::{DONE, LOCAL, ZERO_SEED as Z, expect_run, world_of};
use psi_base::FaultKind;
use std::test::Fail;

const SHORT_SEED: &str = "000000000000000000000000000000000000000000000000000000000000000";

const LONG_SEED: &str = "00000000000000000000000000000000000000000000000000000000000000000";

const SEED_WITH_G: &str = "g000000000000000000000000000000000000000000000000000000000000000";

const SEED_OF_CAPITALS: &str = "AAAAAAAAAAAAAAAAAAAAAAAAAAAAAAAAAAAAAAAAAAAAAAAAAAAAAAAAAAAAAAAA";

const SEED_OF_BOTH_CASES: &str = "abcdefABCDEF0123456789000000000000000000000000000000000000000000";

/// The name of a row, the words of a command, and the place of the first bad one.
const BAD_WORDS: &[(&str, &[&str], u32)] = &[
    ("no words", &[], 0),
    ("empty command", &[""], 0),
    ("help", &["--help"], 0),
    ("unknown command", &["locals", "x", "y", Z, "0", "16"], 0),
    ("no x", &["local"], 1),
    ("empty x", &["local", "", "y", Z, "0", "16"], 1),
    ("no y", &["local", "x"], 2),
    ("empty y", &["local", "x", "", Z, "0", "16"], 2),
    ("no seed", &["local", "x", "y"], 3),
    ("63 digits", &["local", "x", "y", SHORT_SEED, "0", "16"], 3),
    ("65 digits", &["local", "x", "y", LONG_SEED, "0", "16"], 3),
    ("no digit", &["local", "x", "y", SEED_WITH_G, "0", "16"], 3),
    ("empty seed", &["local", "x", "y", "", "", ""], 3),
    ("no session", &["local", "x", "y", Z], 4),
    (
        "session 2^64",
        &["local", "x", "y", Z, "18446744073709551616", "16"],
        4,
    ),
    (
        "21 digits",
        &["local", "x", "y", Z, "000000000000000000000", "16"],
        4,
    ),
    ("empty session", &["local", "x", "y", Z, "", "16"], 4),
    ("session with plus", &["local", "x", "y", Z, "+1", "16"], 4),
    ("two bad words", &["local", "x", "y", Z, "-1", "0"], 4),
    ("no tag length", &["local", "x", "y", Z, "0"], 5),
    ("tag length 0", &["local", "x", "y", Z, "0", "0"], 5),
    ("tag length 17", &["local", "x", "y", Z, "0", "17"], 5),
    ("three digits", &["local", "x", "y", Z, "0", "016"], 5),
    ("empty tag length", &["local", "x", "y", Z, "0", ""], 5),
    (
        "tag length with plus",
        &["local", "x", "y", Z, "0", "+1"],
        5,
    ),
    (
        "bad and too many",
        &["local", "x", "y", Z, "0", "17", "r"],
        5,
    ),
    (
        "seventeen stash rows",
        &["local", "x", "y", Z, "0", "16/17"],
        5,
    ),
    ("empty record", &["local", "x", "y", Z, "0", "16", ""], 6),
    (
        "the record is the receiver's list",
        &["local", "x", "y", Z, "0", "16", "x"],
        6,
    ),
    (
        "the record is the sender's list",
        &["local", "x", "y", Z, "0", "16", "y"],
        6,
    ),
    (
        "eight words",
        &["local", "x", "y", Z, "0", "16", "r", "s"],
        7,
    ),
];

#[test]
fn bad_words_have_their_places(rt: HostRuntime) -> Result<(), Fail> {
    let mut world = world_of(rt.alloc(), Some(b"b\n"), Some(b"b\n"))?;
    world.fail(FaultKind::File, 0)?;
    for &(name, texts, at) in BAD_WORDS {
        let line = format!(in rt.alloc(); "psi: bad word at {at}\n")?;
        expect_run(&rt, texts, &mut world, &line, b"", name)?;
    }

    // No run above read a file: the first read, which fails, is still to come.
    expect_run(
        &rt,
        LOCAL,
        &mut world,
        "psi: word 1: file fault\n",
        b"",
        "first read",
    )?;
    expect_run(&rt, LOCAL, &mut world, DONE, b"b\n", "later reads")?;
    Ok(())
}

/// The name of a row, the seed, the session and the tag length.
const GOOD_WORDS: &[(&str, &str, &str, &str)] = &[
    ("capitals", SEED_OF_CAPITALS, "0", "16"),
    ("both cases", SEED_OF_BOTH_CASES, "0", "16"),
    ("session 2^64 - 1", Z, "18446744073709551615", "16"),
    ("20 digits", Z, "00000000000000000000", "16"),
    ("leading zeros", Z, "00000000000000000016", "1"),
    ("tag length 01", Z, "7", "01"),
    ("tag length 9", Z, "7", "9"),
    ("stash rows", Z, "7", "16/0"),
];

#[test]
fn good_words_are_taken(rt: HostRuntime) -> Result<(), Fail> {
    for &(name, seed, session, tag_length) in GOOD_WORDS {
        let texts = ["local", "x", "y", seed, session, tag_length];
        let mut world = world_of(rt.alloc(), Some(b"b\nc\n"), Some(b"c\nd\nb\n"))?;
        expect_run(&rt, &texts, &mut world, DONE, b"b\nc\n", name)?;
    }
    Ok(())
}
