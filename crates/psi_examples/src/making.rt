// Made files and trials over them: what they hold and print, and their words.
use crate::runs::{DONE, ZERO_SEED as Z, expect_run};
use psi_base::MemWorld;
use std::test::Fail;

/// The words of two files of three items each, of which one is in both.
const MAKE: &[&str] = &["make", "3", "1", "7", "x", "y"];

/// What the first file then holds.
const FIRST: &[u8] = b"s7-0\nx7-1\nx7-2\n";

/// What the second file then holds.
const SECOND: &[u8] = b"y7-2\ny7-1\ns7-0\n";

#[test]
fn made_files_have_their_lines(rt: HostRuntime) -> Result<(), Fail> {
    let mut world = MemWorld::new(rt.alloc());
    expect_run(&rt, MAKE, &mut world, DONE, b"", "make")?;
    assert_eq!(rt; world.file("x").unwrap_or(&[]), FIRST);
    assert_eq!(rt; world.file("y").unwrap_or(&[]), SECOND);
    Ok(())
}

/// The numbers of items and of shared items, and the text that is printed.
const TRIALS: &[(&str, &str, &[u8])] = &[
    (
        "0",
        "0",
        b"items 0\nbins 1\nrows 5\nto-sender 4135\nto-receiver 34\nshown 0\n",
    ),
    (
        "3",
        "1",
        b"items 3\nbins 4\nrows 8\nto-sender 4135\nto-receiver 440\nshown 1\n",
    ),
    (
        "1000",
        "250",
        b"items 1000\nbins 1201\nrows 1205\nto-sender 80935\nto-receiver 112104\nshown 250\n",
    ),
    (
        "20000",
        "5000",
        b"items 20000\nbins 24001\nrows 24005\nto-sender 1540135\nto-receiver 2241434\nshown 5000\n",
    ),
];

#[test]
fn trials_print_their_sizes(rt: HostRuntime) -> Result<(), Fail> {
    for &(count, shared, text) in TRIALS {
        let mut world = MemWorld::new(rt.alloc());
        expect_run(
            &rt,
            &["trial", count, shared, Z],
            &mut world,
            DONE,
            text,
            count,
        )?;
    }
    Ok(())
}

/// The words of a command, and the place of the first bad one.
const BAD_WORDS: &[(&[&str], u32)] = &[
    (&["trial", "5", "6", Z], 2),
    (&["trial", "1048577", "0", Z], 1),
    (&["trial", "00000005", "0", Z], 1),
    (&["trial", "", "0", Z], 1),
    (&["trial", "5", "5"], 3),
    (&["trial", "5", "5", Z, "16"], 4),
    (&["make", "5"], 2),
    (&["make", "5", "+1", "0", "x", "y"], 2),
    (&["make", "5", "1", "18446744073709551616", "x", "y"], 3),
    (&["make", "5", "1", "0", "x", "x"], 5),
    (&["make", "5", "1", "0", "x", "y", "z"], 6),
];

#[test]
fn bad_words_have_their_places(rt: HostRuntime) -> Result<(), Fail> {
    let mut world = MemWorld::new(rt.alloc());
    for &(texts, at) in BAD_WORDS {
        let line = format!(in rt.alloc(); "psi: bad word at {at}\n")?;
        expect_run(&rt, texts, &mut world, &line, b"", "bad word")?;
    }
    Ok(())
}
