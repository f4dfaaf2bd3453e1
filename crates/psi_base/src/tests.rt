// What no clause says: that calls succeed while memory lasts, on worked values.
ghost use Rattle.std.specs.Prelude.{◌<◌, ◌≤◌, IsTrue};

use crate::{
    Failed, Fault, FaultKind, MemWorld, Pairs, Places, QuietMem, ReadFault, Side, Words, World,
    bins, print_all, rows,
};
use std::process::Abort;
use std::test::Fail;

#[test]
fn sizes_of_tables(rt: HostRuntime) {
    for (items, stash, bin_count, row_count) in [
        (0, 4, 1, 5),
        (1, 0, 2, 2),
        (3, 4, 4, 8),
        (10, 4, 13, 17),
        (1_000, 4, 1_201, 1_205),
        (65_536, 4, 78_644, 78_648),
        (1_048_576, 16, 1_258_292, 1_258_308),
    ] {
        assert_eq!(rt; bins(items), bin_count, "bins for {items}");
        assert_eq!(rt;
            rows(items, stash),
            row_count,
            "rows for {items} and {stash}"
        );
    }
}

#[test]
fn words_keep_their_order(rt: HostRuntime) -> Result<(), Fail> {
    let mut words = Words::new(rt.alloc());
    for word in ["local", "", "größe"] {
        words.push(word)?;
    }
    assert_eq!(rt; words.len(), 3);
    for (i, want) in [
        (0, Some("local")),
        (1, Some("")),
        (2, Some("größe")),
        (3, None),
    ] {
        assert_eq!(rt; words.get(i), want, "word {i}");
    }
    Ok(())
}

#[test]
fn places_keep_their_order(rt: HostRuntime) -> Result<(), Fail> {
    let mut places = Places::new(rt.alloc());
    let mut pairs = Pairs::new(rt.alloc());
    for place in [7, 0, 7] {
        places.push(place)?;
        pairs.push(place, place / 7)?;
    }
    assert_eq!(rt; places.len(), 3);
    assert_eq!(rt; pairs.len(), 3);
    for (i, want) in [
        (0, Some((7, 1))),
        (1, Some((0, 0))),
        (2, Some((7, 1))),
        (3, None),
    ] {
        assert_eq!(rt; places.get(i), want.map(|pair| pair.0), "place {i}");
        assert_eq!(rt; pairs.get(i), want, "pair {i}");
    }
    Ok(())
}

#[test]
fn files_are_replaced_by_name(rt: HostRuntime) -> Result<(), Fail> {
    let mut world = MemWorld::new(rt.alloc());
    world.put_file("x", b"first")?;
    world.put_file("./x", b"other")?;
    world.put_file("x", b"new")?;
    let bytes = world.read_file(rt.alloc(), "x", 3)?;
    assert_eq!(rt; bytes.as_slice(), b"new".as_slice());
    assert_eq!(rt; world.file("./x"), Some(b"other".as_slice()));
    assert_eq!(rt; world.file("y"), None);
    Ok(())
}

#[test]
fn reads_are_refused(rt: HostRuntime) -> Result<(), Fail> {
    let mut world = MemWorld::new(rt.alloc());
    world.put_file("four", b"abcd")?;
    world.fail(FaultKind::File, 1)?;
    for (name, max, want) in [
        ("four", 3, Err(ReadFault::TooLong { taken: 4 })),
        ("four", 4, Err(ReadFault::Failed)),
        ("four", 4, Ok(4)),
        ("none", 4, Err(ReadFault::Failed)),
    ] {
        let length = world
            .read_file(rt.alloc(), name, max)
            .map(|bytes| bytes.len());
        assert_eq!(rt; length, want, "{name} in {max} bytes");
    }
    Ok(())
}

#[test]
fn second_print_fails(rt: HostRuntime) -> Result<(), Fail> {
    let mut world = MemWorld::new(rt.alloc());
    world.fail(FaultKind::Print, 1)?;
    for (text, want) in [("a", Ok(())), ("b", Err(Fault::Failed)), ("c", Ok(()))] {
        assert_eq!(rt; print_all(&mut world, text.as_bytes()), want, "{text}");
    }
    assert_eq!(rt; world.printed(), b"ac".as_slice());
    Ok(())
}

#[test]
fn second_write_fails(rt: HostRuntime) -> Result<(), Fail> {
    let mut world = MemWorld::new(rt.alloc());
    world.fail(FaultKind::File, 1)?;
    for (bytes, want) in [
        ("first", Ok(())),
        ("second", Err(Fault::Failed)),
        ("3", Ok(())),
    ] {
        assert_eq!(rt; world.write_file("x", bytes.as_bytes()), want, "{bytes}");
    }
    assert_eq!(rt; world.file("x"), Some(b"3".as_slice()));
    Ok(())
}

#[test]
fn listed_link_calls_fail(rt: HostRuntime) -> Result<(), Fail> {
    let mut world = MemWorld::new(rt.alloc());
    world.set_incoming(b"in", &[])?;
    for nth in [0, 2, 4] {
        world.fail(FaultKind::Link, nth)?;
    }
    let mut buffer = [0; 4];
    assert_eq!(rt; world.open_link(Side::Connect, "peer"), Err(Fault::Failed));
    assert_eq!(rt; world.opened(), None);
    world.open_link(Side::Connect, "peer")?;
    assert_eq!(rt; world.opened(), Some((Side::Connect, "peer")));
    assert_eq!(rt; world.recv(&mut buffer), Err(Failed));
    assert_eq!(rt; world.recv(&mut buffer), Ok(2));
    assert_eq!(rt; world.send(b"out"), Err(Fault::Failed));
    assert_eq!(rt; world.send(b"out"), Ok(3));
    assert_eq!(rt; world.left(), b"".as_slice());
    assert_eq!(rt; world.outgoing(), b"out".as_slice());
    Ok(())
}

/// The name of a row, the bytes that come, the lengths of their pieces, the room of the buffer, and how
/// many bytes the receives take, one after another.
const RECEIVED: &[(&str, &[u8], &[u32], usize, &[usize])] = &[
    ("one piece", b"abcde", &[], 8, &[5, 0]),
    ("small buffers", b"abcde", &[], 2, &[2, 2, 1, 0]),
    ("three pieces", b"abcde", &[2, 1], 8, &[2, 1, 2, 0]),
    ("empty pieces", b"abc", &[0, 1, 0, 0, 1], 8, &[1, 1, 1, 0]),
    ("piece past the end", b"ab", &[1, 9, 1], 8, &[1, 1, 0]),
    ("piece in small buffers", b"abcde", &[3], 2, &[2, 1, 2, 0]),
    ("no bytes", b"", &[4], 2, &[0, 0]),
];

// Receives as often as there are counts, and expects each of them.
fn expect_received<W: World>(
    rt: &impl Abort,
    world: &mut W,
    room: usize,
    counts: &[usize],
    name: &str,
)
    requires ready { IsTrue (W.outside world.old).ready }
    requires some { 0 < room }
    requires within { room ≤ 8 }
{
    let mut buffer = [0; 8];
    for want in counts {
        assert_eq!(rt; world.recv(&mut buffer[..room]), Ok(*want), "{name}");
    }
}

#[test]
fn receives_stop_at_pieces(rt: HostRuntime) -> Result<(), Fail> {
    for &(name, bytes, cuts, room, counts) in RECEIVED {
        assert!(rt; room > 0 && room <= 8);
        let mut world = MemWorld::new(rt.alloc());
        world.set_incoming(bytes, cuts)?;
        world.open_link(Side::Listen, "here")?;
        expect_received(&rt, &mut world, room, counts, name);
        let mut quiet = QuietMem::new(rt.alloc());
        quiet.set_incoming(bytes, cuts)?;
        quiet.open_link(Side::Listen, "here")?;
        expect_received(&rt, &mut quiet, room, counts, name);
    }
    Ok(())
}

// Prints and sends three bytes, and expects that so many of them are taken.
fn expect_taken<W: World>(rt: &impl Abort, world: &mut W, want: usize) -> Result<(), Fail> {
    world.open_link(Side::Connect, "peer")?;
    assert_eq!(rt; world.print(b"abc"), Ok(want), "print");
    assert_eq!(rt; world.send(b"abc"), Ok(want), "send");
    Ok(())
}

#[test]
fn calls_trickle(rt: HostRuntime) -> Result<(), Fail> {
    expect_taken(&rt, &mut MemWorld::new(rt.alloc()), 3)?;
    expect_taken(&rt, &mut QuietMem::new(rt.alloc()), 3)?;
    for (most, want) in [(1, 1), (2, 2), (3, 3), (4, 3)] {
        let mut world = MemWorld::new(rt.alloc());
        world.trickle(most);
        expect_taken(&rt, &mut world, want)?;
        let mut quiet = QuietMem::new(rt.alloc());
        quiet.trickle(most);
        expect_taken(&rt, &mut quiet, want)?;
    }
    Ok(())
}

#[test]
fn quiet_world_lacks_a_file(rt: HostRuntime) -> Result<(), Fail> {
    let mut world = QuietMem::new(rt.alloc());
    world.put_file("x", b"first")?;
    world.write_file("x", b"new")?;
    world.write_file("y", b"")?;
    for (name, max, want) in [
        ("x", 3, Ok(3)),
        ("y", 0, Ok(0)),
        ("x", 2, Err(ReadFault::TooLong { taken: 3 })),
        ("z", 3, Err(ReadFault::Failed)),
    ] {
        let length = world
            .read_file(rt.alloc(), name, max)
            .map(|bytes| bytes.len());
        assert_eq!(rt; length, want, "{name} in {max} bytes");
    }
    print_all(&mut world, b"text")?;
    assert_eq!(rt; world.printed(), b"text".as_slice());
    assert_eq!(rt; world.file("x"), Some(b"new".as_slice()));
    Ok(())
}
