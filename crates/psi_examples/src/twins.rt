// What `twin` writes: what a receiver sends of one list, and the columns over which it sends the same of another.
ghost use Rattle.std.specs.Prelude.{◌≡◌, ◌≤◌, IfOk, length};
ghost use Rattle.psi_spec.specs.Limits.{row_limit};
ghost use Rattle.psi_spec.specs.Matrices.{IsCleanMatrix};

use crate::refusals::CROWDED;
use crate::runs::{DONE, ZERO_SEED as Z, expect_run, words_of, world_of};
use psi_base::{MemWorld, NoMemory, rows};
use psi_bits::{Columns, Rows};
use psi_cuckoo::Placement;
use psi_deal::{ReceiverDeal, deal};
use psi_items::digest;
use psi_oprf::code;
use psi_receiver::receiver_stream;
use psi_top::{Placements, Status, run};
use std::alloc::Global;
use std::process::Abort;
use std::test::Fail;

/// The words of `twin`.
const TWIN: &[&str] = &["twin", "x", "y", "r", "s", "stream", "columns"];

/// A seed of another pair of deals.
const OTHER_SEED: &str = "1111111111111111111111111111111111111111111111111111111111111111";

// A world with these lists and the deal files of the seed of zeros.
fn dealt_world(rt: &(impl Abort + AllocGlobal), x: &[u8], y: &[u8]) -> Result<MemWorld, NoMemory> {
    let mut world = world_of(rt.alloc(), Some(x), Some(y))?;
    let words = ["deal", Z, "0", "16", "r", "s"];
    expect_run(rt, &words, &mut world, DONE, b"", "deal")?;
    Ok(world)
}

// The zero columns and the one columns of a file, in which each has one byte.
fn columns_in(
    rt: &impl Abort,
    alloc: Global,
    bytes: &[u8],
    rows: u32,
) -> Result<(Columns, Columns), NoMemory>
    requires least { 1 ≤ rows }
    requires most { rows ≤ row_limit }
    ensures zeros { IfOk result (λ made. made.0.rows ≡ rows) }
    ensures ones { IfOk result (λ made. made.1.rows ≡ rows) }
    ensures zeros_clean { IfOk result (λ made. IsCleanMatrix made.0) }
    ensures ones_clean { IfOk result (λ made. IsCleanMatrix made.1) }
{
    let mut zeros = Columns::zero(alloc, rows)?;
    let mut ones = Columns::zero(alloc, rows)?;
    for c in 0..512u16 {
        let at = 2 * usize::from(c);
        let zero = bytes.get(at).copied().unwrap_or(0);
        let one = bytes.get(at + 1).copied().unwrap_or(0);
        assert_eq!(rt; zeros.set_column(c, &[zero]), Ok(()));
        assert_eq!(rt; ones.set_column(c, &[one]), Ok(()));
    }
    Ok((zeros, ones))
}

// The words of the rows of the items `c` and `d` in their slots.
fn second_words(
    rt: &impl Abort,
    alloc: Global,
    deal: &ReceiverDeal,
    placement: &Placement,
    rows: u32,
) -> Result<Rows, NoMemory>
    requires least { 1 ≤ rows }
    requires most { rows ≤ row_limit }
    ensures { IfOk result (λ words. length words ≡ rows) }
{
    let mut words = Rows::with_rows(alloc, rows)?;
    for (i, item) in [(0, b"c"), (1, b"d")] {
        let slot = placement.slot(i).expect(rt, "a slot");
        assert!(rt; slot.index <= 3);
        assert!(rt; slot.row < rows);
        *words.row_mut(slot.row) = code(deal.key(), slot.index, &digest(item));
    }
    Ok(words)
}

#[test]
fn chosen_columns_stay(rt: HostRuntime) -> Result<(), Fail> {
    let mut world = dealt_world(&rt, b"a\nb\n", b"c\nd\n")?;
    expect_run(&rt, TWIN, &mut world, DONE, b"", "two and two")?;
    let (receiver, sender) = deal(rt.alloc(), &[0; 32], 0, 16, 4)?;
    let rows = rows(2, receiver.stash());
    let mut dealt_zeros = Columns::zero(rt.alloc(), rows)?;
    let mut dealt_ones = Columns::zero(rt.alloc(), rows)?;
    receiver.columns(&mut dealt_zeros, &mut dealt_ones);
    let bytes = world.file("columns").unwrap_or(&[]);
    assert_eq!(rt; bytes.len(), 1_024);
    let (zeros, ones) = columns_in(&rt, rt.alloc(), bytes, rows)?;
    let mut changed = false;
    for c in 0..512u16 {
        let zero_stays = zeros.column(c) == dealt_zeros.column(c);
        let one_stays = ones.column(c) == dealt_ones.column(c);
        assert!(rt;
            if sender.choice().bit(c) {
                one_stays
            } else {
                zero_stays
            },
            "at {c}"
        );
        changed |= !(zero_stays && one_stays);
    }
    assert!(rt; changed);
    Ok(())
}

// The placements of two sets.
fn both(placements: Placements) -> Option<(Placement, Placement)> {
    match placements {
        Placements::Two(first, second) => Some((first, second)),
        _ => None,
    }
}

#[test]
fn the_second_list_has_the_stream_of_the_first(rt: HostRuntime) -> Result<(), Fail> {
    let mut world = dealt_world(&rt, b"a\nb\n", b"c\nd\n")?;
    let words = words_of(rt.alloc(), TWIN)?;
    let outcome = run(rt.alloc(), &words, &mut world);
    assert_eq!(rt; outcome.status, Status::Done);
    let (first, second) = both(outcome.placements).expect(&rt, "two placements");
    assert_eq!(rt; first.len(), 2);
    let (receiver, _) = deal(rt.alloc(), &[0; 32], 0, 16, 4)?;
    let rows = rows(2, receiver.stash());
    let columns = world.file("columns").unwrap_or(&[]);
    let (zeros, ones) = columns_in(&rt, rt.alloc(), columns, rows)?;
    let words = second_words(&rt, rt.alloc(), &receiver, &second, rows)?;
    let stream = receiver_stream(rt.alloc(), &receiver, 2, &words, &zeros, &ones)?;
    assert_eq!(rt; stream.len(), 4_135);
    assert_eq!(rt; world.file("stream").unwrap_or(&[]), stream.as_slice());
    Ok(())
}

#[test]
fn nothing_is_changed_between_empty_lists(rt: HostRuntime) -> Result<(), Fail> {
    let mut world = dealt_world(&rt, b"", b"\n")?;
    expect_run(&rt, TWIN, &mut world, DONE, b"", "none and none")?;
    let (receiver, _) = deal(rt.alloc(), &[0; 32], 0, 16, 4)?;
    let rows = rows(0, receiver.stash());
    let mut dealt_zeros = Columns::zero(rt.alloc(), rows)?;
    let mut dealt_ones = Columns::zero(rt.alloc(), rows)?;
    receiver.columns(&mut dealt_zeros, &mut dealt_ones);
    assert_eq!(rt; world.file("stream").unwrap_or(&[]).len(), 4_135);
    let bytes = world.file("columns").unwrap_or(&[]);
    assert_eq!(rt; bytes.len(), 1_024);
    let (zeros, ones) = columns_in(&rt, rt.alloc(), bytes, rows)?;
    for c in 0..512u16 {
        assert_eq!(rt; zeros.column(c), dealt_zeros.column(c), "at {c}");
        assert_eq!(rt; ones.column(c), dealt_ones.column(c), "at {c}");
    }
    Ok(())
}

#[test]
fn lists_of_two_sizes_and_other_deals_are_refused(rt: HostRuntime) -> Result<(), Fail> {
    let mut world = dealt_world(&rt, b"a\n", b"c\nd\n")?;
    let sizes = "psi: sizes differ: 1 and 2\n";
    expect_run(&rt, TWIN, &mut world, sizes, b"", "one and two")?;
    let deal = ["deal", OTHER_SEED, "0", "16", "other", "s"];
    expect_run(&rt, &deal, &mut world, DONE, b"", "another deal")?;
    let id = "psi: deals differ in id\n";
    expect_run(&rt, TWIN, &mut world, id, b"", "deals before sizes")?;
    assert!(rt; world.file("stream").is_none());
    assert!(rt; world.file("columns").is_none());
    Ok(())
}

#[test]
fn a_second_list_without_a_placement_is_refused(rt: HostRuntime) -> Result<(), Fail> {
    let mut world = dealt_world(&rt, b"a\nb\nc\nd\ne\nf\n", CROWDED)?;
    let crowd = "psi: word 2: 6 items touch 1 bins\n";
    expect_run(&rt, TWIN, &mut world, crowd, b"", "a crowded second list")?;
    assert!(rt; world.file("stream").is_none());
    assert!(rt; world.file("columns").is_none());
    Ok(())
}

/// The name of a row, the words of a command, and the place of the first bad one.
const BAD_WORDS: &[(&str, &[&str], u32)] = &[
    ("no output", &["twin", "x", "y", "r", "s"], 5),
    ("one output", &["twin", "x", "y", "r", "s", "a"], 6),
    (
        "the first list again",
        &["twin", "x", "y", "r", "s", "x", "b"],
        5,
    ),
    (
        "the sender's deal again",
        &["twin", "x", "y", "r", "s", "s", "b"],
        5,
    ),
    (
        "the second list again",
        &["twin", "x", "y", "r", "s", "a", "y"],
        6,
    ),
    (
        "one output twice",
        &["twin", "x", "y", "r", "s", "a", "a"],
        6,
    ),
    (
        "eight words",
        &["twin", "x", "y", "r", "s", "a", "b", "c"],
        7,
    ),
];

#[test]
fn outputs_are_files_of_their_own(rt: HostRuntime) -> Result<(), Fail> {
    let mut world = MemWorld::new(rt.alloc());
    for &(name, words, at) in BAD_WORDS {
        let line = format!(in rt.alloc(); "psi: bad word at {at}\n")?;
        expect_run(&rt, words, &mut world, &line, b"", name)?;
    }
    Ok(())
}
