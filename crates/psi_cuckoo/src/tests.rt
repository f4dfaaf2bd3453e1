// Worked cases, sets at the edge, and small sets against a search through all their placements.
ghost use Rattle.std.specs.Prelude.{◌<◌, ◌≤◌, ◌↔◌, ◌+◌, ◌^◌, All, IsTrue};

use crate::{BadSlots, NoFit, Placement, Slot, check_placement, place};
use psi_base::Places;
use std::alloc::{AllocError, Global};
use std::process::Abort;
use std::test::Fail;

/// Whether the candidates of an item are bins.
fn are_bins(candidates: &[u32; 3], bins: u32) -> bool
    ensures { IsTrue result ↔ All (λ row. row < bins) candidates.now }
{
    candidates.iter().all(|row| *row < bins)
}

/// Whether the candidates of all items are bins.
fn are_all_bins(cands: &[[u32; 3]], bins: u32) -> bool
    ensures { IsTrue result ↔ All (λ rows. All (λ row. row < bins) rows) cands.now }
{
    cands.iter().all(|candidates| are_bins(candidates, bins))
}

/// Places a small set.
fn placed(
    rt: &impl Abort,
    alloc: Global,
    cands: &[[u32; 3]],
    bins: u32,
    stash: u8,
) -> Result<Placement, NoFit> {
    assert!(rt; 1 <= bins && bins <= 2_000 && cands.len() <= 2_000 && stash <= 16);
    assert!(rt; are_all_bins(cands, bins));
    place(alloc, cands, bins, stash)
}

/// The crowded list that a set has, and the number of bins that it names.
fn crowd_of(answer: Result<Placement, NoFit>) -> Option<(Places, u32)> {
    match answer {
        Err(NoFit::Crowded { items, touched }) => Some((items, touched)),
        Err(NoFit::NoMemory) | Ok(_) => None,
    }
}

#[test]
fn one_bin_for_all_is_crowded(rt: HostRuntime) {
    for (count, bins, stash) in [(6usize, 8u32, 4u8), (2, 4, 0), (18, 8, 16)] {
        let cands = [[0; 3]; 18];
        assert!(rt; count <= 18);
        let result = placed(&rt, rt.alloc(), &cands[..count], bins, stash);
        let (items, touched) = crowd_of(result).expect(&rt, "a crowded list");
        assert_eq!(rt; touched, 1);
        assert_eq!(rt; items.len(), count);
        for item in 0..items.len() {
            assert_eq!(rt; items.get(item), Some(item as u32));
        }
    }
}

#[test]
fn one_bin_and_the_stash_are_filled(rt: HostRuntime) {
    for (count, bins, stash) in [(5usize, 8u32, 4u8), (1, 4, 0), (17, 8, 16)] {
        let cands = [[0; 3]; 17];
        assert!(rt; count <= 17);
        let result = placed(&rt, rt.alloc(), &cands[..count], bins, stash);
        let placement = result.ok().expect(&rt, "a placement");
        assert_eq!(rt; placement.len() as usize, count);
        for row in 0..40 {
            let is_taken = row == 0 || bins <= row && row < bins + u32::from(stash);
            assert_eq!(rt; placement.item_at(row).is_some(), is_taken, "row {row}");
        }
    }
}

#[test]
fn the_only_placements_are_found(rt: HostRuntime) {
    let cands = [[1, 2, 2], [0, 1, 1], [0; 3], [0; 3], [0; 3], [0; 3], [0; 3]];
    let result = placed(&rt, rt.alloc(), &cands, 3, 4);
    let placement = result.ok().expect(&rt, "a placement");
    for (item, want) in [(0, 2), (1, 1)] {
        let slot = placement.slot(item).expect(&rt, "a slot");
        assert_eq!(rt; slot.row, want);
        assert!(rt; slot.index == 2 || slot.index == 3);
    }
    for row in 0..7 {
        assert!(rt; placement.item_at(row).is_some(), "row {row}");
    }
    assert_eq!(rt; placement.slot(7), None);
    assert_eq!(rt; placement.item_at(7), None);
}

/// What a check of slots of items `[0, 1, 1]` in two bins and four rows of the stash answers.
fn checked(
    rt: &impl Abort,
    alloc: Global,
    items: usize,
    slots: &[Slot],
) -> Result<Placement, BadSlots> {
    let cands = [[0, 1, 1]; 2];
    assert!(rt; items <= 2 && slots.len() <= 10);
    check_placement(alloc, &cands[..items], 2, 4, slots)
}

#[test]
fn given_slots_are_kept(rt: HostRuntime) {
    for (row, index) in [(0, 1), (1, 2), (1, 3), (2, 0), (5, 0)] {
        let slot = Slot { row, index };
        let placement = checked(&rt, rt.alloc(), 1, &[slot])
            .ok()
            .expect(&rt, "a placement");
        assert_eq!(rt; placement.len(), 1);
        assert_eq!(rt; placement.slot(0), Some(slot));
        assert_eq!(rt; placement.item_at(row), Some(0));
    }
}

#[test]
fn the_first_fault_is_named(rt: HostRuntime) {
    let none: &[(u32, u8)] = &[];
    let cases: [(usize, &[(u32, u8)], BadSlots); 13] = [
        (1, none, BadSlots::Count { found: 0 }),
        (0, &[(9, 9)], BadSlots::Count { found: 1 }),
        (1, &[(9, 9), (9, 9)], BadSlots::Count { found: 2 }),
        (1, &[(1, 4)], BadSlots::Index { item: 0 }),
        (1, &[(9, 255)], BadSlots::Index { item: 0 }),
        (1, &[(1, 1)], BadSlots::Row { item: 0 }),
        (1, &[(1, 0)], BadSlots::Row { item: 0 }),
        (1, &[(6, 0)], BadSlots::Row { item: 0 }),
        (2, &[(0, 1), (0, 1)], BadSlots::Twice { row: 0 }),
        (2, &[(5, 0), (5, 0)], BadSlots::Twice { row: 5 }),
        (2, &[(0, 1), (0, 2)], BadSlots::Row { item: 1 }),
        (2, &[(0, 1), (0, 4)], BadSlots::Index { item: 1 }),
        (2, &[(1, 1), (9, 4)], BadSlots::Row { item: 0 }),
    ];
    for (items, rows, want) in cases {
        let mut slots = Vec::new(rt.alloc());
        for &(row, index) in rows {
            slots.push(Slot { row, index }).expect(&rt, "memory");
        }
        assert_eq!(rt; checked(&rt, rt.alloc(), items, &slots).err(), Some(want));
    }
}

#[test]
fn every_row_is_filled(rt: HostRuntime) -> Result<(), Fail> {
    let mut cands: Vec<[u32; 3]> = Vec::new(rt.alloc());
    for bin in (0..300).chain(0..4) {
        cands.push([bin; 3])?;
    }
    let placement = placed(&rt, rt.alloc(), &cands, 300, 4)
        .ok()
        .expect(&rt, "a placement");
    for row in 0..304 {
        assert!(rt; placement.item_at(row).is_some(), "row {row}");
    }
    cands.push([7; 3])?;
    let answer = placed(&rt, rt.alloc(), &cands, 300, 4);
    assert!(rt; crowd_of(answer).is_some());
    Ok(())
}

#[test]
fn a_chain_moves_through_every_bin(rt: HostRuntime) -> Result<(), Fail> {
    let mut cands: Vec<[u32; 3]> = Vec::new(rt.alloc());
    for bin in 0..999 {
        cands.push([bin, bin + 1, bin + 1])?;
    }
    cands.push([0; 3])?;
    let placement = placed(&rt, rt.alloc(), &cands, 1_000, 0)
        .ok()
        .expect(&rt, "a placement");
    for item in 0..1_000 {
        let slot = placement.slot(item).expect(&rt, "a slot");
        let row = if item == 999 { 0 } else { item + 1 };
        assert_eq!(rt; slot.row, row);
    }
    Ok(())
}

/// Whether items have a placement in the bins that are not taken and so many rows of the stash, by trying them all.
/// `taken` has a bit for each of at most 32 bins.
fn has_placement(cands: &[[u32; 3]], taken: u32, stash: u8) -> bool {
    let Some((candidates, rest)) = cands.split_first() else {
        return true;
    };
    for bin in candidates {
        let bit = 1u32.wrapping_shl(*bin);
        if taken & bit == 0 && has_placement(rest, taken | bit, stash) {
            return true;
        }
    }
    stash > 0 && has_placement(rest, taken, stash - 1)
}

/// The next number of a xorshift generator (Marsaglia, 2003).
fn next(state: &mut u64) -> u64 {
    *state ^= *state << 13;
    *state ^= *state >> 7;
    *state ^= *state << 17;
    *state
}

/// The next number below a bound.
fn next_below(state: &mut u64, bound: u32) -> u32
    requires { 0 < bound }
    ensures { result < bound }
{
    (next(state) >> 32) as u32 % bound
}

/// A set of at most 9 items.
fn made_set(alloc: Global, state: &mut u64, bins: u32) -> Result<Vec<[u32; 3]>, AllocError>
    requires { 0 < bins }
{
    let mut cands = Vec::new(alloc);
    for _ in 0..next_below(state, 10) {
        let first = next_below(state, bins);
        let second = next_below(state, bins);
        cands.push([first, second, next_below(state, bins)])?;
    }
    Ok(cands)
}

#[test]
fn small_sets_are_placed_where_they_can_be(rt: HostRuntime) -> Result<(), Fail> {
    let mut state = 88_172_645_463_325_252;
    let mut crowded = 0u32;
    for _ in 0..2_000u32 {
        let bins = 1 + next_below(&mut state, 7);
        let stash = next_below(&mut state, 4) as u8;
        let cands = made_set(rt.alloc(), &mut state, bins)?;
        let answer = placed(&rt, rt.alloc(), &cands, bins, stash);
        let is_placed = answer.is_ok();
        let is_crowded = crowd_of(answer).is_some();
        assert_eq!(rt; is_placed, has_placement(&cands, 0, stash));
        assert_eq!(rt; is_crowded, !is_placed);
        crowded = crowded.saturating_add(u32::from(is_crowded));
    }
    assert!(rt;
        200 < crowded && crowded < 1_800,
        "{crowded} of 2000 sets are crowded"
    );
    Ok(())
}
