//! Tiles and bytes that were worked out by hand, and matrices beside their plain flips.
ghost use Rattle.std.specs.Prelude.{◌≡◌, ◌≤◌, length, IfOk};
ghost use Rattle.psi_spec.specs.Limits.{row_limit};

use crate::{flip, flip_back, flip_tile, mask_xor, xor_bytes};
use psi_base::NoMemory;
use psi_bits::{Columns, Rows, Word512, flip_back_plain, flip_plain};
use std::alloc::Global;

#[test]
fn one_bit_moves(rt: HostRuntime) {
    let mut tile = [0; 64];
    tile[3] = 1 << 41;
    flip_tile(&mut tile);
    for i in 0..64usize {
        assert_eq!(rt; tile[i], if i == 41 { 1 << 3 } else { 0 }, "in word {i}");
    }
}

// A word of made bits, another one for each row.
fn made_word(row: usize) -> Word512 {
    let mut bytes = [0; 64];
    let mut state = row as u64;
    for k in 0..64usize {
        state = state
            .wrapping_mul(6_364_136_223_846_793_005)
            .wrapping_add(1);
        bytes[k] = (state >> 56) as u8;
    }
    Word512::from_bytes(&bytes)
}

fn fill(words: &mut [Word512]) {
    for j in 0..words.len() {
        words[j] = made_word(j);
    }
}

// So many rows of made bits.
fn made_rows(alloc: Global, count: u32) -> Result<Rows, NoMemory>
    requires least { 1 ≤ count }
    requires most { count ≤ row_limit }
    ensures { IfOk result (λ rows. length rows ≡ count) }
{
    let mut rows = Rows::with_rows(alloc, count)?;
    fill(rows.words_mut());
    Ok(rows)
}

#[test]
fn columns_are_those_of_the_plain_flip(rt: HostRuntime) -> Result<(), NoMemory> {
    for count in [1, 63, 64, 65, 512, 1_205] {
        let rows = made_rows(rt.alloc(), count)?;
        let mut columns = Columns::zero(rt.alloc(), count)?;
        let mut plain = Columns::zero(rt.alloc(), count)?;
        flip_back(&rows, &mut columns);
        flip_back_plain(&rows, &mut plain);
        for c in 0..512u16 {
            assert_eq!(rt;
                columns.column(c),
                plain.column(c),
                "column {c} of {count} rows"
            );
        }
    }
    Ok(())
}

#[test]
fn rows_are_those_of_the_plain_flip(rt: HostRuntime) -> Result<(), NoMemory> {
    for count in [1, 63, 64, 65, 512, 1_205] {
        let rows = made_rows(rt.alloc(), count)?;
        let mut columns = Columns::zero(rt.alloc(), count)?;
        flip_back(&rows, &mut columns);
        let mut again = Rows::with_rows(rt.alloc(), count)?;
        let mut plain = Rows::with_rows(rt.alloc(), count)?;
        flip(&columns, &mut again);
        flip_plain(&columns, &mut plain);
        assert_eq!(rt; again.words(), plain.words(), "of {count} rows");
        assert_eq!(rt; again.words(), rows.words(), "of {count} rows");
    }
    Ok(())
}

#[test]
fn bytes_of_any_length_are_changed(rt: HostRuntime) {
    let mut bytes = [0; 100];
    for k in 0..100usize {
        bytes[k] = k as u8;
    }
    for len in [0, 1, 31, 32, 33, 64, 99, 100usize] {
        let mut out = [0xff; 100];
        xor_bytes(&mut out[..len], &bytes[..len]);
        for k in 0..100usize {
            let want = if k < len { 0xff - k as u8 } else { 0xff };
            assert_eq!(rt; out[k], want, "byte {k} of {len}");
        }
    }
}

#[test]
fn words_are_changed_under_the_mask(rt: HostRuntime) {
    let mut out = [Word512::zero(), Word512::from_bytes(&[0xff; 64])];
    let words = [
        Word512::from_bytes(&[0x3c; 64]),
        Word512::from_bytes(&[0x5a; 64]),
    ];
    mask_xor(&mut out, &Word512::from_bytes(&[0x0f; 64]), &words);
    let want = [
        Word512::from_bytes(&[0x0c; 64]),
        Word512::from_bytes(&[0xf5; 64]),
    ];
    assert_eq!(rt; out, want);
}
