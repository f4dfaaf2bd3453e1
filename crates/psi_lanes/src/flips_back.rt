//! Rows of bits into columns, tile by tile.
ghost use Rattle.std.specs.Prelude.{◌≡◌, ◌≢◌, ◌<◌, ◌+◌, ◌≤◌, ◌*◌, ℕ, [], length, slice_index, slice_index_or};
ghost use Rattle.std.specs.Int.{bit_at};
ghost use Rattle.psi_spec.specs.Bits.{bit_of};
ghost use Rattle.psi_spec.specs.Columns.{column_bytes, row_of};
ghost use Rattle.psi_spec.specs.Matrices.{IsCleanMatrix, column_of};
ghost use Rattle.psi_lanes.specs.Strips.{IsBytes, PutsWord};

use crate::tile::flip_tile;
use crate::words::{put_word, word_at};
use psi_bits::{Columns, Rows, Word512};

// The bytes of a word, which are zero past the last word.
fn word_bytes(words: &[Word512], j: usize) -> [u8; 64]
    ensures { (i : ℕ) → i < 512 → bit_of result i ≡ bit_of (slice_index_or words.now j []) i }
{
    if j < words.len() {
        words[j].to_bytes()
    } else {
        [0; 64]
    }
}

// The bytes of at most 64 words, and zeros behind them.
fn load_strip(words: &[Word512], strip: &mut [[u8; 64]])
    requires { length strip.old ≡ 64 }
    ensures { (j i : ℕ) → j < 64 → i < 512 →
        bit_of (slice_index_or strip.new j []) i ≡ bit_of (slice_index_or words.now j []) i }
{
    for j in 0..64 {
        strip[j] = word_bytes(words, j);
    }
}

// Word `group` of each of 64 rows.
#[inline(always)]
fn load_rows(strip: &[[u8; 64]], group: u16, tile: &mut [u64; 64])
    requires group { group < 8 }
    requires strip { length strip.now ≡ 64 }
    ensures { (j i : ℕ) → j < 64 → i < 64 →
        bit_at (slice_index tile.new j) i ≡ bit_of (slice_index_or strip.now j []) (64 * group + i) }
{
    for j in 0..64 {
        tile[j] = word_at(&strip[j], 8 * usize::from(group));
    }
}

// The word from byte `at` on of a column.
#[inline(always)]
fn put_column_word(columns: &mut Columns, c: u16, at: usize, word: u64)
    requires column { c < 512 }
    requires place { at ≤ column_bytes columns.old.rows }
    ensures rows { columns.new.rows ≡ columns.old.rows }
    ensures puts { PutsWord at word (column_of columns.old c) (column_of columns.new c) }
    ensures whole { IsBytes (column_bytes columns.old.rows) (column_of columns.new c) }
    ensures others { (k : ℕ) → k ≢ c → column_of columns.new k ≡ column_of columns.old k }
{
    put_word(columns.column_mut(c), at, word);
}

// The words from byte `at` on of the 64 columns of a group.
#[inline(always)]
fn store_columns(tile: &[u64; 64], group: u16, at: usize, columns: &mut Columns)
    requires group { group < 8 }
    requires place { at ≤ column_bytes columns.old.rows }
    ensures rows { columns.new.rows ≡ columns.old.rows }
    ensures puts { (i : ℕ) → i < 64 →
        PutsWord at (slice_index tile.now i) (column_of columns.old (64 * group + i))
        (column_of columns.new (64 * group + i)) }
    ensures whole { (i : ℕ) → i < 64 →
        IsBytes (column_bytes columns.old.rows) (column_of columns.new (64 * group + i)) }
    ensures below { (k : ℕ) → k < 64 * group → column_of columns.new k ≡ column_of columns.old k }
    ensures above { (k : ℕ) → 64 * group + 64 ≤ k → column_of columns.new k ≡ column_of columns.old k }
{
    for i in 0..64 {
        put_column_word(columns, 64 * group + i as u16, at, tile[i]);
    }
}

// The rows of a strip, into the columns from byte `at` on.
fn flip_strip(strip: &[[u8; 64]], at: usize, columns: &mut Columns)
    requires strip { length strip.now ≡ 64 }
    requires place { at ≤ column_bytes columns.old.rows }
    ensures rows { columns.new.rows ≡ columns.old.rows }
    ensures inside { (c j : ℕ) → c < 512 → j < 64 → 8 * at + j < 8 * column_bytes columns.old.rows →
        bit_of (column_of columns.new c) (8 * at + j) ≡ bit_of (slice_index_or strip.now j []) c }
    ensures below { (c j : ℕ) → c < 512 → j < 8 * at →
        bit_of (column_of columns.new c) j ≡ bit_of (column_of columns.old c) j }
    ensures whole { (c : ℕ) → c < 512 → IsBytes (column_bytes columns.old.rows) (column_of columns.new c) }
{
    'groups: for group in 0..8u16 {
        let mut tile = [0; 64];
        load_rows(strip, group, &mut tile);
        flip_tile(&mut tile);
        store_columns(&tile, group, at, columns);
    }
}

// At most 64 words, into the columns from byte `at` on.
fn flip_part(words: &[Word512], at: usize, columns: &mut Columns)
    requires place { at ≤ column_bytes columns.old.rows }
    ensures rows { columns.new.rows ≡ columns.old.rows }
    ensures inside { (c j : ℕ) → c < 512 → j < 64 → 8 * at + j < 8 * column_bytes columns.old.rows →
        bit_of (column_of columns.new c) (8 * at + j) ≡ bit_of (slice_index_or words.now j []) c }
    ensures below { (c j : ℕ) → c < 512 → j < 8 * at →
        bit_of (column_of columns.new c) j ≡ bit_of (column_of columns.old c) j }
    ensures whole { (c : ℕ) → c < 512 → IsBytes (column_bytes columns.old.rows) (column_of columns.new c) }
{
    let mut strip = [[0; 64]; 64];
    load_strip(words, &mut strip);
    flip_strip(&strip, at, columns);
}

/// Makes bit j of column c bit c of row j, and each bit past the last row zero, by tiles of 64 rows
/// of 64 columns, each matrix gone over once. There are as many rows as the columns have.
pub fn flip_back(rows: &Rows, columns: &mut Columns)
    requires { length rows.now ≡ columns.old.rows }
    ensures count { columns.new.rows ≡ columns.old.rows }
    ensures columns { (c : ℕ) → c < 512 → column_of columns.new c ≡ row_of rows.now c }
    ensures clean { IsCleanMatrix columns.new }
{
    let words = rows.words();
    let count = columns.rows() as usize;
    'strips: for strip in 0..count.div_ceil(64) {
        let end = count.min(64 * strip + 64);
        flip_part(&words[64 * strip..end], 8 * strip, columns);
    }
}
