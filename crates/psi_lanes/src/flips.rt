//! Columns of bits into rows, tile by tile.
ghost use Rattle.std.specs.Prelude.{◌≡◌, ◌<◌, ◌+◌, ◌≤◌, ◌*◌, ℕ, [], length, slice_index, slice_index_or};
ghost use Rattle.std.specs.Int.{bit_at};
ghost use Rattle.psi_spec.specs.Bits.{bit_of};
ghost use Rattle.psi_spec.specs.Columns.{column_bytes, row_of};
ghost use Rattle.psi_spec.specs.Matrices.{IsMatrix, column_of};
ghost use Rattle.psi_lanes.specs.Strips.{IsBytes, PutsWord};

use crate::tile::flip_tile;
use crate::words::{put_word, word_at};
use psi_bits::{Columns, Rows, Word512};

// The words from byte `at` on of the 64 columns of a group.
#[inline(always)]
fn load_columns(columns: &Columns, group: u16, at: usize, tile: &mut [u64; 64])
    requires group { group < 8 }
    requires place { at ≤ column_bytes columns.now.rows }
    ensures { (i j : ℕ) → i < 64 → j < 64 →
        bit_at (slice_index tile.new i) j ≡ bit_of (column_of columns.now (64 * group + i)) (8 * at + j) }
{
    for i in 0..64 {
        tile[i] = word_at(columns.column(64 * group + i as u16), at);
    }
}

// Word `group` of a row.
#[inline(always)]
fn put_row_word(row: &mut [u8; 64], group: u16, word: u64)
    requires { group < 8 }
    ensures puts { PutsWord (8 * group) word row.old row.new }
    ensures whole { IsBytes 64 row.new }
{
    put_word(row, 8 * usize::from(group), word);
}

// Word `group` of each row.
#[inline(always)]
fn store_rows(tile: &[u64; 64], group: u16, strip: &mut [[u8; 64]])
    requires group { group < 8 }
    requires strip { length strip.old ≡ 64 }
    ensures inside { (j i : ℕ) → j < 64 → i < 64 →
        bit_of (slice_index_or strip.new j []) (64 * group + i) ≡ bit_at (slice_index tile.now j) i }
    ensures below { (j i : ℕ) → j < 64 → i < 64 * group →
        bit_of (slice_index_or strip.new j []) i ≡ bit_of (slice_index_or strip.old j []) i }
    ensures whole { (j : ℕ) → j < 64 → IsBytes 64 (slice_index_or strip.new j []) }
{
    for j in 0..64 {
        put_row_word(&mut strip[j], group, tile[j]);
    }
}

// The 64 rows from byte `at` of the columns on, as bytes.
fn make_strip(columns: &Columns, at: usize, strip: &mut [[u8; 64]])
    requires matrix { IsMatrix columns.now }
    requires place { at ≤ column_bytes columns.now.rows }
    requires strip { length strip.old ≡ 64 }
    ensures { (j : ℕ) → j < 64 → slice_index_or strip.new j [] ≡ row_of columns.now.columns (8 * at + j) }
{
    'groups: for group in 0..8u16 {
        let mut tile = [0; 64];
        load_columns(columns, group, at, &mut tile);
        flip_tile(&mut tile);
        store_rows(&tile, group, strip);
    }
}

// Makes at most 64 words those of as many rows.
fn put_words(strip: &[[u8; 64]], words: &mut [Word512])
    requires { length words.old ≤ length strip.now }
    ensures { (j : ℕ) → j < length words.old → slice_index_or words.new j [] ≡ slice_index_or strip.now j [] }
{
    for j in 0..words.len() {
        words[j] = Word512::from_bytes(&strip[j]);
    }
}

// Makes at most 64 words the rows from byte `at` of the columns on.
fn flip_strip(columns: &Columns, at: usize, words: &mut [Word512])
    requires matrix { IsMatrix columns.now }
    requires place { at ≤ column_bytes columns.now.rows }
    requires few { length words.old ≤ 64 }
    ensures { (j : ℕ) → j < length words.old →
        slice_index_or words.new j [] ≡ row_of columns.now.columns (8 * at + j) }
{
    let mut strip = [[0; 64]; 64];
    make_strip(columns, at, &mut strip);
    put_words(&strip, words);
}

// Makes each word the row of the columns at its place.
fn flip_words(columns: &Columns, words: &mut [Word512])
    requires { length words.old ≡ columns.now.rows }
    ensures { (j : ℕ) → j < length words.old → slice_index_or words.new j [] ≡ row_of columns.now.columns j }
{
    let rows = columns.rows() as usize;
    'strips: for strip in 0..rows.div_ceil(64) {
        let end = rows.min(64 * strip + 64);
        flip_strip(columns, 8 * strip, &mut words[64 * strip..end]);
    }
}

/// Makes bit c of row j bit j of column c, by tiles of 64 rows of 64 columns, each matrix gone over
/// once. There are as many rows as the columns have.
pub fn flip(columns: &Columns, rows: &mut Rows)
    requires { length rows.old ≡ columns.now.rows }
    ensures count { length rows.new ≡ columns.now.rows }
    ensures rows { (j : ℕ) → j < columns.now.rows →
        slice_index_or rows.new j [] ≡ row_of columns.now.columns j }
{
    flip_words(columns, rows.words_mut());
}
