//! Columns into rows and back, bit by bit.
ghost use Rattle.std.specs.Prelude.{◌≡◌, ◌≤◌, ◌<◌, ◌*◌, ℕ, [], length, slice_index_or, All};
ghost use Rattle.psi_spec.specs.Bits.{bit_of, byte_of};
ghost use Rattle.psi_spec.specs.Columns.{bits_at, column_bytes, row_of};
ghost use Rattle.psi_spec.specs.Matrices.{IsCleanMatrix, column_of};
ghost use Rattle.psi_bits.specs.Shape.{columns_of};

use crate::columns::Columns;
use crate::rows::Rows;
use crate::words::Word512;

/// Makes bit c of row j bit j of column c. There are as many rows as the columns have.
pub fn flip_plain(columns: &Columns, rows: &mut Rows)
    requires { length rows.old ≡ columns.now.rows }
    ensures count { length rows.new ≡ columns.now.rows }
    ensures rows { (j : ℕ) → j < columns.now.rows →
        slice_index_or rows.new j [] ≡ row_of columns.now.columns j }
{
    columns.turn(rows.words_mut());
}

/// Makes bit j of column c bit c of row j, and each bit past the last row zero. There are as many
/// rows as the columns have.
pub fn flip_back_plain(rows: &Rows, columns: &mut Columns)
    requires { length rows.now ≡ columns.old.rows }
    ensures count { columns.new.rows ≡ columns.old.rows }
    ensures columns { (c : ℕ) → c < 512 → column_of columns.new c ≡ row_of rows.now c }
    ensures clean { IsCleanMatrix columns.new }
{
    for c in 0..512u16 {
        put_column(rows.words(), c, columns.column_mut(c));
    }
}

// A bit of a list of bytes.
fn bit(bytes: &[u8], j: usize) -> u8
    requires { j < 8 * length bytes.now }
    ensures { result ≡ bit_of bytes.now j }
{
    (bytes[j / 8] >> (j % 8)) & 1
}

// Bit j of each of up to eight columns, as a byte.
fn byte_of_columns(columns: &[Vec<u8>], j: usize) -> u8
    requires few { length columns.now ≤ 8 }
    requires long { All (λ column. j < 8 * length column.items) columns.now }
    ensures { result ≡ byte_of (bits_at (columns_of columns.now) j) }
{
    let mut byte = 0;
    for (i, column) in columns.iter().enumerate() {
        byte |= bit(column, j) << i;
    }
    byte
}

// Row j of 512 columns.
fn row_word(columns: &[Vec<u8>], j: usize) -> [u8; 64]
    requires count { length columns.now ≡ 512 }
    requires long { All (λ column. j < 8 * length column.items) columns.now }
    ensures { result ≡ row_of (columns_of columns.now) j }
{
    let mut bytes = [0; 64];
    for k in 0..64 {
        bytes[k] = byte_of_columns(&columns[8 * k..8 * k + 8], j);
    }
    bytes
}

/// Each row of 512 columns, of one bit for each of the rows.
pub fn put_rows(columns: &[Vec<u8>], rows: &mut [Word512])
    requires count { length columns.now ≡ 512 }
    requires long { All (λ column. length column.items ≡ column_bytes (length rows.old)) columns.now }
    ensures { (j : ℕ) → j < length rows.old →
        slice_index_or rows.new j [] ≡ row_of (columns_of columns.now) j }
{
    for j in 0..rows.len() {
        rows[j] = Word512::from_bytes(&row_word(columns, j));
    }
}

// Bit c of each of up to eight rows, as a byte.
fn byte_of_rows(rows: &[Word512], c: u16) -> u8
    requires few { length rows.now ≤ 8 }
    requires column { c < 512 }
    ensures { result ≡ byte_of (bits_at rows.now c) }
{
    let mut byte = 0;
    for (i, row) in rows.iter().enumerate() {
        byte |= row.bit_value(c) << i;
    }
    byte
}

// Column c of rows.
fn put_column(rows: &[Word512], c: u16, out: &mut [u8])
    requires column { c < 512 }
    requires long { length out.old ≡ column_bytes (length rows.now) }
    ensures { out.new ≡ row_of rows.now c }
{
    for k in 0..out.len() {
        let end = rows.len().min(8 * k + 8);
        out[k] = byte_of_rows(&rows[8 * k..end], c);
    }
}
