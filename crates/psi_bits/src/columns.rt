//! Matrices of bits by columns.
ghost use Rattle.std.specs.Prelude.{◌≡◌, ◌≤◌, ◌<◌, ◌^◌, ℕ, [], Some, None, length, slice_index_or, IfOk, IfErr, OnOk, OnErr};
ghost use Rattle.psi_spec.specs.Bits.{xor};
ghost use Rattle.psi_spec.specs.Limits.{row_limit};
ghost use Rattle.psi_spec.specs.Columns.{column_bytes, row_of};
ghost use Rattle.psi_spec.specs.Matrices.{Matrix, IsMatrix, IsClean, IsCleanMatrix, column_of, with_column, zero_matrix};
ghost use Rattle.psi_bits.specs.BadColumns.{bad_column};

use crate::flips::put_rows;
use crate::words::Word512;
use psi_base::NoMemory;
use std::alloc::Global;
use std::marker::Model;
use thiserror::Error;

/// Why bytes are no column.
#[derive(Clone, Copy, Debug, PartialEq, Eq, Error)]
pub enum BadColumn {
    /// The bytes are not as many as hold one bit for each row, eight to a byte. `found` is how many
    /// there are.
    #[error("a column of {found} bytes")]
    Length { found: u32 },
    /// A bit past the last row is set. `byte` is the last byte.
    #[error("a column that ends with the byte {byte}")]
    Padding { byte: u8 },
}

/// 512 columns of one bit for each of 1 to `psi_base::ROW_LIMIT` rows. Bit j of a column is bit
/// `j % 8`, from the lowest, of byte `j / 8`.
///
/// A matrix is clean where no bit past its last row is set. Every call but `column_mut` leaves a
/// clean matrix clean.
#[derive(Drop)]
pub struct Columns {
    rows: u32,
    columns: Vec<Vec<u8>>,
}

impl Model for Columns {
    ghost use Rattle.psi_spec.specs.Matrices.{Matrix, IsMatrix};
    ghost use Rattle.psi_bits.specs.Shape.{columns_of};

    ghost Value = { Matrix };

    ghost view = { λ a. record { rows = a.rows; columns = columns_of a.columns.items } };

    ghost invariant = { λ a. IsMatrix (record { rows = a.rows; columns = columns_of a.columns.items }) };
}

// Changes each byte of a column by the bits that are set in the other's.
fn xor_bytes(out: &mut [u8], bytes: &[u8])
    requires { length bytes.now ≡ length out.old }
    ensures { out.new ≡ xor out.old bytes.now }
{
    for k in 0..out.len() {
        out[k] ^= bytes[k];
    }
}

impl Columns {
    ghost use Rattle.std.specs.Borrow.{sem};
    ghost use Rattle.psi_bits.specs.Lending.{LendsColumn};

    /// The matrix of zero bits with this many rows, from 1 to `psi_base::ROW_LIMIT`. Err where memory
    /// is wanting.
    pub fn zero(alloc: Global, rows: u32) -> Result<Columns, NoMemory>
        requires least { 1 ≤ rows }
        requires most { rows ≤ row_limit }
        ensures zero { IfOk result (λ a. a ≡ zero_matrix rows) }
        ensures rows { IfOk result (λ a. a.rows ≡ rows) }
        ensures clean { IfOk result IsCleanMatrix }
    {
        let bytes = (rows as usize).div_ceil(8);
        let mut columns = Vec::with_capacity(alloc, 512)?;
        for _ in 0..512usize {
            columns.push(vec![in alloc; 0; bytes]?)?;
        }
        Ok(Columns { rows, columns })
    }

    /// How many rows there are: 1 to `psi_base::ROW_LIMIT`.
    pub fn rows(&self) -> u32
        ensures rows { result ≡ self.now.rows }
        ensures matrix { IsMatrix self.now }
    {
        self.rows
    }

    /// Makes these bytes, fewer than 2^32, column `c`, counted from 0 and below 512.
    ///
    /// `Length` where they aren't as many as hold one bit for each row, else `Padding` where a bit
    /// past the last row is set. Nothing is changed then.
    pub fn set_column(&mut self, c: u16, bytes: &[u8]) -> Result<(), BadColumn>
        requires column { c < 512 }
        requires few { length bytes.now < 2 ^ 32 }
        ensures ok { OnOk result (bad_column self.old.rows bytes.now ≡ None) }
        ensures set { OnOk result (self.new ≡ with_column self.old c bytes.now) }
        ensures err { IfErr result (λ bad. bad_column self.old.rows bytes.now ≡ Some bad) }
        ensures kept { OnErr result (self.new ≡ self.old) }
        ensures rows { self.new.rows ≡ self.old.rows }
        ensures clean { IsCleanMatrix self.old → IsCleanMatrix self.new }
    {
        if let Some(bad) = bad_bytes(self.rows, bytes) {
            return Err(bad);
        }
        self.column_mut(c).copy_from_slice(bytes);
        Ok(())
    }

    /// The bytes of column `c`, counted from 0 and below 512.
    pub fn column(&self, c: u16) -> &[u8]
        requires { c < 512 }
        ensures bytes { result.now ≡ column_of self.now c }
        ensures long { length result.now ≡ column_bytes self.now.rows }
        ensures matrix { IsMatrix self.now }
    {
        &self.columns[usize::from(c)]
    }

    /// The bytes of column `c`, counted from 0 and below 512, to be written. What is written stands
    /// there when the borrow ends, and the other columns stay.
    pub fn column_mut(&mut self, c: u16) -> &mut [u8]
        requires { c < 512 }
        ensures* writes { sem 𝓛 (LendsColumn self.entry c result) }
        ensures bytes { result.now ≡ column_of self.old c }
        ensures long { length result.now ≡ column_bytes self.old.rows }
        ensures matrix { IsMatrix self.old }
    {
        self.columns[usize::from(c)].as_mut_slice()
    }

    /// Makes each of `rows`, of which there are as many as the columns have, that row of the columns.
    pub(crate) fn turn(&self, rows: &mut [Word512])
        requires { length rows.old ≡ self.now.rows }
        ensures { (j : ℕ) → j < self.now.rows →
            slice_index_or rows.new j [] ≡ row_of self.now.columns j }
    {
        put_rows(&self.columns, rows);
    }

    /// Changes column `c`, counted from 0 and below 512, by the bits that are set in these bytes: a
    /// column's, with no bit past the last row.
    pub fn xor_column(&mut self, c: u16, bytes: &[u8])
        requires column { c < 512 }
        requires long { length bytes.now ≡ column_bytes self.old.rows }
        requires padding { IsClean self.old.rows bytes.now }
        ensures column { self.new ≡ with_column self.old c (xor (column_of self.old c) bytes.now) }
        ensures matrix { IsMatrix self.old }
        ensures clean { IsCleanMatrix self.old → IsCleanMatrix self.new }
    {
        xor_bytes(self.column_mut(c), bytes);
    }
}

// Why bytes, fewer than 2^32, are no column of so many rows.
fn bad_bytes(rows: u32, bytes: &[u8]) -> Option<BadColumn>
    requires { length bytes.now < 2 ^ 32 }
    ensures { result ≡ bad_column rows bytes.now }
{
    if bytes.len() != (rows as usize).div_ceil(8) {
        return Some(BadColumn::Length {
            found: bytes.len() as u32,
        });
    }
    let over = rows % 8;
    if over != 0 && bytes[(rows / 8) as usize] >> over != 0 {
        return Some(BadColumn::Padding {
            byte: bytes[(rows / 8) as usize],
        });
    }
    None
}
