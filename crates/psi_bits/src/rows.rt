//! Matrices of bits by rows.
ghost use Rattle.std.specs.Prelude.{◌≡◌, ◌≤◌, ◌<◌, ℕ, [], length, replicate, slice_index_or, IfOk};
ghost use Rattle.psi_spec.specs.Bits.{zero_word};
ghost use Rattle.psi_spec.specs.Limits.{row_limit};

use crate::words::Word512;
use psi_base::NoMemory;
use std::alloc::Global;
use std::marker::Model;

/// Words of 512 bits, one for each of 1 to `psi_base::ROW_LIMIT` rows.
#[derive(Drop)]
pub struct Rows {
    words: Vec<Word512>,
}

impl Model for Rows {
    ghost use Rattle.std.specs.Prelude.{ℕ, ◌≤◌, List, length};
    ghost use Rattle.psi_spec.specs.Limits.{row_limit};

    ghost Value = { List (List ℕ) };

    ghost view = { λ a. a.words.items };

    ghost invariant = { λ a. (1 ≤ length a.words.items) × (length a.words.items ≤ row_limit) };
}

impl Rows {
    ghost use Rattle.std.specs.Borrow.{sem};
    ghost use Rattle.psi_bits.specs.Lending.{LendsRow, LendsRows};

    /// This many rows, from 1 to `psi_base::ROW_LIMIT`, of zero bits. Err where memory is wanting.
    pub fn with_rows(alloc: Global, rows: u32) -> Result<Rows, NoMemory>
        requires least { 1 ≤ rows }
        requires most { rows ≤ row_limit }
        ensures zero { IfOk result (λ a. a ≡ replicate rows zero_word) }
        ensures rows { IfOk result (λ a. length a ≡ rows) }
    {
        Ok(Rows {
            words: vec![in alloc; Word512::zero(); rows as usize]?,
        })
    }

    /// How many rows there are: 1 to `psi_base::ROW_LIMIT`.
    pub fn rows(&self) -> u32
        ensures rows { result ≡ length self.now }
        ensures least { 1 ≤ length self.now }
        ensures most { length self.now ≤ row_limit }
    {
        self.words.len() as u32
    }

    /// The word of row `j`, counted from 0 and below `rows`.
    pub fn row(&self, j: u32) -> &Word512
        requires { j < length self.now }
        ensures { result.now ≡ slice_index_or self.now j [] }
    {
        &self.words[j as usize]
    }

    /// The word of row `j`, counted from 0 and below `rows`, to be written. What is written stands
    /// there when the borrow ends, and the other rows stay.
    pub fn row_mut(&mut self, j: u32) -> &mut Word512
        requires { j < length self.old }
        ensures* writes { sem 𝓛 (LendsRow self.entry j result) }
        ensures word { result.now ≡ slice_index_or self.old j [] }
    {
        &mut self.words[j as usize]
    }

    /// The words of all rows.
    pub fn words(&self) -> &[Word512]
        ensures { result.now ≡ self.now }
    {
        &self.words
    }

    /// The words of all rows, to be written. What is written stands there when the borrow ends.
    pub fn words_mut(&mut self) -> &mut [Word512]
        ensures* writes { sem 𝓛 (LendsRows self.entry result) }
        ensures words { result.now ≡ self.old }
    {
        self.words.as_mut_slice()
    }
}
