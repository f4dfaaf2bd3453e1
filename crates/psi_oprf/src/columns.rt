// What the receiver sends of its columns, what the sender makes of it, and the change that hides which words were sent.
ghost use Rattle.std.specs.Prelude.{◌≡◌, ◌+◌, ◌%◌, ◌<◌, ℕ, ◌==◌, [], length, slice_index_or, if◌then◌else◌};
ghost use Rattle.psi_spec.specs.Bits.{bit_of, xor};
ghost use Rattle.psi_spec.specs.Changes.{change as changed_sets};
ghost use Rattle.psi_spec.specs.Columns.{column_bytes, row_of};
ghost use Rattle.psi_spec.specs.ColumnSets.{chosen_columns, masked_columns};
ghost use Rattle.psi_spec.specs.HidingLaws.{differing_bit};
ghost use Rattle.psi_spec.specs.Matrices.{IsClean, IsCleanMatrix, IsMatrix, column_of, with_column};

use psi_bits::{Columns, Rows, Word512};
use psi_lanes::{flip_back, xor_bytes};

/// Changes each column by the column of its number in `by`, which has the same number of rows: bit by
/// bit it becomes the exclusive or of both.
pub fn xor_columns(columns: &mut Columns, by: &Columns)
    requires { by.now.rows ≡ columns.old.rows }
    ensures rows { columns.new.rows ≡ columns.old.rows }
    ensures matrix { IsMatrix columns.old × IsMatrix by.now }
    ensures count { length columns.new.columns ≡ 512 }
    ensures each { (c : ℕ) → c < 512 → column_of columns.new c ≡ xor (column_of columns.old c) (column_of by.now c) }
    ensures clean { IsCleanMatrix by.now → IsCleanMatrix columns.old → IsCleanMatrix columns.new }
{
    for c in 0..512u16 {
        xor_bytes(columns.column_mut(c), by.column(c));
    }
}

/// Makes `out` the columns that the receiver sends: bit j of column c is the exclusive or of that
/// bit of `zeros`, of that bit of `ones` and of bit c of row j of `codes`. All have the same number of
/// rows, and `zeros` and `ones` are clean.
///
/// A sender that opens such columns has rows by which it can evaluate the receiver's items (Ishai,
/// Kilian, Nissim and Petrank, CRYPTO 2003; Kolesnikov, Kumaresan, Rosulek and Trieu, CCS 2016).
pub fn mask(zeros: &Columns, ones: &Columns, codes: &Rows, out: &mut Columns)
    requires ones { ones.now.rows ≡ zeros.now.rows }
    requires codes { length codes.now ≡ zeros.now.rows }
    requires out { out.old.rows ≡ zeros.now.rows }
    requires zeros_clean { IsCleanMatrix zeros.now }
    requires ones_clean { IsCleanMatrix ones.now }
    ensures columns { out.new ≡ record {
      rows = out.old.rows;
      columns = masked_columns codes.now (record { zeros = zeros.now.columns; ones = ones.now.columns });
    } }
    ensures bits { (c j : ℕ) → c < 512 → j < out.old.rows →
        bit_of (column_of out.new c) j
        ≡ (bit_of (column_of zeros.now c) j + bit_of (column_of ones.now c) j
        + bit_of (slice_index_or codes.now j []) c) % 2 }
    ensures clean { IsCleanMatrix out.new }
{
    flip_back(codes, out);
    xor_columns(out, zeros);
    xor_columns(out, ones);
}

/// Makes column `c`, counted from 0 and below 512, the sender's: where bit c of the choice word is
/// set it is changed by the bits that are set in `u`, a column's bytes with no bit past the last row.
/// All else stays.
pub fn open_column(chosen: &mut Columns, choice: &Word512, c: u16, u: &[u8])
    requires column { c < 512 }
    requires long { length u.now ≡ column_bytes chosen.old.rows }
    requires padding { IsClean chosen.old.rows u.now }
    ensures kept { bit_of choice.now c ≡ 0 → chosen.new ≡ chosen.old }
    ensures opened { bit_of choice.now c ≡ 1 →
        chosen.new ≡ with_column chosen.old c (xor (column_of chosen.old c) u.now) }
    ensures clean { IsCleanMatrix chosen.old → IsCleanMatrix chosen.new }
{
    if choice.bit(c) {
        xor_bytes(chosen.column_mut(c), u);
    }
}

// Changes bytes by those of a column as long, where they are to be changed.
fn xor_where(changed: bool, out: &mut [u8], bytes: &[u8])
    requires { length bytes.now ≡ length out.old }
    ensures { out.new ≡ (if changed then xor out.old bytes.now else out.old) }
{
    if changed {
        xor_bytes(out, bytes);
    }
}

// Changes each column whose bit of the choice word is `bit` by the column of its number in `by`.
fn change_where(columns: &mut Columns, choice: &Word512, bit: bool, by: &Columns)
    requires by { by.now.rows ≡ columns.old.rows }
    ensures rows { columns.new.rows ≡ columns.old.rows }
    ensures before { IsMatrix columns.old }
    ensures count { length columns.new.columns ≡ 512 }
    ensures each { (c : ℕ) → c < 512 → column_of columns.new c
        ≡ (if bit_of choice.now c == (if bit then 1 else 0) then xor (column_of columns.old c) (column_of by.now c)
        else column_of columns.old c) }
    ensures clean { IsCleanMatrix by.now → IsCleanMatrix columns.old → IsCleanMatrix columns.new }
{
    for c in 0..512u16 {
        xor_where(choice.bit(c) == bit, columns.column_mut(c), by.column(c));
    }
}

/// Changes the columns that a choice word does not choose by what two lists of row words differ in:
/// bit j of column c of `ones` where bit c of the choice word is 0, and of `zeros` where it is 1, by
/// the exclusive or of bit c of both words of row j. The chosen columns stay. All have the same
/// number of rows. What stands in `room` does not matter; its columns become those of `others`.
///
/// Over the changed columns a receiver with the words `others` sends what one with `words` sends over
/// the columns before, and a sender with this choice word has the same columns: so it cannot tell
/// which words were sent. Done twice it changes nothing.
pub fn change(
    zeros: &mut Columns,
    ones: &mut Columns,
    choice: &Word512,
    words: &Rows,
    others: &Rows,
    room: &mut Columns,
)
    requires ones { ones.old.rows ≡ zeros.old.rows }
    requires words { length words.now ≡ zeros.old.rows }
    requires others { length others.now ≡ zeros.old.rows }
    requires room { room.old.rows ≡ zeros.old.rows }
    ensures sets { record { zeros = zeros.new.columns; ones = ones.new.columns }
        ≡ changed_sets choice.now words.now others.now
        (record { zeros = zeros.old.columns; ones = ones.old.columns }) }
    ensures zeros_rows { zeros.new.rows ≡ zeros.old.rows }
    ensures ones_rows { ones.new.rows ≡ ones.old.rows }
    ensures room_rows { room.new.rows ≡ room.old.rows }
    ensures chosen { chosen_columns choice.now (record { zeros = zeros.new.columns; ones = ones.new.columns })
        ≡ chosen_columns choice.now (record { zeros = zeros.old.columns; ones = ones.old.columns }) }
    ensures zero_bits { (c j : ℕ) → c < 512 → j < zeros.old.rows → bit_of (column_of zeros.new c) j
        ≡ (if bit_of choice.now c == 0 then bit_of (column_of zeros.old c) j
        else (bit_of (column_of zeros.old c) j + differing_bit words.now others.now c j) % 2) }
    ensures one_bits { (c j : ℕ) → c < 512 → j < ones.old.rows → bit_of (column_of ones.new c) j
        ≡ (if bit_of choice.now c == 0
        then (bit_of (column_of ones.old c) j + differing_bit words.now others.now c j) % 2
        else bit_of (column_of ones.old c) j) }
    ensures zeros_clean { IsCleanMatrix zeros.old → IsCleanMatrix zeros.new }
    ensures ones_clean { IsCleanMatrix ones.old → IsCleanMatrix ones.new }
    ensures room { (c : ℕ) → c < 512 → column_of room.new c ≡ row_of others.now c }
{
    flip_back(words, room);
    change_where(zeros, choice, true, room);
    change_where(ones, choice, false, room);
    flip_back(others, room);
    change_where(zeros, choice, true, room);
    change_where(ones, choice, false, room);
}
