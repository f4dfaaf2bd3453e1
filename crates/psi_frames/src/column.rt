// Columns: kind 3. The payload is the index of the column and a bit for each row, eight to a byte.
ghost use Rattle.std.specs.Prelude.{◌≡◌, ◌+◌, ◌≤◌, length};
ghost use Rattle.psi_spec.specs.Columns.{column_bytes as bytes_for};
ghost use Rattle.psi_spec.specs.Frames.{column_frame, first_wrong, layout};
ghost use Rattle.psi_frames.specs.Boxes.{with_added};
ghost use Rattle.psi_frames.specs.Column.{column_field, column_fields, columns_size};

use crate::header::put_header;
use crate::outbox::Outbox;
use crate::reasons::Reason;

/// The kind of a column.
pub(crate) const COLUMN: u8 = 3;

/// The bytes of a column's frame before the bits of its rows.
pub const COLUMN_HEAD: u32 = 7;

/// How many bytes a column of so many rows has.
pub(crate) fn column_bytes(rows: u32) -> u32
    ensures { result ≡ bytes_for rows }
{
    rows.div_ceil(8)
}

/// How many bytes the frames of 512 columns of so many rows have.
pub fn columns_size(rows: u32) -> u64
    ensures { result ≡ columns_size rows }
{
    512 * u64::from(COLUMN_HEAD + column_bytes(rows))
}

/// Adds a column.
pub(crate) fn put_column(out: &mut Outbox, index: u16, bytes: &[u8])
    requires { 7 + length bytes.now ≤ out.old.spare }
    ensures { out.new ≡ with_added (layout (column_frame index bytes.now)) out.old }
{
    put_header(out, COLUMN, 2 + bytes.len());
    out.add(&index.to_be_bytes());
    out.add(bytes);
}

// What is wrong with the bytes of a column: a bit that is set behind the last row.
fn wrong_padding(rows: u32, column: &[u8]) -> Option<Reason>
    requires { length column.now ≡ bytes_for rows }
    ensures { result ≡ (column_field rows).refuse column.now }
{
    let last_bits = rows % 8;
    if last_bits == 0 {
        return None;
    }
    let byte = column[rows as usize / 8];
    if byte >= 1 << last_bits {
        return Some(Reason::Padding { byte });
    }
    None
}

/// What is wrong with the payload of a column.
pub(crate) fn wrong_column(index: u16, rows: u32, payload: &[u8]) -> Option<Reason>
    ensures { result ≡ first_wrong (column_fields index rows) payload.now }
{
    let (found, rest) = payload.split_first_chunk::<2>()?;
    let found = u16::from_be_bytes(*found);
    if found != index {
        return Some(Reason::Index {
            found: u32::from(found),
            wanted: u32::from(index),
        });
    }
    let (column, _) = rest.split_at_checked(column_bytes(rows) as usize)?;
    wrong_padding(rows, column)
}
