// The stream of a receiver over any columns, as bytes.
ghost use Rattle.std.specs.Prelude.{◌≡◌, ◌≤◌, ◌+◌, ◌++◌, [], length, IfOk, OnOk};
ghost use Rattle.psi_spec.specs.Columns.{column_bytes};
ghost use Rattle.psi_spec.specs.ColumnSets.{masked_columns};
ghost use Rattle.psi_spec.specs.Frames.{layout};
ghost use Rattle.psi_spec.specs.Limits.{rows_for};
ghost use Rattle.psi_spec.specs.Matrices.{IsCleanMatrix};
ghost use Rattle.psi_spec.specs.Streams.{layouts, column_frames, columns_stream};
ghost use Rattle.psi_frames.specs.Expected.{seen};

use psi_base::NoMemory;
use psi_bits::{Columns, Rows};
use psi_deal::ReceiverDeal;
use psi_frames::{COLUMN_HEAD, DONE_SIZE, Frame, HELLO_SIZE, Outbox, put};
use psi_oprf::mask;
use std::alloc::Global;

// Adds a frame to a stream, by way of an outbox in which nothing is to be sent.
fn add_frame(stream: &mut Vec<u8>, outbox: &mut Outbox, frame: &Frame<'_>) -> Result<(), NoMemory>
    requires empty { outbox.old.pending ≡ [] }
    requires spare { outbox.old.spare ≡ outbox.old.room }
    requires room { length (layout (seen frame.now)) ≤ outbox.old.room }
    ensures added { OnOk result (stream.new.items ≡ stream.old.items ++ layout (seen frame.now)) }
    ensures outbox { OnOk result (outbox.new ≡ outbox.old) }
{
    put(outbox, frame);
    stream.extend_from_slice(outbox.pending())?;
    outbox.sent(outbox.pending().len());
    Ok(())
}

// Adds the frames of columns to a stream.
fn add_columns(stream: &mut Vec<u8>, outbox: &mut Outbox, columns: &Columns) -> Result<(), NoMemory>
    requires empty { outbox.old.pending ≡ [] }
    requires spare { outbox.old.spare ≡ outbox.old.room }
    requires room { 7 + column_bytes columns.now.rows ≤ outbox.old.room }
    ensures added { OnOk result (stream.new.items ≡ stream.old.items ++ layouts (column_frames 0 columns.now.columns)) }
    ensures outbox { OnOk result (outbox.new ≡ outbox.old) }
{
    for index in 0..512u16 {
        let bytes = columns.column(index);
        add_frame(stream, outbox, &Frame::Column { index, bytes })?;
    }
    Ok(())
}

/// The bytes that a receiver with this deal and `count` items sends, which have these words in its
/// rows, over any two sets of columns: its hello, the masked columns and the end of the session. They are as many as
/// those of a hello, 512 frames with a column of one bit a row, and an end. There are as many rows of all as
/// that many items have with the stash of the deal, and both sets are clean.
///
/// With the words of placed items and the columns of the deal's seeds this is what a session sends. It
/// is refused only where memory is wanting.
pub fn receiver_stream(
    alloc: Global,
    deal: &ReceiverDeal,
    count: u32,
    words: &Rows,
    zeros: &Columns,
    ones: &Columns,
) -> Result<Vec<u8>, NoMemory>
    requires words { length words.now ≡ rows_for deal.now.stash count }
    requires zeros { zeros.now.rows ≡ rows_for deal.now.stash count }
    requires ones { ones.now.rows ≡ rows_for deal.now.stash count }
    requires zeros_clean { IsCleanMatrix zeros.now }
    requires ones_clean { IsCleanMatrix ones.now }
    ensures { IfOk result (λ stream. stream.items ≡ columns_stream deal.now.id deal.now.session count
        (masked_columns words.now (record { zeros = zeros.now.columns; ones = ones.now.columns }))) }
{
    let mut sent = Columns::zero(alloc, zeros.rows())?;
    mask(zeros, ones, words, &mut sent);
    let column = COLUMN_HEAD + sent.rows().div_ceil(8);
    let mut outbox = Outbox::with_room(alloc, column.max(HELLO_SIZE))?;
    let mut stream = Vec::with_capacity(alloc, (HELLO_SIZE + 512 * column + DONE_SIZE) as usize)?;
    let hello = Frame::ReceiverHello {
        id: *deal.id(),
        session: deal.session(),
        count,
    };
    add_frame(&mut stream, &mut outbox, &hello)?;
    add_columns(&mut stream, &mut outbox, &sent)?;
    add_frame(&mut stream, &mut outbox, &Frame::Done)?;
    Ok(stream)
}
