// The two files of `twin`: what the receiver sends, and the columns over which it sends the same of another set.
ghost use Rattle.std.specs.Prelude.{◌≡◌, ◌≤◌, IfOk, OnOk, length};
ghost use Rattle.psi_spec.specs.Changes.{change as changed_sets, columns_file};
ghost use Rattle.psi_spec.specs.ColumnSets.{masked_columns};
ghost use Rattle.psi_spec.specs.Deals.{one_columns, zero_columns};
ghost use Rattle.psi_spec.specs.Limits.{row_limit, rows_for};
ghost use Rattle.psi_spec.specs.Matrices.{IsCleanMatrix};
ghost use Rattle.psi_spec.specs.Streams.{columns_stream};
ghost use Rattle.psi_twin.specs.Twin.{dealt_for};

use psi_base::NoMemory;
use psi_bits::{Columns, Rows, Word512};
use psi_deal::{ReceiverDeal, SenderDeal};
use psi_oprf::change;
use psi_receiver::receiver_stream;
use std::alloc::Global;

/// The files that `twin` writes.
#[derive(Drop)]
pub struct TwinFiles {
    /// The receiver's stream of the first set.
    pub stream: Vec<u8>,
    /// The changed columns.
    pub columns: Vec<u8>,
}

// The zero columns and the one columns of a deal, with so many rows.
fn dealt_columns(
    alloc: Global,
    deal: &ReceiverDeal,
    rows: u32,
) -> Result<(Columns, Columns), NoMemory>
    requires least { 1 ≤ rows }
    requires most { rows ≤ row_limit }
    ensures zeros { IfOk result (λ made. made.0 ≡ record { rows = rows; columns = zero_columns deal.now rows }) }
    ensures ones { IfOk result (λ made. made.1 ≡ record { rows = rows; columns = one_columns deal.now rows }) }
    ensures zeros_clean { IfOk result (λ made. IsCleanMatrix made.0) }
    ensures ones_clean { IfOk result (λ made. IsCleanMatrix made.1) }
{
    let mut zeros = Columns::zero(alloc, rows)?;
    let mut ones = Columns::zero(alloc, rows)?;
    deal.columns(&mut zeros, &mut ones);
    Ok((zeros, ones))
}

// Changes the columns that are not chosen by what both lists of row words differ in, and lets go of these.
fn change_columns(
    alloc: Global,
    zeros: &mut Columns,
    ones: &mut Columns,
    choice: &Word512,
    words: Rows,
    others: Rows,
) -> Result<(), NoMemory>
    requires ones { ones.old.rows ≡ zeros.old.rows }
    requires words { length words ≡ zeros.old.rows }
    requires others { length others ≡ zeros.old.rows }
    ensures sets { OnOk result (record { zeros = zeros.new.columns; ones = ones.new.columns }
        ≡ changed_sets choice.now words others (record { zeros = zeros.old.columns; ones = ones.old.columns })) }
    ensures rows { OnOk result (ones.new.rows ≡ zeros.new.rows) }
{
    let mut room = Columns::zero(alloc, zeros.rows())?;
    change(zeros, ones, choice, &words, &others, &mut room);
    Ok(())
}

// The file of columns, which have the same number of rows: of each number the zero column, and then the one column.
fn columns_file(alloc: Global, zeros: &Columns, ones: &Columns) -> Result<Vec<u8>, NoMemory>
    requires { ones.now.rows ≡ zeros.now.rows }
    ensures { IfOk result (λ bytes. bytes.items
        ≡ columns_file (record { zeros = zeros.now.columns; ones = ones.now.columns })) }
{
    let mut bytes = Vec::with_capacity(alloc, 1024 * (zeros.rows() as usize).div_ceil(8))?;
    for c in 0..512u16 {
        bytes.extend_from_slice(zeros.column(c))?;
        bytes.extend_from_slice(ones.column(c))?;
    }
    Ok(bytes)
}

/// Makes the files of a pair of deals and of two placed sets of `count` items, from the words of their rows: the stream
/// of the first over the dealt columns, and the columns over which the second has that stream, which are the dealt ones
/// but for those that the sender did not choose. It is refused only where memory is wanting.
pub fn twin_files(
    alloc: Global,
    deals: &(ReceiverDeal, SenderDeal),
    count: u32,
    words: Rows,
    others: Rows,
) -> Result<TwinFiles, NoMemory>
    requires words { length words ≡ rows_for deals.now.0.stash count }
    requires others { length others ≡ rows_for deals.now.0.stash count }
    ensures stream { IfOk result (λ files. files.stream.items
        ≡ columns_stream deals.now.0.id deals.now.0.session count
        (masked_columns words (dealt_for deals.now.0 count))) }
    ensures columns { IfOk result (λ files. files.columns.items
        ≡ columns_file (changed_sets deals.now.1.choice words others (dealt_for deals.now.0 count))) }
{
    let (mut zeros, mut ones) = dealt_columns(alloc, &deals.0, words.rows())?;
    let stream = receiver_stream(alloc, &deals.0, count, &words, &zeros, &ones)?;
    change_columns(
        alloc,
        &mut zeros,
        &mut ones,
        deals.1.choice(),
        words,
        others,
    )?;
    let columns = columns_file(alloc, &zeros, &ones)?;
    Ok(TwinFiles { stream, columns })
}
