// The words of which tags are made.
ghost use Rattle.std.specs.Prelude.{◌≡◌, ◌≤◌, ◌<◌, ◌+◌, ℕ, [], IfOk, length, slice_index_or};
ghost use Rattle.psi_spec.specs.Columns.{row_of};
ghost use Rattle.psi_spec.specs.Deals.{zero_columns};
ghost use Rattle.psi_spec.specs.Limits.{row_limit};
ghost use Rattle.psi_audit.specs.Naming.{AreInputs, AreRowsOf};

use crate::inputs::Inputs;
use psi_base::{NoMemory, rows};
use psi_bits::{Columns, Rows};
use psi_deal::ReceiverDeal;
use psi_lanes::flip;
use psi_receiver::row_words;
use std::alloc::Global;

/// Two words of each row: that of the zero columns, and the code of the item that is placed there.
#[derive(Drop)]
pub(crate) struct SessionRows {
    /// The words of the zero columns.
    pub(crate) zero: Rows,
    /// The codes, and zero words where no item is placed.
    pub(crate) words: Rows,
}

// So many rows of the zero columns.
fn zero_rows(alloc: Global, deal: &ReceiverDeal, count: u32) -> Result<Rows, NoMemory>
    requires some { 1 ≤ count }
    requires few { count ≤ row_limit }
    ensures count { IfOk result (λ made. length made ≡ count) }
    ensures rows { IfOk result (λ made. (row : ℕ) → row < count →
        slice_index_or made row [] ≡ row_of (zero_columns deal.now count) row) }
{
    let mut zeros = Columns::zero(alloc, count)?;
    let mut made = Rows::with_rows(alloc, count)?;
    deal.zero_columns(&mut zeros);
    flip(&zeros, &mut made);
    Ok(made)
}

impl SessionRows {
    /// The rows of a session. It is refused only where memory is wanting.
    pub(crate) fn new(alloc: Global, inputs: &Inputs<'_>) -> Result<SessionRows, NoMemory>
        requires { AreInputs inputs.now }
        ensures { IfOk result (AreRowsOf inputs.now) }
    {
        let count = rows(inputs.own.len(), inputs.receiver.stash());
        let zero = zero_rows(alloc, inputs.receiver, count)?;
        let mut words = Rows::with_rows(alloc, count)?;
        row_words(
            inputs.own,
            inputs.digests,
            inputs.receiver.key(),
            inputs.placement,
            &mut words,
        );
        Ok(SessionRows { zero, words })
    }
}
