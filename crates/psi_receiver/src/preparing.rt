// What a session is made of.
ghost use Rattle.std.specs.Prelude.{◌≡◌, ◌<◌, ℕ, [], IfOk, length, map, slice_index_or};
ghost use Rattle.psi_spec.specs.Columns.{row_of};
ghost use Rattle.psi_spec.specs.ColumnSets.{masked_columns};
ghost use Rattle.psi_spec.specs.Deals.{zero_columns};
ghost use Rattle.psi_spec.specs.Formulas.{item_digest};
ghost use Rattle.psi_spec.specs.Limits.{bins_for, rows_for};
ghost use Rattle.psi_spec.specs.Matrices.{IsCleanMatrix};
ghost use Rattle.psi_spec.specs.Meeting.{placed_of};
ghost use Rattle.psi_spec.specs.Placement.{IsPlacementOf};
ghost use Rattle.psi_spec.specs.Sessions.{dealt_masked};
ghost use Rattle.psi_spec.specs.Streams.{dealt_sets};
ghost use Rattle.psi_receiver.specs.Own.{AreOwnTags, AreUnmarked, marks_of};

use crate::inputs::Inputs;
use crate::own::{OwnTags, own_tags};
use crate::rows::row_words;
use psi_base::{NoMemory, rows};
use psi_bits::{Columns, Rows};
use psi_deal::ReceiverDeal;
use psi_lanes::{flip, flip_back};
use psi_oprf::xor_columns;
use std::alloc::Global;

/// What a session is made of.
#[derive(Drop)]
pub(crate) struct Prepared {
    /// The masked columns, which are sent.
    pub(crate) sent: Columns,
    /// The own tags of the items.
    pub(crate) own: OwnTags,
}

// The rows of the zero columns, and the masked columns that hide these words. One matrix has the zero columns and then
// the one columns, and the words give their room to the rows.
fn masked(alloc: Global, deal: &ReceiverDeal, words: Rows) -> Result<(Rows, Columns), NoMemory>
    ensures count { IfOk result (λ made. length made.0 ≡ length words) }
    ensures own { IfOk result (λ made. (row : ℕ) → row < length words →
        slice_index_or made.0 row [] ≡ row_of (zero_columns deal.now (length words)) row) }
    ensures sent { IfOk result (λ made. made.1 ≡ record {
      rows = length words;
      columns = masked_columns words (dealt_sets deal.now (length words));
    }) }
    ensures clean { IfOk result (λ made. IsCleanMatrix made.1) }
{
    let mut sent = Columns::zero(alloc, words.rows())?;
    let mut dealt = Columns::zero(alloc, words.rows())?;
    flip_back(&words, &mut sent);
    deal.zero_columns(&mut dealt);
    let mut own = words;
    flip(&dealt, &mut own);
    xor_columns(&mut sent, &dealt);
    deal.one_columns(&mut dealt);
    xor_columns(&mut sent, &dealt);
    Ok((own, sent))
}

/// Makes all that a session is made of, for items with these digests and slots. It is refused only where memory is
/// wanting, and takes three matrices at most, of which it leaves one.
pub(crate) fn prepare(alloc: Global, inputs: &Inputs<'_, '_>) -> Result<Prepared, NoMemory>
    requires digests { inputs.now.digests.now ≡ map item_digest inputs.now.items.now }
    requires placed { IsPlacementOf inputs.now.deal.now.stash inputs.now.deal.now.key
        (bins_for (length inputs.now.items.now)) inputs.now.items.now inputs.now.placement.now }
    ensures sent { IfOk result (λ made. made.sent ≡ record {
      rows = rows_for inputs.now.deal.now.stash (length inputs.now.items.now);
      columns = dealt_masked inputs.now.deal.now (placed_of inputs.now.items.now inputs.now.placement.now);
    }) }
    ensures clean { IfOk result (λ made. IsCleanMatrix made.sent) }
    ensures own { IfOk result (λ made. AreOwnTags inputs.now.deal.now inputs.now.placement.now made.own) }
    ensures unmarked { IfOk result (λ made. AreUnmarked (marks_of made.own)) }
{
    let deal = inputs.deal;
    let mut words = Rows::with_rows(alloc, rows(inputs.items.len(), deal.stash()))?;
    row_words(
        inputs.items,
        inputs.digests,
        deal.key(),
        inputs.placement,
        &mut words,
    );
    let (own_rows, sent) = masked(alloc, deal, words)?;
    let own = own_tags(alloc, deal, inputs.placement, &own_rows)?;
    Ok(Prepared { sent, own })
}
