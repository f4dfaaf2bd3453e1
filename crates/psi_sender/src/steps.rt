// The steps of a session, each over its memory.
ghost use Rattle.std.specs.Prelude.{◌≡◌, ◌≤◌, ◌<◌, ◌+◌, ℕ, [], length, map, take, slice_index_or};
ghost use Rattle.psi_spec.specs.Bits.{bit_of};
ghost use Rattle.psi_spec.specs.Columns.{column_bytes, row_of};
ghost use Rattle.psi_spec.specs.ColumnSets.{opened_column};
ghost use Rattle.psi_spec.specs.Limits.{limit_items};
ghost use Rattle.psi_spec.specs.Matrices.{IsClean, column_of, with_column};
ghost use Rattle.psi_spec.specs.Frames.{layout};
ghost use Rattle.psi_spec.specs.Streams.{block_frame, blocks_for};
ghost use Rattle.psi_spec.specs.TagLists.{tag_list};
ghost use Rattle.psi_frames.specs.Boxes.{with_added};
ghost use Rattle.psi_sender.specs.Phases.{next_phase, phase_after_column};
ghost use Rattle.psi_sender.specs.Running.{IsAnswering, IsMemory, side_over};

use crate::answer::{make_list, put_block};
use crate::memory::Memory;
use crate::phase::{Phase, phase_after};
use psi_base::bins;
use psi_deal::SenderDeal;
use psi_frames::BLOCK_TAGS;
use psi_items::Items;
use psi_lanes::flip;
use psi_oprf::open_column;

/// Opens a column by the masked one that came, and answers what comes next. After the last one the rows are those
/// of the columns.
pub(crate) fn open_next(
    deal: &SenderDeal,
    items: &Items,
    memory: &mut Memory,
    index: u16,
    bytes: &[u8],
) -> Phase
    requires index { index < 512 }
    requires long { length bytes.now ≡ column_bytes memory.old.columns.rows }
    requires clean { IsClean memory.old.columns.rows bytes.now }
    requires rows { length memory.old.rows ≡ memory.old.columns.rows }
    ensures memory { memory.new ≡ record memory.old { columns = memory.new.columns; rows = memory.new.rows } }
    ensures columns { memory.new.columns ≡ with_column memory.old.columns index
        (opened_column (bit_of deal.now.choice index) (column_of memory.old.columns index) bytes.now) }
    ensures count { length memory.new.rows ≡ length memory.old.rows }
    ensures rows { 511 ≤ index → (j : ℕ) → j < memory.new.columns.rows →
        slice_index_or memory.new.rows j [] ≡ row_of memory.new.columns.columns j }
    ensures phase { result ≡ phase_after_column index (length items.now) }
{
    open_column(&mut memory.columns, deal.choice(), index, bytes);
    if index < 511 {
        return Phase::Columns { next: index + 1 };
    }
    flip(&memory.columns, &mut memory.rows);
    if items.is_empty() {
        Phase::Done
    } else {
        Phase::Tags { list: 0, block: 0 }
    }
}

// Makes the tags of a list with its first block.
fn ready_tags(
    deal: &SenderDeal,
    items: &Items,
    count: u32,
    memory: &mut Memory,
    list: u8,
    block: u32,
)
    requires few { count ≤ limit_items }
    requires holds { IsMemory deal.now items.now count memory.old }
    requires answering { IsAnswering deal.now items.now count memory.old list block }
    ensures memory { memory.new ≡ record memory.old { tags = memory.new.tags } }
    ensures count { length memory.new.tags.items ≡ length memory.old.tags.items }
    ensures made { map (λ tag. take deal.now.tag_length tag) memory.new.tags.items
        ≡ tag_list (side_over deal.now count memory.old.columns.columns) items.now list }
{
    if block == 0 {
        make_list(
            deal,
            bins(count),
            list,
            memory.rows.words(),
            &memory.hashes,
            &mut memory.tags,
        );
    }
}

/// Puts the frame of a block of a list, whose tags are made with its first block, and answers what comes next.
pub(crate) fn put_tags(
    deal: &SenderDeal,
    items: &Items,
    count: u32,
    memory: &mut Memory,
    list: u8,
    block: u32,
) -> Phase
    requires few { count ≤ limit_items }
    requires holds { IsMemory deal.now items.now count memory.old }
    requires answering { IsAnswering deal.now items.now count memory.old list block }
    requires empty { memory.old.outbox.pending ≡ [] }
    ensures memory { memory.new ≡ record memory.old {
      tags = memory.new.tags;
      block = memory.new.block;
      outbox = memory.new.outbox;
    } }
    ensures holds { IsMemory deal.now items.now count memory.new }
    ensures made { map (λ tag. take deal.now.tag_length tag) memory.new.tags.items
        ≡ tag_list (side_over deal.now count memory.old.columns.columns) items.now list }
    ensures outbox { memory.new.outbox ≡ with_added
        (layout (block_frame list (tag_list (side_over deal.now count memory.old.columns.columns) items.now list) block))
        memory.old.outbox }
    ensures phase { result ≡ next_phase list block (3 + deal.now.stash) (blocks_for (length items.now)) }
{
    ready_tags(deal, items, count, memory, list, block);
    put_block(
        list,
        block,
        deal.tag_length(),
        &memory.tags,
        &mut memory.block,
        &mut memory.outbox,
    );
    phase_after(
        list,
        block,
        3 + deal.stash(),
        items.len().div_ceil(BLOCK_TAGS),
    )
}
