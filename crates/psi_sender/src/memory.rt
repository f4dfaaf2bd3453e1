// The memory of a session.
ghost use Rattle.std.specs.Prelude.{◌≡◌, ◌≤◌, [], IfOk};
ghost use Rattle.psi_spec.specs.Deals.{sender_columns};
ghost use Rattle.psi_spec.specs.Limits.{limit_items, rows_for};
ghost use Rattle.psi_sender.specs.Running.{IsMemory};

use crate::hashes::Hashes;
use psi_base::{NoMemory, bins, rows};
use psi_bits::{Columns, Rows};
use psi_deal::SenderDeal;
use psi_frames::{BLOCK_TAGS, Outbox, TAGS_HEAD};
use psi_items::Items;
use psi_oprf::Tag;
use std::alloc::Global;

/// All memory of a session, taken at once.
#[derive(Drop)]
pub(crate) struct Memory {
    /// The chosen columns, of which those whose masked column came are opened.
    pub(crate) columns: Columns,
    /// The rows of the opened columns.
    pub(crate) rows: Rows,
    /// The hashes of the items.
    pub(crate) hashes: Hashes,
    /// The tags of one list.
    pub(crate) tags: Vec<Tag>,
    /// The bytes of the tags of one frame.
    pub(crate) block: Vec<u8>,
    /// What is to be sent, one frame at a time.
    pub(crate) outbox: Outbox,
}

impl Memory {
    /// The memory for a session with a receiver of `count` items: the columns are the chosen ones, and nothing is to
    /// be sent. It is refused only where memory is wanting.
    pub(crate) fn new(
        alloc: Global,
        deal: &SenderDeal,
        items: &Items,
        count: u32,
    ) -> Result<Memory, NoMemory>
        requires { count ≤ limit_items }
        ensures memory { IfOk result (IsMemory deal.now items.now count) }
        ensures chosen { IfOk result (λ memory. memory.columns.columns
            ≡ sender_columns deal.now (rows_for deal.now.stash count)) }
        ensures empty { IfOk result (λ memory. memory.outbox.pending ≡ []) }
    {
        let row_count = rows(count, deal.stash());
        let room = BLOCK_TAGS as usize * usize::from(deal.tag_length().get());
        let mut columns = Columns::zero(alloc, row_count)?;
        let rows = Rows::with_rows(alloc, row_count)?;
        let hashes = Hashes::of(alloc, deal, items, bins(count))?;
        let tags = vec![in alloc; [0; 16]; items.len() as usize]?;
        let block = vec![in alloc; 0; room]?;
        let outbox = Outbox::with_room(alloc, TAGS_HEAD + room as u32)?;
        deal.chosen(&mut columns);
        Ok(Memory {
            columns,
            rows,
            hashes,
            tags,
            block,
            outbox,
        })
    }
}
