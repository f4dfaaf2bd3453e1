// How a run ends.
ghost use Rattle.std.specs.Prelude.{◌≡◌};
ghost use Rattle.psi_texts.specs.Texts.{number_of_status};
ghost use Rattle.psi_texts.specs.declared.status.Status.TheVariants as status;

use psi_base::{NoMemory, Places};
use psi_cuckoo::BadSlots;
use psi_deal::{BadDeal, DealField};
use psi_frames::BadFrame;
use psi_items::BadItems;
use psi_log::BadRecord;
use std::alloc::AllocError;

/// How a run ended. The words of a command are counted from its name, which is word 0.
#[derive(Debug, Drop, PartialEq, Eq)]
pub enum Status {
    /// All was done.
    Done,
    /// The words are not a command: `at` is the least place, counted from 0, whose word fails its form.
    BadWords {
        at: u32,
    },
    /// The item file that this word names has a line with a fault. The fault is never want of memory.
    BadItems {
        word: u8,
        fault: BadItems,
    },
    /// The file that this word names is no deal file of the end that reads it, or in `renew` of version 1. The fault is
    /// never want of memory.
    BadDeal {
        word: u8,
        fault: BadDeal,
    },
    /// The set of the file that this word names has no placement: these items, by their places and rising, name only
    /// `touched` bins, and are more than these and the rows of the stash.
    NoPlacement {
        word: u8,
        items: Places,
        touched: u32,
    },
    /// The peer sent a frame that is refused.
    BadFrame(BadFrame),
    /// The peer sent no more, where the frame that begins at `offset` of its bytes was due.
    PeerEnded {
        offset: u64,
    },
    /// A recorded session is not that of the inputs: at byte `offset` of the record, counted from 0, stands `found`,
    /// where the session has `wanted`. It is the first place at which they differ.
    Differs {
        offset: u64,
        found: u8,
        wanted: u8,
    },
    /// The recorded slots are no placement of the receiver's items. The fault is never want of memory.
    BadSlots(BadSlots),
    /// The record file is no record. The fault is never want of memory.
    BadRecord(BadRecord),
    /// The file that this word names could not be read or written.
    FileFault {
        word: u8,
    },
    /// The link could not be opened, or failed.
    LinkFault,
    /// The text could not be printed whole.
    PrintFault,
    /// The file that this word names has more bytes than are read of it, which is 536,870,912 of a record and
    /// 33,554,432 of any other; `taken` bytes of it were taken, and it has at least as many.
    TooLong {
        word: u8,
        taken: u64,
    },
    /// The two deals are no pair, and this is the first field in which they differ.
    DealsDiffer(DealField),
    /// The two lists of `twin` have different numbers of items.
    SizesDiffer {
        first: u32,
        second: u32,
    },
    /// Memory was wanting.
    NoMemory,
}

impl From<AllocError> for Status {
    ghost from_gives = { λ _ why. why ≡ status.NoMemory };

    fn from(_: AllocError) -> Status {
        Status::NoMemory
    }
}

impl From<NoMemory> for Status {
    ghost from_gives = { λ _ why. why ≡ status.NoMemory };

    fn from(_: NoMemory) -> Status {
        Status::NoMemory
    }
}

/// The number with which the program ends at this status.
pub fn status_number(status: &Status) -> u8
    ensures { result ≡ number_of_status status.now }
{
    match status {
        Status::Done => 0,
        Status::BadWords { .. } => 2,
        Status::BadItems { .. } => 3,
        Status::BadDeal { .. } => 4,
        Status::NoPlacement { .. } => 5,
        Status::BadFrame(_) => 6,
        Status::PeerEnded { .. } => 7,
        Status::Differs { .. } | Status::BadSlots(_) => 8,
        Status::BadRecord(_) => 9,
        Status::FileFault { .. } => 10,
        Status::LinkFault => 11,
        Status::PrintFault => 12,
        Status::TooLong { .. } => 13,
        Status::DealsDiffer(_) => 14,
        Status::SizesDiffer { .. } => 15,
        Status::NoMemory => 70,
    }
}
