//! Laws of records. Each function does nothing: its contract is the law.
ghost use Rattle.psi_log.specs.Laws.{RecordsHaveSizes, RecordsReadBack, WiresEnd, WrittenInPieces};

/// Bytes that are added behind slots, in any pieces, are sealed as the record of those slots and bytes.
pub fn writing()
    ensures { WrittenInPieces }
{}

/// The record of slots and frames is not refused, and holds them.
pub fn reading()
    ensures { RecordsReadBack }
{}

/// The frames of one record are no front of those of another.
pub fn ending()
    ensures { WiresEnd }
{}

/// How many bytes the record of a session has.
pub fn sizes()
    ensures { RecordsHaveSizes }
{}
