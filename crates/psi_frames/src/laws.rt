//! Laws of frames. Each function does nothing: its contract is the law.
ghost use Rattle.psi_frames.specs.Laws.{FieldsFill, OrderBySorting, TagsByPlace, NoneBelowZeros, WrongStays, OneOfThree, OneFrame, FedInPieces, ReadsWritten, RefusedTakesNone};
ghost use Rattle.psi_frames.specs.ScriptLaws.{OwedGrows, OwesAll, OwesOn, ReadingStays, ReadsAwaited, ReadsFrames, ReadsOn, TakesAwaited};
ghost use Rattle.psi_frames.specs.Valid.{ValidByParts};

/// The fields of a frame fill it. Tags stand one after another; they are in order exactly where they rise
/// from their floor on, and none is below the zero floor of a first block.
pub fn fields()
    ensures fill { FieldsFill }
    ensures places { TagsByPlace }
    ensures order { OrderBySorting }
    ensures floor { NoneBelowZeros }
{}

/// The bytes in an expected frame's place begin it, are it or have a wrong field, and just one of
/// these; a wrong field is the first one whatever follows; and no bytes are two frames.
pub fn judging()
    ensures stays { WrongStays }
    ensures three { OneOfThree }
    ensures one { OneFrame }
{}

/// A frame may come exactly where its parts fit their fields and are those that are expected.
pub fn valid_frames()
    ensures { ValidByParts }
{}

/// However the bytes of a frame are cut, the inbox holds the same.
pub fn feeding()
    ensures { FedInPieces }
{}

/// The bytes of a frame that may come are read as that frame, whatever follows it.
pub fn reading()
    ensures { ReadsWritten }
{}

/// After a refusal an inbox takes nothing more.
pub fn refusing()
    ensures { RefusedTakesNone }
{}

/// A script reads bytes frame by frame. They read well, badly or short exactly where they are frames that are
/// due, and then nothing is, a field of the next is wrong, or the next is only begun. A reading that is not short
/// stays, whatever follows. The frames that are taken of bytes are those that are awaited, where they are there.
pub fn readings()
    ensures exact { ReadsFrames }
    ensures awaited { ReadsAwaited }
    ensures on { ReadsOn }
    ensures stays { ReadingStays }
    ensures frames { TakesAwaited }
{}

/// What a script owes is owed frame by frame, and what is owed for some bytes is a front of what is owed for
/// more.
pub fn owing()
    ensures all { OwesAll }
    ensures on { OwesOn }
    ensures grows { OwedGrows }
{}
