// How far a session has come.
ghost use Rattle.std.specs.Prelude.{◌≡◌, ◌<◌};
ghost use Rattle.psi_sender.specs.Phases.{next_phase};

/// What comes next in a session, once nothing is to be sent.
#[derive(Clone, Copy, Debug, PartialEq, Eq)]
pub(crate) enum Phase {
    /// The column with this index is awaited, 0 to 511.
    Columns { next: u16 },
    /// The frame of this block of this list is sent.
    Tags { list: u8, block: u32 },
    /// The end of the session is awaited.
    Done,
    /// Nothing.
    Over,
}

/// What comes after the frame of a block of a list, where there are so many lists of so many blocks each.
pub(crate) fn phase_after(list: u8, block: u32, lists: u8, blocks: u32) -> Phase
    requires list { list < lists }
    requires block { block < blocks }
    ensures { result ≡ next_phase list block lists blocks }
{
    if block + 1 < blocks {
        return Phase::Tags {
            list,
            block: block + 1,
        };
    }
    if list + 1 < lists {
        return Phase::Tags {
            list: list + 1,
            block: 0,
        };
    }
    Phase::Done
}
