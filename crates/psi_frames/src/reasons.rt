// Why a frame is refused.
ghost use Rattle.std.specs.Prelude.{◌≡◌};
ghost use Rattle.psi_frames.specs.Reasons.{number_of_reason};

/// What is wrong with a field: the value that was found, and the one that was wanted.
#[derive(Clone, Copy, Debug, PartialEq, Eq)]
pub enum Reason {
    /// Another kind of frame.
    Kind { found: u8, wanted: u8 },
    /// Another length of the payload, in bytes.
    Length { found: u32, wanted: u32 },
    /// The version is not 1.
    Version { found: u8 },
    /// The id of another deal.
    Deal { found: [u8; 16] },
    /// The number of another session.
    Session { found: u64 },
    /// More items than a list may have.
    Count { found: u32 },
    /// Another column, or another block of tags.
    Index { found: u32, wanted: u32 },
    /// A bit behind the last row is set in `byte`, the last of a column.
    Padding { byte: u8 },
    /// The tag at the place `at` of the frame, counted from 0, is below the tag before it.
    Order { at: u16 },
    /// Another list of tags.
    List { found: u8, wanted: u8 },
}

impl Reason {
    /// The number of the reason: 1 to 10, in the order of the enum.
    pub fn number(&self) -> u8
        ensures { result ≡ number_of_reason self.now }
    {
        match self {
            Reason::Kind { .. } => 1,
            Reason::Length { .. } => 2,
            Reason::Version { .. } => 3,
            Reason::Deal { .. } => 4,
            Reason::Session { .. } => 5,
            Reason::Count { .. } => 6,
            Reason::Index { .. } => 7,
            Reason::Padding { .. } => 8,
            Reason::Order { .. } => 9,
            Reason::List { .. } => 10,
        }
    }
}

/// A frame that was refused.
#[derive(Clone, Copy, Debug, PartialEq, Eq)]
pub struct BadFrame {
    /// The place of the frame's first byte among all that came, counted from 0.
    pub offset: u64,
    /// What is wrong with its first wrong field.
    pub reason: Reason,
}
