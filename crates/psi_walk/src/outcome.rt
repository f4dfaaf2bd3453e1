// What a run answers.
ghost use Rattle.std.specs.Prelude.{◌≡◌, None};
ghost use Rattle.psi_base.specs.Outside.{Outside};
ghost use Rattle.psi_walk.specs.Tree.{end_of, ended};
ghost use Rattle.psi_walk.specs.declared.outcome.Placements.TheVariants as placements;

use psi_cuckoo::Placement;
use psi_texts::Status;

/// The placements of the sets that a command placed, in the order in which it placed them.
#[derive(Drop)]
pub enum Placements {
    /// No set was placed.
    None,
    /// One set was.
    One(Placement),
    /// Two sets were.
    Two(Placement, Placement),
    /// As many sets as the list has: the room is taken before the first is placed.
    Many(Vec<Placement>),
}

/// All that a run answers.
#[derive(Drop)]
pub struct Outcome {
    /// How it ended.
    pub status: Status,
    /// The placements of the receiver's sets that the command placed: none in a command that places no set, and none
    /// where a set has no placement. Where memory was wanting, those of placed sets may be missing.
    pub placements: Placements,
    /// The SHA-256 of all bytes that both ends of a session exchanged, in the order of the wire: only where `local`
    /// or `trial` is done.
    pub wire: Option<[u8; 32]>,
}

impl Outcome {
    /// How a command ended that placed no set and ran no session of both ends.
    pub fn of(status: Status) -> Outcome
        ensures { result ≡ record { status = status; placements = placements.None; wire = None } }
    {
        Outcome {
            status,
            placements: Placements::None,
            wire: None,
        }
    }
}

/// The outcome, or one of a status that was answered before there was one.
pub fn outcome_of(answer: Result<Outcome, Status>) -> Outcome
    ensures { (after : Outside) → ended result after ≡ end_of answer after }
{
    match answer {
        Ok(outcome) => outcome,
        Err(status) => Outcome::of(status),
    }
}
