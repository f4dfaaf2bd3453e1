// The recorded frames against those of a session that is played.
ghost use Rattle.std.specs.Prelude.{◌≡◌, ◌≤◌, [], length, drop};
ghost use Rattle.psi_audit.specs.Comparing.{shared_from};

use psi_base::NoMemory;
use psi_session::Transcript;
use std::marker::Model;

/// The first place at which recorded bytes and those of the session differ, and both bytes there.
#[derive(Clone, Copy, Debug, PartialEq, Eq)]
pub(crate) struct Difference {
    /// The place, counted from the first recorded byte.
    pub(crate) place: usize,
    /// The byte that is recorded.
    pub(crate) found: u8,
    /// The byte of the session.
    pub(crate) wanted: u8,
}

/// Recorded bytes that are compared with those of a session, piece by piece.
#[derive(Drop)]
pub(crate) struct Comparison<'a> {
    /// The recorded bytes.
    recorded: &'a [u8],
    /// How many of them were compared.
    compared: usize,
    /// The first difference so far.
    difference: Option<Difference>,
}

impl<'a> Model for Comparison<'a> {
    ghost use Rattle.std.specs.Prelude.{◌≤◌, length};
    ghost use Rattle.psi_audit.specs.Comparing.{Compared};

    ghost Value = { Compared };

    ghost view = { λ c. record {
      recorded = c.recorded.now;
      compared = c.compared;
      difference = c.difference;
    } };

    ghost invariant = { λ c. c.compared ≤ length c.recorded.now };
}

// The first difference of these bytes from the recorded ones from `start` on, as far as both go.
fn first_shared_difference(recorded: &[u8], start: usize, bytes: &[u8]) -> Option<Difference>
    requires { start ≤ length recorded.now }
    ensures { result ≡ shared_from start (drop start recorded.now) bytes.now }
{
    for i in 0..bytes.len().min(recorded.len() - start) {
        let place = start + i;
        if recorded[place] != bytes[i] {
            return Some(Difference {
                place,
                found: recorded[place],
                wanted: bytes[i],
            });
        }
    }
    None
}

impl<'a> Comparison<'a> {
    ghost use Rattle.psi_audit.specs.Comparing.{IsCompared};

    /// The comparison of recorded bytes with those of a session, of which none came yet.
    pub(crate) fn new(recorded: &'a [u8]) -> Comparison<'a>
        ensures { IsCompared recorded.now [] result }
    {
        Comparison {
            recorded,
            compared: 0,
            difference: None,
        }
    }

    /// The first difference so far.
    pub(crate) fn difference(&self) -> Option<Difference>
        ensures { result ≡ self.now.difference }
    {
        self.difference
    }
}

impl<'a> Transcript for Comparison<'a> {
    ghost use Rattle.psi_audit.specs.Comparing.{IsCompared};

    ghost hears = { λ c first bytes. IsCompared first.recorded bytes c };

    fn add(&mut self, bytes: &[u8]) -> Result<(), NoMemory> {
        if self.difference.is_none() {
            self.difference = first_shared_difference(self.recorded, self.compared, bytes);
            self.compared += bytes.len().min(self.recorded.len() - self.compared);
        }
        Ok(())
    }
}
