// What takes down a session.
ghost use Rattle.std.specs.Prelude.{◌≡◌, OnOk};
ghost use Rattle.psi_session.specs.Transcripts.{Hearing, HearsOn};

use psi_base::NoMemory;

/// What takes the bytes of a session as they pass, in the order of the wire.
pub trait Transcript {
    /// What stands of it against the transcript that it was before, once these bytes passed.
    ghost hears: { Self → Hearing Self };

    /// Takes the next bytes. It is refused only where memory is wanting.
    fn add(&mut self, bytes: &[u8]) -> Result<(), NoMemory>
        ensures { OnOk result (HearsOn (hears self.old) (hears self.new) bytes.now) };
}
