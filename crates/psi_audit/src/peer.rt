// The tags of the sender's items.
ghost use Rattle.std.specs.Prelude.{◌≡◌, ◌≤◌, ◌<◌, ◌+◌, All, length};
ghost use Rattle.psi_spec.specs.Limits.{bins_for};
ghost use Rattle.psi_audit.specs.Naming.{AreInputs, AreRowsOf, IsHashed, hashed_tag, rows_in, setup_in, word_tag};

use crate::inputs::Inputs;
use crate::rows::SessionRows;
use psi_base::bins;
use psi_bits::Word512;
use psi_items::digest;
use psi_oprf::{Tag, candidates, code, peer_tag};

/// What is hashed of an item of the sender once.
#[derive(Drop)]
pub(crate) struct PeerItem {
    /// The digest.
    pub(crate) digest: [u8; 32],
    /// The three bins.
    pub(crate) bins: [u32; 3],
    /// The code at index 0, which serves all rows of the stash.
    pub(crate) stash_code: Word512,
}

// The tag of a code at a row, as the sender makes it.
fn word_tag(inputs: &Inputs<'_>, rows: &SessionRows, row: u32, code: &Word512) -> Tag
    requires inputs { AreInputs inputs.now }
    requires rows { AreRowsOf inputs.now rows.now }
    requires row { row < rows_in inputs.now }
    ensures { result ≡ word_tag (setup_in inputs.now) row code.now }
{
    peer_tag(
        inputs.receiver.key(),
        inputs.receiver.tag_length(),
        row,
        rows.zero.row(row),
        inputs.sender.choice(),
        &rows.words.row(row).xor(code),
    )
}

impl PeerItem {
    /// The hashes of an item for so many bins.
    pub(crate) fn new(key: &[u8; 16], bins: u32, item: &[u8]) -> PeerItem
        requires { 1 ≤ bins }
        ensures { IsHashed key.now bins item.now result }
    {
        let digest = digest(item);
        PeerItem {
            digest,
            bins: candidates(key, &digest, bins),
            stash_code: code(key, 0, &digest),
        }
    }

    /// The tag of the item in a list.
    pub(crate) fn tag(&self, inputs: &Inputs<'_>, rows: &SessionRows, list: u32) -> Tag
        requires inputs { AreInputs inputs.now }
        requires rows { AreRowsOf inputs.now rows.now }
        requires list { list < 3 + inputs.now.receiver.now.stash }
        requires bins { All (λ row. row < bins_for (length inputs.now.own.now)) self.now.bins }
        ensures { result ≡ hashed_tag (setup_in inputs.now) list self.now }
    {
        if list < 3 {
            let row = self.bins[list as usize];
            let code = code(inputs.receiver.key(), list as u8 + 1, &self.digest);
            word_tag(inputs, rows, row, &code)
        } else {
            let row = bins(inputs.own.len()) + (list - 3);
            word_tag(inputs, rows, row, &self.stash_code)
        }
    }
}
