// The outside as a trait with one ghost record, and a loop over its prints.
ghost use Rattle.std.specs.Prelude.{◌<◌, length, IsSome, IsTrue};
ghost use Rattle.psi_base.specs.Outside.{Known, Outside, Opens, Prints, PrintsAll, Reads, Receives, Sends, Writes, as_list, link_to};

use crate::{Failed, Fault, ReadFault, Side};
use std::alloc::Global;

/// The outside of a run: its files, the text that it prints, and its link to a peer.
///
/// A call that is done raises no count, but for a receive that finds the end of the link. A call that is
/// refused raises the count of its cause and changes nothing else, but for a write, which may leave a
/// front of the bytes. How the link was opened last is told in every outside, as the counts are. No call
/// tells whether the outside is steady.
pub trait World {
    /// What the outside holds, as far as it tells, and how often a call of it was refused.
    ghost outside: { Self → Outside };

    /// What a read of the file of a name may answer, what a receive may take, and which call fails for its name
    /// or address. Nothing but such a call makes it known, so what rests on a content or on a failure rests on a
    /// call that gave it, also in an outside that tells no files.
    ghost known: { Known };

    /// The whole content of the file of this name, which has at most `max` bytes.
    ///
    /// `Failed` comes only where the count of file faults rose, as for a missing file, and in a steady
    /// outside only for a missing file. `TooLong` comes only where more than `max` bytes of the file were
    /// taken. `NoMemory` comes where memory for the content is wanting, and is not counted.
    fn read_file(&mut self, alloc: Global, name: &str, max: u32) -> Result<Vec<u8>, ReadFault>
        ensures { Reads known (outside self.old) name.now max (as_list result) (outside self.new) };

    /// Leaves just these bytes in the file of this name.
    ///
    /// `Failed` comes only where the count of file faults rose, and `NoMemory` only where the count of
    /// refusals rose. After a refused write the file is as before, or has a front of the bytes.
    fn write_file(&mut self, name: &str, bytes: &[u8]) -> Result<(), Fault>
        ensures { Writes known (outside self.old) name.now bytes.now result (outside self.new) };

    /// Prints a front of the bytes, at least one of them, and answers how many bytes that were.
    ///
    /// `Failed` comes only where the count of print faults rose, and `NoMemory` only where the count of
    /// refusals rose. A refused print prints nothing.
    fn print(&mut self, bytes: &[u8]) -> Result<usize, Fault>
        requires { 0 < length bytes.now }
        ensures { Prints (outside self.old) bytes.now result (outside self.new) };

    /// Opens the link to a peer, which is then ready: connects to the address, or waits there for one connection.
    ///
    /// `Failed` comes only where the count of link faults rose, and `NoMemory` only where the count of
    /// refusals rose. A refused opening leaves the link as it was.
    fn open_link(&mut self, side: Side, address: &str) -> Result<(), Fault>
        ensures { Opens known (outside self.old) (link_to side address.now) result (outside self.new) };

    /// Takes the next bytes of the link into the front of the buffer, and answers how many they are.
    ///
    /// No bytes are taken only where the count of ends rose and nothing more comes. `Failed` comes only
    /// where the count of link faults rose; then nothing was taken, and the buffer may hold anything.
    fn recv(&mut self, buf: &mut [u8]) -> Result<usize, Failed>
        requires ready { IsTrue (outside self.old).ready }
        requires room { 0 < length buf.old }
        ensures { Receives known (outside self.old) result buf.new (outside self.new) };

    /// Sends a front of the bytes, at least one of them, and answers how many bytes that were.
    ///
    /// `Failed` comes only where the count of link faults rose, and `NoMemory` only where the count of
    /// refusals rose. A refused send sends nothing.
    fn send(&mut self, bytes: &[u8]) -> Result<usize, Fault>
        requires ready { IsTrue (outside self.old).ready }
        requires some { 0 < length bytes.now }
        ensures { Sends (outside self.old) bytes.now result (outside self.new) };

    /// A steady outside tells its files.
    ghost tells: { (world : Self) → IsTrue (outside world).steady → IsSome (outside world).files };
}

/// Prints all the bytes, by as many prints as that takes.
///
/// Where a print is refused, its refusal is answered, and the bytes before it stay printed.
pub fn print_all<W: World>(world: &mut W, bytes: &[u8]) -> Result<(), Fault>
    ensures { PrintsAll (W.outside world.old) bytes.now result (W.outside world.new) }
{
    let mut done = 0;
    while done < bytes.len() {
        done += world.print(&bytes[done..])?;
    }
    Ok(())
}
