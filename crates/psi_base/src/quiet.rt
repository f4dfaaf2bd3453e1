// A steady world in memory.
ghost use Rattle.std.specs.Prelude.{◌≡◌, ◌<◌, length, IsTrue, OnErr, OnOk, option_map, refl};
ghost use Rattle.psi_base.specs.State.{state_of};
ghost use Rattle.psi_base.specs.Steady.{NoneListed};

use crate::{Failed, Fault, MemWorld, NoMemory, ReadFault, Side, World};
use std::alloc::Global;

/// Files, printed bytes and a link in memory. It tells all of them and is steady: a read of a missing
/// file fails, and no other call does.
#[derive(Drop)]
pub struct QuietMem {
    world: MemWorld,
    ghost quiet: { NoneListed (state_of world) },
}

impl QuietMem {
    ghost use Rattle.psi_base.specs.State.{empty_state, state_with_file, state_with_incoming, state_with_most};
    ghost use Rattle.psi_base.specs.Quiet.{quiet_of};
    ghost use Rattle.psi_base.specs.Outside.{link_to};

    /// No files, no bytes, and a link that is not ready.
    pub fn new(alloc: Global) -> QuietMem
        ensures { quiet_of result ≡ empty_state }
    {
        QuietMem {
            world: MemWorld::new(alloc),
        }
    }

    /// Puts a file of this name in place of the one that was there, if any. Where memory is wanting,
    /// nothing is changed.
    pub fn put_file(&mut self, name: &str, bytes: &[u8]) -> Result<(), NoMemory>
        ensures put { let old = quiet_of self.old in
            OnOk result (quiet_of self.new ≡ state_with_file old name.now bytes.now) }
        ensures refused { OnErr result (quiet_of self.new ≡ quiet_of self.old) }
    {
        self.world.put_file(name, bytes)
    }

    /// Puts these bytes in place of those that were still to come over the link, in pieces as
    /// `MemWorld::set_incoming` says. Where memory is wanting, nothing is changed.
    pub fn set_incoming(&mut self, bytes: &[u8], cuts: &[u32]) -> Result<(), NoMemory>
        ensures set { let old = quiet_of self.old in
            OnOk result (quiet_of self.new ≡ state_with_incoming old bytes.now cuts.now) }
        ensures refused { OnErr result (quiet_of self.new ≡ quiet_of self.old) }
    {
        self.world.set_incoming(bytes, cuts)
    }

    /// From now on a print or a send takes at most `n` bytes.
    pub fn trickle(&mut self, n: u32)
        requires { 0 < n }
        ensures { quiet_of self.new ≡ state_with_most (quiet_of self.old) n }
    {
        self.world.trickle(n);
    }

    /// The content of the file of this name, and None where there is none.
    pub fn file(&self, name: &str) -> Option<&[u8]>
        ensures { option_map (λ bytes. bytes.now) result ≡ (quiet_of self.now).files name.now }
    {
        self.world.file(name)
    }

    /// All the bytes that were printed.
    pub fn printed(&self) -> &[u8]
        ensures { result.now ≡ (quiet_of self.now).printed }
    {
        self.world.printed()
    }

    /// All the bytes that were sent over the link.
    pub fn outgoing(&self) -> &[u8]
        ensures { result.now ≡ (quiet_of self.now).outgoing }
    {
        self.world.outgoing()
    }

    /// How the link was opened last, by its side and address, and None where it never was.
    pub fn opened(&self) -> Option<(Side, &str)>
        ensures { option_map (λ link. link_to link.0 link.1.now) result ≡ (quiet_of self.now).opened }
    {
        self.world.opened()
    }

    /// The bytes that are still to come over the link.
    pub fn left(&self) -> &[u8]
        ensures { result.now ≡ (quiet_of self.now).incoming.bytes }
    {
        self.world.left()
    }
}

impl World for QuietMem {
    ghost use Rattle.psi_base.specs.Outside.{Opens, Prints, Reads, Receives, Sends, Writes, as_list};
    ghost use Rattle.psi_base.specs.Outside.{link_to, nothing_known};
    ghost use Rattle.psi_base.specs.State.{ReadsExactly, WritesExactly, PrintsExactly};
    ghost use Rattle.psi_base.specs.State.{OpensExactly, ReceivesExactly, SendsExactly};
    ghost use Rattle.psi_base.specs.Quiet.{quiet_of};
    ghost use Rattle.psi_base.specs.Steady.{steady_outside_of};

    ghost outside = { λ world. steady_outside_of (quiet_of world) };

    ghost known = { nothing_known };

    /// As `World` says. It fails just where the file is missing, and `taken` is one more than `max`.
    fn read_file(&mut self, alloc: Global, name: &str, max: u32) -> Result<Vec<u8>, ReadFault>
        ensures reads { let new = steady_outside_of (quiet_of self.new) in
            Reads nothing_known (steady_outside_of (quiet_of self.old)) name.now max (as_list result) new }
        ensures exact { let old = quiet_of self.old in
            ReadsExactly old name.now max (as_list result) (quiet_of self.new) }
    {
        self.world.read_file(alloc, name, max)
    }

    /// As `World` says. A refused write leaves the file as it was.
    fn write_file(&mut self, name: &str, bytes: &[u8]) -> Result<(), Fault>
        ensures writes { let old = quiet_of self.old in
            Writes nothing_known (steady_outside_of old) name.now bytes.now result
            (steady_outside_of (quiet_of self.new)) }
        ensures exact { let old = quiet_of self.old in
            WritesExactly old name.now bytes.now result (quiet_of self.new) }
    {
        self.world.write_file(name, bytes)
    }

    /// As `World` says. It prints all the bytes, or as many as `trickle` allows, where memory lasts.
    fn print(&mut self, bytes: &[u8]) -> Result<usize, Fault>
        requires { 0 < length bytes.now }
        ensures prints { let old = quiet_of self.old in
            Prints (steady_outside_of old) bytes.now result (steady_outside_of (quiet_of self.new)) }
        ensures exact { PrintsExactly (quiet_of self.old) bytes.now result (quiet_of self.new) }
    {
        self.world.print(bytes)
    }

    /// As `World` says. It is done, if memory lasts for the address.
    fn open_link(&mut self, side: Side, address: &str) -> Result<(), Fault>
        ensures opens { let old = quiet_of self.old in
            Opens nothing_known (steady_outside_of old) (link_to side address.now) result
            (steady_outside_of (quiet_of self.new)) }
        ensures exact { OpensExactly (quiet_of self.old) (link_to side address.now) result (quiet_of self.new) }
    {
        self.world.open_link(side, address)
    }

    /// As `World` says. It takes as many bytes as the buffer has room for, up to the end of the next piece.
    fn recv(&mut self, buf: &mut [u8]) -> Result<usize, Failed>
        requires ready { IsTrue (steady_outside_of (quiet_of self.old)).ready }
        requires room { 0 < length buf.old }
        ensures receives { let old = quiet_of self.old in
            Receives nothing_known (steady_outside_of old) result buf.new (steady_outside_of (quiet_of self.new)) }
        ensures exact { let old = quiet_of self.old in
            ReceivesExactly old buf.old result buf.new (quiet_of self.new) }
    {
        self.world.recv(buf)
    }

    /// As `World` says. It sends all the bytes, or as many as `trickle` allows, where memory lasts.
    fn send(&mut self, bytes: &[u8]) -> Result<usize, Fault>
        requires ready { IsTrue (steady_outside_of (quiet_of self.old)).ready }
        requires some { 0 < length bytes.now }
        ensures sends { let old = quiet_of self.old in
            Sends (steady_outside_of old) bytes.now result (steady_outside_of (quiet_of self.new)) }
        ensures exact { SendsExactly (quiet_of self.old) bytes.now result (quiet_of self.new) }
    {
        self.world.send(bytes)
    }

    ghost tells = { λ _ _. refl };
}
