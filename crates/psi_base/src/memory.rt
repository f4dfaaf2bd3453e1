// A world in memory, whose listed calls fail.
ghost use Rattle.std.specs.Prelude.{◌≡◌, ◌<◌, ◌≤◌, length, take, IsTrue, OnErr, OnOk, option_map, refl};
ghost use Rattle.std.specs.Option.{ForSome};
ghost use Rattle.psi_base.specs.Front.{front};

use crate::folder::Folder;
use crate::incoming::Incoming;
use crate::schedule::Schedule;
use crate::{Failed, Fault, FaultKind, NoMemory, Opened, ReadFault, Side, World};
use std::alloc::Global;

/// Files, printed bytes and a link in memory. It tells all of them, and fails at the calls that are
/// listed.
#[derive(Drop)]
pub struct MemWorld {
    files: Folder,
    printed: Vec<u8>,
    incoming: Incoming,
    outgoing: Vec<u8>,
    most: Option<u32>,
    file_calls: Schedule,
    link_calls: Schedule,
    print_calls: Schedule,
    ends: u64,
    refusals: u64,
    ready: bool,
    opened: Option<Opened>,
    alloc: Global,
    ghost some: { ForSome most (λ n. 0 < n) },
}

impl MemWorld {
    ghost use Rattle.psi_base.specs.State.{state_of, empty_state, state_with_file};
    ghost use Rattle.psi_base.specs.State.{state_with_incoming, state_with_failure, state_with_most};
    ghost use Rattle.psi_base.specs.Outside.{link_to};

    /// No files, no bytes, a link that is not ready, and no call is listed to fail.
    pub fn new(alloc: Global) -> MemWorld
        ensures { state_of result ≡ empty_state }
    {
        MemWorld {
            files: Folder::new(alloc),
            printed: Vec::new(alloc),
            incoming: Incoming::new(alloc),
            outgoing: Vec::new(alloc),
            most: None,
            file_calls: Schedule::new(alloc),
            link_calls: Schedule::new(alloc),
            print_calls: Schedule::new(alloc),
            ends: 0,
            refusals: 0,
            ready: false,
            opened: None,
            alloc,
        }
    }

    /// Puts a file of this name in place of the one that was there, if any. Where memory is wanting,
    /// nothing is changed.
    pub fn put_file(&mut self, name: &str, bytes: &[u8]) -> Result<(), NoMemory>
        ensures put { let old = state_of self.old in
            OnOk result (state_of self.new ≡ state_with_file old name.now bytes.now) }
        ensures refused { OnErr result (state_of self.new ≡ state_of self.old) }
    {
        self.files.put(self.alloc, name, bytes)
    }

    /// Puts these bytes in place of those that were still to come over the link. Each entry of `cuts` is
    /// the length of a piece, and past the last entry the rest is one piece: a receive stops at the end of
    /// a piece, and skips a piece of no bytes. Where memory is wanting, nothing is changed.
    pub fn set_incoming(&mut self, bytes: &[u8], cuts: &[u32]) -> Result<(), NoMemory>
        ensures set { let old = state_of self.old in
            OnOk result (state_of self.new ≡ state_with_incoming old bytes.now cuts.now) }
        ensures refused { OnErr result (state_of self.new ≡ state_of self.old) }
    {
        self.incoming = Incoming::with_cuts(self.alloc, bytes, cuts)?;
        Ok(())
    }

    /// Lists that the nth call of this kind fails, counted from 0 from the making of this world. Where
    /// memory is wanting, nothing is changed.
    pub fn fail(&mut self, kind: FaultKind, nth: u64) -> Result<(), NoMemory>
        ensures listed { let old = state_of self.old in
            OnOk result (state_of self.new ≡ state_with_failure old kind nth) }
        ensures refused { OnErr result (state_of self.new ≡ state_of self.old) }
    {
        match kind {
            FaultKind::File => self.file_calls.list(nth),
            FaultKind::Link => self.link_calls.list(nth),
            FaultKind::Print => self.print_calls.list(nth),
        }
    }

    /// From now on a print or a send takes at most `n` bytes.
    pub fn trickle(&mut self, n: u32)
        requires { 0 < n }
        ensures { state_of self.new ≡ state_with_most (state_of self.old) n }
    {
        self.most = Some(n);
    }

    /// The content of the file of this name, and None where there is none.
    pub fn file(&self, name: &str) -> Option<&[u8]>
        ensures { option_map (λ bytes. bytes.now) result ≡ (state_of self.now).files name.now }
    {
        self.files.get(name)
    }

    /// All the bytes that were printed.
    pub fn printed(&self) -> &[u8]
        ensures { result.now ≡ (state_of self.now).printed }
    {
        &self.printed
    }

    /// All the bytes that were sent over the link.
    pub fn outgoing(&self) -> &[u8]
        ensures { result.now ≡ (state_of self.now).outgoing }
    {
        &self.outgoing
    }

    /// How the link was opened last, by its side and address, and None where it never was.
    pub fn opened(&self) -> Option<(Side, &str)>
        ensures { option_map (λ link. link_to link.0 link.1.now) result ≡ (state_of self.now).opened }
    {
        self.opened
            .as_ref()
            .map(|opened| (opened.side, opened.address.as_str()))
    }

    /// The bytes that are still to come over the link.
    pub fn left(&self) -> &[u8]
        ensures { result.now ≡ (state_of self.now).incoming.bytes }
    {
        self.incoming.left()
    }
}

impl World for MemWorld {
    ghost use Rattle.psi_base.specs.Outside.{Outside, Opens, Prints, Reads, Receives, link_to};
    ghost use Rattle.psi_base.specs.Outside.{Sends, Writes, as_list, nothing_known};
    ghost use Rattle.psi_base.specs.State.{state_of, outside_of, ReadsExactly, WritesExactly};
    ghost use Rattle.psi_base.specs.State.{PrintsExactly, OpensExactly, ReceivesExactly, SendsExactly};

    ghost outside = { λ world. outside_of (state_of world) };

    ghost known = { nothing_known };

    /// As `World` says. It fails just where this call is listed or the file is missing, and `taken` is
    /// one more than `max`.
    fn read_file(&mut self, alloc: Global, name: &str, max: u32) -> Result<Vec<u8>, ReadFault>
        ensures reads { let old = state_of self.old in
            Reads nothing_known (outside_of old) name.now max (as_list result) (outside_of (state_of self.new)) }
        ensures exact { let old = state_of self.old in
            ReadsExactly old name.now max (as_list result) (state_of self.new) }
    {
        self.file_calls.begin()?;
        let Some(bytes) = self.files.get(name) else {
            return Err(self.file_calls.raise().into());
        };
        if bytes.len() as u64 > u64::from(max) {
            return Err(ReadFault::TooLong {
                taken: u64::from(max) + 1,
            });
        }
        bytes.to_vec(alloc).map_err(|_| ReadFault::NoMemory)
    }

    /// As `World` says. It fails just where this call is listed, and a refused write leaves the file as
    /// it was.
    fn write_file(&mut self, name: &str, bytes: &[u8]) -> Result<(), Fault>
        ensures writes { let old = state_of self.old in
            Writes nothing_known (outside_of old) name.now bytes.now result (outside_of (state_of self.new)) }
        ensures exact { let old = state_of self.old in
            WritesExactly old name.now bytes.now result (state_of self.new) }
    {
        self.file_calls.begin()?;
        match self.files.put(self.alloc, name, bytes) {
            Ok(()) => Ok(()),
            Err(NoMemory) => {
                self.refusals = self.refusals.saturating_add(1);
                Err(Fault::NoMemory)
            }
        }
    }

    /// As `World` says. It fails just where this call is listed, and else prints all the bytes, or as many
    /// as `trickle` allows, where memory lasts.
    fn print(&mut self, bytes: &[u8]) -> Result<usize, Fault>
        requires { 0 < length bytes.now }
        ensures prints { let old = state_of self.old in
            Prints (outside_of old) bytes.now result (outside_of (state_of self.new)) }
        ensures exact { PrintsExactly (state_of self.old) bytes.now result (state_of self.new) }
    {
        self.print_calls.begin()?;
        let front = front_of(self.most, bytes);
        match self.printed.extend_from_slice(front) {
            Ok(()) => Ok(front.len()),
            Err(_) => {
                self.refusals = self.refusals.saturating_add(1);
                Err(Fault::NoMemory)
            }
        }
    }

    /// As `World` says. It fails just where this call is listed.
    fn open_link(&mut self, side: Side, address: &str) -> Result<(), Fault>
        ensures opens { let old = state_of self.old in
            Opens nothing_known (outside_of old) (link_to side address.now) result (outside_of (state_of self.new)) }
        ensures exact { OpensExactly (state_of self.old) (link_to side address.now) result (state_of self.new) }
    {
        self.link_calls.begin()?;
        match address.to_string(self.alloc) {
            Ok(address) => {
                self.opened = Some(Opened { side, address });
                self.ready = true;
                Ok(())
            }
            Err(_) => {
                self.refusals = self.refusals.saturating_add(1);
                Err(Fault::NoMemory)
            }
        }
    }

    /// As `World` says. It fails just where this call is listed, and else takes as many bytes as the
    /// buffer has room for, up to the end of the next piece.
    fn recv(&mut self, buf: &mut [u8]) -> Result<usize, Failed>
        requires ready { IsTrue (outside_of (state_of self.old)).ready }
        requires room { 0 < length buf.old }
        ensures receives { let old = state_of self.old in
            Receives nothing_known (outside_of old) result buf.new (outside_of (state_of self.new)) }
        ensures exact { let old = state_of self.old in
            ReceivesExactly old buf.old result buf.new (state_of self.new) }
    {
        self.link_calls.begin()?;
        let count = self.incoming.take(buf);
        if count == 0 {
            self.ends = self.ends.saturating_add(1);
        }
        Ok(count)
    }

    /// As `World` says. It fails just where this call is listed, and else sends all the bytes, or as many
    /// as `trickle` allows, where memory lasts.
    fn send(&mut self, bytes: &[u8]) -> Result<usize, Fault>
        requires ready { IsTrue (outside_of (state_of self.old)).ready }
        requires some { 0 < length bytes.now }
        ensures sends { let old = state_of self.old in
            Sends (outside_of old) bytes.now result (outside_of (state_of self.new)) }
        ensures exact { SendsExactly (state_of self.old) bytes.now result (state_of self.new) }
    {
        self.link_calls.begin()?;
        let front = front_of(self.most, bytes);
        match self.outgoing.extend_from_slice(front) {
            Ok(()) => Ok(front.len()),
            Err(_) => {
                self.refusals = self.refusals.saturating_add(1);
                Err(Fault::NoMemory)
            }
        }
    }

    ghost tells = { λ _ _. refl };
}

// The front of the bytes that one call takes.
fn front_of(most: Option<u32>, bytes: &[u8]) -> &[u8]
    requires { ForSome most (λ n. 0 < n) }
    ensures value { result.now ≡ front most bytes.now }
    ensures some { 0 < length bytes.now → 0 < length result.now }
    ensures within { length result.now ≤ length bytes.now }
    ensures taken { result.now ≡ take (length result.now) bytes.now }
{
    match most {
        Some(most) if (most as usize) < bytes.len() => &bytes[..most as usize],
        _ => bytes,
    }
}
