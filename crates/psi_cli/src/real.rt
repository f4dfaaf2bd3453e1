// The real outside: the files of the system, standard output, and one TCP stream.
ghost use Rattle.std.specs.Prelude.{◌≡◌, ◌<◌, true, false, length, IfOk, IsTrue};
ghost use Rattle.std.proofs.Common.{rules};
ghost use Rattle.psi_base.specs.State.{link_of, next_count};
ghost use Rattle.psi_base.specs.Outside.{Opens, Prints, Reads, Receives, Sends, Writes, as_list, link_to, nothing_known};
ghost use Rattle.psi_cli.specs.Refused.{untouched, CountsRead, LinkRefused, PrintRefused, ReadsWhole, WriteRefused};
ghost use Rattle.psi_cli.specs.declared.real.Unread.TheVariants as unread;

use crate::files::{open_used, use_named, write_whole};
use crate::used::UsedFiles;
use psi_base::{Failed, Fault, Opened, ReadFault, Side, World};
use std::alloc::Global;
use std::io::{self, Read, Write};
use std::net::{Net, OpenListener, OpenStream, Shutdown, TcpListener, TcpStream};
use std::rt::{Clock, Files};
use std::time::{Duration, Instant};

/// The files of the system, standard output and one TCP stream, over a runtime. It tells no content, and
/// counts what went wrong.
#[derive(Drop)]
pub struct RealWorld<R: Files + Print + Net + Clock + Drop> {
    rt: R,
    alloc: Global,
    used: UsedFiles,
    printed: bool,
    stream: Option<R::Stream>,
    opened: Option<Opened>,
    file_faults: u64,
    link_faults: u64,
    print_faults: u64,
    ends: u64,
    refusals: u64,
}

// Why a content was not read whole.
#[derive(Clone, Copy)]
enum Unread {
    // It is longer than was allowed.
    TooLong { taken: u64 },
    // The system refused a call.
    Refused(io::Error),
}

impl From<io::Error> for Unread {
    ghost from_gives = { λ error u. u ≡ unread.Refused error };

    fn from(error: io::Error) -> Unread {
        Unread::Refused(error)
    }
}

// All the bytes that a reader has left, which are at most `max`. At most one more is taken.
fn read_whole<F: Read + Drop>(alloc: Global, reader: F, max: u32) -> Result<Vec<u8>, Unread>
    ensures { ReadsWhole (F.remaining reader) max (as_list result) }
{
    let mut bytes = Vec::new(alloc);
    reader.take(u64::from(max) + 1).read_to_end(&mut bytes)?;
    let taken = bytes.len() as u64;
    if taken > u64::from(max) {
        return Err(Unread::TooLong { taken });
    }
    Ok(bytes)
}

// The name of standard output among the files.
const OUTPUT: &str = "/dev/stdout";

// The seconds for which an open link may be silent, and for which a send may wait.
const LINK_WAIT: u64 = 600;

// The most reads of what a peer sends after its session: of the longest stream, in pieces of a usual packet.
const LAST_READS: u32 = 65_536;

// The seconds for which a peer may be silent before its rest is no longer waited for.
const SILENCE: u64 = 1;

// The seconds for which its rest is taken in all.
const LAST_WAIT: u64 = 10;

// Takes what a reader has left, in at most so many pieces and for at most so long.
fn drop_rest<F: Read, C: Clock>(reader: &mut F, clock: &C) {
    let Ok(start) = Instant::now(clock) else {
        return;
    };
    let mut buffer = [0; 4096];
    for _ in 0..LAST_READS {
        match reader.read(&mut buffer) {
            Ok(0) | Err(_) => return,
            Ok(_) => {}
        }
        match start.elapsed(clock) {
            Ok(waited) if waited.as_secs() < LAST_WAIT => {}
            _ => return,
        }
    }
}

impl<R: Files + Print + Net + Clock + Drop> RealWorld<R> {
    ghost use Rattle.psi_cli.specs.RealWorld.{outside_of};

    /// Nothing went wrong yet, and there is no link.
    pub fn new(alloc: Global, rt: R) -> RealWorld<R>
        ensures { outside_of result ≡ untouched false }
    {
        RealWorld {
            rt,
            alloc,
            used: UsedFiles::new(alloc),
            printed: false,
            stream: None,
            opened: None,
            file_faults: 0,
            link_faults: 0,
            print_faults: 0,
            ends: 0,
            refusals: 0,
        }
    }

    /// Nothing went wrong yet, and the stream is the link, which is ready.
    pub fn over(alloc: Global, rt: R, stream: R::Stream) -> RealWorld<R>
        ensures { outside_of result ≡ untouched true }
    {
        RealWorld {
            rt,
            alloc,
            used: UsedFiles::new(alloc),
            printed: false,
            stream: Some(stream),
            opened: None,
            file_faults: 0,
            link_faults: 0,
            print_faults: 0,
            ends: 0,
            refusals: 0,
        }
    }

    /// Ends the link, if there is one. The peer is told that no more is sent, and what it still sends is taken
    /// and dropped until it ends too, fails, is silent for a second or has gone on for ten: a link that is closed
    /// with bytes unread is reset, which may take back what was sent before.
    pub fn finish(&mut self)
        ensures { outside_of self.new ≡ outside_of self.old }
    {
        if let Some(stream) = self.stream.as_mut() {
            let told = stream.shutdown(Shutdown::Write);
            let timed = stream.set_read_timeout(Some(Duration::from_secs(SILENCE)));
            if told.is_ok() && timed.is_ok() {
                drop_rest(stream, &self.rt);
            }
        }
    }

    // The fault of a read. A refused call is counted, unless memory was wanting.
    fn read_fault(&mut self, unread: Unread) -> ReadFault
        ensures { CountsRead (outside_of self.old) unread result (outside_of self.new) }
    {
        match unread {
            Unread::TooLong { taken } => ReadFault::TooLong { taken },
            Unread::Refused(error) if error.kind() == io::ErrorKind::OutOfMemory => {
                ReadFault::NoMemory
            }
            Unread::Refused(_) => {
                self.file_faults = self.file_faults.saturating_add(1);
                ReadFault::Failed
            }
        }
    }

    // The fault of a write, which is counted.
    fn write_fault(&mut self, kind: io::ErrorKind) -> Fault
        ensures { WriteRefused (outside_of self.old) kind result (outside_of self.new) }
    {
        if kind == io::ErrorKind::OutOfMemory {
            self.refusals = self.refusals.saturating_add(1);
            return Fault::NoMemory;
        }
        self.file_faults = self.file_faults.saturating_add(1);
        Fault::Failed
    }

    // The fault of a print, which is counted.
    fn print_fault(&mut self, kind: io::ErrorKind) -> Fault
        ensures { PrintRefused (outside_of self.old) kind result (outside_of self.new) }
    {
        if kind == io::ErrorKind::OutOfMemory {
            self.refusals = self.refusals.saturating_add(1);
            return Fault::NoMemory;
        }
        self.print_faults = self.print_faults.saturating_add(1);
        Fault::Failed
    }

    // The fault of an opening of the link or of a send, which is counted.
    fn link_fault(&mut self, kind: io::ErrorKind) -> Fault
        ensures { LinkRefused (outside_of self.old) kind result (outside_of self.new) }
    {
        if kind == io::ErrorKind::OutOfMemory {
            self.refusals = self.refusals.saturating_add(1);
            return Fault::NoMemory;
        }
        self.link_faults = self.link_faults.saturating_add(1);
        Fault::Failed
    }

    fn read_named(&mut self, alloc: Global, name: &str, max: u32) -> Result<Vec<u8>, Unread>
        ensures whole { ReadsWhole None max (as_list result) }
        ensures same { outside_of self.new ≡ outside_of self.old }
    {
        let file = open_used(&self.rt, &mut self.used, name)?;
        read_whole(alloc, file, max)
    }

    // A file that was printed into is one that was written.
    fn write_named(&mut self, name: &str, bytes: &[u8]) -> io::Result<()>
        ensures { outside_of self.new ≡ outside_of self.old }
    {
        if self.printed {
            use_named(&self.rt, &mut self.used, OUTPUT)?;
        }
        write_whole(&self.rt, self.alloc, &mut self.used, name, bytes)
    }

    // The stream of a connection to the address, or of the first one that comes there.
    fn stream_at(&self, side: Side, address: &str) -> io::Result<R::Stream> {
        match side {
            Side::Connect => TcpStream::connect(&self.rt, address),
            Side::Listen => {
                let listener = TcpListener::bind(&self.rt, address)?;
                let (stream, _) = listener.accept()?;
                Ok(stream)
            }
        }
    }

    // Such a stream, on which no read and no write waits for longer than a link may be silent.
    fn link_at(&self, side: Side, address: &str) -> io::Result<R::Stream> {
        let stream = self.stream_at(side, address)?;
        let most = Some(Duration::from_secs(LINK_WAIT));
        stream.set_read_timeout(most)?;
        stream.set_write_timeout(most)?;
        Ok(stream)
    }
}

impl<R: Files + Print + Net + Clock + Drop> RealWorld<R> {
    // The link at the address, and how it was opened. Memory for the address is taken before.
    fn opened_link(&self, side: Side, address: &str) -> io::Result<(R::Stream, Opened)>
        ensures { IfOk result (λ made. link_of made.1 ≡ link_to side address.now) }
    {
        let opened = Opened {
            side,
            address: address.to_string(self.alloc)?,
        };
        Ok((self.link_at(side, address)?, opened))
    }
}

impl<R: Files + Print + Net + Clock + Drop> World for RealWorld<R> {
    ghost use Rattle.psi_cli.specs.RealWorld.{outside_of};

    ghost outside = { outside_of };

    ghost known = { nothing_known };

    /// As `World` says. At most one byte more than `max` is taken.
    fn read_file(&mut self, alloc: Global, name: &str, max: u32) -> Result<Vec<u8>, ReadFault>
        ensures reads { Reads nothing_known (outside_of self.old) name.now max (as_list result) (outside_of self.new) }
        ensures failed { result ≡ Err ReadFault.Failed →
            (outside_of self.new).file_faults ≡ next_count (outside_of self.old).file_faults }
    {
        match self.read_named(alloc, name, max) {
            Ok(bytes) => Ok(bytes),
            Err(unread) => Err(self.read_fault(unread)),
        }
    }

    /// As `World` says. A plain file is replaced by a new one, once that is whole on disk, and refused where it
    /// was read, written or printed into before. What is no plain file is written as it is.
    fn write_file(&mut self, name: &str, bytes: &[u8]) -> Result<(), Fault>
        ensures writes { Writes nothing_known (outside_of self.old) name.now bytes.now result (outside_of self.new) }
        ensures failed { result ≡ Err Fault.Failed →
            (outside_of self.new).file_faults ≡ next_count (outside_of self.old).file_faults }
        ensures refused { result ≡ Err Fault.NoMemory →
            (outside_of self.new).refusals ≡ next_count (outside_of self.old).refusals }
    {
        match self.write_named(name, bytes) {
            Ok(()) => Ok(()),
            Err(error) => Err(self.write_fault(error.kind())),
        }
    }

    /// As `World` says. A print that takes no bytes has failed.
    fn print(&mut self, bytes: &[u8]) -> Result<usize, Fault>
        requires { 0 < length bytes.now }
        ensures prints { Prints (outside_of self.old) bytes.now result (outside_of self.new) }
        ensures failed { result ≡ Err Fault.Failed →
            (outside_of self.new).print_faults ≡ next_count (outside_of self.old).print_faults }
        ensures refused { result ≡ Err Fault.NoMemory →
            (outside_of self.new).refusals ≡ next_count (outside_of self.old).refusals }
    {
        match io::writer(&self.rt).write(bytes) {
            Ok(0) => Err(self.print_fault(io::ErrorKind::WriteZero)),
            Ok(count) => {
                self.printed = true;
                Ok(count)
            }
            Err(error) => Err(self.print_fault(error.kind())),
        }
    }

    /// As `World` says. Connects to the address, or takes the first connection that comes there. A receive on
    /// the link for which nothing comes in ten minutes fails, and so does a send that waits for as long. The new
    /// stream takes the place of one that was there, which is closed; where none could be had, that stays.
    fn open_link(&mut self, side: Side, address: &str) -> Result<(), Fault>
        ensures opens { Opens nothing_known (outside_of self.old) (link_to side address.now) result
            (outside_of self.new) }
        ensures failed { result ≡ Err Fault.Failed →
            (outside_of self.new).link_faults ≡ next_count (outside_of self.old).link_faults }
        ensures refused { result ≡ Err Fault.NoMemory →
            (outside_of self.new).refusals ≡ next_count (outside_of self.old).refusals }
    {
        match self.opened_link(side, address) {
            Ok((stream, opened)) => {
                self.stream = Some(stream);
                self.opened = Some(opened);
                Ok(())
            }
            Err(error) => Err(self.link_fault(error.kind())),
        }
    }

    /// As `World` says. Every error counts as a fault of the link.
    fn recv(&mut self, buf: &mut [u8]) -> Result<usize, Failed>
        requires ready { IsTrue (outside_of self.old).ready }
        requires room { 0 < length buf.old }
        ensures receives { Receives nothing_known (outside_of self.old) result buf.new (outside_of self.new) }
        ensures failed { result ≡ Err (record {}) →
            (outside_of self.new).link_faults ≡ next_count (outside_of self.old).link_faults }
    {
        match self.stream.as_mut().unwrap().read(buf) {
            Ok(0) => {
                self.ends = self.ends.saturating_add(1);
                Ok(0)
            }
            Ok(count) => Ok(count),
            Err(_) => {
                self.link_faults = self.link_faults.saturating_add(1);
                Err(Failed)
            }
        }
    }

    /// As `World` says. A send that takes no bytes has failed.
    fn send(&mut self, bytes: &[u8]) -> Result<usize, Fault>
        requires ready { IsTrue (outside_of self.old).ready }
        requires some { 0 < length bytes.now }
        ensures sends { Sends (outside_of self.old) bytes.now result (outside_of self.new) }
        ensures failed { result ≡ Err Fault.Failed →
            (outside_of self.new).link_faults ≡ next_count (outside_of self.old).link_faults }
        ensures refused { result ≡ Err Fault.NoMemory →
            (outside_of self.new).refusals ≡ next_count (outside_of self.old).refusals }
    {
        match self.stream.as_mut().unwrap().write(bytes) {
            Ok(0) => Err(self.link_fault(io::ErrorKind::WriteZero)),
            Ok(count) => Ok(count),
            Err(error) => Err(self.link_fault(error.kind())),
        }
    }

    ghost tells = { λ _ steady. absurd (Prim.search rules) };
}
