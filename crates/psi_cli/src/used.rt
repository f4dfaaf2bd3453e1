// The files that a run has used, told apart by the numbers that the system gives them.
ghost use Rattle.std.specs.Prelude.{◌≡◌, ◌↔◌, ◌++◌, [], ◌∷◌, Contains, IsTrue, OnErr, OnOk};

use std::alloc::{AllocError, Global};
use std::fs::Metadata;
use std::marker::Model;
use std::os::unix::fs::MetadataExt;

/// A file, whatever its names: its device, and its number there.
#[derive(Clone, Copy, PartialEq, Eq)]
pub struct FileId {
    device: u64,
    number: u64,
}

impl FileId {
    /// The file that the system described.
    pub fn of(found: &Metadata) -> FileId {
        FileId {
            device: found.dev(),
            number: found.ino(),
        }
    }
}

/// The plain files that a run has read or written.
#[derive(Drop)]
pub struct UsedFiles {
    files: Vec<FileId>,
}

impl Model for UsedFiles {
    ghost use Rattle.std.specs.Prelude.{List};
    ghost use Rattle.psi_cli.specs.declared.used.FileId.{FileId};

    ghost Value = { List FileId };

    ghost view = { λ s. s.files.items };
}

impl UsedFiles {
    /// No file was used yet.
    pub fn new(alloc: Global) -> UsedFiles
        ensures { result ≡ [] }
    {
        UsedFiles {
            files: Vec::new(alloc),
        }
    }

    /// Counts the file as used. Where memory is wanting, nothing is changed.
    pub fn add(&mut self, file: FileId) -> Result<(), AllocError>
        ensures added { OnOk result (self.new ≡ self.old ++ file ∷ []) }
        ensures refused { OnErr result (self.new ≡ self.old) }
    {
        self.files.push(file)?;
        Ok(())
    }

    /// Whether the file was used.
    pub fn holds(&self, file: FileId) -> bool
        ensures { IsTrue result ↔ Contains self.now file }
    {
        self.files.contains(&file)
    }
}
