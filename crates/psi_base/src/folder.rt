// The files of a world in memory.
ghost use Rattle.std.specs.Prelude.{◌≡◌, OnErr, OnOk, option_map};
ghost use Rattle.psi_base.specs.Outside.{with_file};
ghost use Rattle.psi_base.specs.State.{files_of, no_files};

use crate::NoMemory;
use std::alloc::Global;
use std::collections::BTreeMap;

/// Contents by their names.
#[derive(Drop)]
pub struct Folder {
    files: BTreeMap<String, Vec<u8>>,
}

impl Folder {
    /// No files.
    pub fn new(alloc: Global) -> Folder
        ensures { files_of result ≡ no_files }
    {
        Folder {
            files: BTreeMap::new(alloc),
        }
    }

    /// Puts a file of this name in place of the one that was there, if any. Where memory is wanting,
    /// nothing is changed.
    pub fn put(&mut self, alloc: Global, name: &str, bytes: &[u8]) -> Result<(), NoMemory>
        ensures put { OnOk result (files_of self.new ≡ with_file (files_of self.old) name.now bytes.now) }
        ensures refused { OnErr result (files_of self.new ≡ files_of self.old) }
    {
        let content = bytes.to_vec(alloc)?;
        self.files.insert(name.to_string(alloc)?, content)?;
        Ok(())
    }

    /// The content of the file of this name, and None where there is none.
    pub fn get(&self, name: &str) -> Option<&[u8]>
        ensures { option_map (λ bytes. bytes.now) result ≡ files_of self.now name.now }
    {
        self.files.get(name).map(|bytes| bytes.as_slice())
    }
}
