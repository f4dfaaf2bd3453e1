// The files of the system: opened to be read, and replaced as a whole.
ghost use Rattle.std.specs.Prelude.{◌≡◌, ◌≢◌, Contains, IsErr};
ghost use Rattle.std.specs.declared.io.ErrorKind.TheVariants as kind;
ghost use Rattle.psi_cli.specs.Files.{StillUsed};

use crate::used::{FileId, UsedFiles};
use std::alloc::{AllocError, Global};
use std::fs::{self, Metadata, OpenFile, OpenOptions};
use std::io::{self, Write};
use std::os::unix::fs::{MetadataExt, OpenOptionsExt, lchown};
use std::path::{Path, PathBuf};
use std::rt::Files;

// The most names that are tried for a new file.
const MOST_NAMES: u32 = 1_000;

// The most symbolic links that are followed from a name, as many as the system follows.
const MOST_LINKS: u32 = 40;

/// Opens the file of this name to be read, and counts it as used where it is a plain file.
pub fn open_used<R: Files>(rt: &R, used: &mut UsedFiles, name: &str) -> io::Result<R::File>
    ensures { StillUsed used.old used.new }
{
    let file = fs::open(rt, name)?;
    let found = file.metadata()?;
    if found.is_file() {
        used.add(FileId::of(&found))?;
    }
    Ok(file)
}

/// Counts the file of this name as used, where it is there and plain.
pub fn use_named<R: Files>(rt: &R, used: &mut UsedFiles, name: &str) -> Result<(), AllocError>
    ensures { StillUsed used.old used.new }
{
    match fs::metadata(rt, name) {
        Ok(found) if found.is_file() => used.add(FileId::of(&found)),
        _ => Ok(()),
    }
}

/// Leaves just these bytes in the file of this name. What is no plain file is written as it is. A plain file is
/// replaced by a new one, once that is whole on disk, which has its owner and its mode; it is refused where it was
/// used. A file that is made is its owner's alone. Symbolic links are followed, and stay.
pub fn write_whole<R: Files>(
    rt: &R,
    alloc: Global,
    used: &mut UsedFiles,
    name: &str,
    bytes: &[u8],
) -> io::Result<()>
    ensures { StillUsed used.old used.new }
{
    match OpenOptions::new().write(true).open(rt, name) {
        Ok(mut file) => {
            let found = file.metadata()?;
            if !found.is_file() {
                return file.write_all(bytes);
            }
            let target = replaceable(rt, alloc, used, name, FileId::of(&found))?;
            replace(rt, alloc, used, target.as_path(), bytes, Some(&found))
        }
        Err(error) if error.kind() == io::ErrorKind::NotFound => {
            let target = followed(rt, alloc, name)?;
            replace(rt, alloc, used, target.as_path(), bytes, None)
        }
        Err(error) => Err(error),
    }
}

// The name at which the file of this name stands, unless it was used.
fn replaceable<R: Files>(
    rt: &R,
    alloc: Global,
    used: &UsedFiles,
    name: &str,
    file: FileId,
) -> io::Result<PathBuf>
    ensures { Contains used.now file → IsErr result }
{
    if used.holds(file) {
        let words = "the file was read or written in this run";
        return Err(io::Error::new(io::ErrorKind::ResourceBusy, words));
    }
    let target = followed(rt, alloc, name)?;
    if FileId::of(&fs::symlink_metadata(rt, target.as_path())?) == file {
        return Ok(target);
    }
    let words = "the file stands at another name";
    Err(io::Error::new(io::ErrorKind::Other, words))
}

// Puts a new file of these bytes in the place of the target, once it is whole on disk.
fn replace<R: Files>(
    rt: &R,
    alloc: Global,
    used: &mut UsedFiles,
    target: Path<'_>,
    bytes: &[u8],
    old: Option<&Metadata>,
) -> io::Result<()>
    ensures { StillUsed used.old used.new }
{
    let (mut file, path) = create_beside(rt, alloc, target)?;
    let placed = match fill(rt, used, &mut file, path.as_path(), bytes, old) {
        Ok(()) => fs::rename(rt, path.as_path(), target),
        Err(error) => Err(error),
    };
    match placed {
        Ok(()) => {
            sync_folder(rt, target);
            Ok(())
        }
        Err(error) => {
            let _ = fs::remove_file(rt, path.as_path());
            Err(error)
        }
    }
}

// Writes the bytes into a new file, which gets the owner and the mode of the old one, and syncs it.
fn fill<R: Files>(
    rt: &R,
    used: &mut UsedFiles,
    file: &mut R::File,
    path: Path<'_>,
    bytes: &[u8],
    old: Option<&Metadata>,
) -> io::Result<()>
    ensures { StillUsed used.old used.new }
{
    let new = file.metadata()?;
    used.add(FileId::of(&new))?;
    file.write_all(bytes)?;
    if let Some(old) = old {
        if new.uid() != old.uid() || new.gid() != old.gid() {
            lchown(rt, path, Some(old.uid()), Some(old.gid()))?;
        }
        file.set_permissions(old.permissions())?;
    }
    file.sync_all()
}

// A new file beside the target, and its name.
fn create_beside<R: Files>(
    rt: &R,
    alloc: Global,
    target: Path<'_>,
) -> io::Result<(R::File, PathBuf)> {
    for number in 0..MOST_NAMES {
        let name = format!(in alloc; ".psi-{number}.new")?;
        let path = target.with_file_name(alloc, name.as_str())?;
        match create_private(rt, path.as_path()) {
            Ok(file) => return Ok((file, path)),
            Err(error) if error.kind() == io::ErrorKind::AlreadyExists => {}
            Err(error) => return Err(error),
        }
    }
    Err(io::Error::from(io::ErrorKind::AlreadyExists))
}

// A new file that its owner alone may read and write.
fn create_private<R: Files>(rt: &R, path: Path<'_>) -> io::Result<R::File> {
    OpenOptions::new()
        .write(true)
        .create_new(true)
        .mode(0o600)
        .open(rt, path)
}

// The name to which symbolic links lead from this one, also where no file has it yet.
fn followed<R: Files>(rt: &R, alloc: Global, name: &str) -> io::Result<PathBuf> {
    let mut path = PathBuf::from_str(alloc, name)?;
    for _ in 0..MOST_LINKS {
        match fs::symlink_metadata(rt, path.as_path()) {
            Ok(found) if found.is_symlink() => {}
            _ => return Ok(path),
        }
        let next = rt.read_link(alloc, path.as_path().as_str())?;
        path.pop();
        path.push(next.as_path())?;
    }
    Err(io::Error::from(io::ErrorKind::FilesystemLoop))
}

// Asks the system to have the folder of a file on disk, too.
fn sync_folder<R: Files>(rt: &R, target: Path<'_>) {
    let folder = match target.parent() {
        Some(folder) if !folder.as_str().is_empty() => folder,
        _ => Path::new("."),
    };
    if let Ok(folder) = fs::open(rt, folder) {
        let _ = folder.sync_all();
    }
}
