// Item files that are made by rule.
ghost use Rattle.std.specs.Prelude.{◌≡◌, ◌+◌, ◌≤◌, ◌<◌, ◌++◌, IfOk, OnOk, slice_index};
ghost use Rattle.psi_spec.specs.Limits.{limit_items};
ghost use Rattle.psi_spec.specs.MadeFiles.{made_file, made_letter, made_line, made_order};
ghost use Rattle.psi_items.specs.Making.{is_second};

use itoa::Buffer;
use psi_base::NoMemory;
use std::alloc::{AllocError, Global};

/// Which of two files is made.
#[derive(Clone, Copy, Debug, PartialEq, Eq)]
pub enum MadeFile {
    /// The receiver's.
    First,
    /// The sender's.
    Second,
}

impl MadeFile {
    // The letter of line k.
    fn letter(self, shared: u32, k: u32) -> &'static str
        ensures { result.now ≡ made_letter (is_second self) shared k }
    {
        if k < shared {
            return "s";
        }
        match self {
            MadeFile::First => "x",
            MadeFile::Second => "y",
        }
    }

    // The number of the line that stands at a place of `count` lines.
    fn line_at(self, count: u32, place: u32) -> u32
        requires { place < count }
        ensures { result ≡ slice_index (made_order (is_second self) count) place }
    {
        match self {
            MadeFile::First => place,
            MadeFile::Second => count - 1 - place,
        }
    }
}

// Adds line k to a file.
fn push_line(
    out: &mut Vec<u8>,
    file: MadeFile,
    shared: u32,
    number: u64,
    k: u32,
) -> Result<(), AllocError>
    ensures { OnOk result (out.new.items ≡ out.old.items ++ made_line (is_second file) shared number k) }
{
    out.extend_from_slice(file.letter(shared, k).as_bytes())?;
    out.extend_from_slice(Buffer::new().format(number).as_bytes())?;
    out.push(b'-')?;
    out.extend_from_slice(Buffer::new().format(k).as_bytes())?;
    out.push(b'\n')?;
    Ok(())
}

/// A file of `count` different items to try psi on, of which `shared` stand in both files that are made with one
/// number: each line is a letter, the number, a hyphen and the line's own number, which rises from 0 in the first file
/// and falls to 0 in the second. The letter is `s` where both files have the line, else `x` or `y`. It is our own
/// profile. Err where memory is wanting.
pub fn make_file(
    alloc: Global,
    file: MadeFile,
    count: u32,
    shared: u32,
    number: u64,
) -> Result<Vec<u8>, NoMemory>
    requires shared { shared ≤ count }
    requires count { count ≤ limit_items }
    ensures { IfOk result (λ made. made.items ≡ made_file (is_second file) count shared number) }
{
    let mut out = Vec::new(alloc);
    for place in 0..count {
        push_line(&mut out, file, shared, number, file.line_at(count, place))?;
    }
    Ok(out)
}
