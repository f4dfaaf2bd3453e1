// The lines of a file.
ghost use Rattle.std.specs.Prelude.{◌≡◌, ◌≤◌, ◌<◌, ◌+◌, ◌-◌, ◌++◌, ◌^◌, ◌↔◌, List, [], ◌∷◌, drop, length, take, IfNone, IfSome, IsNone, OnOk, option_map, slice_get};
ghost use Rattle.psi_spec.specs.Items.{lines_of};
ghost use Rattle.psi_spec.specs.Limits.{line_limit, file_limit};
ghost use Rattle.psi_spec.specs.PairedLines.{ended_lines};
ghost use Rattle.psi_lines.specs.Cutting.{start_in, AreLines, ArePacked};
ghost use Rattle.psi_lines.specs.Reading.{PacksLine, PacksLines, ReadsLines};

use psi_items::{BadItems, NormalLine};
use std::alloc::{AllocError, Global};
use std::marker::Model;

/// The most lines of a file.
const LIMIT_ITEMS: usize = psi_base::LIMIT_ITEMS as usize;

/// The lines of a file: at most 1,048,576 byte strings of at most 256 bytes each, in the order of the file. Empty lines
/// are among them, and so are repeats.
#[derive(Drop)]
pub struct Lines {
    // The bytes of all lines, one after another.
    bytes: Vec<u8>,
    // Where each line ends in them.
    ends: Vec<u32>,
}

impl Model for Lines {
    ghost use Rattle.std.specs.Prelude.{ℕ, List};
    ghost use Rattle.psi_lines.specs.Cutting.{cut_at, ArePacked};

    ghost Value = { List (List ℕ) };

    ghost view = { λ s. cut_at 0 s.ends.items s.bytes.items };

    ghost invariant = { λ s. ArePacked s.ends.items s.bytes.items };
}

/// The bytes of a file's lines: all but the line feed at its end, if it has one. None where it has no byte.
fn line_bytes(bytes: &[u8]) -> Option<&[u8]>
    ensures none { IfNone result (ended_lines bytes.now ≡ []) }
    ensures some { IfSome result (λ text. lines_of text.now ≡ ended_lines bytes.now) }
    ensures within { IfSome result (λ text. length text.now ≤ length bytes.now) }
{
    let (last, rest) = bytes.split_last()?;
    if *last == b'\n' {
        Some(rest)
    } else {
        Some(bytes)
    }
}

/// Adds a line's text to `bytes`, and where it ends to `ends`.
fn push_line(bytes: &mut Vec<u8>, ends: &mut Vec<u32>, text: &[u8]) -> Result<(), AllocError>
    requires { length bytes.old.items + length text.now < 2 ^ 32 }
    ensures bytes { OnOk result (bytes.new.items ≡ bytes.old.items ++ text.now) }
    ensures ends { OnOk result (ends.new.items ≡ ends.old.items ++ length bytes.new.items ∷ []) }
{
    bytes.extend_from_slice(text)?;
    ends.push(bytes.len() as u32)?;
    Ok(())
}

/// Adds the next line of a file, whose normal form is made in `room`, to `bytes`, and where it ends to `ends`.
fn add_line(
    bytes: &mut Vec<u8>,
    ends: &mut Vec<u32>,
    line: &[u8],
    room: &mut NormalLine,
) -> Result<(), BadItems>
    requires short { length line.now < 2 ^ 32 }
    requires packed { ArePacked ends.old.items bytes.old.items }
    ensures { PacksLine ends.old.items bytes.old.items line.now result ends.new.items bytes.new.items }
{
    let number = ends.len() as u32 + 1;
    room.read(number, line)?;
    if ends.len() == LIMIT_ITEMS {
        return Err(BadItems::Many { line: number });
    }
    push_line(bytes, ends, room.text()).map_err(|_| BadItems::NoMemory)?;
    Ok(())
}

/// Where the line with this number, counted from 0, begins, which is where the one before it ends.
fn start_of(ends: &[u32], i: u32) -> u32
    requires { i ≤ length ends.now }
    ensures { result ≡ start_in 0 ends.now i }
{
    match i {
        0 => 0,
        _ => ends[i as usize - 1],
    }
}

/// The bytes from one place up to another.
fn between(bytes: &[u8], start: u32, end: u32) -> &[u8]
    requires start { start ≤ end }
    requires end { end ≤ length bytes.now }
    ensures { result.now ≡ take (end - start) (drop start bytes.now) }
{
    &bytes[start as usize..end as usize]
}

impl Lines {
    /// The lines of a file of at most 33,554,432 bytes.
    ///
    /// A line ends at a line feed; what follows the last line feed is a line too where it has a byte. One carriage
    /// return at a line's end and the spaces and tabs round it are no part of it, and ASCII capitals become small
    /// letters. A line that is then empty is a line, and so is one that repeats another.
    ///
    /// The first line with a fault decides: `Byte` where it holds a control byte other than a tab, else `Long` where it
    /// would have more than 256 bytes, else `Many` where it is line 1,048,577. `NoMemory` comes where there is no
    /// memory for the lines.
    pub fn read(alloc: Global, bytes: &[u8]) -> Result<Lines, BadItems>
        requires { length bytes.now ≤ file_limit }
        ensures { ReadsLines bytes.now result }
    {
        match line_bytes(bytes) {
            Some(content) => Lines::pack(alloc, content),
            None => Ok(Lines {
                bytes: Vec::new(alloc),
                ends: Vec::new(alloc),
            }),
        }
    }

    /// The lines of bytes that are split at their line feeds. Memory is taken for all of them at once.
    fn pack(alloc: Global, content: &[u8]) -> Result<Lines, BadItems>
        requires { length content.now ≤ file_limit }
        ensures { PacksLines (lines_of content.now) result }
    {
        let most = LIMIT_ITEMS.min(content.len() + 1);
        let mut bytes = Vec::with_capacity(alloc, content.len()).map_err(|_| BadItems::NoMemory)?;
        let mut ends = Vec::with_capacity(alloc, most).map_err(|_| BadItems::NoMemory)?;
        let mut room = NormalLine::empty();
        for line in content.split(|byte| *byte == b'\n') {
            add_line(&mut bytes, &mut ends, line, &mut room)?;
        }
        Ok(Lines { bytes, ends })
    }

    /// How many lines there are: at most 1,048,576.
    pub fn len(&self) -> u32
        ensures len { result ≡ length self.now }
        ensures lines { AreLines self.now }
    {
        self.ends.len() as u32
    }

    /// The line at a place, counted from 0: at most 256 bytes. None exactly where the place is not below `len`.
    pub fn get(&self, i: u32) -> Option<&[u8]>
        ensures line { option_map (λ line. line.now) result ≡ slice_get self.now i }
        ensures past { IsNone result ↔ (length self.now ≤ i) }
        ensures short { IfSome result (λ line. length line.now ≤ line_limit) }
    {
        if i >= self.len() {
            return None;
        }
        let start = start_of(&self.ends, i);
        let end = start_of(&self.ends, i + 1);
        Some(between(&self.bytes, start, end))
    }
}
