// A line of a file, and its normal form.
ghost use Rattle.std.specs.Prelude.{◌≡◌, ◌≤◌, ◌-◌, ◌<◌, ◌^◌, [], length, map, take, drop, find};
ghost use Rattle.std.specs.Char.{to_ascii_lowercase};
ghost use Rattle.std.specs.List.{prefix_len, suffix_len};
ghost use Rattle.std.specs.Str.Lines.{strip_carriage_return};
ghost use Rattle.psi_spec.specs.Items as spec;
ghost use Rattle.psi_spec.specs.Limits.{line_limit};
ghost use Rattle.psi_items.specs.Reading.{ReadsLine};

use crate::errors::BadItems;
use std::marker::Model;

/// The most bytes of a line's normal form.
const LINE_LIMIT: usize = psi_base::LINE_LIMIT as usize;

/// The line without the one carriage return at its end, if it has one.
fn without_carriage_return(line: &[u8]) -> &[u8]
    ensures { result.now ≡ strip_carriage_return line.now }
{
    match line {
        [text @ .., b'\r'] => text,
        _ => line,
    }
}

/// Whether no line may hold the byte.
fn is_control(byte: u8) -> bool
    ensures { result ≡ spec.is_control byte }
{
    (byte < b' ' && byte != b'\t') || byte == 0x7f
}

/// The first byte that no line may hold.
fn control_byte(line: &[u8]) -> Option<u8>
    ensures { result ≡ find spec.is_control line.now }
{
    line.iter().copied().find(|byte| is_control(*byte))
}

/// Whether the byte is a space or a tab.
fn is_blank(byte: u8) -> bool
    ensures { result ≡ spec.is_blank byte }
{
    byte == b' ' || byte == b'\t'
}

/// The line without the blanks at its start.
fn without_leading_blanks(line: &[u8]) -> &[u8]
    ensures { result.now ≡ drop (prefix_len spec.is_blank line.now) line.now }
{
    let blanks = line.iter().take_while(|byte| is_blank(**byte)).count();
    &line[blanks..]
}

/// The line without the blanks at its end.
fn without_trailing_blanks(line: &[u8]) -> &[u8]
    ensures { result.now ≡ take (length line.now - suffix_len spec.is_blank line.now) line.now }
{
    let blanks = line
        .iter()
        .rev()
        .take_while(|byte| is_blank(**byte))
        .count();
    &line[..line.len() - blanks]
}

/// The line without the blanks at its start and at its end.
fn trimmed(line: &[u8]) -> &[u8]
    ensures { result.now ≡ spec.trimmed line.now }
{
    without_trailing_blanks(without_leading_blanks(line))
}

/// Makes `out` the text with small letters in place of ASCII capitals.
fn put_lowercase(text: &[u8], out: &mut [u8])
    requires { length text.now ≡ length out.old }
    ensures { out.new ≡ map to_ascii_lowercase text.now }
{
    out.copy_from_slice(text);
    out.make_ascii_lowercase();
}

/// The normal form of a line, in room for one: lines are read into it one after another.
#[derive(Drop)]
pub struct NormalLine {
    room: [u8; LINE_LIMIT],
    len: usize,
}

impl Model for NormalLine {
    ghost use Rattle.std.specs.Prelude.{◌≤◌, ℕ, List, take};
    ghost use Rattle.psi_spec.specs.Limits.{line_limit};

    ghost Value = { List ℕ };

    ghost view = { λ s. take s.len s.room };

    ghost invariant = { λ s. s.len ≤ line_limit };
}

impl NormalLine {
    /// The normal form of an empty line.
    pub fn empty() -> NormalLine
        ensures { result ≡ [] }
    {
        NormalLine {
            room: [0; LINE_LIMIT],
            len: 0,
        }
    }

    /// Reads the line with this number: one carriage return at its end and the spaces and tabs round it are dropped,
    /// and ASCII capitals become small letters.
    ///
    /// `Byte` comes where the line holds a control byte other than a tab, else `Long` where more than 256 bytes are
    /// left. No other error comes.
    pub fn read(&mut self, number: u32, line: &[u8]) -> Result<(), BadItems>
        requires { length line.now < 2 ^ 32 }
        ensures { ReadsLine number line.now result self.new }
    {
        let line = without_carriage_return(line);
        if let Some(found) = control_byte(line) {
            return Err(BadItems::Byte {
                line: number,
                found,
            });
        }
        let text = trimmed(line);
        if text.len() > LINE_LIMIT {
            return Err(BadItems::Long {
                line: number,
                length: text.len() as u32,
            });
        }
        put_lowercase(text, &mut self.room[..text.len()]);
        self.len = text.len();
        Ok(())
    }

    /// The line's normal form: at most 256 bytes.
    pub fn text(&self) -> &[u8]
        ensures text { result.now ≡ self.now }
        ensures short { length self.now ≤ line_limit }
    {
        &self.room[..self.len]
    }
}
