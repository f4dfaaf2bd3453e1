// The lines that name faults.
ghost use Rattle.std.specs.Prelude.{◌≡◌, ◌+◌, ◌≤◌, ◌++◌, length, take, decimal, codes};
ghost use Rattle.psi_texts.specs.Texts.{crowded_text, deal_text, difference_text, fault_text, field_text, frame_text, items_text, line_front, record_text, sizes_text, too_long_text, word_front};

use crate::status::Status;
use arrayvec::ArrayString;
use itoa::Buffer;
use psi_cuckoo::BadSlots;
use psi_deal::{BadDeal, DealField};
use psi_frames::BadFrame;
use psi_items::BadItems;
use psi_log::BadRecord;

/// The longest line that names a fault, in bytes.
pub const LINE_ROOM: usize = 120;

/// A line in the making. It takes no memory.
#[derive(Drop)]
pub struct Line {
    /// What it says so far.
    pub text: ArrayString<LINE_ROOM>,
}

impl Line {
    /// A line that begins so.
    pub fn begin(front: &str) -> Line
        requires { length front.now ≤ 120 }
        ensures { result.text.bytes ≡ front.now }
    {
        let mut text = ArrayString::new();
        text.push_str(front);
        Line { text }
    }

    /// The line with a text at its end.
    pub fn with(mut self, text: &str) -> Line
        requires { length self.text.bytes + length text.now ≤ 120 }
        ensures text { result.text.bytes ≡ self.text.bytes ++ text.now }
        ensures short { length result.text.bytes ≤ length self.text.bytes + length text.now }
    {
        self.text.push_str(text);
        self
    }

    /// The line with a number at its end, in decimal digits.
    pub fn with_number(mut self, number: u64) -> Line
        requires { length self.text.bytes + 20 ≤ 120 }
        ensures text { result.text.bytes ≡ self.text.bytes ++ decimal number }
        ensures short { length result.text.bytes ≤ length self.text.bytes + 20 }
    {
        let mut buffer = Buffer::new();
        self.text.push_str(buffer.format(number));
        self
    }

    /// The bytes of the line.
    pub fn bytes(&self) -> &[u8]
        ensures { result.now ≡ self.now.text.bytes }
    {
        self.text.as_str().as_bytes()
    }

    // A line about the file of a word.
    fn about_word(word: u8) -> Line
        ensures text { result.text.bytes ≡ word_front word }
        ensures short { length result.text.bytes ≤ 32 }
    {
        Line::begin("psi: word ")
            .with_number(u64::from(word))
            .with(": ")
    }

    // A line about a line of that file.
    fn about_line(word: u8, number: u32) -> Line
        ensures text { result.text.bytes ≡ line_front word number }
        ensures short { length result.text.bytes ≤ 59 }
    {
        Line::about_word(word)
            .with("line ")
            .with_number(u64::from(number))
            .with(": ")
    }

    // A line about a file that is too long.
    fn about_length(word: u8, taken: u64) -> Line
        ensures { result.text.bytes ≡ too_long_text word taken }
    {
        Line::about_word(word)
            .with("too long after ")
            .with_number(taken)
            .with(" bytes\n")
    }

    // A line about a set that has no placement.
    fn about_crowd(word: u8, count: u64, touched: u32) -> Line
        ensures { result.text.bytes ≡ crowded_text word count touched }
    {
        Line::about_word(word)
            .with_number(count)
            .with(" items touch ")
            .with_number(u64::from(touched))
            .with(" bins\n")
    }

    // A line about a frame that is refused.
    fn about_frame(frame: BadFrame) -> Line
        ensures { result.text.bytes ≡ frame_text frame }
    {
        Line::begin("psi: frame at ")
            .with_number(frame.offset)
            .with(": reason ")
            .with_number(u64::from(frame.reason.number()))
            .with("\n")
    }

    // A line about a fault of an item file.
    fn about_items(word: u8, fault: BadItems) -> Line
        ensures { result.text.bytes ≡ items_text word fault }
    {
        match fault {
            BadItems::Byte { line, found } => Line::about_line(word, line)
                .with("byte ")
                .with_number(u64::from(found))
                .with("\n"),
            BadItems::Long { line, length } => Line::about_line(word, line)
                .with("item of ")
                .with_number(u64::from(length))
                .with(" bytes\n"),
            BadItems::Many { line } => Line::about_line(word, line).with("too many items\n"),
            BadItems::NoMemory => Line::begin("psi: no memory\n"),
        }
    }

    // A line about a number in a deal file, which has this name.
    fn about_part(word: u8, name: &str, found: u32) -> Line
        requires { length name.now ≤ 20 }
        ensures { result.text.bytes ≡ word_front word ++ name.now ++ decimal found ++ codes "\n" }
    {
        Line::about_word(word)
            .with(name)
            .with_number(u64::from(found))
            .with("\n")
    }

    // A line about a fault of a deal file.
    fn about_deal(word: u8, fault: BadDeal) -> Line
        ensures { result.text.bytes ≡ deal_text word fault }
    {
        match fault {
            BadDeal::Magic => Line::about_word(word).with("not a deal file\n"),
            BadDeal::Version { found } => Line::about_part(word, "deal version ", u32::from(found)),
            BadDeal::Role { found } => Line::about_part(word, "deal role ", u32::from(found)),
            BadDeal::Length { found } => Line::about_part(word, "deal length ", found),
            BadDeal::TagBytes { found } => {
                Line::about_part(word, "deal tag bytes ", u32::from(found))
            }
            BadDeal::StashRows { found } => Line::about_part(word, "deal stash ", u32::from(found)),
            BadDeal::Seal => Line::about_word(word).with("deal seal\n"),
            BadDeal::NoMemory => Line::begin("psi: no memory\n"),
        }
    }

    // A line about two bytes that differ in a record.
    fn about_difference(offset: u64, found: u8, wanted: u8) -> Line
        ensures { result.text.bytes ≡ difference_text offset found wanted }
    {
        Line::begin("psi: record differs at ")
            .with_number(offset)
            .with(": ")
            .with_number(u64::from(found))
            .with(" not ")
            .with_number(u64::from(wanted))
            .with("\n")
    }

    // A line about a fault of a record file.
    fn about_record(fault: BadRecord) -> Line
        ensures { result.text.bytes ≡ record_text fault }
    {
        match fault {
            BadRecord::Magic => Line::begin("psi: not a record file\n"),
            BadRecord::Version { found } => {
                Line::about_number("psi: record version ", u64::from(found), "\n")
            }
            BadRecord::Short { offset } => {
                Line::about_number("psi: record short at ", offset, "\n")
            }
            BadRecord::Kind { offset, found } => Line::begin("psi: record kind ")
                .with_number(u64::from(found))
                .with(" at ")
                .with_number(offset)
                .with("\n"),
            BadRecord::Seal => Line::begin("psi: record seal\n"),
            BadRecord::Trailing { offset } => {
                Line::about_number("psi: record trailing at ", offset, "\n")
            }
            BadRecord::NoMemory => Line::begin("psi: no memory\n"),
        }
    }

    // A line about two deals that are no pair.
    fn about_field(field: DealField) -> Line
        ensures { result.text.bytes ≡ field_text field }
    {
        match field {
            DealField::Id => Line::begin("psi: deals differ in id\n"),
            DealField::Session => Line::begin("psi: deals differ in session\n"),
            DealField::Key => Line::begin("psi: deals differ in key\n"),
            DealField::TagBytes => Line::begin("psi: deals differ in tag bytes\n"),
            DealField::StashRows => Line::begin("psi: deals differ in stash\n"),
            DealField::Seed { column } => {
                Line::about_number("psi: deals differ in column ", u64::from(column), "\n")
            }
        }
    }

    // A line about two lists that have different numbers of items.
    fn about_sizes(first: u32, second: u32) -> Line
        ensures { result.text.bytes ≡ sizes_text first second }
    {
        Line::begin("psi: sizes differ: ")
            .with_number(u64::from(first))
            .with(" and ")
            .with_number(u64::from(second))
            .with("\n")
    }

    // A line of a number between two texts.
    fn about_number(front: &str, number: u64, end: &str) -> Line
        requires { length front.now + 20 + length end.now ≤ 120 }
        ensures { result.text.bytes ≡ front.now ++ decimal number ++ end.now }
    {
        Line::begin(front).with_number(number).with(end)
    }

    // The line that names the status's fault.
    fn about(status: &Status) -> Line
        ensures { result.text.bytes ≡ fault_text status.now }
    {
        match status {
            Status::Done => Line::begin(""),
            Status::BadWords { at } => {
                Line::about_number("psi: bad word at ", u64::from(*at), "\n")
            }
            Status::BadItems { word, fault } => Line::about_items(*word, *fault),
            Status::BadDeal { word, fault } => Line::about_deal(*word, *fault),
            Status::NoPlacement {
                word,
                items,
                touched,
            } => Line::about_crowd(*word, items.len() as u64, *touched),
            Status::BadFrame(frame) => Line::about_frame(*frame),
            Status::PeerEnded { offset } => {
                Line::about_number("psi: peer ended at ", *offset, "\n")
            }
            Status::Differs {
                offset,
                found,
                wanted,
            } => Line::about_difference(*offset, *found, *wanted),
            Status::BadSlots(BadSlots::NoMemory) => Line::begin("psi: no memory\n"),
            Status::BadSlots(_) => Line::begin("psi: record slots\n"),
            Status::BadRecord(fault) => Line::about_record(*fault),
            Status::FileFault { word } => Line::about_word(*word).with("file fault\n"),
            Status::LinkFault => Line::begin("psi: link fault\n"),
            Status::PrintFault => Line::begin("psi: print fault\n"),
            Status::TooLong { word, taken } => Line::about_length(*word, *taken),
            Status::DealsDiffer(field) => Line::about_field(*field),
            Status::SizesDiffer { first, second } => Line::about_sizes(*first, *second),
            Status::NoMemory => Line::begin("psi: no memory\n"),
        }
    }
}

/// Writes the line that names the status's fault, with a line feed at its end, to the front of `out`,
/// and answers its length in bytes: 0 for `Done`. It takes no memory.
pub fn fault_line(status: &Status, out: &mut [u8; 120]) -> usize
    ensures text { take result out.new ≡ fault_text status.now }
    ensures length { result ≡ length (fault_text status.now) }
    ensures room { result ≤ 120 }
{
    let line = Line::about(status);
    let bytes = line.bytes();
    out[..bytes.len()].copy_from_slice(bytes);
    bytes.len()
}
