// Blocks of tags: kind 4. The payload is the number of the list, the number of the block and its tags, one after
// another, which rise.
ghost use Rattle.std.specs.Prelude.{◌≡◌, ◌+◌, ◌*◌, ◌^◌, ◌<◌, ◌≤◌, [], ◌∷◌, length, take, drop};
ghost use Rattle.psi_spec.specs.Formulas.{padded};
ghost use Rattle.psi_spec.specs.Frames.{first_wrong, layout, tags_frame};
ghost use Rattle.psi_spec.specs.Frames as spec;
ghost use Rattle.psi_frames.specs.Boxes.{with_added};
ghost use Rattle.psi_frames.specs.Tags.{lists_size, tags_field, tags_fields};

use crate::header::put_header;
use crate::outbox::Outbox;
use crate::reasons::Reason;
use psi_base::TagLength;

/// The kind of a block of tags.
pub(crate) const TAGS: u8 = 4;

/// The most tags of a frame.
pub const BLOCK_TAGS: u32 = 1024;

/// The bytes of the frame of a block of tags before the tags.
pub const TAGS_HEAD: u32 = 10;

/// How many bytes the frames of so many lists have, each of `count` tags of this length.
pub fn lists_size(lists: u8, tag_length: TagLength, count: u32) -> u64
    ensures exact { result ≡ lists_size lists tag_length count }
    ensures small { result < 2 ^ 48 }
{
    let heads = u64::from(TAGS_HEAD) * u64::from(count.div_ceil(BLOCK_TAGS));
    let tags = u64::from(tag_length.get()) * u64::from(count);
    u64::from(lists) * (heads + tags)
}

/// The tag at the place `index`, counted from 0, of tags of this length, one after another, with zeros behind it.
/// There are more than `index` tags.
pub fn tag_at(bytes: &[u8], tag_length: TagLength, index: u16) -> [u8; 16]
    requires { (index + 1) * tag_length ≤ length bytes.now }
    ensures { result ≡ padded tag_length (take tag_length (drop (index * tag_length) bytes.now)) }
{
    let length = usize::from(tag_length.get());
    let start = usize::from(index) * length;
    let mut tag = [0; 16];
    tag[..length].copy_from_slice(&bytes[start..start + length]);
    tag
}

/// Adds a block of tags.
pub(crate) fn put_tags(out: &mut Outbox, list: u8, block: u32, bytes: &[u8])
    requires { 10 + length bytes.now ≤ out.old.spare }
    ensures { out.new ≡ with_added (layout (tags_frame list block bytes.now)) out.old }
{
    put_header(out, TAGS, 5 + bytes.len());
    out.add(&[list]);
    out.add(&block.to_be_bytes());
    out.add(bytes);
}

// Whether a tag is below another, compared from the first byte on.
fn is_below(tag: &[u8], other: &[u8]) -> bool
    ensures { result ≡ spec.is_below tag.now other.now }
{
    tag.cmp(other).is_lt()
}

// The place of the first of so many tags that is below the tag before it; `floor` is before the first.
fn first_below(floor: &[u8], tags: &[u8], count: u16, tag_length: TagLength) -> Option<u16>
    requires { length tags.now ≡ count * tag_length }
    ensures { result ≡ spec.first_below floor.now (spec.tags_of count tag_length tags.now) }
{
    let mut before = floor;
    let mut rest = tags;
    for at in 0..count {
        let (tag, later) = rest.split_at(usize::from(tag_length.get()));
        if is_below(tag, before) {
            return Some(at);
        }
        before = tag;
        rest = later;
    }
    None
}

// What is wrong with the order of tags.
fn wrong_order(count: u16, tag_length: TagLength, floor: &[u8; 16], tags: &[u8]) -> Option<Reason>
    ensures { result ≡ first_wrong (tags_field count tag_length floor.now ∷ []) tags.now }
{
    let length = usize::from(tag_length.get());
    let (tags, _) = tags.split_at_checked(usize::from(count) * length)?;
    first_below(&floor[..length], tags, count, tag_length).map(|at| Reason::Order { at })
}

/// What is wrong with the payload of a block of tags.
pub(crate) fn wrong_tags(
    list: u8,
    block: u32,
    tags: u16,
    tag_length: TagLength,
    floor: &[u8; 16],
    payload: &[u8],
) -> Option<Reason>
    ensures { result ≡ first_wrong (tags_fields list block tags tag_length floor.now) payload.now }
{
    let (found, rest) = payload.split_first()?;
    if *found != list {
        return Some(Reason::List {
            found: *found,
            wanted: list,
        });
    }
    let (found, rest) = rest.split_first_chunk::<4>()?;
    let found = u32::from_be_bytes(*found);
    if found != block {
        return Some(Reason::Index {
            found,
            wanted: block,
        });
    }
    wrong_order(tags, tag_length, floor, rest)
}
