// The forms of single words, and what they say.
ghost use Rattle.std.specs.Prelude.{◌≡◌, ◌≤◌, true};
ghost use Rattle.std.specs.Char.{is_ascii_digit};
ghost use Rattle.std.specs.List.{list_all};
ghost use Rattle.psi_spec.specs.Limits.{limit_items};
ghost use Rattle.psi_words.specs.Words.{are_digits, are_sizes, is_count, is_part, is_seed, is_session, is_stash_count, is_tag_length, number_of, seed_of, stash_of, tag_length_of};

use hex::FromHex;
use psi_base::{LIMIT_ITEMS, STASH_LIMIT, TAG_LIMIT, USUAL_STASH};

/// Whether the word has 64 hexadecimal digits of either case.
pub fn is_seed(word: &str) -> bool
    ensures { result ≡ is_seed word.now }
{
    <[u8; 32] as FromHex>::from_hex(word).is_ok()
}

fn all_digits(word: &str) -> bool
    ensures { result ≡ list_all is_ascii_digit word.now }
{
    word.as_bytes().iter().all(|byte| byte.is_ascii_digit())
}

fn are_digits(word: &str, most: usize) -> bool
    ensures { result ≡ are_digits most word.now }
{
    1 <= word.len() && word.len() <= most && all_digits(word)
}

/// Whether the word has 1 to 20 decimal digits with a value below 2^64.
pub fn is_session(word: &str) -> bool
    ensures { result ≡ is_session word.now }
{
    are_digits(word, 20) && word.parse::<u64>().is_ok()
}

// Whether the word has 1 or 2 decimal digits with a value from 1 to 16.
fn is_tag_length(word: &str) -> bool
    ensures { result ≡ is_tag_length word.now }
{
    if !are_digits(word, 2) {
        return false;
    }
    match word.parse::<u8>() {
        Ok(length) => (1..=TAG_LIMIT).contains(&length),
        Err(_) => false,
    }
}

// Whether the word has 1 or 2 decimal digits with a value of at most 16.
fn is_stash_count(word: &str) -> bool
    ensures { result ≡ is_stash_count word.now }
{
    if !are_digits(word, 2) {
        return false;
    }
    match word.parse::<u8>() {
        Ok(count) => count <= STASH_LIMIT,
        Err(_) => false,
    }
}

/// Whether the word is the length of a tag, alone or with a stroke and the number of stash rows behind it.
pub fn are_sizes(word: &str) -> bool
    ensures { result ≡ are_sizes word.now }
{
    match word.split_once('/') {
        Some((length, count)) => is_tag_length(length) && is_stash_count(count),
        None => is_tag_length(word),
    }
}

/// Whether the word has 1 to 7 decimal digits with a value of at most 1,048,576.
pub fn is_count(word: &str) -> bool
    ensures { result ≡ is_count word.now }
{
    if !are_digits(word, 7) {
        return false;
    }
    match word.parse::<u32>() {
        Ok(count) => count <= LIMIT_ITEMS,
        Err(_) => false,
    }
}

/// Whether both words are numbers of items, and the second is at most the first.
pub fn is_part(whole: &str, word: &str) -> bool
    ensures { result ≡ is_part whole.now word.now }
{
    is_count(whole) && is_count(word) && count_of(word) <= count_of(whole)
}

/// The 32 bytes that a seed spells.
pub fn seed_of(word: &str) -> [u8; 32]
    requires { is_seed word.now ≡ true }
    ensures { result ≡ seed_of word.now }
{
    <[u8; 32] as FromHex>::from_hex(word).unwrap()
}

/// The number of a session.
pub fn session_of(word: &str) -> u64
    requires { is_session word.now ≡ true }
    ensures { result ≡ number_of word.now }
{
    word.parse::<u64>().unwrap()
}

// The length of a tag.
fn number_of_tag_length(word: &str) -> u8
    requires { is_tag_length word.now ≡ true }
    ensures { result ≡ number_of word.now }
{
    word.parse::<u8>().unwrap()
}

// The number of stash rows.
fn number_of_stash_count(word: &str) -> u8
    requires { is_stash_count word.now ≡ true }
    ensures { result ≡ number_of word.now }
{
    word.parse::<u8>().unwrap()
}

/// The sizes of a deal: the length of a tag in bytes, and the number of stash rows, which is the usual one where the
/// word does not say it.
#[tactic(auto, unfolding(crate::specs::Words::tag_length_of, crate::specs::Words::stash_of))]
pub fn sizes_of(word: &str) -> (u8, u8)
    requires { are_sizes word.now ≡ true }
    ensures tag_length { result.0 ≡ tag_length_of word.now }
    ensures stash { result.1 ≡ stash_of word.now }
{
    match word.split_once('/') {
        Some((length, count)) => (number_of_tag_length(length), number_of_stash_count(count)),
        None => (number_of_tag_length(word), USUAL_STASH),
    }
}

/// The number of items that the word says.
fn count_of(word: &str) -> u32
    requires { is_count word.now ≡ true }
    ensures { result ≡ number_of word.now }
{
    word.parse::<u32>().unwrap()
}

/// How many items each of two files has, and how many of them are in both.
pub fn counts_of(whole: &str, part: &str) -> (u32, u32)
    requires { is_part whole.now part.now ≡ true }
    ensures count { result.0 ≡ number_of whole.now }
    ensures shared { result.1 ≡ number_of part.now }
    ensures within { result.1 ≤ result.0 }
    ensures few { result.0 ≤ limit_items }
{
    (count_of(whole), count_of(part))
}
