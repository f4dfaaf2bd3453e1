// The forms of a command's words.
ghost use Rattle.std.specs.Prelude.{◌≡◌, ◌+◌, ◌<◌, ◌≤◌, length};
ghost use Rattle.psi_words.specs.Words.{bad_from, bad_optional, bad_word, is_output, word_at};
ghost use Rattle.psi_words.specs.Form.{forms_seen, test_of, tests_of};

use crate::values::{are_sizes, is_count, is_part, is_seed, is_session};
use psi_base::Words;

/// The form that a word must have.
#[derive(Clone, Copy, Debug, PartialEq, Eq)]
pub enum Form {
    /// The name of a file, or an address: any text but the empty one.
    Name,
    /// The name of a file that is written: none of the names of files at the places from `from` up to, and without,
    /// `to`.
    Output { from: u8, to: u8 },
    /// A seed: 64 hexadecimal digits of either case.
    Seed,
    /// The number of a session: 1 to 20 decimal digits with a value below 2^64.
    Session,
    /// The length of a tag in bytes, alone or with a stroke and the number of stash rows behind it: each 1 or 2
    /// decimal digits, with a value from 1 to 16 and of at most 16.
    Sizes,
    /// A number of items: 1 to 7 decimal digits with a value of at most 1,048,576.
    Count,
    /// A number of items that is at most the number in the word before.
    Shared,
}

/// The forms of the words after a command's name.
#[derive(Clone, Copy, Debug)]
pub struct CommandForms {
    /// The forms of the words that must be there.
    pub needed: &'static [Form],
    /// The forms of the words that may follow.
    pub optional: &'static [Form],
}

impl Form {
    /// Whether the word at this place, counted from 0, has this form.
    pub fn fits(self, words: &Words, at: usize) -> bool
        ensures { result ≡ test_of self words.now at }
    {
        let word = word_at(words, at);
        match self {
            Form::Name => !word.is_empty(),
            Form::Output { from, to } => is_output(words, from, to, at),
            Form::Seed => is_seed(word),
            Form::Session => is_session(word),
            Form::Sizes => are_sizes(word),
            Form::Count => is_count(word),
            Form::Shared => is_part(word_at(words, at.saturating_sub(1)), word),
        }
    }
}

// Whether the word at a place is the name of a file, and none of the words from `from` on and before `to`.
fn is_output(words: &Words, from: u8, to: u8, at: usize) -> bool
    ensures { result ≡ is_output from to words.now at }
{
    let word = word_at(words, at);
    if word.is_empty() {
        return false;
    }
    for place in from..to {
        if word_at(words, usize::from(place)) == word {
            return false;
        }
    }
    true
}

/// The word at this place, counted from 0, and the empty text past the end.
pub fn word_at<'a>(words: &'a Words, at: usize) -> &'a str
    ensures { result.now ≡ word_at words.entry.now at }
{
    match words.get(at) {
        Some(word) => word,
        None => "",
    }
}

// The least place from `at` on whose word is out of form or one too many, where each may be missing.
fn bad_optional(words: &Words, forms: &[Form], at: u32) -> Option<u32>
    requires { at + length forms.now < 100 }
    ensures { result ≡ bad_optional (tests_of forms.now) words.now at }
{
    if at as usize >= words.len() {
        return None;
    }
    match forms {
        [form, rest @ ..] if form.fits(words, at as usize) => bad_optional(words, rest, at + 1),
        _ => Some(at),
    }
}

// The least place from `at` on whose word is missing, out of form or one too many.
fn bad_from(words: &Words, needed: &[Form], optional: &[Form], at: u32) -> Option<u32>
    requires { at + length needed.now + length optional.now < 100 }
    ensures { result ≡ bad_from (tests_of needed.now) (tests_of optional.now) words.now at }
{
    match needed {
        [] => bad_optional(words, optional, at),
        [form, rest @ ..] => {
            if (at as usize) < words.len() && form.fits(words, at as usize) {
                bad_from(words, rest, optional, at + 1)
            } else {
                Some(at)
            }
        }
    }
}

/// The least place, counted from 0, whose word fails the forms of the words after a command's name.
pub fn bad_word(words: &Words, forms: CommandForms) -> Option<u32>
    requires few { length forms.needed.now + length forms.optional.now ≤ 8 }
    ensures { result ≡ bad_word (forms_seen forms) words.now }
{
    bad_from(words, forms.needed, forms.optional, 1)
}
