// What the words say that the program is started with: a job, and behind it an edition.
ghost use Rattle.std.specs.Prelude.{◌<◌};

use kernel::edition::{MANY_WAIT, ONE_WAITS};
use std::env::Env;

// As much of a word as is looked at.
pub(crate) const WORD: usize = 8;

// What is asked for.
#[derive(Clone, Copy, Debug, Drop, PartialEq, Eq)]
pub(crate) enum Job {
    Check,
    Show,
    // Into the form of so many bytes.
    Convert(usize),
}

// The first bytes of a word, and zeros behind them.
pub(crate) fn word_at(rt: &impl Env, at: usize) -> [u8; WORD] {
    let mut word = [0u8; WORD];
    let _ = rt.arg(at, &mut word);
    word
}

// A digit's number.
fn digit(x: u8) -> usize
    ensures { result < 16 }
{
    (x % 16) as usize
}

// The number that three digits are: every form's length has three.
fn length_of(word: [u8; WORD]) -> usize {
    digit(word[0]) * 100 + digit(word[1]) * 10 + digit(word[2])
}

// By the first letter of its word: `check`; the length of a form to convert into, as `640`; or, as without a word, `show`.
pub(crate) fn job_of(word: [u8; WORD]) -> Job {
    match word[0] {
        b'0'..=b'9' => Job::Convert(length_of(word)),
        b'c' => Job::Check,
        _ => Job::Show,
    }
}

// The edition of a word that is one digit; without a word it is the first. Any other word is no edition.
pub(crate) fn edition_of(word: [u8; WORD]) -> Option<u32> {
    match word {
        [0, ..] | [b'1', 0, ..] => Some(ONE_WAITS),
        [b'2', 0, ..] => Some(MANY_WAIT),
        _ => None,
    }
}
