// The bytes of a message to the clock and of its answer, and what a client makes of an answer.
ghost use Rattle.std.specs.Prelude.{◌≡◌, slice_index};
ghost use Rattle.clock.specs.Message.{asked_in, asked_by, op_of, argument_of, request_bytes, status_of, count_of, answer_bytes, words_mean, delay_refusal, count_fits, refusal_fits, fitting, meaning};

use crate::clock::{Asked, Said, is_due};
use server::words::{byte_of, word_at};
use task::task::{FIRST_NEGATIVE, Outcome};

// How long a message is, and how long an answer.
pub const SIZE: u32 = 8;

const TICK: u32 = 1;

const TIME: u32 = 2;

const DELAY: u32 = 3;

const UNTIL: u32 = 4;

// The refusals, as the negative words that tell them.
pub const MINUS_2: u32 = 4294967294;

pub const MINUS_3: u32 = 4294967293;

pub const MINUS_4: u32 = 4294967292;

// What a message of a length asks, of which at least the first bytes are at hand.
#[tactic(auto, unfolding(crate::specs::Message::asked_in))]
pub fn asked_in(length: u32, bytes: &[u8]) -> Asked
    ensures { result ≡ asked_in length bytes.now }
{
    if length != SIZE {
        return Asked::Unknown;
    }
    asked_by(word_at(bytes, 0), word_at(bytes, 4))
}

// What the two words of a message ask.
#[tactic(auto, unfolding(crate::specs::Message::asked_by))]
pub fn asked_by(op: u32, arg: u32) -> Asked
    ensures { result ≡ asked_by op arg }
{
    match (op, arg) {
        (DELAY, _) => Asked::Delay(arg),
        (UNTIL, _) => Asked::Until(arg),
        (TICK, 0) => Asked::Tick,
        (TIME, 0) => Asked::Time,
        _ => Asked::Unknown,
    }
}

// The op of a message that asks this.
pub fn op_of(asked: Asked) -> u32
    ensures { result ≡ op_of asked }
{
    match asked {
        Asked::Tick => TICK,
        Asked::Time => TIME,
        Asked::Delay(_) => DELAY,
        Asked::Until(_) => UNTIL,
        Asked::Unknown => 0,
    }
}

// Its argument.
pub fn argument_of(asked: Asked) -> u32
    ensures { result ≡ argument_of asked }
{
    match asked {
        Asked::Delay(d) => d,
        Asked::Until(due) => due,
        Asked::Tick | Asked::Time | Asked::Unknown => 0,
    }
}

// One byte of a message, which the client writes into its own area; 0 past the last.
pub fn request_byte(asked: Asked, k: u8) -> u8
    ensures { result ≡ slice_index (request_bytes asked) k }
{
    if k < 4 {
        return byte_of(op_of(asked), k);
    }
    byte_of(argument_of(asked), k - 4)
}

// The status of an answer: 0, or the refusal as a negative word.
pub fn status_of(said: Said) -> u32
    ensures { result ≡ status_of said }
{
    match said {
        Said::Count(_) => 0,
        Said::Refused(n) => u32::from(n).wrapping_neg(),
    }
}

// The count of an answer; a refusal has none.
pub fn count_of(said: Said) -> u32
    ensures { result ≡ count_of said }
{
    match said {
        Said::Count(count) => count,
        Said::Refused(_) => 0,
    }
}

// One byte of an answer; 0 past the last.
pub fn answer_byte(said: Said, k: u8) -> u8
    ensures { result ≡ slice_index (answer_bytes said) k }
{
    if k < 4 {
        return byte_of(status_of(said), k);
    }
    byte_of(count_of(said), k - 4)
}

// What an answer means to the one who asked.
#[derive(Clone, Copy, Drop)]
pub enum Meaning {
    Count(u32),
    Refused(u8),
    Fault(u8),
    Garbled,
}

// What came of a Send to the clock that asked this: what the kernel tells, and the reply buffer.
pub fn meant(asked: Asked, res: Outcome, bytes: &[u8]) -> Meaning
    ensures { result ≡ meaning asked res bytes.now }
{
    match res {
        Outcome::Value { value: SIZE, .. } => {
            fitting(asked, words_mean(word_at(bytes, 0), word_at(bytes, 4)))
        }
        Outcome::Fault(f) => Meaning::Fault(f),
        Outcome::Nothing | Outcome::Value { .. } => Meaning::Garbled,
    }
}

// Whether the clock may answer this with a count.
fn count_fits(asked: Asked, count: u32) -> bool
    ensures { result ≡ count_fits asked count }
{
    match asked {
        Asked::Tick | Asked::Time => true,
        Asked::Delay(d) => d < FIRST_NEGATIVE,
        Asked::Until(due) => is_due(count, due),
        Asked::Unknown => false,
    }
}

// Whether it may refuse it by -n.
fn refusal_fits(asked: Asked, n: u8) -> bool
    ensures { result ≡ refusal_fits asked n }
{
    match asked {
        Asked::Tick | Asked::Unknown => n == 4,
        Asked::Time => false,
        Asked::Delay(d) => n == delay_refusal(d) || n == 4,
        Asked::Until(_) => n == 3 || n == 4,
    }
}

// By what a delay of d may be refused beside -4: of a negative one by -2, of a longer one than 0 by -3.
fn delay_refusal(d: u32) -> u8
    ensures { result ≡ delay_refusal d }
{
    match d {
        0 => 4,
        1..FIRST_NEGATIVE => 3,
        _ => 2,
    }
}

// What the words of an answer mean to the one who asked this: what the clock never answers to it is garbled.
fn fitting(asked: Asked, meaning: Meaning) -> Meaning
    ensures { result ≡ fitting asked meaning }
{
    match meaning {
        Meaning::Count(count) if !count_fits(asked, count) => Meaning::Garbled,
        Meaning::Refused(n) if !refusal_fits(asked, n) => Meaning::Garbled,
        _ => meaning,
    }
}

// What the two words of an answer mean.
#[tactic(auto, unfolding(crate::specs::Message::words_mean))]
fn words_mean(status: u32, count: u32) -> Meaning
    ensures { result ≡ words_mean status count }
{
    match (status, count) {
        (0, _) => Meaning::Count(count),
        (MINUS_2, 0) => Meaning::Refused(2),
        (MINUS_3, 0) => Meaning::Refused(3),
        (MINUS_4, 0) => Meaning::Refused(4),
        _ => Meaning::Garbled,
    }
}
