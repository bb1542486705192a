// The two records of a step: what is asked, and what is answered.
ghost use Rattle.std.specs.Prelude.{◌≡◌};
ghost use Rattle.image.specs.Call.{request_from, answered};

use crate::fields::result_parts_of;
use crate::words::{put_word, word_in};
use kernel::table::{Answer, Request};

// How long a request and an answer are.
pub const REQUEST: usize = 24;

pub const ANSWER: usize = 24;

// Where the words of an answer start.
const VERDICT: usize = 0;

const NEXT: usize = 4;

const KIND: usize = 8;

const VALUE: usize = 12;

const SENDER: usize = 16;

const CUT: usize = 20;

// The request of a record: its kind and its five arguments. A record of another length asks nothing.
#[tactic(auto, unfolding(crate::specs::Call::request_from))]
pub fn request_from(bytes: &[u8]) -> Request
    ensures { result ≡ request_from bytes.now }
{
    if bytes.len() != REQUEST {
        return Request {
            kind: 0,
            arg0: 0,
            arg1: 0,
            arg2: 0,
            arg3: 0,
            arg4: 0,
        };
    }
    Request {
        kind: word_in(bytes, 0),
        arg0: word_in(bytes, 4),
        arg1: word_in(bytes, 8),
        arg2: word_in(bytes, 12),
        arg3: word_in(bytes, 16),
        arg4: word_in(bytes, 20),
    }
}

// The answer, written whole; where the bytes are of another length, nothing is.
pub fn put_answer(answer: Answer, out: &mut [u8])
    ensures { out.new ≡ answered answer out.old }
{
    if out.len() == ANSWER {
        let numbers = result_parts_of(answer.result);
        put_word(out, VERDICT, answer.verdict as u32);
        put_word(out, NEXT, answer.next as u32);
        put_word(out, KIND, numbers.kind as u32);
        put_word(out, VALUE, numbers.word);
        put_word(out, SENDER, numbers.from as u32);
        put_word(out, CUT, numbers.cut as u32);
    }
}
