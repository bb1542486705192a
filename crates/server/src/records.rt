// The two records of a step from a task's side: what it asks, written, and what it is told, read.
ghost use Rattle.std.specs.Prelude.{◌≡◌};
ghost use Rattle.server.specs.Records.{requested, result_in};

use crate::words::{put_word, word_at};
use image::call::REQUEST;
use image::fields::{ResultParts, result_of};
use kernel::table::Request;
use task::task::Outcome;

// Where an answer has the kind of its result, the value or fault, whom it is from, and whether it was cut.
const KIND: u8 = 8;

const VALUE: u8 = 12;

const SENDER: u8 = 16;

const CUT: u8 = 20;

// A request, written whole; where the bytes are of another length, nothing is.
pub fn put_request(request: Request, out: &mut [u8])
    ensures { out.new ≡ requested request out.old }
{
    if out.len() == REQUEST {
        put_word(out, 0, request.kind);
        put_word(out, 4, request.arg0);
        put_word(out, 8, request.arg1);
        put_word(out, 12, request.arg2);
        put_word(out, 16, request.arg3);
        put_word(out, 20, request.arg4);
    }
}

// The result that an answer tells. Of no kind that there is, from no tid that there can be, or neither cut nor whole, it tells nothing.
#[tactic(auto, unfolding(crate::specs::Records::result_in, image::specs::Call::answer_from))]
pub fn result_in(answer: &[u8]) -> Outcome
    ensures { result ≡ result_in answer.now }
{
    let Ok(kind) = u8::try_from(word_at(answer, KIND)) else {
        return Outcome::Nothing;
    };
    let Ok(from) = u8::try_from(word_at(answer, SENDER)) else {
        return Outcome::Nothing;
    };
    let Ok(cut @ 0..=1) = u8::try_from(word_at(answer, CUT)) else {
        return Outcome::Nothing;
    };
    result_of(ResultParts {
        kind,
        from,
        cut,
        word: word_at(answer, VALUE),
    })
}
