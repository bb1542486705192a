// A task that a C host keeps as words, and the calls that are the same for each such task: nothing is written before every refusal is passed.
ghost use Rattle.std.specs.Prelude.{◌≡◌, ℕ, ◌*◌, ◌≤◌, Bool, true, List, length};
ghost use Rattle.task.specs.declared.task.Outcome as Tells;
ghost use Rattle.kernel.specs.Verdict.{verdict_of};
ghost use Rattle.kernel.specs.declared.table.Request as Asking;
ghost use Rattle.clock_tasks.specs.Words.{word_bytes, words_in};
ghost use Rattle.clock_tasks.specs.Calls.{kept, written, state_refusal, ask_refusal, started_with, asks_with, told_with};
ghost use Rattle.server.specs.Records.{result_in};

use image::call::{ANSWER, REQUEST};
use kernel::refusal::Refusal;
use kernel::table::Request;
use server::records::{put_request, result_in};
use task::task::Outcome;
use tid::sizes::AREA;

pub(crate) trait Machine: Drop {
    // How many words it is kept as, whether words are those of one, and how they are read and written.
    ghost WORDS: { ℕ };

    const WORDS: usize;

    ghost is_kept: { List ℕ → Bool };

    ghost from_words: { List ℕ → Self };

    ghost to_words: { Self → List ℕ };

    // What it asks next, what it is once that is asked, and once it is told a result, with its own area.
    ghost asks: { Self → Asking.Request };

    ghost asked: { Self → Self };

    ghost told: { Self → Tells.Outcome → List ℕ → Self };

    // Whether it is over, so that it asks nothing more.
    ghost is_over: { Self → Bool };

    // Whether a state is one.
    fn check(state: &[u8]) -> Result<(), Refusal>
        ensures { verdict_of result ≡ state_refusal WORDS is_kept state.now };

    fn put(self, state: &mut [u8])
        requires { length state.old ≡ 4 * WORDS }
        ensures { state.new ≡ word_bytes (to_words self) };

    fn ask(state: &[u8]) -> Request
        requires { length state.now ≡ 4 * WORDS }
        ensures { result ≡ asks (from_words (words_in WORDS state.now)) };

    fn put_asked(state: &mut [u8])
        requires sized { length state.old ≡ 4 * WORDS }
        requires kept { is_kept (words_in WORDS state.old) ≡ true }
        ensures { state.new ≡ word_bytes (to_words (asked (from_words (words_in WORDS state.old)))) };

    fn over(state: &[u8]) -> bool
        requires { length state.now ≡ 4 * WORDS }
        ensures { result ≡ is_over (from_words (words_in WORDS state.now)) };

    fn put_told(state: &mut [u8], res: Outcome, area: &[u8])
        requires { length state.old ≡ 4 * WORDS }
        ensures { state.new ≡ word_bytes (to_words (told (from_words (words_in WORDS state.old)) res area.now)) };

    // So few that their bytes are numbered by a byte.
    ghost few: { WORDS ≤ 64 };
}

// A task that starts.
pub(crate) fn start<M: Machine>(s: M, state: &mut [u8]) -> Result<(), Refusal>
    ensures { kept (verdict_of result) state.new ≡ started_with 0 M.WORDS (M.to_words s) state.old }
{
    if state.len() != 4 * M::WORDS {
        return Err(Refusal::BadImage);
    }
    s.put(state);
    Ok(())
}

// What it asks next, as a request of the kernel.
pub(crate) fn asks<M: Machine>(state: &mut [u8], request: &mut [u8]) -> Result<(), Refusal>
    ensures { written (verdict_of result) state.new request.new ≡ asks_with (ask_refusal (state_refusal M.WORDS M.is_kept state.old) (M.is_over (M.from_words (words_in M.WORDS state.old)))) (M.to_words (M.asked (M.from_words (words_in M.WORDS state.old)))) (M.asks (M.from_words (words_in M.WORDS state.old))) state.old request.old }
{
    if request.len() != REQUEST {
        return Err(Refusal::BadRecord);
    }
    M::check(state)?;
    if M::over(state) {
        return Err(Refusal::NoneActive);
    }
    put_request(M::ask(state), request);
    M::put_asked(state);
    Ok(())
}

// What it is told by the kernel's answer, with its own area.
pub(crate) fn told<M: Machine>(state: &mut [u8], answer: &[u8], area: &[u8]) -> Result<(), Refusal>
    ensures { kept (verdict_of result) state.new ≡ told_with (state_refusal M.WORDS M.is_kept state.old) (M.to_words (M.told (M.from_words (words_in M.WORDS state.old)) (result_in answer.now) area.now)) state.old answer.now area.now }
{
    if answer.len() != ANSWER {
        return Err(Refusal::BadAnswer);
    }
    if area.len() != AREA {
        return Err(Refusal::BadAreas);
    }
    M::check(state)?;
    M::put_told(state, result_in(answer), area);
    Ok(())
}
