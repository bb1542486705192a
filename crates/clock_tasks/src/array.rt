// What is the same for each task that is kept as an array of words: it is read whole, and written whole.
ghost use Rattle.std.specs.Prelude.{◌≡◌, ◌*◌, ◌≤◌, Bool, List, ℕ, length};
ghost use Rattle.kernel.specs.Verdict.{verdict_of};
ghost use Rattle.clock_tasks.specs.Words.{word_bytes, words_in};
ghost use Rattle.clock_tasks.specs.Calls.{state_refusal};

use crate::words::{put_words, read_words};
use kernel::refusal::Refusal;

pub(crate) trait Words<const N: usize>: Drop + Sized {
    ghost is_kept: { List ℕ → Bool };

    ghost from_words: { List ℕ → Self };

    ghost to_words: { Self → List ℕ };

    fn is_one(words: [u32; N]) -> bool
        ensures { result ≡ is_kept words.entry };

    fn of(words: [u32; N]) -> Self
        ensures { result ≡ from_words words.entry };

    fn words(self) -> [u32; N]
        ensures { result ≡ to_words self };

    fn read(state: &[u8]) -> Self
        requires { N ≤ 64 }
        ensures { result ≡ from_words (words_in N state.now) }
    {
        let mut words = [0; N];
        read_words(state, &mut words);
        Self::of(words)
    }

    fn put(self, state: &mut [u8])
        requires few { N ≤ 64 }
        requires sized { length state.old ≡ 4 * N }
        ensures { state.new ≡ word_bytes (to_words self) }
    {
        put_words(&self.words(), state);
    }

    fn check(state: &[u8]) -> Result<(), Refusal>
        requires { N ≤ 64 }
        ensures { verdict_of result ≡ state_refusal N is_kept state.now }
    {
        if state.len() != 4 * N {
            return Err(Refusal::BadImage);
        }
        let mut words = [0; N];
        read_words(state, &mut words);
        if Self::is_one(words) {
            Ok(())
        } else {
            Err(Refusal::BadTable)
        }
    }
}
