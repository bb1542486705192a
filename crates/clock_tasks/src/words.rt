// The words that a host keeps of a task: read from its bytes, and written. No task has more than 64, so that a byte tells where each
// starts.
ghost use Rattle.std.specs.Prelude.{◌≡◌, ◌*◌, ◌≤◌, min, length};
ghost use Rattle.clock_tasks.specs.Words.{word_bytes, words_in};

use server::words::{put_word, word_at};

// As many words as there is room for, from the first byte on.
pub(crate) fn read_words(bytes: &[u8], words: &mut [u32])
    requires { length words.old ≤ 64 }
    ensures { words.new ≡ words_in (length words.old) bytes.now }
{
    for (i, word) in words.iter_mut().enumerate() {
        *word = word_at(bytes, (4 * i) as u8);
    }
}

// Words that take up all of the bytes.
pub(crate) fn put_words(words: &[u32], bytes: &mut [u8])
    requires { (length words.now ≤ 64) × (length bytes.old ≡ 4 * length words.now) }
    ensures { bytes.new ≡ word_bytes words.now }
{
    for (i, word) in words.iter().enumerate() {
        put_word(bytes, (4 * i) as u8, *word);
    }
}

// A word that is to be a byte, held to the largest that there is.
pub(crate) fn at_most(word: u32, most: u8) -> u8
    ensures { result ≡ min word most }
{
    word.min(u32::from(most)) as u8
}
