// Words of 32 bits as bytes, the lowest first.
ghost use Rattle.std.specs.Prelude.{◌≡◌, get_or};
ghost use Rattle.image.specs.Bytes.{bytes_of, number_in};
ghost use Rattle.server.specs.Records.{with_word};

// The byte at a place; 0 past the end.
fn byte_at(bytes: &[u8], at: usize) -> u8
    ensures { result ≡ get_or bytes.now at 0 }
{
    if at < bytes.len() { bytes[at] } else { 0 }
}

// The word of four bytes from a place on; those that are missing are 0.
pub fn word_at(bytes: &[u8], at: u8) -> u32
    ensures { result ≡ number_in bytes.now at 4 }
{
    let first = usize::from(at);
    let b0 = byte_at(bytes, first);
    let b1 = byte_at(bytes, first + 1);
    let b2 = byte_at(bytes, first + 2);
    let b3 = byte_at(bytes, first + 3);
    u32::from_le_bytes([b0, b1, b2, b3])
}

// One byte of a word, counted from the lowest; 0 past the last.
pub fn byte_of(word: u32, k: u8) -> u8
    ensures { result ≡ get_or (bytes_of 4 word) k 0 }
{
    byte_at(&word.to_le_bytes(), usize::from(k))
}

// A word written as four bytes at a place; where there is no room for all of them, none is.
pub fn put_word(out: &mut [u8], at: u8, x: u32)
    ensures { out.new ≡ with_word out.old at x }
{
    let first = usize::from(at);
    if out.len() < first + 4 {
        return;
    }
    let [b0, b1, b2, b3] = x.to_le_bytes();
    out[first] = b0;
    out[first + 1] = b1;
    out[first + 2] = b2;
    out[first + 3] = b3;
}
