// Numbers in bytes, the lowest byte first.
ghost use Rattle.std.specs.Prelude.{◌≡◌, ◌+◌, ◌*◌, ◌≤◌, length};
ghost use Rattle.std.proofs.Math.Seq.{paste};
ghost use Rattle.image.specs.Bytes.{bytes_of, number_in};

// The number of two bytes, the low one first.
pub fn short(low: u8, high: u8) -> u32
    ensures { result ≡ low + 256 * high }
{
    u32::from(u16::from_le_bytes([low, high]))
}

// The number of four bytes.
pub fn word(b0: u8, b1: u8, b2: u8, b3: u8) -> u32
    ensures { result ≡ b0 + 256 * (b1 + 256 * (b2 + 256 * b3)) }
{
    u32::from_le_bytes([b0, b1, b2, b3])
}

// The same of bytes in a row.
pub(crate) fn short_in(r: &[u8], at: usize) -> u32
    requires { at + 2 ≤ length r.now }
    ensures { result ≡ number_in r.now at 2 }
{
    short(r[at], r[at + 1])
}

pub(crate) fn word_in(r: &[u8], at: usize) -> u32
    requires { at + 4 ≤ length r.now }
    ensures { result ≡ number_in r.now at 4 }
{
    word(r[at], r[at + 1], r[at + 2], r[at + 3])
}

// A number written as four bytes.
pub(crate) fn put_word(out: &mut [u8], at: usize, x: u32)
    requires { at + 4 ≤ length out.old }
    ensures { out.new ≡ paste out.old at (bytes_of 4 x) 4 }
{
    let [b0, b1, b2, b3] = x.to_le_bytes();
    out[at] = b0;
    out[at + 1] = b1;
    out[at + 2] = b2;
    out[at + 3] = b3;
}
