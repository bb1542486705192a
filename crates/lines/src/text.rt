// Text put into a lent buffer.
ghost use Rattle.std.specs.Prelude.{◌≡◌, [], ◌∷◌};
ghost use Rattle.lines.specs.Text.{digit, decimal, signed};
ghost use Rattle.lines.specs.Written.{Written};

use task::task::FIRST_NEGATIVE;

// A lent buffer, and the place where what is put next goes. What does not fit is cut at the buffer's end.
#[derive(Drop)]
pub(crate) struct Line<'a> {
    pub(crate) out: &'a mut [u8],
    pub(crate) at: usize,
}

fn digit(n: u64) -> u8
    ensures { result ≡ digit n }
{
    (n % 10) as u8 + b'0'
}

impl<'a> Line<'a> {
    pub(crate) fn new(out: &'a mut [u8], at: usize) -> Line<'a>
        ensures lent { result.out.now ≡ out.old }
        ensures same { result.out.ghost_name ≡ out.entry.ghost_name }
        ensures at { result.at ≡ at }
    {
        Line { out, at }
    }

    pub(crate) fn put(&mut self, byte: u8)
        ensures { Written self.old (byte ∷ []) self.new }
    {
        if self.at < self.out.len() {
            self.out[self.at] = byte;
            self.at += 1;
        }
    }

    pub(crate) fn text(&mut self, bytes: &[u8])
        ensures { Written self.old bytes.now self.new }
    {
        for byte in bytes {
            self.put(*byte);
        }
    }

    // A number in decimal, its first digit first.
    pub(crate) fn decimal(&mut self, n: u64)
        ensures { Written self.old (decimal n) self.new }
    {
        if 10 <= n {
            self.decimal(n / 10);
        }
        self.put(digit(n));
    }

    // A word of 32 bits, which is negative from 2^31 on.
    pub(crate) fn signed(&mut self, w: u32)
        ensures { Written self.old (signed w) self.new }
    {
        if w < FIRST_NEGATIVE {
            self.decimal(u64::from(w));
        } else {
            self.put(b'-');
            self.decimal(u64::from(w.wrapping_neg()));
        }
    }

    // A number behind a mark.
    pub(crate) fn behind(&mut self, mark: u8, n: u64)
        ensures { Written self.old (mark ∷ decimal n) self.new }
    {
        self.put(mark);
        self.decimal(n);
    }
}
