// The two editions of a kernel: how many tasks may wait for one event.
ghost use Rattle.std.specs.Prelude.{◌≡◌, ◌+◌};
ghost use Rattle.kernel.specs.Edition as Edition;

pub const ONE_WAITS: u32 = 1;

pub const MANY_WAIT: u32 = 2;

// The whole word is asked: 257 is no edition.
pub fn is_edition(edition: u32) -> bool
    ensures { result ≡ Edition.is_edition edition }
{
    (edition == ONE_WAITS) | (edition == MANY_WAIT)
}

// Whether so many may wait for one event.
pub fn may_wait(edition: u32, waiters: u8) -> bool
    ensures { result ≡ Edition.may_wait edition waiters }
{
    (edition == MANY_WAIT) | (waiters <= 1)
}

// Whether one more may wait where so many do. Their number may be the last that a byte has, so nothing is added to it.
pub fn may_join(edition: u32, waiters: u8) -> bool
    ensures { result ≡ Edition.may_wait edition (waiters + 1) }
{
    (edition == MANY_WAIT) | (waiters == 0)
}
