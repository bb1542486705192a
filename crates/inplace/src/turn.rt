// The turn that a kind leaves in place, and the two turns where nobody is woken.
ghost use Rattle.std.specs.Prelude.{◌≡◌};
ghost use Rattle.tid.specs.Sizes.{slot_count};
ghost use Rattle.inplace.specs.Ends.{resumes_at, stops_at};

use kernel::table::Effect;
use task::task::{Outcome, State};
use tid::sizes::SLOTS;

// Who asks: in which edition, in a table of how many used slots, and in which of them; SLOTS where nobody runs and the hardware asks.
#[derive(Clone, Copy, Drop)]
pub(crate) struct Caller {
    pub edition: u32,
    pub used: usize,
    pub slot: usize,
}

// What the work of a request leaves besides the image: how many slots are used now, who is woken (SLOTS for nobody) and what it is told,
// and the caller's own next state, its place there and its result. Where a whole queue is woken, it has been already.
#[derive(Drop)]
pub(crate) struct Turn {
    pub used: usize,
    pub woken: usize,
    pub told: Outcome,
    pub state: State,
    pub place: u8,
    pub result: Outcome,
    pub effect: Effect,
}

pub(crate) fn resumes(used: usize, res: Outcome) -> Turn
    ensures { result ≡ resumes_at slot_count used res }
{
    Turn {
        result: res,
        ..stops(used, State::Ready, 0)
    }
}

pub(crate) fn stops(used: usize, state: State, place: u8) -> Turn
    ensures { result ≡ stops_at slot_count used state place }
{
    Turn {
        used,
        woken: SLOTS,
        told: Outcome::Nothing,
        state,
        place,
        result: Outcome::Nothing,
        effect: Effect::Keep,
    }
}
