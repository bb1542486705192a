// The clock, for a C host: it keeps 232 bytes, and lends them. Nothing is written before every refusal is passed.
ghost use Rattle.std.specs.Prelude.{◌≡◌};
ghost use Rattle.clock_tasks.specs.Calls.{kept, written, clock_start, clock_asks, clock_told};

use crate::machine;
use crate::serving::Server;
use kernel::refusal::{Refusal, verdict};
use tid::sizes::PRIORITIES;

// A clock that is to make a notifier of a priority.
#[tactic(auto, unfolding(crate::specs::Calls::clock_start))]
pub fn clock_start(priority: u32, state: &mut [u8]) -> u32
    ensures { kept result state.new ≡ clock_start priority state.old }
{
    let done = if PRIORITIES <= priority as usize {
        Err(Refusal::BadPriority)
    } else {
        machine::start(Server::new(priority as u8), state)
    };
    u32::from(verdict(done))
}

// What it asks next, as a request of the kernel.
#[tactic(auto, unfolding(crate::specs::Calls::clock_asks))]
pub fn clock_asks(state: &mut [u8], request: &mut [u8]) -> u32
    ensures { written result state.new request.new ≡ clock_asks state.old request.old }
{
    u32::from(verdict(machine::asks::<Server>(state, request)))
}

// What it is told by the kernel's answer, with its own area.
#[tactic(auto, unfolding(crate::specs::Calls::clock_told))]
pub fn clock_told(state: &mut [u8], answer: &[u8], area: &[u8]) -> u32
    ensures { kept result state.new ≡ clock_told state.old answer.now area.now }
{
    u32::from(verdict(machine::told::<Server>(state, answer, area)))
}
