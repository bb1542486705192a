// The notifier, for a C host: it keeps 16 bytes, and lends them. Nothing is written before every refusal is passed.
ghost use Rattle.std.specs.Prelude.{◌≡◌};
ghost use Rattle.clock_tasks.specs.Calls.{kept, written, notifier_start, notifier_asks, notifier_told};

use crate::machine;
use crate::notifier::Notifier;
use kernel::refusal::{Refusal, verdict};
use tid::sizes::EVENTS;

// A notifier that is to send ticks of an event.
#[tactic(auto, unfolding(crate::specs::Calls::notifier_start))]
pub fn notifier_start(event: u32, state: &mut [u8]) -> u32
    ensures { kept result state.new ≡ notifier_start event state.old }
{
    let done = if EVENTS <= event as usize {
        Err(Refusal::BadEvent)
    } else {
        machine::start(Notifier::new(event as u8), state)
    };
    u32::from(verdict(done))
}

// What it asks next, as a request of the kernel.
#[tactic(auto, unfolding(crate::specs::Calls::notifier_asks))]
pub fn notifier_asks(state: &mut [u8], request: &mut [u8]) -> u32
    ensures { written result state.new request.new ≡ notifier_asks state.old request.old }
{
    u32::from(verdict(machine::asks::<Notifier>(state, request)))
}

// What it is told by the kernel's answer; of its own area it reads nothing.
#[tactic(auto, unfolding(crate::specs::Calls::notifier_told))]
pub fn notifier_told(state: &mut [u8], answer: &[u8], area: &[u8]) -> u32
    ensures { kept result state.new ≡ notifier_told state.old answer.now area.now }
{
    u32::from(verdict(machine::told::<Notifier>(state, answer, area)))
}
