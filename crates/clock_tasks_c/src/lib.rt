// The clock, its notifier and its clients for C hosts: the functions of `clock_tasks` under their C names. The header is
// include/bredonych_clock.h.
#![tactic(auto)]

ghost use Rattle.std.specs.Prelude.{◌≡◌};
ghost use Rattle.clock_tasks.specs.Calls.{kept, written, clock_start, clock_asks, clock_told, notifier_start, notifier_asks, notifier_told, client_start, client_asks, client_told, client_outcome};

use clock_tasks::{client_calls, clock_calls, notifier_calls};

// A clock that is to make a notifier of a priority.
#[unsafe(no_mangle)]
pub extern "C" fn clock_start(priority: u32, state: &mut [u8]) -> u32
    ensures { kept result state.new ≡ clock_start priority state.old }
{
    clock_calls::clock_start(priority, state)
}

// What it asks next, as a request of the kernel.
#[unsafe(no_mangle)]
pub extern "C" fn clock_asks(state: &mut [u8], request: &mut [u8]) -> u32
    ensures { written result state.new request.new ≡ clock_asks state.old request.old }
{
    clock_calls::clock_asks(state, request)
}

// What it is told by the kernel's answer, with its own area.
#[unsafe(no_mangle)]
pub extern "C" fn clock_told(state: &mut [u8], answer: &[u8], area: &[u8]) -> u32
    ensures { kept result state.new ≡ clock_told state.old answer.now area.now }
{
    clock_calls::clock_told(state, answer, area)
}

// A notifier that is to send ticks of an event.
#[unsafe(no_mangle)]
pub extern "C" fn notifier_start(event: u32, state: &mut [u8]) -> u32
    ensures { kept result state.new ≡ notifier_start event state.old }
{
    notifier_calls::notifier_start(event, state)
}

// What it asks next, as a request of the kernel.
#[unsafe(no_mangle)]
pub extern "C" fn notifier_asks(state: &mut [u8], request: &mut [u8]) -> u32
    ensures { written result state.new request.new ≡ notifier_asks state.old request.old }
{
    notifier_calls::notifier_asks(state, request)
}

// What it is told by the kernel's answer; of its own area it reads nothing.
#[unsafe(no_mangle)]
pub extern "C" fn notifier_told(state: &mut [u8], answer: &[u8], area: &[u8]) -> u32
    ensures { kept result state.new ≡ notifier_told state.old answer.now area.now }
{
    notifier_calls::notifier_told(state, answer, area)
}

// A call by an op and its argument, whose message is to stand at an offset of the client's own area.
#[unsafe(no_mangle)]
pub extern "C" fn client_start(
    clock: u32,
    op: u32,
    argument: u32,
    offset: u32,
    state: &mut [u8],
) -> u32
    ensures { kept result state.new ≡ client_start clock op argument offset state.old }
{
    client_calls::client_start(clock, op, argument, offset, state)
}

// What it asks next, as a request of the kernel; nothing once it is over.
#[unsafe(no_mangle)]
pub extern "C" fn client_asks(state: &mut [u8], request: &mut [u8]) -> u32
    ensures { written result state.new request.new ≡ client_asks state.old request.old }
{
    client_calls::client_asks(state, request)
}

// What it is told by the kernel's answer, and its own area.
#[unsafe(no_mangle)]
pub extern "C" fn client_told(state: &mut [u8], answer: &[u8], area: &[u8]) -> u32
    ensures { kept result state.new ≡ client_told state.old answer.now area.now }
{
    client_calls::client_told(state, answer, area)
}

// What came of it, 0 0 while it is not over.
#[unsafe(no_mangle)]
pub extern "C" fn client_outcome(state: &[u8], outcome: &mut [u8]) -> u32
    ensures { kept result outcome.new ≡ client_outcome state.now outcome.old }
{
    client_calls::client_outcome(state, outcome)
}
