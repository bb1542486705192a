// A call of the clock, for a C host: it keeps 32 bytes, and lends them. Nothing is written before every refusal is passed.
ghost use Rattle.std.specs.Prelude.{◌≡◌};
ghost use Rattle.kernel.specs.Verdict.{verdict_of};
ghost use Rattle.clock_tasks.specs.Calls.{kept, written, is_call, client_start, client_asks, client_told, client_outcome};

use crate::array::Words;
use crate::client::Client;
use crate::client_state::{LAST_OFFSET, WORDS, shown_in};
use crate::machine::{self, Machine};
use crate::words::put_words;
use clock::clock::Asked;
use clock::message::asked_by;
use kernel::refusal::{Refusal, verdict};

// What came of a call: a kind and a value.
const OUTCOME: usize = 8;

// Whether it is a call: a tick is not, nor is what has no fixed form.
fn is_call(asked: Asked) -> bool
    ensures { result ≡ is_call asked }
{
    matches!(asked, Asked::Time | Asked::Delay(_) | Asked::Until(_))
}

// A call by an op and its argument, whose message is to stand at an offset of the client's own area.
#[tactic(auto, unfolding(crate::specs::Calls::client_start))]
pub fn client_start(clock: u32, op: u32, argument: u32, offset: u32, state: &mut [u8]) -> u32
    ensures { kept result state.new ≡ client_start clock op argument offset state.old }
{
    let asked = asked_by(op, argument);
    let done = if !is_call(asked) {
        Err(Refusal::BadKind)
    } else if LAST_OFFSET < offset {
        Err(Refusal::BadWrite)
    } else {
        machine::start(Client::new(clock, asked, offset as u8), state)
    };
    u32::from(verdict(done))
}

// What it asks next, as a request of the kernel; nothing once it is over.
#[tactic(auto, unfolding(crate::specs::Calls::client_asks))]
pub fn client_asks(state: &mut [u8], request: &mut [u8]) -> u32
    ensures { written result state.new request.new ≡ client_asks state.old request.old }
{
    u32::from(verdict(machine::asks::<Client>(state, request)))
}

// What it is told by the kernel's answer, and its own area.
#[tactic(auto, unfolding(crate::specs::Calls::client_told))]
pub fn client_told(state: &mut [u8], answer: &[u8], area: &[u8]) -> u32
    ensures { kept result state.new ≡ client_told state.old answer.now area.now }
{
    u32::from(verdict(machine::told::<Client>(state, answer, area)))
}

// What came of it, 0 0 while it is not over.
pub fn client_outcome(state: &[u8], outcome: &mut [u8]) -> u32
    ensures { kept result outcome.new ≡ client_outcome state.now outcome.old }
{
    u32::from(verdict(put_outcome(state, outcome)))
}

#[tactic(auto, unfolding(crate::specs::Calls::client_outcome))]
fn put_outcome(state: &[u8], outcome: &mut [u8]) -> Result<(), Refusal>
    ensures { kept (verdict_of result) outcome.new ≡ client_outcome state.now outcome.old }
{
    if outcome.len() != OUTCOME {
        return Err(Refusal::BadAnswer);
    }
    <Client as Machine>::check(state)?;
    let client = <Client as Words<WORDS>>::read(state);
    put_words(&shown_in(client.stage, client.outcome), outcome);
    Ok(())
}
