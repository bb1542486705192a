// A call of the clock by one of its clients: Time, Delay or DelayUntil, from the first byte of its message to what came of it.
ghost use Rattle.std.specs.Prelude.{◌≡◌, ◌<◌};
ghost use Rattle.clock_tasks.specs.Client as Spec;

use clock::clock::Asked;
use clock::message::{Meaning, SIZE, meant, request_byte};
use kernel::numbers::{OWN_WRITE, SEND};
use kernel::table::Request;
use server::phase::ask;
use task::task::Outcome;

// A byte of the message is written; it is sent; the answer is waited for; or the call is over.
#[derive(Clone, Copy, Drop)]
pub enum Stage {
    Writing(u8),
    Sending,
    Sent,
    Ended,
}

#[derive(Clone, Copy, Drop)]
pub struct Client {
    // Whom it asks, and what.
    pub clock: u32,
    pub asked: Asked,
    // Where in its own area the message stands; the answer comes behind it.
    pub offset: u8,
    pub stage: Stage,
    // What came of it, once it is over.
    pub outcome: Meaning,
}

impl Client {
    pub(crate) fn new(clock: u32, asked: Asked, offset: u8) -> Self
        ensures { result ≡ Spec.new_client clock asked offset }
    {
        Self {
            clock,
            asked,
            offset,
            stage: Stage::Writing(0),
            outcome: Meaning::Garbled,
        }
    }

    // What it asks next. Once it is over that is of no use, and whoever asks for it is refused (machine.rt).
    pub(crate) fn request(self) -> Request
        ensures { result ≡ Spec.request self }
    {
        let at = u32::from(self.offset);
        match self.stage {
            Stage::Writing(k) => {
                let byte = request_byte(self.asked, k);
                ask(OWN_WRITE, at + u32::from(k), u32::from(byte), 0)
            }
            Stage::Sending | Stage::Sent | Stage::Ended => send(self.clock, at),
        }
    }

    // Once that is asked.
    pub(crate) fn asked(&mut self)
        ensures { self.new ≡ Spec.asked self.old }
    {
        self.stage = after(self.stage);
    }

    // What it is told when it becomes active, and its own area.
    pub(crate) fn told(&mut self, res: Outcome, area: &[u8])
        ensures { self.new ≡ Spec.told self.old res area.now }
    {
        match (self.stage, res) {
            (Stage::Sent, Outcome::Value { .. } | Outcome::Fault(_)) => self.ended(res, area),
            _ => {}
        }
    }

    // The call is over.
    fn ended(&mut self, res: Outcome, area: &[u8])
        ensures { self.new ≡ Spec.ended self.old res area.now }
    {
        let behind = area.len().min(self.offset as usize + 8);
        self.outcome = meant(self.asked, res, &area[behind..]);
        self.stage = Stage::Ended;
    }
}

// The Send of a message that stands at an offset, with the answer to come behind it.
fn send(clock: u32, at: u32) -> Request
    requires { at < 256 }
    ensures { result ≡ Spec.sends clock at }
{
    Request {
        kind: SEND,
        arg0: clock,
        arg1: at,
        arg2: SIZE,
        arg3: at + SIZE,
        arg4: SIZE,
    }
}

fn after(stage: Stage) -> Stage
    ensures { result ≡ Spec.after stage }
{
    match stage {
        Stage::Writing(k) if k < 7 => Stage::Writing(k + 1),
        Stage::Writing(_) => Stage::Sending,
        Stage::Sending | Stage::Sent => Stage::Sent,
        Stage::Ended => Stage::Ended,
    }
}
