// The notifier: it waits for the tick's event, and sends the clock a tick. The clock made it, so that the clock is its parent.
ghost use Rattle.std.specs.Prelude.{◌≡◌};
ghost use Rattle.clock_tasks.specs.Notifier as Spec;

use clock::clock::Asked;
use clock::message::{SIZE, request_byte};
use kernel::numbers::{AWAIT_EVENT, MY_PARENT_TID, OWN_WRITE, SEND};
use kernel::table::Request;
use server::phase::ask;
use task::task::Outcome;

// The fault of an event whose data was negative.
const NEGATIVE_DATA: u8 = 2;

// What is asked next: who made it; a byte of the tick's message, once for all; the event; the Send. Asked, Waiting and Sent are those of
// them that it waits to be told of.
#[derive(Clone, Copy, Drop)]
pub enum Duty {
    Asking,
    Asked,
    Writing(u8),
    Awaiting,
    Waiting,
    Sending,
    Sent,
}

#[derive(Clone, Copy, Drop)]
pub struct Notifier {
    pub event: u8,
    // Whom it sends ticks.
    pub clock: u32,
    pub duty: Duty,
}

// The Send of a tick: its message stands at the front of the area, and what is answered is not read.
fn send_tick(clock: u32) -> Request
    ensures { result ≡ Spec.sends_tick clock }
{
    Request {
        kind: SEND,
        arg0: clock,
        arg1: 0,
        arg2: SIZE,
        arg3: SIZE,
        arg4: SIZE,
    }
}

impl Notifier {
    pub(crate) fn new(event: u8) -> Self
        ensures { result ≡ Spec.new_notifier event }
    {
        Self {
            event,
            clock: 0,
            duty: Duty::Asking,
        }
    }

    // What it asks next.
    pub(crate) fn request(self) -> Request
        ensures { result ≡ Spec.request self }
    {
        match self.duty {
            Duty::Asking | Duty::Asked => ask(MY_PARENT_TID, 0, 0, 0),
            Duty::Writing(k) => {
                let byte = request_byte(Asked::Tick, k);
                ask(OWN_WRITE, u32::from(k), u32::from(byte), 0)
            }
            Duty::Awaiting | Duty::Waiting => ask(AWAIT_EVENT, u32::from(self.event), 0, 0),
            Duty::Sending | Duty::Sent => send_tick(self.clock),
        }
    }

    // Once that is asked.
    pub(crate) fn asked(&mut self)
        ensures { self.new ≡ Spec.asked self.old }
    {
        self.duty = after(self.duty);
    }

    // What it is told when it becomes active. A value is its parent's tid where it asked for that, and else ends what it waited for. The
    // fault of an event's data is a tick still, since the event happened. Any other fault is none: it waits for the next.
    pub(crate) fn told(&mut self, res: Outcome)
        ensures { self.new ≡ Spec.told self.old res }
    {
        match (self.duty, res) {
            (Duty::Asked, Outcome::Value { value, .. }) => {
                self.clock = value;
                self.duty = Duty::Writing(0);
            }
            (Duty::Waiting, Outcome::Value { .. } | Outcome::Fault(NEGATIVE_DATA)) => {
                self.duty = Duty::Sending;
            }
            (Duty::Waiting, Outcome::Fault(_))
            | (Duty::Sent, Outcome::Value { .. } | Outcome::Fault(_)) => {
                self.duty = Duty::Awaiting;
            }
            _ => {}
        }
    }
}

fn after(duty: Duty) -> Duty
    ensures { result ≡ Spec.after duty }
{
    match duty {
        Duty::Asking | Duty::Asked => Duty::Asked,
        Duty::Writing(k) if k < 7 => Duty::Writing(k + 1),
        Duty::Writing(_) => Duty::Awaiting,
        Duty::Awaiting | Duty::Waiting => Duty::Waiting,
        Duty::Sending | Duty::Sent => Duty::Sent,
    }
}
