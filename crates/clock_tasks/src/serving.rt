// The clock as a task: it makes its notifier, and then answers messages.
ghost use Rattle.std.specs.Prelude.{◌≡◌};
ghost use Rattle.clock_tasks.specs.Server as Spec;

use clock::clock::{Clock, Said};
use clock::message::asked_in;
use clock::row::{HEARERS, Hearers};
use server::phase::Phase;
use task::task::Outcome;

#[derive(Clone, Copy, Drop)]
pub struct Server {
    // That of the notifier that it makes.
    pub priority: u8,
    pub clock: Clock,
    // What was answered last, and to whom.
    pub said: Said,
    pub to: Hearers,
    pub phase: Phase,
}

// How many are answered: no more than there are places for.
pub(crate) fn answered(to: Hearers) -> u8
    ensures { result ≡ Spec.answered to }
{
    to.len.min(HEARERS) as u8
}

impl Server {
    // The clock as it starts: its first request makes the notifier.
    pub(crate) fn new(priority: u8) -> Self
        ensures { result ≡ Spec.new_server priority }
    {
        Self {
            priority,
            clock: Clock::new(0, 0),
            said: Said::Count(0),
            to: Hearers {
                tids: [0; HEARERS],
                len: 0,
            },
            phase: Phase::Making,
        }
    }

    // It knows its notifier's tid, 0 where none was made: nobody's tick counts then.
    fn opened(&mut self, notifier: u32)
        ensures { self.new ≡ Spec.opened self.old notifier }
    {
        self.clock = Clock::new(notifier, 0);
        self.to = Hearers {
            tids: [0; HEARERS],
            len: 0,
        };
        self.phase = Phase::Replying(0);
    }

    // A message: an answer to nobody is not written.
    fn heard(&mut self, from: u32, length: u32, area: &[u8])
        ensures { self.new ≡ Spec.heard self.old from length area.now }
    {
        let answer = self.clock.hear(from, asked_in(length, area));
        self.said = answer.said;
        self.to = answer.to;
        self.phase = if self.to.len == 0 {
            Phase::Replying(0)
        } else {
            Phase::Writing(0)
        };
    }

    // What it is told when it becomes active, and its own area. A value is a message only while it listens, and names the notifier only
    // once that was asked for.
    pub(crate) fn told(&mut self, res: Outcome, area: &[u8])
        ensures { self.new ≡ Spec.told self.old res area.now }
    {
        match (self.phase, res) {
            (Phase::Made, Outcome::Value { value, .. }) => self.opened(value),
            (Phase::Made, Outcome::Fault(_)) => self.opened(0),
            (Phase::Listening, Outcome::Value { from, value, .. }) => {
                self.heard(u32::from(from), value, area)
            }
            _ => {}
        }
    }
}
