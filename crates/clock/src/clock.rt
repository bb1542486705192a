// The clock: what it keeps, and what it makes of a message.
ghost use Rattle.std.specs.Prelude.{◌≡◌, [], ◌∷◌};
ghost use Rattle.clock.specs.Clock as Spec;
ghost use Rattle.clock.specs.Clock.{heard, is_due, new_clock, counted, refusal, waits, ticked};
ghost use Rattle.clock.specs.Row.{hearers_of};
ghost use Rattle.clock.specs.declared.clock.Said.TheVariants.{Refused};

use crate::row::{Hearers, ROOM, Row, Sleeper};
use task::task::FIRST_NEGATIVE;

#[derive(Clone, Copy, Drop)]
pub struct Clock {
    // Whose ticks count.
    pub notifier: u32,
    // How many ticks there were, from the first count on; it wraps.
    pub count: u32,
    pub row: Row,
}

// What a message asks. A delay is a signed word.
#[derive(Clone, Copy, Drop)]
pub enum Asked {
    Tick,
    Time,
    Delay(u32),
    Until(u32),
    Unknown,
}

// What an answer says. A refusal is 2, 3 or 4, for -2, -3 or -4.
#[derive(Clone, Copy, Drop)]
pub enum Said {
    Count(u32),
    Refused(u8),
}

// Who is answered, and what each of them is told.
#[derive(Clone, Copy, Drop)]
pub struct Answer {
    pub said: Said,
    pub to: Hearers,
}

// Whether the count has come to the due time: the difference, wrapped, is not negative.
#[tactic(auto, unfolding(crate::specs::Clock::is_due))]
pub(crate) fn is_due(count: u32, due: u32) -> bool
    ensures { result ≡ is_due count due }
{
    count.wrapping_sub(due) < FIRST_NEGATIVE
}

impl Clock {
    // A clock where nobody sleeps.
    pub fn new(notifier: u32, count: u32) -> Self
        ensures { result ≡ new_clock notifier count }
    {
        Self {
            notifier,
            count,
            row: Row::empty(),
        }
    }

    // What a message does, and who is answered.
    #[tactic(auto, unfolding(crate::specs::Clock::hear))]
    pub fn hear(&mut self, from: u32, asked: Asked) -> Answer
        ensures { heard self.new result ≡ Spec.hear self.old from asked }
    {
        match asked {
            Asked::Time => self.counted(from),
            Asked::Tick if from == self.notifier => self.ticked(),
            Asked::Delay(_) | Asked::Until(_) if self.row.holds(from) => refused(from, 4),
            Asked::Delay(d) if FIRST_NEGATIVE <= d => refused(from, 2),
            Asked::Delay(d) => self.waits(from, self.count.wrapping_add(d)),
            Asked::Until(due) => self.waits(from, due),
            Asked::Tick | Asked::Unknown => refused(from, 4),
        }
    }

    // The sender is told the count.
    fn counted(&self, from: u32) -> Answer
        ensures { heard self.now result ≡ counted self.now from }
    {
        Answer {
            said: Said::Count(self.count),
            to: Hearers::one(from),
        }
    }

    // The sender is answered at once if it is due, and else sleeps, if a place is free.
    #[tactic(auto, unfolding(crate::specs::Clock::waits, crate::specs::Clock::sleeps))]
    fn waits(&mut self, from: u32, due: u32) -> Answer
        ensures { heard self.new result ≡ waits self.old from due }
    {
        if is_due(self.count, due) {
            return self.counted(from);
        }
        if ROOM <= self.row.len {
            return refused(from, 3);
        }
        self.row.push(Sleeper { tid: from, due });
        Answer {
            said: Said::Count(self.count),
            to: Hearers::none(),
        }
    }

    // One tick: the notifier is answered, then those who are due, in order of arrival. The others sleep on.
    fn ticked(&mut self) -> Answer
        ensures { heard self.new result ≡ ticked self.old }
    {
        let count = self.count.wrapping_add(1);
        let mut row = Row::empty();
        let mut to = Hearers::one(self.notifier);
        for x in self.row.asleep() {
            if is_due(count, x.due) {
                to.push(x.tid);
            } else {
                row.push(*x);
            }
        }
        self.count = count;
        self.row = row;
        Answer {
            said: Said::Count(count),
            to,
        }
    }
}

// The sender is refused.
fn refused(from: u32, n: u8) -> Answer
    ensures said { result.said ≡ Refused n }
    ensures to { result.to ≡ hearers_of (from ∷ []) }
{
    Answer {
        said: Said::Refused(n),
        to: Hearers::one(from),
    }
}
