// The notifier as the four words that a host keeps.
ghost use Rattle.std.specs.Prelude.{◌≡◌, false};
ghost use Rattle.clock_tasks.specs.NotifierState as Spec;
ghost use Rattle.std.proofs.Common.{rules};

use crate::array::Words;
use crate::machine::Machine;
use crate::notifier::{Duty, Notifier};
use crate::words::at_most;
use kernel::refusal::Refusal;
use kernel::table::Request;
use task::task::Outcome;
use tid::sizes::EVENTS;

pub(crate) const WORDS: usize = 4;

fn duty_code(duty: Duty) -> u32
    ensures { result ≡ Spec.duty_code duty }
{
    match duty {
        Duty::Asking => 0,
        Duty::Asked => 1,
        Duty::Writing(_) => 2,
        Duty::Awaiting => 3,
        Duty::Waiting => 4,
        Duty::Sending => 5,
        Duty::Sent => 6,
    }
}

// The byte that it has come to.
fn place(duty: Duty) -> u32
    ensures { result ≡ Spec.place duty }
{
    match duty {
        Duty::Writing(k) => u32::from(k),
        _ => 0,
    }
}

fn duty_of(code: u32, k: u32) -> Duty
    ensures { result ≡ Spec.duty_of code k }
{
    match code {
        0 => Duty::Asking,
        1 => Duty::Asked,
        2 => Duty::Writing(at_most(k, 7)),
        3 => Duty::Awaiting,
        4 => Duty::Waiting,
        5 => Duty::Sending,
        _ => Duty::Sent,
    }
}

impl Words<WORDS> for Notifier {
    ghost is_kept = { Spec.is_notifier };

    ghost from_words = { Spec.notifier_from };

    ghost to_words = { Spec.notifier_words };

    fn is_one(words: [u32; WORDS]) -> bool
        ensures { result ≡ Spec.is_notifier words }
    {
        Self::of(words).words() == words
    }

    fn of(words: [u32; WORDS]) -> Self
        ensures { result ≡ Spec.notifier_from words }
    {
        Self {
            event: at_most(words[2], (EVENTS - 1) as u8),
            clock: words[3],
            duty: duty_of(words[0], words[1]),
        }
    }

    fn words(self) -> [u32; WORDS] {
        [
            duty_code(self.duty),
            place(self.duty),
            u32::from(self.event),
            self.clock,
        ]
    }
}

impl Machine for Notifier {
    ghost use Rattle.clock_tasks.specs.Notifier as Task;

    ghost WORDS = { Spec.words };

    const WORDS: usize = WORDS;

    ghost is_kept = { Spec.is_notifier };

    ghost from_words = { Spec.notifier_from };

    ghost to_words = { Spec.notifier_words };

    ghost asks = { Task.request };

    ghost asked = { Task.asked };

    // Of its own area it reads nothing.
    ghost told = { λ s res area. Task.told s res };

    ghost is_over = { λ s. false };

    fn check(state: &[u8]) -> Result<(), Refusal> {
        <Self as Words<WORDS>>::check(state)
    }

    fn put(self, state: &mut [u8]) {
        Words::put(self, state)
    }

    fn ask(state: &[u8]) -> Request {
        Self::read(state).request()
    }

    fn put_asked(state: &mut [u8]) {
        let mut notifier = Self::read(state);
        notifier.asked();
        Words::put(notifier, state);
    }

    fn over(_state: &[u8]) -> bool {
        false
    }

    fn put_told(state: &mut [u8], res: Outcome, _area: &[u8]) {
        let mut notifier = Self::read(state);
        notifier.told(res);
        Words::put(notifier, state);
    }

    ghost few = { Prim.search rules };
}
