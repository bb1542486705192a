// A call of the clock as the eight words that a host keeps.
ghost use Rattle.std.specs.Prelude.{◌≡◌};
ghost use Rattle.clock_tasks.specs.ClientState as Spec;
ghost use Rattle.std.proofs.Common.{rules};

use crate::array::Words;
use crate::client::{Client, Stage};
use crate::machine::Machine;
use crate::words::at_most;
use clock::message::{Meaning, argument_of, asked_by, op_of};
use kernel::refusal::Refusal;
use kernel::table::Request;
use task::task::Outcome;

pub(crate) const WORDS: usize = 8;

// The last offset from which a message and its answer end within the area.
pub(crate) const LAST_OFFSET: u32 = 240;

// The first op that a client may send: those below are none, and the tick.
const FIRST_OP: u32 = 2;

fn stage_code(stage: Stage) -> u32
    ensures { result ≡ Spec.stage_code stage }
{
    match stage {
        Stage::Writing(_) => 0,
        Stage::Sending => 1,
        Stage::Sent => 2,
        Stage::Ended => 3,
    }
}

// The byte that it has come to.
fn place(stage: Stage) -> u32
    ensures { result ≡ Spec.place stage }
{
    match stage {
        Stage::Writing(k) => u32::from(k),
        Stage::Sending | Stage::Sent | Stage::Ended => 0,
    }
}

fn outcome_words(outcome: Meaning) -> [u32; 2]
    ensures { result ≡ Spec.outcome_words outcome }
{
    match outcome {
        Meaning::Count(count) => [1, count],
        Meaning::Refused(n) => [2, u32::from(n).wrapping_neg()],
        Meaning::Fault(f) => [3, u32::from(f).wrapping_neg()],
        Meaning::Garbled => [4, 0],
    }
}

// What a host is shown of what came of it.
pub(crate) fn shown_in(stage: Stage, outcome: Meaning) -> [u32; 2]
    ensures { result ≡ Spec.shown_in stage outcome }
{
    match stage {
        Stage::Writing(_) | Stage::Sending | Stage::Sent => [0, 0],
        Stage::Ended => outcome_words(outcome),
    }
}

fn stage_of(code: u32, k: u32) -> Stage
    ensures { result ≡ Spec.stage_of code k }
{
    match code {
        0 => Stage::Writing(at_most(k, 7)),
        1 => Stage::Sending,
        2 => Stage::Sent,
        _ => Stage::Ended,
    }
}

fn outcome_of(kind: u32, value: u32) -> Meaning
    ensures { result ≡ Spec.outcome_of kind value }
{
    match (kind, value.wrapping_neg()) {
        (1, _) => Meaning::Count(value),
        (2, n @ 2..=4) => Meaning::Refused(n as u8),
        (3, n @ 1..=3) => Meaning::Fault(n as u8),
        _ => Meaning::Garbled,
    }
}

// What came of it is kept only once it is over.
fn kept_in(stage: Stage, outcome: Meaning) -> Meaning
    ensures { result ≡ Spec.kept_in stage outcome }
{
    match stage {
        Stage::Writing(_) | Stage::Sending | Stage::Sent => Meaning::Garbled,
        Stage::Ended => outcome,
    }
}

impl Words<WORDS> for Client {
    ghost is_kept = { Spec.is_client };

    ghost from_words = { Spec.client_from };

    ghost to_words = { Spec.client_words };

    fn is_one(words: [u32; WORDS]) -> bool
        ensures { result ≡ Spec.is_client words }
    {
        FIRST_OP <= words[3] && Self::of(words).words() == words
    }

    fn of(words: [u32; WORDS]) -> Self
        ensures { result ≡ Spec.client_from words }
    {
        let stage = stage_of(words[0], words[1]);
        Self {
            clock: words[2],
            asked: asked_by(words[3], words[4]),
            offset: at_most(words[5], LAST_OFFSET as u8),
            stage,
            outcome: kept_in(stage, outcome_of(words[6], words[7])),
        }
    }

    fn words(self) -> [u32; WORDS] {
        let shown = shown_in(self.stage, self.outcome);
        [
            stage_code(self.stage),
            place(self.stage),
            self.clock,
            op_of(self.asked),
            argument_of(self.asked),
            u32::from(self.offset),
            shown[0],
            shown[1],
        ]
    }
}

impl Machine for Client {
    ghost use Rattle.clock_tasks.specs.Client as Task;
    ghost use Rattle.clock_tasks.specs.Calls.{is_over};

    ghost WORDS = { Spec.words };

    const WORDS: usize = WORDS;

    ghost is_kept = { Spec.is_client };

    ghost from_words = { Spec.client_from };

    ghost to_words = { Spec.client_words };

    ghost asks = { Task.request };

    ghost asked = { Task.asked };

    ghost told = { Task.told };

    ghost is_over = { is_over };

    fn check(state: &[u8]) -> Result<(), Refusal> {
        <Self as Words<WORDS>>::check(state)
    }

    fn put(self, state: &mut [u8]) {
        Words::put(self, state)
    }

    fn ask(state: &[u8]) -> Request {
        Self::read(state).request()
    }

    fn put_asked(state: &mut [u8]) {
        let mut client = Self::read(state);
        client.asked();
        Words::put(client, state);
    }

    fn over(state: &[u8]) -> bool {
        matches!(Self::read(state).stage, Stage::Ended)
    }

    fn put_told(state: &mut [u8], res: Outcome, area: &[u8]) {
        let mut client = Self::read(state);
        client.told(res, area);
        Words::put(client, state);
    }

    ghost few = { Prim.search rules };
}
