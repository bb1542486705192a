// The clock's task as the words that a host keeps.
ghost use Rattle.std.specs.Prelude.{◌≡◌, ◌-◌, ◌*◌, ◌<◌, ◌≤◌, min, true, false, ◌&&◌, map, length, replicate, ◌==◌, slice_index};
ghost use Rattle.std.specs.List.{list_all, range_with_len};
ghost use mathlib.Core.List.{flatten};
ghost use Rattle.std.proofs.Math.Seq.{paste};
ghost use Rattle.step.specs.Every.{numbers};
ghost use Rattle.image.specs.Bytes.{number_in, same};
ghost use Rattle.server.specs.Phase.{place};
ghost use Rattle.clock.specs.Message.{status_of, count_of};
ghost use Rattle.clock.specs.Row.{room, hearers, row_of, hearers_of};
ghost use Rattle.clock_tasks.specs.Words.{word_bytes, words_in};
ghost use Rattle.clock_tasks.specs.Calls.{state_refusal};
ghost use Rattle.clock_tasks.specs.Server.{request, asked};
ghost use Rattle.clock_tasks.specs.State as Spec;
ghost use Rattle.std.proofs.Common.{rules};

use crate::machine::Machine;
use crate::serving::{Server, answered};
use crate::words::{at_most, put_words};
use clock::clock::{Clock, Said};
use clock::message::{MINUS_2, MINUS_3, MINUS_4, SIZE, answer_byte, count_of, status_of};
use clock::row::{HEARERS, Hearers, ROOM, Row, Sleeper};
use kernel::refusal::Refusal;
use kernel::table::Request;
use server::phase::{Phase, after, place, request_in};
use server::words::put_word;
use task::task::Outcome;
use tid::sizes::PRIORITIES;

// How many words.
pub(crate) const WORDS: usize = 58;

// Where each stands.
const PHASE: usize = 0;

const PLACE: usize = 1;

const PRIORITY: usize = 2;

const NOTIFIER: usize = 3;

const COUNT: usize = 4;

const STATUS: usize = 5;

const SAID: usize = 6;

const ASLEEP: usize = 7;

const SLEEPERS: usize = 8;

const ANSWERED: usize = 40;

const TIDS: usize = 41;

fn phase_code(phase: Phase) -> u32
    ensures { result ≡ Spec.phase_code phase }
{
    match phase {
        Phase::Making => 0,
        Phase::Made => 1,
        Phase::Writing(_) => 2,
        Phase::Replying(_) => 3,
        Phase::Listening => 4,
    }
}

fn phase_of(code: u32, k: u32) -> Phase
    ensures { result ≡ Spec.phase_of code k }
{
    match code {
        0 => Phase::Making,
        1 => Phase::Made,
        2 => Phase::Writing(at_most(k, 7)),
        3 => Phase::Replying(at_most(k, HEARERS as u8)),
        _ => Phase::Listening,
    }
}

// -2, -3 and -4 are refusals; any other status is a count's.
fn said_of(status: u32, count: u32) -> Said
    ensures { result ≡ Spec.said_of status count }
{
    match status {
        MINUS_2 => Said::Refused(2),
        MINUS_3 => Said::Refused(3),
        MINUS_4 => Said::Refused(4),
        _ => Said::Count(count),
    }
}

// How many sleep: no more than there are places for.
fn asleep(row: Row) -> u32
    ensures { result ≡ min row.len room }
{
    row.len.min(ROOM) as u32
}

// A word of a state. Where the bytes end is known here, so that four of them are one read.
fn word(state: &[u8], i: usize) -> u32
    requires { (length state.now ≡ 4 * Spec.words) × (i < Spec.words) }
    ensures { result ≡ number_in state.now (4 * i) 4 }
{
    let at = 4 * i;
    image::words::word(state[at], state[at + 1], state[at + 2], state[at + 3])
}

// Who sleeps, by the words that name them; zeros fill the other places.
fn row_of(state: &[u8]) -> Row
    requires { length state.now ≡ 4 * Spec.words }
    ensures { result ≡ row_of (Spec.sleepers_in (words_in Spec.words state.now) (min (slice_index (words_in Spec.words state.now) 7) room)) }
{
    let len = at_most(word(state, ASLEEP), ROOM as u8) as usize;
    let mut places = [Sleeper { tid: 0, due: 0 }; ROOM];
    for i in 0..len {
        places[i] = Sleeper {
            tid: word(state, SLEEPERS + 2 * i),
            due: word(state, SLEEPERS + 2 * i + 1),
        };
    }
    Row { places, len }
}

// Who is answered.
fn hearers_of(state: &[u8]) -> Hearers
    requires { length state.now ≡ 4 * Spec.words }
    ensures { result ≡ hearers_of (Spec.hearers_in (words_in Spec.words state.now) (min (slice_index (words_in Spec.words state.now) 40) hearers)) }
{
    let len = at_most(word(state, ANSWERED), HEARERS as u8) as usize;
    let mut tids = [0u32; HEARERS];
    for i in 0..len {
        tids[i] = word(state, TIDS + i);
    }
    Hearers { tids, len }
}

// The clock's task of a state, each number within its range.
pub(crate) fn read(state: &[u8]) -> Server
    requires { length state.now ≡ 4 * Spec.words }
    ensures { result ≡ Spec.server_from (words_in Spec.words state.now) }
{
    Server {
        priority: at_most(word(state, PRIORITY), (PRIORITIES - 1) as u8),
        clock: Clock {
            notifier: word(state, NOTIFIER),
            count: word(state, COUNT),
            row: row_of(state),
        },
        said: said_of(word(state, STATUS), word(state, SAID)),
        to: hearers_of(state),
        phase: phase_of(word(state, PHASE), word(state, PLACE)),
    }
}

// Two words a sleeper.
fn put_sleepers(row: Row, words: &mut [u32])
    requires { length words.old ≡ Spec.words }
    ensures { words.new ≡ paste words.old Spec.sleepers_at (flatten (map Spec.sleeper_words row.places)) (2 * room) }
{
    for (i, x) in row.places.iter().enumerate() {
        words[SLEEPERS + 2 * i] = x.tid;
        words[SLEEPERS + 2 * i + 1] = x.due;
    }
}

fn put_hearers(to: Hearers, words: &mut [u32])
    requires { length words.old ≡ Spec.words }
    ensures { words.new ≡ paste words.old Spec.hearers_at to.tids hearers }
{
    for (i, tid) in to.tids.iter().enumerate() {
        words[TIDS + i] = *tid;
    }
}

// The words of a clock's task.
fn words_of(s: Server) -> [u32; WORDS]
    ensures { result ≡ Spec.server_words s }
{
    let mut words = [0u32; WORDS];
    words[PHASE] = phase_code(s.phase);
    words[PLACE] = u32::from(place(s.phase));
    words[PRIORITY] = u32::from(s.priority);
    words[NOTIFIER] = s.clock.notifier;
    words[COUNT] = s.clock.count;
    words[STATUS] = status_of(s.said);
    words[SAID] = count_of(s.said);
    words[ASLEEP] = asleep(s.clock.row);
    words[ANSWERED] = u32::from(answered(s.to));
    put_sleepers(s.clock.row, &mut words);
    put_hearers(s.to, &mut words);
    words
}

// Whether the words of a state from a place on, up to another, are all 0.
fn zero_from(state: &[u8], from: usize, end: usize) -> bool
    requires { (length state.now ≡ 4 * Spec.words) × (from ≤ end) × (end ≤ Spec.words) }
    ensures { result ≡ list_all (λ i. number_in state.now (4 * i) 4 == 0) (range_with_len from (end - from)) }
{
    (from..end).all(|i| word(state, i) == 0)
}

// Whether a word is one that is held to the largest that there is.
fn within(word: u32, most: u8) -> bool
    ensures { result ≡ ((min word most) == word) }
{
    word <= u32::from(most)
}

// Whether two words are those of a phase.
fn is_phase(code: u32, k: u32) -> bool
    ensures { result ≡ (Spec.phase_code (Spec.phase_of code k) == code) && (place (Spec.phase_of code k) == k) }
{
    let phase = phase_of(code, k);
    (phase_code(phase) == code) & (u32::from(place(phase)) == k)
}

// Whether two words are those of what was said.
fn is_said(status: u32, count: u32) -> bool
    ensures { result ≡ (status_of (Spec.said_of status count) == status) && (count_of (Spec.said_of status count) == count) }
{
    let said = said_of(status, count);
    (status_of(said) == status) & (count_of(said) == count)
}

// Whether the words of a state are those of a clock's task. They are read where they stand: what is read as a task and written again takes
// more of the stack than all else that a call does.
fn is_server(state: &[u8]) -> bool
    requires { length state.now ≡ 4 * Spec.words }
    ensures { result ≡ Spec.is_server (words_in Spec.words state.now) }
{
    let asleep = word(state, ASLEEP);
    let answered = word(state, ANSWERED);
    let sleepers = at_most(asleep, ROOM as u8) as usize;
    let hearers = at_most(answered, HEARERS as u8) as usize;
    is_phase(word(state, PHASE), word(state, PLACE))
        & within(word(state, PRIORITY), (PRIORITIES - 1) as u8)
        & is_said(word(state, STATUS), word(state, SAID))
        & within(asleep, ROOM as u8)
        & zero_from(state, SLEEPERS + 2 * sleepers, ANSWERED)
        & within(answered, HEARERS as u8)
        & zero_from(state, TIDS + hearers, WORDS)
}

// Inlined, since of a clock that starts all but its priority is then known.
#[inline(always)]
pub(crate) fn put(s: Server, state: &mut [u8])
    requires { length state.old ≡ 4 * Spec.words }
    ensures { state.new ≡ word_bytes (Spec.server_words s) }
{
    put_words(&words_of(s), state);
}

// Who is answered at a place; 0 past the last.
fn tid_at(state: &[u8], len: u8, k: u8) -> u32
    requires { (length state.now ≡ 4 * Spec.words) × (len ≤ hearers) }
    ensures { result ≡ slice_index (hearers_of (Spec.hearers_in (words_in Spec.words state.now) len)).tids k }
{
    if k < len {
        word(state, TIDS + k as usize)
    } else {
        0
    }
}

// What the task of a state asks next, by the few words that tell it.
pub(crate) fn asks(state: &[u8]) -> Request
    requires { length state.now ≡ 4 * Spec.words }
    ensures { result ≡ request (Spec.server_from (words_in Spec.words state.now)) }
{
    let phase = phase_of(word(state, PHASE), word(state, PLACE));
    let k = place(phase);
    let len = at_most(word(state, ANSWERED), HEARERS as u8);
    let byte = answer_byte(said_of(word(state, STATUS), word(state, SAID)), k);
    let tid = tid_at(state, len, k);
    let priority = at_most(word(state, PRIORITY), (PRIORITIES - 1) as u8);
    request_in(phase, priority, SIZE as u8, len, byte, tid)
}

// Once that is asked: of a state that is one only the phase and its place change.
pub(crate) fn put_asked(state: &mut [u8])
    requires { (length state.old ≡ 4 * Spec.words) × (Spec.is_server (words_in Spec.words state.old) ≡ true) }
    ensures { state.new ≡ word_bytes (Spec.server_words (asked (Spec.server_from (words_in Spec.words state.old)))) }
{
    let len = at_most(word(state, ANSWERED), HEARERS as u8);
    let now = phase_of(word(state, PHASE), word(state, PLACE));
    let next = after(now, SIZE as u8, len);
    put_word(state, 4 * PHASE as u8, phase_code(next));
    put_word(state, 4 * PLACE as u8, u32::from(place(next)));
}

impl Machine for Server {
    ghost use Rattle.clock_tasks.specs.Server as Task;

    ghost WORDS = { Spec.words };

    const WORDS: usize = WORDS;

    ghost is_kept = { Spec.is_server };

    ghost from_words = { Spec.server_from };

    ghost to_words = { Spec.server_words };

    ghost asks = { Task.request };

    ghost asked = { Task.asked };

    ghost told = { Task.told };

    ghost is_over = { λ s. false };

    fn check(state: &[u8]) -> Result<(), Refusal> {
        if state.len() != 4 * WORDS {
            return Err(Refusal::BadImage);
        }
        if is_server(state) {
            Ok(())
        } else {
            Err(Refusal::BadTable)
        }
    }

    fn put(self, state: &mut [u8]) {
        put(self, state)
    }

    fn ask(state: &[u8]) -> Request {
        asks(state)
    }

    fn put_asked(state: &mut [u8]) {
        put_asked(state)
    }

    fn over(_state: &[u8]) -> bool {
        false
    }

    fn put_told(state: &mut [u8], res: Outcome, area: &[u8]) {
        let mut server = read(state);
        server.told(res, area);
        put(server, state);
    }

    ghost few = { Prim.search rules };
}
