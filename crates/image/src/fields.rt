// The record of a task: its fields, and the task that they give.
ghost use Rattle.std.specs.Prelude.{◌≡◌, ◌+◌, ◌≤◌, ◌&&◌, length, ◌==◌};
ghost use Rattle.image.specs.ResultParts.{result_parts_of};
ghost use Rattle.image.specs.Record.{record_length, plain_parts, parts_of, fields, task_record, buffer_in, parts_in, result_parts_in, result_of};
ghost use Rattle.image.specs.Exact.{same_result_parts, stated_from, task_read};

use crate::words::{short_in, word_in};
use queue::all_zero;
use task::parts::{
    ACTIVE, EVENT_BLOCKED, EXITED, READY, RECEIVE_BLOCKED, REPLY_BLOCKED, SEND_BLOCKED, UNUSED,
};
use task::result::bit;
use task::task::{Buffer, Outcome, State, Task};

// A record's length, and where its fields start.
pub const RECORD: usize = 24;

pub const STATE: usize = 0;

pub const PRIORITY: usize = 1;

pub const PARENT: usize = 2;

pub const PLACE: usize = 3;

pub const AWAITED: usize = 4;

pub const RESULT: usize = 5;

pub const MESSAGE: usize = 6;

pub const REPLY: usize = 10;

pub const FROM: usize = 14;

pub const CUT: usize = 15;

pub const WORD: usize = 16;

pub const ENTRY: usize = 20;

// The kinds of a result.
pub const NOTHING: u8 = 0;

pub const VALUE: u8 = 1;

pub const FAULT: u8 = 2;

// The greatest word: -1.
pub const MINUS_ONE: u32 = 4294967295;

// The numbers of a result, in a record and in an answer: its kind, the tid that it is from, whether it was cut, and a value or a negative
// fault.
#[derive(Clone, Copy, Drop)]
pub struct ResultParts {
    pub kind: u8,
    pub from: u8,
    pub cut: u8,
    pub word: u32,
}

pub(crate) fn result_parts_of(res: Outcome) -> ResultParts
    ensures { result ≡ result_parts_of res }
{
    match res {
        Outcome::Nothing => ResultParts {
            kind: NOTHING,
            from: 0,
            cut: 0,
            word: 0,
        },
        Outcome::Value { from, cut, value } => ResultParts {
            kind: VALUE,
            from,
            cut: bit(cut),
            word: value,
        },
        Outcome::Fault(f) => ResultParts {
            kind: FAULT,
            from: 0,
            cut: 0,
            word: 0u32.wrapping_sub(u32::from(f)),
        },
    }
}

// The numbers of a state. One `match` for all four, since each would ask again which state it is.
#[derive(Drop)]
struct Parts {
    code: u8,
    awaited: u8,
    message: Buffer,
    reply: Buffer,
}

// The parts of a state that holds nothing.
fn plain(code: u8) -> Parts
    ensures { result ≡ plain_parts code }
{
    Parts {
        code,
        awaited: 0,
        message: Buffer::EMPTY,
        reply: Buffer::EMPTY,
    }
}

fn parts_of(state: State) -> Parts
    ensures { result ≡ parts_of state }
{
    match state {
        State::Unused => plain(UNUSED),
        State::Active => plain(ACTIVE),
        State::Ready => plain(READY),
        State::SendBlocked(message) => Parts {
            message,
            ..plain(SEND_BLOCKED)
        },
        State::ReceiveBlocked {
            target,
            message,
            reply,
        } => Parts {
            code: RECEIVE_BLOCKED,
            awaited: target,
            message,
            reply,
        },
        State::ReplyBlocked(reply) => Parts {
            reply,
            ..plain(REPLY_BLOCKED)
        },
        State::EventBlocked(event) => Parts {
            awaited: event,
            ..plain(EVENT_BLOCKED)
        },
        State::Exited => plain(EXITED),
    }
}

fn buffer_in(r: &[u8], at: usize) -> Buffer
    requires { at + 4 ≤ length r.now }
    ensures { result ≡ buffer_in r.now at }
{
    Buffer {
        start: short_in(r, at),
        len: short_in(r, at + 2),
    }
}

fn parts_in(r: &[u8; RECORD]) -> Parts
    ensures { result ≡ parts_in r.now }
{
    Parts {
        code: r[STATE],
        awaited: r[AWAITED],
        message: buffer_in(r, MESSAGE),
        reply: buffer_in(r, REPLY),
    }
}

fn result_parts_in(r: &[u8; RECORD]) -> ResultParts
    ensures { result ≡ result_parts_in r.now }
{
    ResultParts {
        kind: r[RESULT],
        from: r[FROM],
        cut: r[CUT],
        word: word_in(r, WORD),
    }
}

pub fn result_of(numbers: ResultParts) -> Outcome
    ensures { result ≡ result_of numbers }
{
    match numbers.kind {
        VALUE => Outcome::Value {
            from: numbers.from,
            cut: numbers.cut == 1,
            value: numbers.word,
        },
        FAULT if MINUS_ONE - 3 < numbers.word => {
            Outcome::Fault((MINUS_ONE - numbers.word) as u8 + 1)
        }
        _ => Outcome::Nothing,
    }
}

// The state that parts give, and whether they and the place are those of a task in it: the code is a state's, and what that state does not
// hold is 0. Both from one `match`, since each would ask again which state it is.
#[derive(Drop)]
struct Stated {
    state: State,
    exact: bool,
}

fn read_as(state: State, exact: bool) -> Stated
    ensures { result ≡ record { state = state; exact = exact } }
{
    Stated { state, exact }
}

fn stated_from(parts: Parts, place: u8) -> Stated
    ensures { result ≡ stated_from parts place }
{
    let Parts {
        code,
        awaited,
        message,
        reply,
    } = parts;
    let none = awaited == 0;
    let unplaced = place == 0;
    let bare = none & (message == Buffer::EMPTY) & (reply == Buffer::EMPTY);
    match code {
        UNUSED => read_as(State::Unused, bare & unplaced),
        ACTIVE => read_as(State::Active, bare & unplaced),
        READY => read_as(State::Ready, bare),
        SEND_BLOCKED => read_as(
            State::SendBlocked(message),
            none & (reply == Buffer::EMPTY) & unplaced,
        ),
        RECEIVE_BLOCKED => read_as(
            State::ReceiveBlocked {
                target: awaited,
                message,
                reply,
            },
            true,
        ),
        REPLY_BLOCKED => read_as(
            State::ReplyBlocked(reply),
            none & (message == Buffer::EMPTY) & unplaced,
        ),
        EVENT_BLOCKED => read_as(
            State::EventBlocked(awaited),
            (message == Buffer::EMPTY) & (reply == Buffer::EMPTY),
        ),
        EXITED => read_as(State::Exited, bare & unplaced),
        _ => read_as(State::Unused, false),
    }
}

// Whether the numbers of a result are those of the result that they give; a value may be any word, from anyone, cut or not.
fn exact_result(t: ResultParts) -> bool
    ensures { result ≡ same_result_parts (result_parts_of (result_of t)) t }
{
    match t.kind {
        NOTHING => (t.word == 0) & (t.from == 0) & (t.cut == 0),
        VALUE => t.cut <= 1,
        FAULT => (MINUS_ONE - 3 < t.word) & (t.from == 0) & (t.cut == 0),
        _ => false,
    }
}

// What a record gives: a task, and whether the record is what the task is written as.
#[derive(Drop)]
pub(crate) struct TaskRead {
    pub task: Task,
    pub exact: bool,
}

pub(crate) fn task_read(r: &[u8; RECORD]) -> TaskRead
    ensures { result ≡ task_read r.now }
{
    if r[STATE] == UNUSED {
        return TaskRead {
            task: Task::UNUSED,
            exact: all_zero(r),
        };
    }
    let stated = stated_from(parts_in(r), r[PLACE]);
    let numbers = result_parts_in(r);
    TaskRead {
        task: Task {
            state: stated.state,
            priority: r[PRIORITY],
            parent: r[PARENT],
            entry: word_in(r, ENTRY),
            result: result_of(numbers),
        },
        exact: stated.exact & exact_result(numbers),
    }
}

// The fields of a task and its place, in their order.
pub fn fields_of(x: Task, place: u8) -> [u8; RECORD]
    ensures { result ≡ fields x place }
{
    let parts = parts_of(x.state);
    let numbers = result_parts_of(x.result);
    let [m0, m1, _, _] = parts.message.start.to_le_bytes();
    let [m2, m3, _, _] = parts.message.len.to_le_bytes();
    let [r0, r1, _, _] = parts.reply.start.to_le_bytes();
    let [r2, r3, _, _] = parts.reply.len.to_le_bytes();
    let [w0, w1, w2, w3] = numbers.word.to_le_bytes();
    let [e0, e1, e2, e3] = x.entry.to_le_bytes();
    [
        parts.code,
        x.priority,
        x.parent,
        place,
        parts.awaited,
        numbers.kind,
        m0,
        m1,
        m2,
        m3,
        r0,
        r1,
        r2,
        r3,
        numbers.from,
        numbers.cut,
        w0,
        w1,
        w2,
        w3,
        e0,
        e1,
        e2,
        e3,
    ]
}

// The record of a task and its place; that of an unused slot is all zero.
#[tactic(auto, unfolding(crate::specs::Record::task_record))]
pub(crate) fn record_of(x: Task, place: u8) -> [u8; RECORD]
    ensures { result ≡ task_record x place }
{
    match x.state {
        State::Unused => [0; RECORD],
        _ => fields_of(x, place),
    }
}
