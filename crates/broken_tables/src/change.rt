// What a line of the input changes in a table, by its letter and its numbers.
use crate::busy::asked;
use crate::put::{bare, last_place, row, task_of, with_edition, with_queue, with_task};
use crate::text::NUMBERS;
use kernel::table::Table;
use queue::Queue;
use queue::numbering::{event_queue, ready_queue, send_queue};
use task::task::{Buffer, Outcome, State, Task};

// The last byte of a number.
fn narrow(number: u32) -> u8 {
    (number % 256) as u8
}

// A state by its number, with a target or an event, and two buffers.
fn state_of(n: [u32; NUMBERS]) -> State {
    let message = Buffer {
        start: n[3],
        len: n[4],
    };
    let reply = Buffer {
        start: n[5],
        len: n[6],
    };
    let awaited = narrow(n[2]);
    match n[1] {
        1 => State::Active,
        2 => State::Ready,
        3 => State::SendBlocked(message),
        4 => State::ReceiveBlocked {
            target: awaited,
            message,
            reply,
        },
        5 => State::ReplyBlocked(reply),
        6 => State::EventBlocked(awaited),
        7 => State::Exited,
        _ => State::Unused,
    }
}

// A task with one part put in.
fn changed_task(old: Task, what: u8, n: [u32; NUMBERS]) -> Task {
    let second = narrow(n[1]);
    match what {
        b'P' => Task {
            priority: second,
            ..old
        },
        b'A' => Task {
            parent: second,
            ..old
        },
        b'G' => Task { entry: n[1], ..old },
        b'V' => {
            let result = Outcome::Value {
                from: second,
                cut: n[3] == 1,
                value: n[2],
            };
            Task { result, ..old }
        }
        b'F' => Task {
            result: Outcome::Fault(second),
            ..old
        },
        b'T' => Task {
            state: state_of(n),
            ..old
        },
        b'H' => bare(State::Unused, 0),
        b'E' => bare(State::Exited, second),
        _ => old,
    }
}

// Three places and a length.
fn row_of(n: [u32; NUMBERS]) -> Queue {
    row(narrow(n[1]), narrow(n[2]), narrow(n[3]), narrow(n[4]))
}

pub(crate) fn changed(table: Table, what: u8, n: [u32; NUMBERS]) -> Table {
    let first = narrow(n[0]);
    match what {
        b'R' => with_queue(table, ready_queue(first), row_of(n)),
        b'W' => with_queue(table, event_queue(first), row_of(n)),
        b'S' => with_queue(table, send_queue(first), row_of(n)),
        b'L' => with_queue(table, n[0] as usize, last_place(narrow(n[1]))),
        b'D' => with_edition(table, n[0]),
        b'N' => rules::unused_table(),
        b'!' => asked(table, n),
        _ => {
            let task = changed_task(task_of(table, first), what, n);
            with_task(table, first, task)
        }
    }
}
