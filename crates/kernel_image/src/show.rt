// What is in a table, in words: a line for each task, and how many slots are unused.
use kernel::table::Table;
use std::io;
use task::search::used_slots;
use task::standing::queue_of;
use task::task::{Buffer, Outcome, State, Task};
use tid::sizes::SLOTS;
use tid::{mark_of, tid_of};

// The state by its name in the manual, and for a blocked task the request that it waits in.
fn name_of(state: State) -> &'static str {
    match state {
        State::Unused => "unused",
        State::Active => "active",
        State::Ready => "ready",
        State::SendBlocked(_) => "send-blocked (waits in Receive)",
        State::ReceiveBlocked { .. } => "receive-blocked (waits in Send)",
        State::ReplyBlocked(_) => "reply-blocked (waits in Send, was received)",
        State::EventBlocked(_) => "event-blocked (waits in AwaitEvent)",
        State::Exited => "exited",
    }
}

// Who made a task; the first was made by the start.
fn say_parent(rt: &impl Print, parent: u8) -> io::Result<()> {
    match parent {
        0 => rt.print(", made by the start"),
        _ => print!(rt; ", made by tid {parent}"),
    }
}

fn say_buffer(rt: &impl Print, words: &str, buffer: Buffer) -> io::Result<()> {
    print!(rt; "{words} offset {} length {}", buffer.start, buffer.len)
}

// Where a task stands in its queue, from 0 on, the head.
fn say_place(rt: &impl Print, table: Table, s: usize, k: usize) -> io::Result<()> {
    match table.queues.get(k) {
        Some(row) => print!(rt; ", place {}", row.place_of(mark_of(s))),
        None => Ok(()),
    }
}

// The queue, by its state, and what else the state holds.
fn say_held(rt: &impl Print, state: State, priority: u8) -> io::Result<()> {
    match state {
        State::Unused | State::Active | State::Exited => Ok(()),
        State::Ready => print!(rt; " of the ready queue of priority {priority}"),
        State::SendBlocked(message) => say_buffer(rt, ", receives into", message),
        State::ReceiveBlocked {
            target,
            message,
            reply,
        } => {
            print!(rt; " of the send queue of tid {target}")?;
            say_buffer(rt, ", sends from", message)?;
            say_buffer(rt, ", reply into", reply)
        }
        State::ReplyBlocked(reply) => say_buffer(rt, ", reply into", reply),
        State::EventBlocked(event) => print!(rt; " of the queue of event {event}"),
    }
}

// Whom a value is from; 0 is nobody.
fn say_from(rt: &impl Print, from: u8) -> io::Result<()> {
    match from {
        0 => rt.print(" from nobody"),
        _ => print!(rt; " from tid {from}"),
    }
}

// What a task is told when it next runs.
fn say_outcome(rt: &impl Print, outcome: Outcome) -> io::Result<()> {
    match outcome {
        Outcome::Nothing => Ok(()),
        Outcome::Value { from, cut, value } => {
            print!(rt; ", to be told the value {value}")?;
            say_from(rt, from)?;
            rt.print(if cut { ", cut" } else { ", not cut" })
        }
        Outcome::Fault(fault) => print!(rt; ", to be told the fault -{fault}"),
    }
}

fn say_task(rt: &impl Print, table: Table, s: usize, task: Task) -> io::Result<()> {
    print!(rt;
        "tid {}: {}, priority {}",
        tid_of(s),
        name_of(task.state),
        task.priority
    )?;
    say_parent(rt, task.parent)?;
    print!(rt; ", entry number {}", task.entry)?;
    say_place(rt, table, s, queue_of(task))?;
    say_held(rt, task.state, task.priority)?;
    say_outcome(rt, task.result)?;
    println!(rt)
}

// The used slots come first.
fn say_tasks(rt: &impl Print, table: Table, used: usize) -> io::Result<()> {
    for (s, task) in table.tasks.iter().take(used).enumerate() {
        say_task(rt, table, s, *task)?;
    }
    Ok(())
}

pub(crate) fn show(rt: &impl Print, table: Table) -> io::Result<()> {
    let used = used_slots(table.tasks);
    say_tasks(rt, table, used)?;
    println!(rt; "unused: {} of {SLOTS} slots", SLOTS - used)
}
