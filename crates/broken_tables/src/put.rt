// A table with one part put in, all else as it was. A slot or a queue past the last changes nothing.
// Nothing keeps the rules here: these are the hands that break them.
use kernel::table::Table;
use queue::Queue;
use queue::numbering::PLACES;
use task::task::{State, Task};
use tid::slot_named;

// A row whose first places hold three marks, and zeros behind them.
pub(crate) fn row(first: u8, second: u8, third: u8, len: u8) -> Queue {
    let mut marks = [0; PLACES];
    marks[0] = first;
    marks[1] = second;
    marks[2] = third;
    Queue { marks, len }
}

// An empty row whose last place holds a mark.
pub(crate) fn last_place(mark: u8) -> Queue {
    let mut marks = [0; PLACES];
    marks[PLACES - 1] = mark;
    Queue { marks, len: 0 }
}

// A task of priority 0 and entry number 0, with no result.
pub(crate) fn bare(state: State, parent: u8) -> Task {
    Task {
        state,
        parent,
        ..Task::UNUSED
    }
}

pub(crate) fn with_task(mut table: Table, tid: u8, task: Task) -> Table {
    if let Some(place) = table.tasks.get_mut(slot_named(tid)) {
        *place = task;
    }
    table
}

pub(crate) fn task_of(table: Table, tid: u8) -> Task {
    let tasks = table.tasks;
    tasks.get(slot_named(tid)).copied().unwrap_or(tasks[0])
}

// A queue by its number.
pub(crate) fn with_queue(mut table: Table, k: usize, row: Queue) -> Table {
    if let Some(place) = table.queues.get_mut(k) {
        *place = row;
    }
    table
}

pub(crate) fn with_edition(mut table: Table, edition: u32) -> Table {
    table.edition = edition;
    table
}
