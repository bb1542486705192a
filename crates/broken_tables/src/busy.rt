// Steps that make a table busy, and its states.
use crate::text::NUMBERS;
use kernel::table::{Request, Table};
use std::io;
use task::parts::state_code;
use tid::sizes::{AREA, SLOTS};

// A request of the active task: its kind and five arguments.
pub(crate) fn asked(table: Table, n: [u32; NUMBERS]) -> Table {
    let mut areas = [0; SLOTS * AREA];
    let [kind, arg0, arg1, arg2, arg3, arg4, ..] = n;
    let request = Request {
        kind,
        arg0,
        arg1,
        arg2,
        arg3,
        arg4,
    };
    step::step(table, request, &mut areas).table
}

// The states of all slots, so that the busy table is seen to be busy.
pub(crate) fn write_states(rt: &impl Print, table: Table) -> io::Result<()> {
    rt.print("states")?;
    for task in &table.tasks {
        let code = state_code(task.state);
        print!(rt; " {code}")?;
    }
    println!(rt)
}
