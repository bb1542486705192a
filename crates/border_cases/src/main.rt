// The cases at the borders of what is allowed, in a run of each edition: its file `stdin` has their requests, and `stdout` the lines of
// edition 1 and then those of edition 2.
#![tactic(auto)]

use chunks::read_full;
use kernel::edition::{MANY_WAIT, ONE_WAITS};
use lines::{fresh_block, show_block};
use std::io;
use tid::sizes::{AREA, SLOTS};

fn run_in(rt: &impl Print, edition: u32, records: &[u8]) -> io::Result<()> {
    let mut areas = [0; SLOTS * AREA];
    let mut out = [0; 8192];
    let block = show_block(
        fresh_block(edition, 16, 0),
        records,
        &mut areas,
        &mut out,
        false,
    );
    rt.write_all(&out[..block.end])
}

fn main(rt: HostRuntime) -> io::Result<()> {
    let mut records = [0; 2048];
    let n = read_full(&mut rt.reader(), &mut records)?;
    for edition in [ONE_WAITS, MANY_WAIT] {
        run_in(&rt, edition, &records[..n])?;
    }
    Ok(())
}
