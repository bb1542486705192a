// Damages the images of busy kernels byte by byte, and writes whether reading and a step refuse them.
#![tactic(auto)]

mod busy;
mod bytewise;
mod damage;
mod waiters;
mod whole;

use crate::busy::Stored;
use crate::waiters::write_waiters;
use crate::whole::{write_editions, write_lengths, write_wholes};
use kernel::edition::{MANY_WAIT, ONE_WAITS};
use std::io;

fn main(rt: HostRuntime) -> io::Result<()> {
    let one = Stored::busy(ONE_WAITS);
    let many = Stored::busy(MANY_WAIT);
    for stored in [one, many] {
        let edition = stored.edition;
        println!(rt; "in edition {edition}")?;
        stored.write_records(&rt)?;
        stored.write_cuts(&rt)?;
    }
    write_lengths(&rt, one.image)?;
    write_wholes(&rt, one.image)?;
    write_waiters(&rt, many.image)?;
    write_editions(&rt, one.image)
}
