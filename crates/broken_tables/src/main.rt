// Breaks each rule of a table by itself, in an otherwise good and busy table, and writes whether a step refuses the table in each edition.
// The cases are lines of standard input, which says what they are. They are no code: a byte string costs the prover as much as four
// calls. Fields that a state does not use, and numbers that no case of a type has, stand in stored records only, and are broken there.
#![tactic(auto)]

mod busy;
mod change;
mod put;
mod tally;
mod text;

use crate::busy::write_states;
use crate::change::changed;
use crate::tally::Tally;
use crate::text::numbers;
use chunks::read_full;
use kernel::edition::ONE_WAITS;
use std::io;

// The first task's priority and its entry number.
const FIRST: u32 = 16;

const FIRST_ENTRY: u32 = 0;

// As much of the input as is read.
const MOST: usize = 65536;

// A line that ends a case has its table asked; one that begins with = makes the table the one that each case starts from; any other changes
// the table.
fn run(rt: &impl Print, text: &[u8]) -> io::Result<Tally> {
    let mut tally = Tally::default();
    let mut whole = rules::start(ONE_WAITS, FIRST, FIRST_ENTRY).table;
    let mut table = whole;
    for line in text.split(|byte| *byte == b'\n') {
        let Some(&what) = line.first() else {
            continue;
        };
        match what {
            b'=' => {
                write_states(rt, table)?;
                whole = table;
            }
            b'-' | b'+' | b'2' | b'0' => {
                tally.find(rt, what, line, table)?;
                table = whole;
            }
            _ => table = changed(table, what, numbers(line)),
        }
    }
    Ok(tally)
}

fn main(rt: HostRuntime) -> io::Result<()> {
    let mut text = [0; MOST];
    let n = read_full(&mut rt.reader(), &mut text)?;
    let tally = run(&rt, &text[..n])?;
    tally.write(&rt)
}
