// Steps the request records of standard input from a fresh kernel and writes all that came of it: the answers, the areas, and the
// image at the end. No input, no output. `bench/run` counts what a step takes by the difference of two inputs.
#![tactic(auto)]

use chunks::read_full;
use image::call::{ANSWER, REQUEST, put_answer, request_from};
use image::stored::{IMAGE, write};
use kernel::edition::ONE_WAITS;
use kernel::numbers::ACCEPTED;
use kernel::table::Table;
use rules::start;
use std::io;
use step::step;
use tid::sizes::{AREA, SLOTS};

// The first task's priority and its entry number.
const FIRST: u32 = 16;

const FIRST_ENTRY: u32 = 0;

// As many bytes as are read, and as many records as they hold.
const BYTES: usize = 65536;

const MOST: usize = 2730;

// One record after another. The decision is carried, since the table alone would be copied once more.
fn stepped(first: Table, records: &[u8], areas: &mut [u8], answers: &mut [u8]) -> Table {
    let mut decision = first.refused(ACCEPTED, 0);
    for (record, answer) in records
        .chunks_exact(REQUEST)
        .zip(answers.chunks_exact_mut(ANSWER))
    {
        decision = step(decision.table, request_from(record), areas);
        put_answer(decision.answer, answer);
    }
    decision.table
}

// Steps all records and writes what came of them.
fn shown(
    rt: &impl Print,
    first: Table,
    records: &[u8],
    areas: &mut [u8],
    answers: &mut [u8],
    image: &mut [u8],
) -> io::Result<()> {
    let last = stepped(first, records, areas, answers);
    let _ = write(last, image);
    let count = records.len() / REQUEST;
    if count <= answers.len() / ANSWER {
        rt.write_all(&answers[..count * ANSWER])?;
        rt.write_all(areas)?;
        rt.write_all(image)?;
    }
    Ok(())
}

fn main(rt: HostRuntime) -> io::Result<()> {
    let mut records = [0u8; BYTES];
    let n = read_full(&mut rt.reader(), &mut records)?;
    if 0 < n {
        let first = start(ONE_WAITS, FIRST, FIRST_ENTRY).table;
        let mut areas = [0u8; SLOTS * AREA];
        let mut answers = [0u8; MOST * ANSWER];
        let mut image = [0u8; IMAGE];
        shown(
            &rt,
            first,
            &records[..n],
            &mut areas,
            &mut answers,
            &mut image,
        )?;
    }
    Ok(())
}
