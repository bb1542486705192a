// Reads cases of the byte entry from standard input, and writes what the entry did.
//
// A case is a word, the edition, and four chunks, the image, the areas, the record and the answer. For each case the verdict is written as a
// word, and then the four chunks as the call left them.
#![tactic(auto)]

use chunks::{CaseError, MOST, goes_on, read_chunk, read_word, write_chunk, write_word};
use entry::kernel_step;
use std::io;
use std::io::Read;

// Calls the entry on a case, and writes what it did.
fn call(
    rt: &impl Print,
    edition: u32,
    image: &mut [u8],
    areas: &mut [u8],
    record: &[u8],
    answer: &mut [u8],
) -> io::Result<()> {
    let verdict = kernel_step(edition, image, areas, record, answer);
    write_word(rt, verdict as usize)?;
    write_chunk(rt, image)?;
    write_chunk(rt, areas)?;
    write_chunk(rt, record)?;
    write_chunk(rt, answer)
}

// One case. Answers whether to go on.
fn run_case<R: Read>(rt: &impl Print, from: &mut R) -> Result<bool, CaseError> {
    let Some(edition) = read_word(from)? else {
        return Ok(false);
    };
    let mut image = [0u8; MOST];
    let mut areas = [0u8; MOST];
    let mut record = [0u8; MOST];
    let mut answer = [0u8; MOST];
    let image = read_chunk(from, &mut image)?;
    let areas = read_chunk(from, &mut areas)?;
    let record = read_chunk(from, &mut record)?;
    let answer = read_chunk(from, &mut answer)?;
    call(rt, edition, image, areas, record, answer)?;
    Ok(true)
}

fn main(rt: HostRuntime) -> io::Result<()> {
    let mut from = rt.reader();
    // A proved loop has to end, and nothing says that the input does.
    for _ in 0..u64::MAX {
        if !goes_on(&rt, "entry_cases", run_case(&rt, &mut from))? {
            break;
        }
    }
    Ok(())
}
