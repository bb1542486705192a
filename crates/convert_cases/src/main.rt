// Reads conversions of the byte entry from standard input, and writes what the entry did.
//
// A conversion is a word, the edition, and two chunks, the image and the bytes that it is written into. For each the verdict is written as a
// word, and then both chunks as the call left them.
#![tactic(auto)]

use chunks::{CaseError, MOST, goes_on, read_chunk, read_word, write_chunk, write_word};
use entry::kernel_convert;
use std::io;
use std::io::Read;

// Calls the entry on a conversion, and writes what it did.
fn call(rt: &impl Print, edition: u32, image: &[u8], out: &mut [u8]) -> io::Result<()> {
    let verdict = kernel_convert(edition, image, out);
    write_word(rt, verdict as usize)?;
    write_chunk(rt, image)?;
    write_chunk(rt, out)
}

// One conversion. Answers whether to go on.
fn run_case<R: Read>(rt: &impl Print, from: &mut R) -> Result<bool, CaseError> {
    let Some(edition) = read_word(from)? else {
        return Ok(false);
    };
    let mut image = [0u8; MOST];
    let mut out = [0u8; MOST];
    let image = read_chunk(from, &mut image)?;
    let out = read_chunk(from, &mut out)?;
    call(rt, edition, image, out)?;
    Ok(true)
}

fn main(rt: HostRuntime) -> io::Result<()> {
    let mut from = rt.reader();
    // A proved loop has to end, and nothing says that the input does.
    for _ in 0..u64::MAX {
        if !goes_on(&rt, "convert_cases", run_case(&rt, &mut from))? {
            break;
        }
    }
    Ok(())
}
