// Reads starts of the byte entry from standard input, and writes what the entry did.
//
// A start is sixteen bytes, the edition, the priority, the entry number and the image's length, each a word with the lowest byte first. For
// each the verdict is written as a word, and then the image, whose bytes were all 0xA5 before the call.
#![tactic(auto)]

use chunks::{CaseError, MOST, goes_on, read_full, write_word};
use entry::kernel_start;
use image::words::word;
use std::io;
use std::io::Read;

// How long a start is.
const START: usize = 16;

// What an image holds before the call, so that every byte written is seen.
const BEFORE: u8 = 0xA5;

// Starts a kernel, and writes what came of it.
fn call(
    rt: &impl Print,
    edition: u32,
    priority: u32,
    entry: u32,
    image: &mut [u8],
) -> io::Result<()> {
    let verdict = kernel_start(edition, priority, entry, image);
    write_word(rt, verdict as usize)?;
    rt.write_all(image)
}

// One start. Answers whether to go on.
fn run_start<R: Read>(rt: &impl Print, from: &mut R) -> Result<bool, CaseError> {
    let mut asked = [0u8; START];
    let got = read_full(from, &mut asked)?;
    if got == 0 {
        return Ok(false);
    }
    if got < START {
        return Err(CaseError::CutStart);
    }
    let length = word(asked[12], asked[13], asked[14], asked[15]) as usize;
    if MOST < length {
        return Err(CaseError::LongImage);
    }
    let mut image = [BEFORE; MOST];
    call(
        rt,
        word(asked[0], asked[1], asked[2], asked[3]),
        word(asked[4], asked[5], asked[6], asked[7]),
        word(asked[8], asked[9], asked[10], asked[11]),
        &mut image[..length],
    )?;
    Ok(true)
}

fn main(rt: HostRuntime) -> io::Result<()> {
    let mut from = rt.reader();
    // A proved loop has to end, and nothing says that the input does.
    for _ in 0..u64::MAX {
        if !goes_on(&rt, "start_cases", run_start(&rt, &mut from))? {
            break;
        }
    }
    Ok(())
}
