// Images of other lengths and of other bytes, and the unbroken one.
use crate::busy::request;
use entry::kernel_step;
use image::call::ANSWER;
use image::fields::{AWAITED, ENTRY, PLACE, RECORD};
use image::form::reform;
use image::stored::{IMAGE, read};
use kernel::edition::{MANY_WAIT, ONE_WAITS};
use kernel::numbers::EVENT;
use std::io;
use tid::sizes::{AREA, SLOTS};

const SEED: u32 = 2026;

// How long an image of the old form is.
const OLD: usize = SLOTS * ENTRY;

// What a step says of an image: an event that nobody awaits is refused for nothing else.
fn step_verdict(edition: u32, image: &mut [u8]) -> u32 {
    let mut areas = [0; SLOTS * AREA];
    let mut answer = [0; ANSWER];
    let event = request([EVENT, 62, 0, 0, 0, 0]);
    kernel_step(edition, image, &mut areas, &event, &mut answer)
}

// What reading says of an image in an edition, and then what a step does.
fn write_asked(rt: &impl Print, words: &str, edition: u32, image: &mut [u8]) -> io::Result<()> {
    let verdict = read(edition, image).verdict;
    let stepped = step_verdict(edition, image);
    print!(rt; "{words}{verdict}, a step {stepped}")
}

// The same in both editions. What a step leaves in edition 1 is an image in edition 2 too, so one is enough for both.
pub(crate) fn write_whole(rt: &impl Print, name: &str, image: &mut [u8]) -> io::Result<()> {
    rt.print(name)?;
    write_asked(rt, ": reading ", ONE_WAITS, image)?;
    write_asked(rt, "; in edition 2 reading ", MANY_WAIT, image)?;
    println!(rt)
}

// The same in an edition that is none.
fn write_edition(rt: &impl Print, name: &str, edition: u32, image: &mut [u8]) -> io::Result<()> {
    rt.print(name)?;
    write_asked(rt, ": reading ", edition, image)?;
    println!(rt)
}

// The image with a byte more.
fn longer(image: [u8; IMAGE]) -> [u8; IMAGE + 1] {
    let mut long = [0; IMAGE + 1];
    long[..IMAGE].copy_from_slice(&image);
    long
}

// The image in the old form, whose records end before the entry number.
fn shorter(image: [u8; IMAGE]) -> [u8; OLD] {
    let mut old = [0; OLD];
    reform(&image, &mut old);
    old
}

// The next of 65,537 numbers, all of which are met but one.
fn drawn(x: u32) -> u32 {
    ((x % 65537) * 75 + 74) % 65537
}

fn random() -> [u8; IMAGE] {
    let mut bytes = [0; IMAGE];
    let mut x = SEED;
    for byte in &mut bytes {
        x = drawn(x);
        *byte = (x % 256) as u8;
    }
    bytes
}

// The image with tid 11, which stands behind tid 10 in the queue of tid 7, first and alone in the queue of another.
fn sent_to(mut image: [u8; IMAGE], target: u8) -> [u8; IMAGE] {
    image[10 * RECORD + PLACE] = 0;
    image[10 * RECORD + AWAITED] = target;
    image
}

// Other lengths.
pub(crate) fn write_lengths(rt: &impl Print, mut image: [u8; IMAGE]) -> io::Result<()> {
    let mut long = longer(image);
    let mut old = shorter(image);
    write_whole(rt, "no byte", &mut [])?;
    write_whole(rt, "767 bytes", &mut image[..IMAGE - 1])?;
    write_whole(rt, "769 bytes", &mut long)?;
    write_whole(rt, "the old form", &mut old)
}

// Other bytes.
pub(crate) fn write_wholes(rt: &impl Print, image: [u8; IMAGE]) -> io::Result<()> {
    for (name, mut other) in [
        ("all zero", [0; IMAGE]),
        ("random bytes", random()),
        ("the unbroken image", image),
        ("a sender at tid 12, which exists", sent_to(image, 12)),
        ("a sender at tid 5, which has exited", sent_to(image, 5)),
    ] {
        write_whole(rt, name, &mut other)?;
    }
    Ok(())
}

// Editions that are none, which are refused before a length and before a rule.
pub(crate) fn write_editions(rt: &impl Print, mut image: [u8; IMAGE]) -> io::Result<()> {
    for (name, edition) in [("edition 0", 0), ("edition 3", 3), ("edition 257", 257)] {
        write_edition(rt, name, edition, &mut image)?;
    }
    write_edition(rt, "edition 3, one byte", 3, &mut [0])?;
    write_edition(rt, "edition 3, all zero", 3, &mut [0; IMAGE])
}
