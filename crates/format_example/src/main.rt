// Writes the worked example of docs/FORMATS.md: bytes that go into the byte entry, and bytes that it leaves. It is in edition 1; nobody
// waits for an event, so that in edition 2 every byte would be the same.
#![tactic(auto)]

use entry::{kernel_start, kernel_step};
use image::call::{ANSWER, REQUEST};
use image::fields::RECORD;
use image::stored::IMAGE;
use kernel::edition::ONE_WAITS;
use kernel::numbers::{CREATE, OWN_WRITE, RECEIVE, REPLY, SEND};
use std::io;
use tid::sizes::{AREA, SLOTS};

const AREAS: usize = SLOTS * AREA;

// Where tid 2's record starts and ends in an image.
const SECOND: usize = RECORD;

const THIRD: usize = 2 * RECORD;

// A line: a name, and the bytes from one place up to another in hex.
fn line(rt: &impl Print, name: &str, bytes: &[u8], start: usize, end: usize) -> io::Result<()> {
    rt.print(name)?;
    for at in start..end {
        if at < bytes.len() {
            print!(rt; " {:02x}", bytes[at])?;
        }
    }
    println!(rt)
}

// The record of a request: its kind and its five arguments.
fn request(words: [u32; REQUEST / 4]) -> [u8; REQUEST] {
    let mut bytes = [0; REQUEST];
    for (place, word) in bytes.chunks_exact_mut(4).zip(words) {
        place.copy_from_slice(&word.to_le_bytes());
    }
    bytes
}

// A kernel between two calls.
#[derive(Drop)]
struct Host {
    image: [u8; IMAGE],
    areas: [u8; AREAS],
}

impl Host {
    fn started() -> Host {
        let mut image = [0; IMAGE];
        kernel_start(ONE_WAITS, 16, 7, &mut image);
        Host {
            image,
            areas: [0; AREAS],
        }
    }

    fn first(&self, rt: &impl Print) -> io::Result<()> {
        line(rt, "tid 1  ", &self.image, 0, SECOND)
    }

    fn second(&self, rt: &impl Print) -> io::Result<()> {
        line(rt, "tid 2  ", &self.image, SECOND, THIRD)
    }

    // The first bytes of tid 2's area.
    fn received(&self, rt: &impl Print) -> io::Result<()> {
        line(rt, "area 2 ", &self.areas, AREA, AREA + 6)
    }

    // A request, and its answer.
    fn ask(&mut self, rt: &impl Print, request: [u8; REQUEST]) -> io::Result<()> {
        let mut answer = [0; ANSWER];
        line(rt, "request", &request, 0, REQUEST)?;
        kernel_step(
            ONE_WAITS,
            &mut self.image,
            &mut self.areas,
            &request,
            &mut answer,
        );
        line(rt, "answer ", &answer, 0, ANSWER)
    }
}

fn main(rt: HostRuntime) -> io::Result<()> {
    let mut host = Host::started();
    host.first(&rt)?;
    // The entry number's bytes differ, so that their order is seen.
    let entry = u32::from_le_bytes([1, 2, 3, 4]);
    host.ask(&rt, request([CREATE, 8, entry, 0, 0, 0]))?;
    host.first(&rt)?;
    host.second(&rt)?;
    host.ask(&rt, request([RECEIVE, 0, 4, 0, 0, 0]))?;
    host.second(&rt)?;
    host.ask(&rt, request([OWN_WRITE, 10, 65, 0, 0, 0]))?;
    host.ask(&rt, request([SEND, 2, 10, 6, 20, 1]))?;
    host.first(&rt)?;
    host.second(&rt)?;
    host.received(&rt)?;
    host.ask(&rt, request([REPLY, 1, 0, 3, 0, 0]))?;
    host.first(&rt)
}
