// Says of the image on standard input whether it is one, or what is in it, or writes it in another form: see kernel-image, which runs this.
// What is refused is said on standard error, and nothing is written to standard output then.
#![tactic(auto)]

mod refused;
mod show;
mod words;

use crate::refused::{Failure, MOST, lost, unread};
use crate::show::show;
use crate::words::{Job, edition_of, job_of, word_at};
use chunks::read_full;
use image::form::form_for;
use image::stored::{IMAGE, convert, read};
use kernel::numbers::ACCEPTED;
use kernel::refusal::Refusal;
use kernel::table::Table;
use std::io;

// The table of an image.
fn table_of(edition: u32, image: &[u8]) -> Result<Table, Failure> {
    let reading = read(edition, image);
    if reading.verdict != ACCEPTED {
        return Err(unread(reading.verdict, edition, image.len()));
    }
    Ok(reading.table)
}

// Which form an image of so many bytes has.
fn say_form(rt: &impl Print, len: usize) -> Result<(), Failure> {
    let form = form_for(len).ok_or(Failure::Length { len })?;
    let with = if form.entries { "with" } else { "without" };
    println!(rt;
        "ok: {len} bytes, {} records of {} bytes, {with} entry numbers",
        form.slots, form.bytes
    )?;
    Ok(())
}

// The image in the form of so many bytes. No form has more than the newest.
fn say_as(rt: &impl Print, edition: u32, image: &[u8], len: usize) -> Result<(), Failure> {
    if form_for(len).is_none() {
        return Err(Failure::Length { len });
    }
    let mut room = [0u8; IMAGE];
    let out = &mut room[..len];
    match convert(edition, image, out) {
        Ok(()) => Ok(rt.write_all(out)?),
        Err(Refusal::EntryLost) => Err(lost(table_of(edition, image)?)),
        Err(refusal) => Err(unread(refusal.number(), edition, image.len())),
    }
}

// The edition is asked first, as the kernel does: of what is asked of no edition nothing else is said.
fn answer(rt: &impl Print, job: Job, edition: Option<u32>, image: &[u8]) -> Result<(), Failure> {
    let edition = edition.ok_or(Failure::Edition)?;
    match job {
        Job::Convert(len) => say_as(rt, edition, image, len),
        Job::Check => {
            table_of(edition, image)?;
            say_form(rt, image.len())
        }
        Job::Show => Ok(show(rt, table_of(edition, image)?)?),
    }
}

fn main(rt: HostRuntime) -> io::Result<()> {
    let mut bytes = [0u8; MOST];
    let n = read_full(&mut rt.reader(), &mut bytes)?;
    let job = job_of(word_at(&rt, 1));
    let edition = edition_of(word_at(&rt, 2));
    if let Err(why) = answer(&rt, job, edition, &bytes[..n]) {
        let _ = eprintln!(rt; "{why}");
    }
    Ok(())
}
