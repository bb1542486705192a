// The byte entry: what a C host calls, by the names of crates/entry_c. It lends bytes, and finds in them what the kernel made of its request.
#![tactic(auto)]

ghost use Rattle.std.specs.Prelude.{◌≡◌, ◌*◌, ◌||◌, length, eqb};
ghost use Rattle.std.proofs.Math.Seq.{paste};
ghost use Rattle.queue.specs.Choose.{all_below};
ghost use Rattle.tid.specs.Sizes.{slot_count};
ghost use Rattle.image.specs.Bytes.{bytes_of};
ghost use Rattle.image.specs.Record.{record_length, at_entry, entry_at};
ghost use Rattle.image.specs.Stored.{convert_verdict, converted};
ghost use Rattle.kernel.specs.Verdict.{verdict_of, refusal_number};
ghost use Rattle.entry.specs.Entry.{Asked, call, called, start_call, start_called, AnsweredBy};

use audit::check;
use image::call::{ANSWER, REQUEST, put_answer, request_from};
use image::fields::{ENTRY, PRIORITY, RECORD, STATE};
use image::form::{Form, form_for, reform};
use image::stored::IMAGE;
use image::words::word;
use inplace::decide;
use kernel::edition::is_edition;
use kernel::refusal::{Refusal, verdict};
use kernel::table::Answer;
use step::areas::apply;
use task::parts::ACTIVE;
use tid::sizes::{AREA, PRIORITIES, SLOTS};

// What is asked of a call before its step, in this order.
fn admits(edition: u32, image: &[u8], areas: &[u8], request: &[u8]) -> Result<(), Refusal>
    ensures { Asked slot_count edition image.now areas.now request.now result }
{
    if !is_edition(edition) {
        return Err(Refusal::BadEdition);
    }
    if request.len() != REQUEST {
        return Err(Refusal::BadRecord);
    }
    if image.len() != IMAGE {
        return Err(Refusal::BadImage);
    }
    if areas.len() != SLOTS * AREA {
        return Err(Refusal::BadAreas);
    }
    Ok(())
}

// A refusal is answered with no next task and no result; its number is also returned.
fn refuse(refusal: Refusal, answer: &mut [u8]) -> u32
    ensures { AnsweredBy (refusal_number refusal) answer.old result answer.new }
{
    let verdict = refusal.number();
    put_answer(Answer::refused(verdict, 0), answer);
    u32::from(verdict)
}

// One step of the kernel that an image holds, in the edition that it was started in.
pub fn kernel_step(
    edition: u32,
    image: &mut [u8],
    areas: &mut [u8],
    request: &[u8],
    answer: &mut [u8],
) -> u32
    ensures { call result image.new areas.new answer.new ≡ called slot_count edition image.old areas.old request.now answer.old }
{
    if answer.len() != ANSWER {
        return u32::from(Refusal::BadAnswer.number());
    }
    match admits(edition, image, areas, request) {
        Err(refusal) => refuse(refusal, answer),
        Ok(()) => {
            let done = decide(edition, image, request_from(request));
            apply(done.effect, areas);
            put_answer(done.answer, answer);
            u32::from(done.answer.verdict)
        }
    }
}

// The first task's entry number.
fn put_entry(image: &mut [u8], entry: u32)
    requires { length image.old ≡ slot_count * record_length }
    ensures { image.new ≡ paste image.old at_entry (bytes_of 4 entry) 4 }
{
    let [b0, b1, b2, b3] = entry.to_le_bytes();
    image[ENTRY] = b0;
    image[ENTRY + 1] = b1;
    image[ENTRY + 2] = b2;
    image[ENTRY + 3] = b3;
}

// A fresh kernel's image, whose first task has the priority and the entry number given. The edition is asked, then the priority, then the
// length, and nothing is written before all are right. An image does not hold its edition.
fn started(edition: u32, priority: u32, entry: u32, image: &mut [u8]) -> Result<(), Refusal>
    ensures { start_call (verdict_of result) image.new ≡ start_called slot_count edition priority entry image.old }
{
    if !is_edition(edition) {
        return Err(Refusal::BadEdition);
    }
    if PRIORITIES <= priority as usize {
        return Err(Refusal::BadPriority);
    }
    if image.len() != IMAGE {
        return Err(Refusal::BadImage);
    }
    image.fill(0);
    put_entry(image, entry);
    image[STATE] = ACTIVE;
    image[PRIORITY] = priority as u8;
    Ok(())
}

// The same for C: 0, or the number of the refusal.
pub fn kernel_start(edition: u32, priority: u32, entry: u32, image: &mut [u8]) -> u32
    ensures { start_call result image.new ≡ start_called slot_count edition priority entry image.old }
{
    u32::from(verdict(started(edition, priority, entry, image)))
}

// Whether a form lacks nothing that an image of the newest has: where it holds no entry number, each is 0.
fn holds(form: Form, image: &[u8]) -> bool
    requires { length image.now ≡ slot_count * record_length }
    ensures { result ≡ (form.entries || all_below slot_count (λ s. eqb (entry_at image.now s) 0)) }
{
    if form.entries {
        return true;
    }
    let mut none = true;
    for s in 0..SLOTS {
        let at = s * RECORD + ENTRY;
        none &= word(image[at], image[at + 1], image[at + 2], image[at + 3]) == 0;
    }
    none
}

// An image of any form written in the form that has as many bytes as `out`. The edition and both lengths are asked first, and nothing is
// written before all is right: so the newest form, of which the rules are asked, is made beside `out`.
fn converted(edition: u32, image: &[u8], out: &mut [u8]) -> Result<(), Refusal>
    ensures verdict { verdict_of result ≡ convert_verdict slot_count edition image.now (length out.old) }
    ensures bytes { out.new ≡ converted slot_count edition image.now out.old }
{
    if !is_edition(edition) {
        return Err(Refusal::BadEdition);
    }
    if form_for(image.len()).is_none() {
        return Err(Refusal::BadImage);
    }
    let Some(form) = form_for(out.len()) else {
        return Err(Refusal::BadImage);
    };
    let mut newest = [0u8; IMAGE];
    reform(image, &mut newest);
    let found = check(edition, &newest);
    if !found.good {
        return Err(Refusal::BadTable);
    }
    if !holds(form, &newest) {
        return Err(Refusal::EntryLost);
    }
    reform(&newest, out);
    Ok(())
}

// The same for C: 0, or the number of the refusal.
pub fn kernel_convert(edition: u32, image: &[u8], out: &mut [u8]) -> u32
    ensures verdict { result ≡ convert_verdict slot_count edition image.now (length out.old) }
    ensures bytes { out.new ≡ converted slot_count edition image.now out.old }
{
    u32::from(verdict(converted(edition, image, out)))
}
