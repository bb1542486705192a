// A table as an image: a record for each slot, one after another.
ghost use Rattle.std.specs.Prelude.{◌≡◌, ◌+◌, ◌*◌, ◌≤◌, min, max, length, IfOk};
ghost use Rattle.std.proofs.Math.Seq.{paste};
ghost use Rattle.tid.specs.Sizes.{slot_count};
ghost use Rattle.queue.specs.Numbering.{places};
ghost use Rattle.queue.specs.Placed.{placed_row};
ghost use Rattle.kernel.specs.Numbers.{accepted};
ghost use Rattle.kernel.specs.Verdict.{refusal_number, verdict_of};
ghost use Rattle.image.specs.Record.{record_length};
ghost use Rattle.image.specs.Form as Forms;
ghost use Rattle.image.specs.Image.{image_of, unread, judged_image, reading_of};
ghost use Rattle.image.specs.Stored.{read_image, write_verdict, written, convert_verdict, converted};
ghost use Rattle.image.specs.Exact.{decoded_of, checked_placed};

use crate::fields::{PLACE, RECORD, record_of, task_read};
use crate::form::{Form, form_for, reform};
use kernel::edition::is_edition;
use kernel::numbers::ACCEPTED;
use kernel::refusal::Refusal;
use kernel::table::Table;
use queue::numbering::{FIRST_SEND, PLACES, QUEUES};
use queue::{Queue, wide};
use rules::Checked;
use rules::slots::{active_if_ready, good_slot, waiters_fit};
use task::search::{first_active, used_slots};
use task::standing::queue_of;
use tid::mark_of;
use tid::sizes::SLOTS;

// How long an image of the newest form is.
pub const IMAGE: usize = SLOTS * RECORD;

// What reading an image gives: a table, its active slot and a verdict of 0, which is no refusal. Refused, the table has every slot
// unused, so that there is one beside each verdict.
#[derive(Clone, Copy, Drop)]
pub struct Reading {
    pub table: Table,
    pub active: Option<usize>,
    pub verdict: u8,
}

// The number of places that a row reaches with one more put at a place.
fn reach(len: u8, place: u8) -> u8
    ensures { result ≡ max len (min (place + 1) places) }
{
    len.max(place.saturating_add(1).min(PLACES as u8))
}

// A mark put at a place, which the row then reaches.
fn placed_row(mut q: Queue, place: u8, mark: u8) -> Queue
    ensures { result ≡ placed_row q place mark }
{
    let p = wide(place);
    if p < PLACES {
        q.marks[p] = mark;
    }
    q.len = reach(q.len, place);
    q
}

// The table that an image gives, and whether every record is what its task is written as.
#[derive(Drop)]
struct Decoded {
    table: Table,
    exact: bool,
}

fn decode(edition: u32, bytes: &[u8]) -> Decoded
    requires { length bytes.now ≡ slot_count * record_length }
    ensures { result ≡ decoded_of slot_count edition bytes.now }
{
    let mut table = rules::blank_table(edition);
    let mut exact = true;
    for s in 0..SLOTS {
        let r: &[u8; RECORD] = bytes[s * RECORD..].first_chunk().unwrap();
        let entry = task_read(r);
        exact &= entry.exact;
        table.tasks[s] = entry.task;
        let k = queue_of(entry.task);
        if k < QUEUES {
            table.queues[k] = placed_row(table.queues[k], r[PLACE], mark_of(s));
        }
    }
    Decoded { table, exact }
}

// A record copied into an image.
fn put_record(out: &mut [u8], at: usize, r: [u8; RECORD])
    requires { at + record_length ≤ length out.old }
    ensures { out.new ≡ paste out.old at r record_length }
{
    out[at..at + RECORD].copy_from_slice(&r);
}

// The records of a table, good or not, in the newest form.
fn store(table: Table, out: &mut [u8])
    requires { length out.old ≡ slot_count * record_length }
    ensures { out.new ≡ image_of table }
{
    for s in 0..SLOTS {
        let task = table.tasks[s];
        let k = queue_of(task);
        let mut place = 0;
        if k < QUEUES {
            place = table.queues[k].place_of(mark_of(s));
        }
        put_record(out, s * RECORD, record_of(task, place as u8));
    }
}

// Whether a form lacks nothing that the table has: where it holds no entry number, each is 0.
fn holds(form: Form, table: Table) -> bool
    ensures { result ≡ Forms.holds form table }
{
    form.entries || table.tasks.iter().all(|task| task.entry == 0)
}

// The records of a good table, in the form that has as many bytes. Refused by 12 where there is no such edition, then by 7 where no form has
// as many, then by 2 where a rule is broken, then by 11 where the form has no room for an entry number: no byte is written then.
pub fn write(table: Table, out: &mut [u8]) -> Result<(), Refusal>
    ensures verdict { verdict_of result ≡ write_verdict table (length out.old) }
    ensures bytes { out.new ≡ written table out.old }
{
    if !is_edition(table.edition) {
        return Err(Refusal::BadEdition);
    }
    let Some(form) = form_for(out.len()) else {
        return Err(Refusal::BadImage);
    };
    if !rules::check(table).good {
        return Err(Refusal::BadTable);
    }
    if !holds(form, table) {
        return Err(Refusal::EntryLost);
    }
    let mut newest = [0u8; IMAGE];
    store(table, &mut newest);
    reform(&newest, out);
    Ok(())
}

fn refused(refusal: Refusal) -> Reading
    ensures { result ≡ unread slot_count (refusal_number refusal) }
{
    Reading {
        table: rules::unused_table(),
        active: None,
        verdict: refusal.number(),
    }
}

// Whether a table that was read from the bytes keeps the rules, and which slot is active. Its rows were made from its tasks and their
// places, so no row is walked over: each task is asked whether it stands at its place.
fn check_placed(table: Table, bytes: &[u8]) -> Checked
    requires { length bytes.now ≡ slot_count * record_length }
    ensures { result ≡ checked_placed table bytes.now }
{
    let used = used_slots(table.tasks);
    let active = first_active(table.tasks);
    let mut good = is_edition(table.edition)
        & (1 <= used)
        & active_if_ready(table.queues, active)
        & waiters_fit(table.edition, table.queues);
    for s in 0..SLOTS {
        let task = table.tasks[s];
        good &= good_slot(task, s, used, active, table.queues[FIRST_SEND + s].len);
        let k = queue_of(task);
        if k < QUEUES {
            good &= table.queues[k].stands(bytes[s * RECORD + PLACE], mark_of(s));
        }
    }
    Checked { good, active }
}

// The table that bytes of the newest form give, if they are its image and it is good.
fn judged(edition: u32, bytes: &[u8]) -> Result<Reading, Refusal>
    requires { length bytes.now ≡ slot_count * record_length }
    ensures given { IfOk result (λ reading. reading ≡ judged_image slot_count edition bytes.now) }
    ensures verdict { verdict_of result ≡ (judged_image slot_count edition bytes.now).verdict }
{
    let decoded = decode(edition, bytes);
    let checked = check_placed(decoded.table, bytes);
    if !(decoded.exact & checked.good) {
        return Err(Refusal::BadTable);
    }
    Ok(Reading {
        table: decoded.table,
        active: checked.active,
        verdict: ACCEPTED,
    })
}

// The same of an image of any form.
fn admitted(edition: u32, bytes: &[u8]) -> Result<Reading, Refusal>
    ensures read { reading_of slot_count result ≡ read_image slot_count edition bytes.now }
    ensures good { IfOk result (λ reading. reading.verdict ≡ accepted) }
{
    if !is_edition(edition) {
        return Err(Refusal::BadEdition);
    }
    if form_for(bytes.len()).is_none() {
        return Err(Refusal::BadImage);
    }
    let mut newest = [0u8; IMAGE];
    reform(bytes, &mut newest);
    judged(edition, &newest)
}

// The table of an image of any form, in the edition that is given with it. Refused by 12 where there is no such edition, then by 7 where its
// length is no form's, then by 2 where it is not the image of a good table.
pub fn read(edition: u32, bytes: &[u8]) -> Reading
    ensures { result ≡ read_image slot_count edition bytes.now }
{
    admitted(edition, bytes).unwrap_or_else(refused)
}

// An image of any form written in the form that has as many bytes as `out`: a reading and a writing, but that both lengths are asked first.
// Refused by 12, 7, 2 or 11: no byte is written then.
pub fn convert(edition: u32, image: &[u8], out: &mut [u8]) -> Result<(), Refusal>
    ensures verdict { verdict_of result ≡ convert_verdict slot_count edition image.now (length out.old) }
    ensures bytes { out.new ≡ converted slot_count edition image.now out.old }
{
    if !is_edition(edition) {
        return Err(Refusal::BadEdition);
    }
    if form_for(out.len()).is_none() {
        return Err(Refusal::BadImage);
    }
    let reading = admitted(edition, image)?;
    write(reading.table, out)
}
