// Request records stepped in blocks.
ghost use Rattle.std.specs.Prelude.{◌≡◌, ◌*◌, ◌/◌, ◌≤◌, [], ◌∷◌, length, take};
ghost use Rattle.image.specs.Call.{request_length, request_from};
ghost use Rattle.queue.specs.Choose.{choose};
ghost use Rattle.lines.specs.Line.{longest};
ghost use Rattle.lines.specs.State.{longest_wide};
ghost use Rattle.lines.specs.Written.{Written};
ghost use Rattle.lines.specs.Block.{Ran, fresh_block, ran, requests, end_of, showed, room_for};

use crate::shown::line;
use crate::state::wide_line;
use crate::text::Line;
use image::call::{REQUEST, request_from};
use kernel::refusal::Refusal;
use kernel::table::Table;
use rules::start;
use step::step;

// Where a run stands between two blocks: the table, the number of the next step, and where its line goes in the buffer.
#[derive(Clone, Copy, Drop)]
pub struct Block {
    pub table: Table,
    pub step: u64,
    pub end: usize,
}

// Where the run of a fresh kernel starts.
pub fn fresh_block(edition: u32, priority: u32, entry: u32) -> Block
    ensures { result ≡ fresh_block edition priority entry }
{
    let started = start(edition, priority, entry);
    Block {
        table: started.table,
        step: 1,
        end: 0,
    }
}

impl<'a> Line<'a> {
    // What follows the lines of so many bytes: a line more where they do not end with a whole record.
    fn end(&mut self, count: usize)
        ensures { Written self.old (end_of count) self.new }
    {
        if count % REQUEST != 0 {
            self.text(b"end ");
            self.verdict(Refusal::BadRecord.number());
            self.put(b'\n');
        }
    }
}

// One record stepped, and its line.
fn step_one(b: Block, bytes: &[u8], areas: &mut [u8], out: &mut [u8], wide: bool) -> Block
    ensures ran { Ran (ran wide b areas.old (request_from bytes.now ∷ [])) b out.old result areas.new out.new }
    ensures short { length (ran wide b areas.old (request_from bytes.now ∷ [])).text ≤ choose wide longest_wide longest }
{
    let r = request_from(bytes);
    let decision = step(b.table, r, areas);
    let end = if wide {
        wide_line(out, b.end, b.step, r.kind, decision)
    } else {
        line(out, b.end, b.step, r.kind, decision.answer)
    };
    Block {
        table: decision.table,
        step: b.step.wrapping_add(1),
        end,
    }
}

// Every whole record stepped, and their lines put behind what the buffer holds.
fn run_block(first: Block, records: &[u8], areas: &mut [u8], out: &mut [u8], wide: bool) -> Block
    ensures ran { Ran (ran wide first areas.old (requests records.now)) first out.old result areas.new out.new }
    ensures short { length (ran wide first areas.old (requests records.now)).text ≤ choose wide longest_wide longest * (length records.now / request_length) }
{
    let mut b = first;
    for record in records.chunks_exact(REQUEST) {
        b = step_one(b, record, areas, out, wide);
    }
    b
}

// A block: its lines put behind what the buffer holds, with the line for an incomplete record. Where the buffer has room for
// them, and holds nothing yet, they are what it holds up to the answer's end.
pub fn show_block(
    first: Block,
    records: &[u8],
    areas: &mut [u8],
    out: &mut [u8],
    wide: bool,
) -> Block
    ensures ran { Ran (showed wide first areas.old records.now) first out.old result areas.new out.new }
    ensures whole { first.end ≡ 0 → room_for wide (length records.now) ≤ length out.old → take result.end out.new ≡ (showed wide first areas.old records.now).text }
{
    let done = run_block(first, records, areas, out, wide);
    let mut line = Line::new(out, done.end);
    line.end(records.len());
    Block {
        table: done.table,
        step: done.step,
        end: line.at,
    }
}
