// Reads request records from standard input, steps them from a fresh kernel, and writes a line for each. Its first word is the kernel's
// edition, 1 or 2, and 1 where there is none; with a word behind it the lines are wide. A first word that is no edition is said on
// standard error, and nothing is read or written then.
#![tactic(auto)]

ghost use Rattle.std.specs.Prelude.{◌≡◌, true, List, ℕ, ◌≤◌, length, take, unwrap_or, IfSome};
ghost use Rattle.kernel.specs.Edition.{is_edition};
ghost use Rattle.lines.specs.Block.{showed, room_for};
ghost use Rattle.lines.specs.Printed.{Reached};
ghost use Rattle.kernel_run.specs.Stands.{Stands, Leads, Onward};
ghost use Rattle.kernel_run.specs.Words.{edition_named};

use image::call::REQUEST;
use kernel::edition::{MANY_WAIT, ONE_WAITS};
use lines::{Block, LONGEST_WIDE, fresh_block, show_block};
use std::env::{Env, FillError};
use std::io::Read;
use tid::sizes::{AREA, SLOTS};

// The first task's priority.
const FIRST: u32 = 16;

// The first task's entry number: no code is started by it here.
const FIRST_ENTRY: u32 = 0;

// As much of the first word as is looked at.
const WORD: usize = 8;

// As many records as are read at a time.
const RECORDS: usize = 100;

// The edition that the words name, of which the first has so many bytes, and this one first; none where it names none. The program's own
// name is a word.
fn edition_named(words: usize, bytes: usize, first: u8) -> Option<u32>
    ensures named { unwrap_or result 0 ≡ edition_named words bytes first }
    ensures known { IfSome result (λ edition. is_edition edition ≡ true) }
{
    match (words, bytes, first) {
        (0 | 1, _, _) => Some(ONE_WAITS),
        (_, 1, b'1') => Some(ONE_WAITS),
        (_, 1, b'2') => Some(MANY_WAIT),
        _ => None,
    }
}

// Reads some bytes, or none at the end of the input. An input that cannot be read has ended; it says so.
fn read_some<R: Read>(rt: &impl Eprint, from: &mut R, records: &mut [u8]) -> usize
    ensures { result ≤ length records.new }
{
    match from.read(records) {
        Ok(n) => n,
        Err(_) => {
            let _ = eprintln!(rt; "kernel-run: standard input cannot be read");
            0
        }
    }
}

// Reads at least one record, unless the input ends before: as much as is there, up to the end of a record.
fn fill<R: Read>(rt: &impl Eprint, from: &mut R, records: &mut [u8]) -> usize
    ensures { result ≤ length records.new }
{
    let mut n = 0;
    while n < records.len() {
        let count = read_some(rt, from, &mut records[n..]);
        if count == 0 {
            break;
        }
        n += count;
        if n % REQUEST == 0 {
            break;
        }
    }
    n
}

// Whether the lines were written; where not, it says so.
fn written(rt: &(impl Print + Eprint), lines: &[u8]) -> bool {
    let is_written = rt.write_all(lines).is_ok();
    if !is_written {
        let _ = eprintln!(rt; "kernel-run: standard output cannot be written");
    }
    is_written
}

// The lines of a block, all of them: there is room. They go on where the lines of what was read before end. The table has its edition;
// it is handed on for what is promised, here and below.
fn shown(
    edition: u32,
    first: Block,
    records: &[u8],
    areas: &mut [u8],
    out: &mut [u8],
    wide: bool,
) -> Block
    requires { (first.end ≡ 0) × (room_for wide (length records.now) ≤ length out.old) }
    ensures whole { (take result.end out.new ≡ (showed wide first areas.old records.now).text) × (result.end ≤ length out.new) }
    ensures onward { (input : List ℕ) → Reached edition input first.table first.step areas.old → Onward wide edition input records.now (take result.end out.new) result.table result.step areas.new }
{
    show_block(first, records, areas, out, wide)
}

// One block: read, stepped and written. Where there may be another, the run of all that was read stands in what is left.
fn turn<R: Read>(
    rt: &(impl Print + Eprint),
    from: &mut R,
    edition: u32,
    mut first: Block,
    areas: &mut [u8],
    wide: bool,
) -> Option<Block>
    requires { Stands edition first.table first.step areas.old }
    ensures { IfSome result (λ next. Leads edition first.table first.step areas.old next.table next.step areas.new) }
{
    let mut records = [0u8; REQUEST * RECORDS];
    let mut out = [0u8; LONGEST_WIDE * (RECORDS + 1)];
    let n = fill(rt, from, &mut records);
    first.end = 0;
    let block = shown(edition, first, &records[..n], areas, &mut out, wide);
    let goes_on = written(rt, &out[..block.end]) && 0 < n && n % REQUEST == 0;
    goes_on.then_some(block)
}

// A proved loop has to end, and nothing says that the input does: so it has a number of turns that no run uses up.
fn run<R: Read>(
    rt: &(impl Print + Eprint),
    from: &mut R,
    edition: u32,
    mut block: Block,
    areas: &mut [u8],
    wide: bool,
)
    requires { Stands edition block.table block.step areas.old }
{
    for _ in 0..u64::MAX {
        let Some(next) = turn(rt, from, edition, block, areas, wide) else {
            break;
        };
        block = next;
    }
}

// The edition that the words name.
fn edition_asked(rt: &impl Env) -> Option<u32>
    ensures { IfSome result (λ edition. is_edition edition ≡ true) }
{
    let mut word = [0u8; WORD];
    match rt.arg(1, &mut word) {
        Ok(bytes) => edition_named(2, bytes, word[0]),
        Err(FillError::TooLong) => edition_named(2, 0, word[0]),
        Err(FillError::NotPresent) => edition_named(1, 0, word[0]),
    }
}

// Whether a word stands behind the edition.
fn asks_wide(rt: &impl Env) -> bool {
    let mut word = [0u8; WORD];
    !matches!(rt.arg(2, &mut word), Err(FillError::NotPresent))
}

fn main(rt: HostRuntime) {
    let mut areas = [0u8; SLOTS * AREA];
    let Some(edition) = edition_asked(&rt) else {
        let _ = eprintln!(rt; "kernel-run: the first word is the edition, 1 or 2");
        return;
    };
    let wide = asks_wide(&rt);
    run(
        &rt,
        &mut rt.reader(),
        edition,
        fresh_block(edition, FIRST, FIRST_ENTRY),
        &mut areas,
        wide,
    );
}
