// Writes what steps say of a table, and counts.
use crate::put::with_edition;
use kernel::edition::{MANY_WAIT, ONE_WAITS};
use kernel::numbers::{ACCEPTED, EVENT};
use kernel::table::{Request, Table};
use std::io;
use tid::sizes::{AREA, SLOTS};

// How many steps of broken tables and how many of good ones were asked, and how many of each were refused and accepted.
#[derive(Default, Drop)]
pub(crate) struct Tally {
    pub broken: u64,
    pub refused: u64,
    pub good: u64,
    pub accepted: u64,
}

// The verdict on a step of the table: an event that nobody awaits, so that nothing but the table and the areas can be refused.
fn verdict_of(table: Table, areas: &mut [u8]) -> u8 {
    let request = Request {
        kind: EVENT,
        arg0: 62,
        arg1: 0,
        arg2: 0,
        arg3: 0,
        arg4: 0,
    };
    step::step(table, request, areas).answer.verdict
}

fn verdict_in(table: Table, edition: u32) -> u8 {
    let mut areas = [0; SLOTS * AREA];
    verdict_of(with_edition(table, edition), &mut areas)
}

// The verdict where the areas are to be refused, too.
fn verdict_without(table: Table) -> u8 {
    let mut areas = [0; 1];
    verdict_of(table, &mut areas)
}

fn write_verdict(rt: &impl Print, verdict: u8) -> io::Result<()> {
    if verdict == ACCEPTED {
        return rt.print("accepted");
    }
    print!(rt; "refused by {verdict}")
}

// A case by its name, which stands behind two bytes of its line, and the verdict of the first step; where that of the second is another,
// words that say what it was asked of, and it.
fn write_case(rt: &impl Print, line: &[u8], first: u8, words: &str, second: u8) -> io::Result<()> {
    if let Some(name) = line.get(2..) {
        rt.write_all(name)?;
    }
    rt.print(": ")?;
    write_verdict(rt, first)?;
    if first != second {
        rt.print(words)?;
        write_verdict(rt, second)?;
    }
    println!(rt)
}

impl Tally {
    // One step more of a table that is good or not, with its verdict.
    fn count(&mut self, good: bool, verdict: u8) {
        let accepted = verdict == ACCEPTED;
        if good {
            self.good = self.good.wrapping_add(1);
            self.accepted = self.accepted.wrapping_add(u64::from(accepted));
        } else {
            self.broken = self.broken.wrapping_add(1);
            self.refused = self.refused.wrapping_add(u64::from(!accepted));
        }
    }

    // Writes and counts what two steps say of a table. Of a line that begins with 0 it is asked in its own edition, which is none, and then
    // without areas; of any other in edition 1 and then in 2, where it is good in both behind +, in 2 alone behind 2, in neither behind -.
    pub(crate) fn find(
        &mut self,
        rt: &impl Print,
        what: u8,
        line: &[u8],
        table: Table,
    ) -> io::Result<()> {
        if what == b'0' {
            let first = verdict_in(table, table.edition);
            let second = verdict_without(table);
            write_case(rt, line, first, ", without areas ", second)?;
            self.count(false, first);
            self.count(false, second);
            return Ok(());
        }
        let first = verdict_in(table, ONE_WAITS);
        let second = verdict_in(table, MANY_WAIT);
        write_case(rt, line, first, ", in edition 2 ", second)?;
        self.count(what == b'+', first);
        self.count(what != b'-', second);
        Ok(())
    }

    pub(crate) fn write(self, rt: &impl Print) -> io::Result<()> {
        let Tally {
            broken,
            refused,
            good,
            accepted,
        } = self;
        println!(rt;
            "{refused} of {broken} steps of broken tables refused, {accepted} of {good} of good ones accepted"
        )
    }
}
