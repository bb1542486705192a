// Each byte of the used records, and of the first unused one, damaged alone.
use crate::busy::Stored;
use crate::damage::{POSITIONS, wrong};
use image::fields::{CUT, ENTRY, RECORD};
use std::io;
use tid::slot_named;

// The records that are damaged: twelve tasks, and the first unused slot.
const DAMAGED: u8 = 13;

// Where a byte of the record of a tid stands.
fn place_of(tid: u8, at: u8) -> usize {
    slot_named(tid) * RECORD + usize::from(at)
}

// Which byte of a used record any other may stand for.
fn free(at: u8) -> &'static str {
    if usize::from(at) < ENTRY {
        "a low byte of a value"
    } else {
        "a byte of the entry number"
    }
}

impl Stored {
    // A byte of the record of a tid.
    fn byte_at(&self, tid: u8, at: u8) -> u8 {
        self.image.get(place_of(tid, at)).copied().unwrap_or(0)
    }

    // Whether the byte that a record cannot hold at a place is refused there.
    fn is_broken(&self, tid: u8, at: u8) -> bool {
        let byte = wrong(tid, self.byte_at(tid, 0), at, self.byte_at(tid, at));
        self.breaks(place_of(tid, at), byte)
    }

    // A place that is not refused, with how many of the 256 bytes are good there.
    fn write_good(&self, rt: &impl Print, tid: u8, at: u8) -> io::Result<()> {
        if self.is_broken(tid, at) {
            return Ok(());
        }
        let byte = free(at);
        let good = self.good_values(place_of(tid, at));
        print!(rt; "; at {at}, {byte}, {good} of 256 are good")
    }

    fn write_record(&self, rt: &impl Print, tid: u8) -> io::Result<()> {
        let state = self.byte_at(tid, 0);
        let broken = (0..POSITIONS).filter(|at| self.is_broken(tid, *at)).count();
        print!(rt; "tid {tid} state {state}: {broken} of {POSITIONS} refused")?;
        for at in 0..POSITIONS {
            self.write_good(rt, tid, at)?;
        }
        println!(rt)
    }

    pub(crate) fn write_records(&self, rt: &impl Print) -> io::Result<()> {
        for tid in 1..=DAMAGED {
            self.write_record(rt, tid)?;
        }
        Ok(())
    }

    // How many bytes are good where a record says whether its value was cut: of three ready tasks, of which the first holds a value, the
    // second a fault and the third nothing.
    pub(crate) fn write_cuts(&self, rt: &impl Print) -> io::Result<()> {
        for (tid, beside) in [(1, "a value"), (8, "a fault"), (12, "nothing")] {
            let good = self.good_values(slot_named(tid) * RECORD + CUT);
            println!(rt; "at 15, beside {beside}, {good} of 256 are good")?;
        }
        Ok(())
    }
}
