// Which byte breaks a record where, and whether it does.
use crate::busy::Stored;
use image::fields::RECORD;
use image::stored::{IMAGE, read};
use kernel::refusal::Refusal;
use task::parts::RECEIVE_BLOCKED;

// How many positions a record has.
pub(crate) const POSITIONS: u8 = RECORD as u8;

// The first tid of no task.
const FIRST_UNUSED: u8 = 13;

// A byte where only some are good, next to the one that stands there.
fn beside(old: u8) -> u8 {
    if old == 0 { 1 } else { old - 1 }
}

// A target of itself; an event of 64, and no other state has such a byte.
fn wrong_target(state: u8, tid: u8) -> u8 {
    if state == RECEIVE_BLOCKED { tid } else { 64 }
}

// What a record cannot hold at a place: of the states that use the byte because it is out of its range, of the others because it is
// not 0. Only the low bytes of a value and those of an entry number have no such byte: of an unused slot these are not 0 either.
pub(crate) fn wrong(tid: u8, state: u8, at: u8, old: u8) -> u8 {
    match at {
        0 => 8,
        1 => 32,
        2 => tid,
        3 => beside(old),
        4 => wrong_target(state, tid),
        5 => 3,
        6 | 8 | 10 | 12 => 255,
        7 | 9 | 11 | 13 => 2,
        14 => FIRST_UNUSED,
        15 => 2,
        16 => 252,
        17 | 18 | 20 | 21 | 22 | 23 => beside(old),
        _ => 128,
    }
}

impl Stored {
    // The image with one byte of it replaced.
    fn replaced(&self, at: usize, byte: u8) -> [u8; IMAGE] {
        let mut damaged = self.image;
        if let Some(place) = damaged.get_mut(at) {
            *place = byte;
        }
        damaged
    }

    // Whether that is refused by 2.
    pub(crate) fn breaks(&self, at: usize, byte: u8) -> bool {
        read(self.edition, &self.replaced(at, byte)).verdict == Refusal::BadTable.number()
    }

    // How many values a byte can have with the image accepted.
    pub(crate) fn good_values(&self, at: usize) -> usize {
        (0..=255u8).filter(|value| !self.breaks(at, *value)).count()
    }
}
