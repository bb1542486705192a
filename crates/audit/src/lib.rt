// Whether lent bytes are the image of a good table, told by passes over its records: no table is made of them.
#![tactic(auto)]

mod places;
mod sound;
mod survey;

ghost use Rattle.std.specs.Prelude.{◌≡◌, ◌*◌, ◌≤◌, ◌||◌, length, get_or, eqb, ltb};
ghost use Rattle.queue.specs.Choose.{all_below};
ghost use Rattle.tid.specs.Sizes.{slot_count, priorities};
ghost use Rattle.image.specs.Record.{record_length};
ghost use Rattle.audit.specs.Audit.{rest_blank, found_in};

use crate::places::all_judged;
use crate::survey::{Seen, surveyed};
use image::fields::RECORD;
use image::stored::IMAGE;
use kernel::edition::is_edition;
use queue::numbering::QUEUES;
use tid::sizes::{PRIORITIES, SLOTS};

// What the passes find: how many slots are used, which is active, and how many stand in each queue. Where none is active it is SLOTS: an
// Option took the C host more stack.
#[derive(Clone, Copy, Drop)]
pub struct Found {
    pub good: bool,
    pub used: usize,
    pub active: usize,
    pub count: [u8; QUEUES],
}

// Whether every byte from the record of a slot on is 0: their bits together, so that the compiler may look at many at once. The loop counts,
// as all here: an iterator hands out an Option of a reference, which boards with pointers of 32 bits read wrongly.
fn rest_blank(image: &[u8], used: usize) -> bool
    requires { (used ≤ slot_count) × (length image.now ≡ slot_count * record_length) }
    ensures { result ≡ rest_blank slot_count image.now used }
{
    let mut bits = 0u8;
    for i in used * RECORD..IMAGE {
        bits |= image[i];
    }
    bits == 0
}

// Whether a task is active, or nobody stands in a ready queue.
fn active_if_ready(count: [u8; QUEUES], active: usize) -> bool
    ensures { result ≡ (ltb active slot_count || all_below priorities (λ p. eqb (get_or count p 0) 0)) }
{
    if active < SLOTS {
        return true;
    }
    let mut none = true;
    for p in 0..PRIORITIES {
        none &= count[p] == 0;
    }
    none
}

// Bytes of another length than an image's are not looked at.
pub fn check(edition: u32, image: &[u8]) -> Found
    ensures { result ≡ found_in slot_count edition image.now }
{
    if image.len() != IMAGE {
        return Found {
            good: false,
            used: 0,
            active: SLOTS,
            count: [0; QUEUES],
        };
    }
    let Seen {
        used,
        active,
        count,
    } = surveyed(image);
    let good = is_edition(edition)
        & (1 <= used)
        & rest_blank(image, used)
        & all_judged(edition, image, used, active, count)
        & active_if_ready(count, active);
    Found {
        good,
        used,
        active,
        count,
    }
}
