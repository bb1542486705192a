// The first pass: how many records are used, which one is active, and how many stand in each queue.
ghost use Rattle.std.specs.Prelude.{◌≡◌, ◌*◌, ◌<◌, length};
ghost use Rattle.tid.specs.Sizes.{slot_count};
ghost use Rattle.image.specs.Record.{record_length};
ghost use Rattle.audit.specs.Survey.{queue_in, seen_in};

use image::fields::{AWAITED, PRIORITY, RECORD, STATE};
use queue::numbering::{QUEUES, event_queue, ready_queue, send_queue};
use task::parts::{ACTIVE, EVENT_BLOCKED, READY, RECEIVE_BLOCKED, UNUSED};
use tid::sizes::SLOTS;

// The queue that a record stands in; QUEUES where it stands in none. A record that names no queue there is names a number past the last.
#[tactic(auto, unfolding(crate::specs::Survey::queue_in))]
pub(crate) fn queue_at(image: &[u8], s: usize) -> usize
    requires { (s < slot_count) × (length image.now ≡ slot_count * record_length) }
    ensures { result ≡ queue_in slot_count image.now s }
{
    let r = s * RECORD;
    match image[r + STATE] {
        READY => ready_queue(image[r + PRIORITY]),
        RECEIVE_BLOCKED => send_queue(image[r + AWAITED]),
        EVENT_BLOCKED => event_queue(image[r + AWAITED]),
        _ => QUEUES,
    }
}

#[derive(Drop)]
pub(crate) struct Seen {
    pub used: usize,
    pub active: usize,
    pub count: [u8; QUEUES],
}

pub(crate) fn surveyed(image: &[u8]) -> Seen
    requires { length image.now ≡ slot_count * record_length }
    ensures { result ≡ seen_in slot_count image.now }
{
    let mut count = [0u8; QUEUES];
    let mut active = SLOTS;
    let mut used = SLOTS;
    for s in 0..SLOTS {
        let code = image[s * RECORD + STATE];
        if code == UNUSED {
            used = s;
            break;
        }
        if code == ACTIVE {
            active = s;
        }
        let k = queue_at(image, s);
        if k < QUEUES {
            count[k] += 1;
        }
    }
    Seen {
        used,
        active,
        count,
    }
}
