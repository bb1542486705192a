// The second pass: each used record by itself and among the others, and whether the places of each queue are 0, 1, 2 with no gap.
ghost use Rattle.std.specs.Prelude.{◌≡◌, ◌*◌, ◌≤◌, ◌<◌, length};
ghost use Rattle.queue.specs.Choose.{all_below};
ghost use Rattle.tid.specs.Sizes.{slot_count};
ghost use Rattle.image.specs.Record.{record_length};
ghost use Rattle.audit.specs.Survey.{count_up_to};
ghost use Rattle.audit.specs.Audit.{judged_at, slot_asked};

use crate::sound::sound;
use crate::survey::queue_at;
use image::fields::{PLACE, RECORD, STATE};
use queue::numbering::{FIRST_SEND, QUEUES};
use queue::wide;
use task::parts::{ACTIVE, EXITED, SEND_BLOCKED};
use tid::sizes::SLOTS;

// A record that is sound, the active slot if it is active, and without a queued sender if it is send-blocked or has exited.
fn judged(edition: u32, image: &[u8], s: usize, used: usize, active: usize, senders: u8) -> bool
    requires { (s < slot_count) × (length image.now ≡ slot_count * record_length) }
    ensures { result ≡ judged_at edition image.now used active senders s }
{
    let at = s * RECORD;
    match image[at + STATE] {
        ACTIVE if s != active => false,
        SEND_BLOCKED | EXITED if senders != 0 => false,
        _ => sound(edition, &image[at..at + RECORD], s, used),
    }
}

// Each queue has as many places in a row as it has members, given out when its first member is met: a place that is below their number
// and taken once has no gap before it.
pub(crate) fn all_judged(
    edition: u32,
    image: &[u8],
    used: usize,
    active: usize,
    count: [u8; QUEUES],
) -> bool
    requires { (used ≤ slot_count) × ((length image.now ≡ slot_count * record_length) × (count ≡ count_up_to slot_count image.now used)) }
    ensures { result ≡ all_below used (slot_asked slot_count edition image.now used active count) }
{
    let mut base = [0u8; QUEUES];
    let mut taken = [0u8; SLOTS];
    let mut given = 0u8;
    for s in 0..used {
        if !judged(edition, image, s, used, active, count[FIRST_SEND + s]) {
            return false;
        }
        let k = queue_at(image, s);
        if QUEUES <= k {
            continue;
        }
        let place = image[s * RECORD + PLACE];
        let many = count[k];
        if many <= place {
            return false;
        }
        if base[k] == 0 {
            base[k] = given + 1;
            given += many;
        }
        let i = wide(base[k]) - 1 + wide(place);
        if taken[i] != 0 {
            return false;
        }
        taken[i] = 1;
    }
    true
}
