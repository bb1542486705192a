// Whoever is woken joins a ready queue.
ghost use Rattle.std.specs.Prelude.{◌≡◌, ◌*◌, ◌<◌, length};
ghost use Rattle.tid.specs.Sizes.{slot_count};
ghost use Rattle.image.specs.Record.{record_length, at_awaited};
ghost use Rattle.records.specs.Stage.{joined_bytes, joined_count};
ghost use Rattle.records.specs.Woken.{woken_in};
ghost use Rattle.inplace.specs.Ends.{Joinable, Wakes};

use crate::store::{Standing, close_up, leave};
use image::fields::{PRIORITY, RECORD};
use queue::numbering::QUEUES;
use queue::wide;
use task::task::{Outcome, State};

// A task becomes ready with a result, and joins the tail of the queue of its priority.
pub(crate) fn join(image: &mut [u8], count: &mut [u8; QUEUES], s: usize, res: Outcome)
    requires { (s < slot_count) × ((length image.old ≡ slot_count * record_length) × Joinable image.old count.old s) }
    ensures image { image.new ≡ joined_bytes image.old count.old s res }
    ensures count { count.new ≡ joined_count image.old count.old s }
{
    let p = wide(image[s * RECORD + PRIORITY]);
    let place = count[p];
    leave(image, s, State::Ready, res, place);
    count[p] = place + 1;
}

// All who stand in a queue become ready with a result, in its order: as often as somebody stands there, the head leaves it and joins the
// queue of its priority. They stand there by what they await; `many` do.
pub(crate) fn wake_all(
    image: &mut [u8],
    used: usize,
    count: &mut [u8; QUEUES],
    waiters: Standing,
    many: u8,
    told: Outcome,
)
    requires { (waiters.at ≡ at_awaited) × Wakes slot_count used waiters.code waiters.key many told image.old count.old }
    ensures image { image.new ≡ (woken_in slot_count used waiters.code waiters.key told image.old count.old many).bytes }
    ensures count { count.new ≡ (woken_in slot_count used waiters.code waiters.key told image.old count.old many).counts }
{
    for i in 0..many {
        let s = close_up(image, used, waiters);
        join(image, count, s, told);
    }
}
