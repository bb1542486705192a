// What AwaitEvent and Event do to the records. Those who wait for one event stand in its queue, in the order in which they came.
ghost use Rattle.std.specs.Prelude.{◌<◌};
ghost use Rattle.tid.specs.Sizes.{slot_count, events};
ghost use Rattle.kernel.specs.Kinds as Kinds;
ghost use Rattle.image.specs.Image.{table_of};
ghost use Rattle.inplace.specs.Ends.{Begins, Ends};

use crate::store::Standing;
use crate::turn::{Caller, Turn, resumes, stops};
use crate::wake::wake_all;
use image::fields::AWAITED;
use kernel::edition::may_join;
use kernel::kinds::signal;
use queue::numbering::{FIRST_EVENT, QUEUES};
use task::parts::EVENT_BLOCKED;
use task::task::{Outcome, State};
use tid::sizes::EVENTS;

pub(crate) fn await_event(caller: Caller, image: &[u8], count: &[u8; QUEUES], event: u32) -> Turn
    requires { (caller.slot < slot_count) × Begins slot_count caller.edition caller.used caller.slot image.now count.now }
    ensures { Ends slot_count caller.edition caller.slot (Kinds.await_event (table_of slot_count caller.edition image.now) caller.slot event) result image.now count.now }
{
    let used = caller.used;
    if EVENTS <= event as usize {
        return resumes(used, Outcome::Fault(1));
    }
    let waiters = count[FIRST_EVENT + event as usize];
    if !may_join(caller.edition, waiters) {
        return resumes(used, Outcome::Fault(3));
    }
    stops(used, State::EventBlocked(event as u8), waiters)
}

// Whoever is active is interrupted, and goes on behind those who waited.
pub(crate) fn event(
    caller: Caller,
    image: &mut [u8],
    count: &mut [u8; QUEUES],
    number: u32,
    word: u32,
) -> Turn
    requires { (number < events) × Begins slot_count caller.edition caller.used caller.slot image.old count.old }
    ensures { Ends slot_count caller.edition caller.slot (Kinds.event (table_of slot_count caller.edition image.old) number word) result image.new count.new }
{
    let waiters = Standing {
        code: EVENT_BLOCKED,
        at: AWAITED,
        key: number as u8,
    };
    let many = count[FIRST_EVENT + number as usize];
    wake_all(image, caller.used, count, waiters, many, signal(word));
    resumes(caller.used, Outcome::Nothing)
}
