// The end of every entry.
ghost use Rattle.std.specs.Prelude.{◌≡◌, get_or, ltb, unwrap_or, IfSome, ◌<◌};
ghost use Rattle.tid.specs.Sizes.{slot_count, priorities};
ghost use Rattle.queue.specs.Choose.{first_below};
ghost use Rattle.kernel.specs.declared.table.Effect.TheVariants as E;
ghost use Rattle.kernel.specs.Moves as Moves;
ghost use Rattle.rules.specs.Facts as Facts;
ghost use Rattle.image.specs.Image.{table_of};
ghost use Rattle.records.specs.Stage.{Stage};
ghost use Rattle.inplace.specs.Ends.{Settles, end_bytes, Decides, Does};

use crate::Shown;
use crate::store::{Standing, close_up, leave, result_at};
use crate::turn::{Caller, Turn};
use crate::wake::join;
use image::fields::PRIORITY;
use kernel::table::Answer;
use queue::numbering::QUEUES;
use task::parts::{READY, state_code};
use task::task::{Outcome, State};
use tid::sizes::{PRIORITIES, SLOTS};
use tid::tid_of;

// The first ready queue where somebody stands.
fn first_ready(count: &[u8; QUEUES]) -> Option<usize>
    ensures found { unwrap_or result priorities ≡ first_below priorities (λ p. ltb 0 (get_or count.now p 0)) }
    ensures below { IfSome result (λ p. p < priorities) }
{
    let mut p = 0;
    loop {
        if p == PRIORITIES {
            break None;
        }
        if 0 < count[p] {
            break Some(p);
        }
        p += 1;
    }
}

// The head of the first ready queue that is not empty runs next, and is told its result.
fn dispatch(edition: u32, image: &mut [u8], used: usize, count: &[u8; QUEUES]) -> Answer
    requires { Stage slot_count used slot_count Facts.nobody (table_of slot_count edition image.old) image.old count.now }
    ensures { Decides (Moves.dispatched E.Keep (table_of slot_count edition image.old)) result image.new }
{
    let Some(p) = first_ready(count) else {
        return Answer::accepted(0, Outcome::Nothing);
    };
    let ready = Standing {
        code: READY,
        at: PRIORITY,
        key: p as u8,
    };
    let s = close_up(image, used, ready);
    let result = result_at(image, s);
    leave(image, s, State::Active, Outcome::Nothing, 0);
    Answer::accepted(tid_of(s), result)
}

// Whoever is woken joins the queue of its priority, then the caller, unless there is none or it stops; then the next task is chosen.
pub(crate) fn settled(
    caller: Caller,
    image: &mut [u8],
    count: &mut [u8; QUEUES],
    turn: Turn,
) -> Shown
    requires { Settles slot_count caller.edition caller.slot turn image.old count.old }
    ensures { Does (Moves.dispatched turn.effect (table_of slot_count caller.edition (end_bytes slot_count image.old count.old caller.slot turn))) result image.new }
{
    let Turn {
        used,
        woken,
        told,
        state,
        place,
        result,
        effect,
    } = turn;
    let c = caller.slot;
    if woken < SLOTS {
        join(image, count, woken, told);
    }
    if c < SLOTS {
        if state_code(state) == READY {
            join(image, count, c, result);
        } else {
            leave(image, c, state, Outcome::Nothing, place);
        }
    }
    let answer = dispatch(caller.edition, image, used, count);
    Shown { answer, effect }
}
