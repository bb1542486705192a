// What each kind of request does to the records, in the order of the paper's table. Each is handed all that an entry begins with, since its
// promise speaks of it; so it is with the edition, which AwaitEvent alone asks.
ghost use Rattle.std.specs.Prelude.{◌≡◌, ◌*◌, ◌<◌, length};
ghost use Rattle.tid.specs.Sizes.{slot_count};
ghost use Rattle.kernel.specs.Kinds as Kinds;
ghost use Rattle.kernel.specs.Call.{entry_turn, Enters_by};
ghost use Rattle.image.specs.Record.{record_length, at_parent, byte_at};
ghost use Rattle.image.specs.Image.{table_of};
ghost use Rattle.inplace.specs.Ends.{Begins, Ends, resumes_at};

use crate::events::{await_event, event};
use crate::messages::{receive, reply, send};
use crate::store::{Standing, put};
use crate::turn::{Caller, Turn, resumes, stops};
use crate::wake::wake_all;
use image::fields::{AWAITED, PARENT, RECORD, fields_of};
use kernel::call::Entry;
use kernel::kinds::number;
use queue::numbering::{FIRST_SEND, QUEUES};
use task::parts::RECEIVE_BLOCKED;
use task::task::{Outcome, State, Task};
use tid::sizes::{PRIORITIES, SLOTS};
use tid::tid_of;

fn create(caller: Caller, image: &mut [u8], count: &[u8; QUEUES], priority: u32, entry: u32) -> Turn
    requires { (caller.slot < slot_count) × Begins slot_count caller.edition caller.used caller.slot image.old count.now }
    ensures { Ends slot_count caller.edition caller.slot (Kinds.create (table_of slot_count caller.edition image.old) caller.slot priority entry) result image.new count.now }
{
    let used = caller.used;
    if PRIORITIES <= priority as usize {
        return resumes(used, Outcome::Fault(1));
    }
    if SLOTS <= used {
        return resumes(used, Outcome::Fault(2));
    }
    let task = Task {
        state: State::Ready,
        priority: priority as u8,
        parent: tid_of(caller.slot),
        entry,
        result: Outcome::Nothing,
    };
    put(
        image,
        used * RECORD,
        fields_of(task, count[priority as usize]),
    );
    Turn {
        woken: used,
        ..resumes(used + 1, number(tid_of(used) as u32))
    }
}

fn my_parent_tid(caller: Caller, image: &[u8]) -> Turn
    requires { (caller.slot < slot_count) × (length image.now ≡ slot_count * record_length) }
    ensures { result ≡ resumes_at slot_count caller.used (Kinds.number (byte_at image.now caller.slot at_parent)) }
{
    let parent = image[caller.slot * RECORD + PARENT];
    resumes(caller.used, number(u32::from(parent)))
}

// Whoever is queued at the caller is woken: what it sent cannot be received any more.
fn exit(caller: Caller, image: &mut [u8], count: &mut [u8; QUEUES]) -> Turn
    requires { (caller.slot < slot_count) × Begins slot_count caller.edition caller.used caller.slot image.old count.old }
    ensures { Ends slot_count caller.edition caller.slot (Kinds.exit (table_of slot_count caller.edition image.old) caller.slot) result image.new count.new }
{
    let many = count[FIRST_SEND + caller.slot];
    let senders = Standing {
        code: RECEIVE_BLOCKED,
        at: AWAITED,
        key: tid_of(caller.slot),
    };
    wake_all(image, caller.used, count, senders, many, Outcome::Fault(2));
    stops(caller.used, State::Exited, 0)
}

// The work of an entry.
pub(crate) fn turned(
    caller: Caller,
    image: &mut [u8],
    count: &mut [u8; QUEUES],
    entry: Entry,
) -> Turn
    requires { Enters_by slot_count caller.slot entry × Begins slot_count caller.edition caller.used caller.slot image.old count.old }
    ensures { Ends slot_count caller.edition caller.slot (entry_turn (table_of slot_count caller.edition image.old) caller.slot entry) result image.new count.new }
{
    match entry {
        Entry::Create { priority, entry } => create(caller, image, count, priority, entry),
        Entry::MyTid => resumes(caller.used, number(tid_of(caller.slot) as u32)),
        Entry::MyParentTid => my_parent_tid(caller, image),
        Entry::Yield => resumes(caller.used, number(0)),
        Entry::Exit => exit(caller, image, count),
        Entry::Send {
            target,
            message,
            reply,
        } => send(caller, image, count, target, message, reply),
        Entry::Receive { buffer } => receive(caller, image, count, buffer),
        Entry::Reply { target, buffer } => reply(caller, image, count, target, buffer),
        Entry::AwaitEvent { event } => await_event(caller, image, count, event),
        Entry::Event {
            event: number,
            word,
        } => event(caller, image, count, number, word),
    }
}
