// What Send, Receive and Reply do to the records: the faults first, each by its own way out. `target` is a tid that the caller names.
ghost use Rattle.std.specs.Prelude.{◌≡◌, ◌*◌, ◌<◌, length, unwrap_or, IfSome};
ghost use Rattle.tid.specs.Sizes.{slot_count};
ghost use Rattle.task.specs.declared.task.Outcome.TheVariants as O;
ghost use Rattle.kernel.specs.Kinds as Kinds;
ghost use Rattle.image.specs.Record.{record_length};
ghost use Rattle.image.specs.Image.{table_of};
ghost use Rattle.inplace.specs.Ends.{Begins, Ends, alive_at, delivers_at};

use crate::store::{Standing, buffer_at, close_up, leave};
use crate::turn::{Caller, Turn, resumes, stops};
use image::fields::{AWAITED, MESSAGE, RECORD, REPLY, STATE};
use kernel::kinds::{delivery, is_cut, least};
use queue::numbering::{FIRST_SEND, QUEUES};
use task::parts::{EXITED, RECEIVE_BLOCKED, REPLY_BLOCKED, SEND_BLOCKED, UNUSED, good_buffer};
use task::task::{Buffer, Outcome, State};
use tid::sizes::SLOTS;
use tid::{slot_named, tid_of};

// The slot of a tid that exists.
#[tactic(auto, unfolding(crate::specs::Ends::alive_at))]
fn alive(image: &[u8], target: u32) -> Option<usize>
    requires { length image.now ≡ slot_count * record_length }
    ensures found { unwrap_or result slot_count ≡ alive_at slot_count image.now target }
    ensures below { IfSome result (λ s. s < slot_count) }
{
    if target == 0 || SLOTS < target as usize {
        return None;
    }
    let s = slot_named(target as u8);
    let code = image[s * RECORD + STATE];
    if code == UNUSED || EXITED <= code {
        return None;
    }
    Some(s)
}

// A message is copied at once into the buffer of slot s, which waits for one: it is told of it, and the caller waits for a reply.
fn delivers(caller: Caller, message: Buffer, reply: Buffer, s: usize, into: Buffer) -> Turn
    requires { (caller.slot < slot_count) × (s < slot_count) }
    ensures { result ≡ delivers_at caller.used caller.slot message reply s into }
{
    let from = tid_of(caller.slot);
    let copy = delivery(from, message, tid_of(s), into);
    Turn {
        woken: s,
        told: Outcome::Value {
            from,
            cut: is_cut(copy),
            value: message.len,
        },
        effect: copy,
        ..stops(caller.used, State::ReplyBlocked(reply), 0)
    }
}

pub(crate) fn send(
    caller: Caller,
    image: &[u8],
    count: &[u8; QUEUES],
    target: u32,
    message: Buffer,
    reply: Buffer,
) -> Turn
    requires { (caller.slot < slot_count) × Begins slot_count caller.edition caller.used caller.slot image.now count.now }
    ensures { Ends slot_count caller.edition caller.slot (Kinds.send (table_of slot_count caller.edition image.now) caller.slot target message reply) result image.now count.now }
{
    let used = caller.used;
    let Some(s) = alive(image, target) else {
        return resumes(used, Outcome::Fault(1));
    };
    if s == caller.slot {
        return resumes(used, Outcome::Fault(2));
    }
    if !(good_buffer(message) & good_buffer(reply)) {
        return resumes(used, Outcome::Fault(3));
    }
    let at = s * RECORD;
    if image[at + STATE] != SEND_BLOCKED {
        let sends = State::ReceiveBlocked {
            target: tid_of(s),
            message,
            reply,
        };
        return stops(used, sends, count[FIRST_SEND + s]);
    }
    delivers(caller, message, reply, s, buffer_at(image, at + MESSAGE))
}

pub(crate) fn receive(caller: Caller, image: &mut [u8], count: &[u8; QUEUES], b: Buffer) -> Turn
    requires { (caller.slot < slot_count) × Begins slot_count caller.edition caller.used caller.slot image.old count.now }
    ensures { Ends slot_count caller.edition caller.slot (Kinds.receive (table_of slot_count caller.edition image.old) caller.slot b) result image.new count.now }
{
    let used = caller.used;
    let own = tid_of(caller.slot);
    if !good_buffer(b) {
        return resumes(used, Outcome::Fault(3));
    }
    if count[FIRST_SEND + caller.slot] == 0 {
        return stops(used, State::SendBlocked(b), 0);
    }
    let senders = Standing {
        code: RECEIVE_BLOCKED,
        at: AWAITED,
        key: own,
    };
    let s = close_up(image, used, senders);
    let at = s * RECORD;
    let sent = buffer_at(image, at + MESSAGE);
    let reply = State::ReplyBlocked(buffer_at(image, at + REPLY));
    leave(image, s, reply, Outcome::Nothing, 0);
    let from = tid_of(s);
    let copy = delivery(from, sent, own, b);
    let told = Outcome::Value {
        from,
        cut: is_cut(copy),
        value: sent.len,
    };
    Turn {
        effect: copy,
        ..resumes(used, told)
    }
}

// What both sides of a reply are told: how many bytes, from nobody.
fn told_bytes(cut: bool, value: u32) -> Outcome
    ensures { result ≡ O.Value 0 cut value }
{
    Outcome::Value {
        from: 0,
        cut,
        value,
    }
}

pub(crate) fn reply(
    caller: Caller,
    image: &[u8],
    count: &[u8; QUEUES],
    target: u32,
    b: Buffer,
) -> Turn
    requires { (caller.slot < slot_count) × Begins slot_count caller.edition caller.used caller.slot image.now count.now }
    ensures { Ends slot_count caller.edition caller.slot (Kinds.reply (table_of slot_count caller.edition image.now) caller.slot target b) result image.now count.now }
{
    let used = caller.used;
    let Some(s) = alive(image, target) else {
        return resumes(used, Outcome::Fault(1));
    };
    let at = s * RECORD;
    if image[at + STATE] != REPLY_BLOCKED {
        return resumes(used, Outcome::Fault(2));
    }
    if !good_buffer(b) {
        return resumes(used, Outcome::Fault(3));
    }
    let awaited = buffer_at(image, at + REPLY);
    let copy = delivery(tid_of(caller.slot), b, tid_of(s), awaited);
    let cut = is_cut(copy);
    Turn {
        woken: s,
        told: told_bytes(cut, b.len),
        effect: copy,
        ..resumes(used, told_bytes(cut, least(b.len, awaited.len)))
    }
}
