// A server between two messages: it acts by requests alone. It may make a task first. Then it listens; a message is answered by one text, whose
// bytes it writes into its own area, one at a time, and which it replies to each who is answered; then it listens again.
ghost use Rattle.std.specs.Prelude.{◌≡◌};
ghost use Rattle.server.specs.Phase as Spec;

use kernel::numbers::{CREATE, OWN_WRITE, RECEIVE, REPLY};
use kernel::table::Request;

// What is asked next: a task is made, or was and the server waits to be told which; a byte of the answer is written; the answer is replied
// to one after another; or a message is waited for.
#[derive(Clone, Copy, Drop)]
pub enum Phase {
    Making,
    Made,
    Writing(u8),
    Replying(u8),
    Listening,
}

// Three arguments are as many as a server ever names.
pub fn ask(kind: u32, arg0: u32, arg1: u32, arg2: u32) -> Request
    ensures { result ≡ Spec.ask kind arg0 arg1 arg2 }
{
    Request {
        kind,
        arg0,
        arg1,
        arg2,
        arg3: 0,
        arg4: 0,
    }
}

// Which byte, or which of those who are answered, a phase has come to.
pub fn place(phase: Phase) -> u8
    ensures { result ≡ Spec.place phase }
{
    match phase {
        Phase::Writing(k) | Phase::Replying(k) => k,
        _ => 0,
    }
}

// What is asked in a phase, by a server whose messages and answers have `size` bytes and which answers `len`: `byte` and `tid` are those at
// the phase's place.
pub fn request_in(phase: Phase, priority: u8, size: u8, len: u8, byte: u8, tid: u32) -> Request
    ensures { result ≡ Spec.request_in phase priority size len byte tid }
{
    let room = u32::from(size);
    match phase {
        Phase::Making => ask(CREATE, u32::from(priority), 0, 0),
        Phase::Writing(k) => ask(OWN_WRITE, room + u32::from(k), u32::from(byte), 0),
        Phase::Replying(k) if k < len => ask(REPLY, tid, room, room),
        _ => ask(RECEIVE, 0, room, 0),
    }
}

// What comes after a phase once that is asked.
pub fn after(phase: Phase, size: u8, len: u8) -> Phase
    ensures { result ≡ Spec.after phase size len }
{
    match phase {
        Phase::Making | Phase::Made => Phase::Made,
        Phase::Writing(k) if u32::from(k) + 1 < u32::from(size) => Phase::Writing(k + 1),
        Phase::Writing(_) => Phase::Replying(0),
        Phase::Replying(k) if k < len => Phase::Replying(k + 1),
        Phase::Replying(_) | Phase::Listening => Phase::Listening,
    }
}
