// What a request asks for, and why it may be refused.
ghost use Rattle.std.specs.Prelude.{◌≡◌, IfOk, unwrap_or};
ghost use Rattle.tid.specs.Sizes.{slot_count};
ghost use Rattle.kernel.specs.Refusal.{refusal_of};
ghost use Rattle.kernel.specs.Call.{call_of, Admits};
ghost use Rattle.kernel.specs.Verdict.{verdict_of};

use crate::numbers::{
    AWAIT_EVENT, CREATE, EVENT, EXIT, MY_PARENT_TID, MY_TID, OWN_WRITE, RECEIVE, REPLY, SEND, YIELD,
};
use crate::refusal::Refusal;
use crate::table::Request;
use task::task::Buffer;
use tid::sizes::{AREA, EVENTS, SLOTS};

// An entry of the kernel.
#[derive(Clone, Copy, Drop)]
pub enum Entry {
    Create {
        priority: u32,
        entry: u32,
    },
    MyTid,
    MyParentTid,
    Yield,
    Exit,
    Send {
        target: u32,
        message: Buffer,
        reply: Buffer,
    },
    Receive {
        buffer: Buffer,
    },
    Reply {
        target: u32,
        buffer: Buffer,
    },
    AwaitEvent {
        event: u32,
    },
    Event {
        event: u32,
        word: u32,
    },
}

// A request of one of the kinds. An own write is no entry.
#[derive(Clone, Copy, Drop)]
pub enum Call {
    Entry(Entry),
    OwnWrite { offset: u32, byte: u32 },
}

fn buffer(start: u32, len: u32) -> Buffer
    ensures { result ≡ record { start = start; len = len } }
{
    Buffer { start, len }
}

impl TryFrom<Request> for Call {
    type Error = Refusal;

    ghost try_from_gives = { λ r x. x ≡ call_of r };

    fn try_from(r: Request) -> Result<Self, Refusal> {
        let entry = match r.kind {
            CREATE => Entry::Create {
                priority: r.arg0,
                entry: r.arg1,
            },
            MY_TID => Entry::MyTid,
            MY_PARENT_TID => Entry::MyParentTid,
            YIELD => Entry::Yield,
            EXIT => Entry::Exit,
            SEND => Entry::Send {
                target: r.arg0,
                message: buffer(r.arg1, r.arg2),
                reply: buffer(r.arg3, r.arg4),
            },
            RECEIVE => Entry::Receive {
                buffer: buffer(r.arg0, r.arg1),
            },
            REPLY => Entry::Reply {
                target: r.arg0,
                buffer: buffer(r.arg1, r.arg2),
            },
            AWAIT_EVENT => Entry::AwaitEvent { event: r.arg0 },
            EVENT => Entry::Event {
                event: r.arg0,
                word: r.arg1,
            },
            OWN_WRITE => {
                return Ok(Call::OwnWrite {
                    offset: r.arg0,
                    byte: r.arg1,
                });
            }
            _ => return Err(Refusal::BadKind),
        };
        Ok(Call::Entry(entry))
    }
}

// What a request asks of a good table, given its active slot, or the first refusal. An active slot past the last is none.
#[tactic(auto, unfolding(crate::specs::Refusal::refusal_of))]
pub fn admitted(active: Option<usize>, r: Request) -> Result<Call, Refusal>
    ensures verdict { verdict_of result ≡ refusal_of slot_count (unwrap_or active slot_count) r }
    ensures call { IfOk result (λ c. call_of r ≡ Ok c) }
    ensures admits { IfOk result (Admits slot_count (unwrap_or active slot_count)) }
{
    let call = Call::try_from(r)?;
    match call {
        Call::Entry(Entry::Event { event, .. }) => {
            if EVENTS <= event as usize {
                return Err(Refusal::BadEvent);
            }
        }
        _ if SLOTS <= active.unwrap_or(SLOTS) => return Err(Refusal::NoneActive),
        Call::OwnWrite { offset, byte } => {
            if AREA <= offset as usize || 256 <= byte {
                return Err(Refusal::BadWrite);
            }
        }
        Call::Entry(_) => {}
    }
    Ok(call)
}
