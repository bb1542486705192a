// A request carried out on the records of an image, in place: no table is made.
#![tactic(auto)]

mod end;
mod events;
mod kinds;
mod messages;
mod store;
mod turn;
mod wake;

ghost use Rattle.std.specs.Prelude.{◌≡◌, ◌<◌};
ghost use Rattle.tid.specs.Sizes.{slot_count, area_bytes};
ghost use Rattle.tid.specs.Tid.{tid_of};
ghost use Rattle.task.specs.declared.task.Outcome.TheVariants as O;
ghost use Rattle.kernel.specs.declared.table.Effect.TheVariants as E;
ghost use Rattle.kernel.specs.Verdict.{refusal_number};
ghost use Rattle.kernel.specs.Answer.{refused_answer, accepted_answer};
ghost use Rattle.kernel.specs.Kinds.{place_in};
ghost use Rattle.inplace.specs.Decided.{decided_in, Decided};

use crate::end::settled;
use crate::kinds::turned;
use crate::turn::Caller;
use audit::check;
use image::stored::IMAGE;
use kernel::call::{Call, admitted};
use kernel::decide::shown_tid;
use kernel::refusal::Refusal;
use kernel::table::{Answer, Effect, Request};
use task::task::Outcome;
use tid::sizes::AREA;
use tid::tid_of;

// What a request leaves besides the image.
#[derive(Clone, Copy, Drop)]
pub struct Shown {
    pub answer: Answer,
    pub effect: Effect,
}

fn refused(refusal: Refusal, next: u8) -> Shown
    ensures { result ≡ record { answer = refused_answer (refusal_number refusal) next; effect = E.Keep } }
{
    Shown {
        answer: Answer::refused(refusal.number(), next),
        effect: Effect::Keep,
    }
}

// One byte of the caller's own area.
fn own_write(c: usize, offset: u32, byte: u32) -> Shown
    requires { (c < slot_count) × ((offset < area_bytes) × (byte < 256)) }
    ensures { result ≡ record { answer = accepted_answer (tid_of c) O.Nothing; effect = E.Put (place_in c offset) byte } }
{
    Shown {
        answer: Answer::accepted(tid_of(c), Outcome::Nothing),
        effect: Effect::Put {
            at: c * AREA + offset as usize,
            byte: byte as u8,
        },
    }
}

// What is decided of the table that an image holds, and the image of the table that it leaves.
pub fn decide(edition: u32, image: &mut [u8], r: Request) -> Shown
    ensures { Decided (decided_in slot_count edition image.old r) image.old result image.new }
{
    if image.len() != IMAGE {
        return refused(Refusal::BadImage, 0);
    }
    let found = check(edition, image);
    if !found.good {
        return refused(Refusal::BadTable, 0);
    }
    // A slot past the last is none to both that are asked of it.
    let active = Some(found.active);
    match admitted(active, r) {
        Err(refusal) => refused(refusal, shown_tid(active)),
        Ok(Call::OwnWrite { offset, byte }) => own_write(found.active, offset, byte),
        Ok(Call::Entry(entry)) => {
            let caller = Caller {
                edition,
                used: found.used,
                slot: found.active,
            };
            let mut count = found.count;
            let turn = turned(caller, image, &mut count, entry);
            settled(caller, image, &mut count, turn)
        }
    }
}
