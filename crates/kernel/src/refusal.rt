// Why a call is refused, and the number by which its answer tells it.
ghost use Rattle.std.specs.Prelude.{◌≡◌};
ghost use Rattle.kernel.specs.Verdict.{refusal_number, verdict_of};

use crate::numbers::ACCEPTED;

#[derive(Clone, Copy, Drop)]
pub enum Refusal {
    // The areas have a wrong length.
    BadAreas,
    // The table breaks a rule, or the image is that of no good table.
    BadTable,
    // There is no such kind.
    BadKind,
    // No task is active, and this is no event.
    NoneActive,
    // The request has a wrong length.
    BadRecord,
    // A kernel is to start with a priority that is none.
    BadPriority,
    // The image has a wrong length.
    BadImage,
    // The hardware names an event that is none.
    BadEvent,
    // An own write past the area, or of no byte.
    BadWrite,
    // The answer has a wrong length.
    BadAnswer,
    // An entry number that is not 0 would be lost: the form that is written holds none.
    EntryLost,
    // There is no such edition.
    BadEdition,
}

impl Refusal {
    pub fn number(self) -> u8
        ensures { result ≡ refusal_number self }
    {
        match self {
            Refusal::BadAreas => 1,
            Refusal::BadTable => 2,
            Refusal::BadKind => 3,
            Refusal::NoneActive => 4,
            Refusal::BadRecord => 5,
            Refusal::BadPriority => 6,
            Refusal::BadImage => 7,
            Refusal::BadEvent => 8,
            Refusal::BadWrite => 9,
            Refusal::BadAnswer => 10,
            Refusal::EntryLost => 11,
            Refusal::BadEdition => 12,
        }
    }
}

// The number of what was done or refused: 0 where it was done.
pub fn verdict(done: Result<(), Refusal>) -> u8
    ensures { result ≡ verdict_of done }
{
    match done {
        Ok(()) => ACCEPTED,
        Err(refusal) => refusal.number(),
    }
}
