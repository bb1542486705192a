// How a slot is written down: as a mark in a queue, and as a tid to whoever is outside.
#![tactic(auto)]

pub mod sizes;

ghost use Rattle.std.specs.Prelude.{◌≡◌, ◌≤◌, min};
ghost use Rattle.tid.specs.Tid.{mark_of, slot_of, tid_of, slot_named, last_slot};

// The last slot that a byte can tell. A slot past it is told as this one.
const LAST: usize = 254;

// What a queue's place holds of a slot.
pub fn mark_of(s: usize) -> u8
    ensures { result ≡ mark_of (min s last_slot) }
{
    s.min(LAST) as u8 + 1
}

// The slot that a mark stands for.
pub fn slot_of(mark: u8) -> usize
    ensures { (result ≡ slot_of mark) × (result ≤ last_slot) }
{
    usize::from(mark).saturating_sub(1)
}

// The id that is shown of the task of a slot.
pub fn tid_of(s: usize) -> u8
    ensures { result ≡ tid_of (min s last_slot) }
{
    s.min(LAST) as u8 + 1
}

// The slot of the task that a tid names.
pub fn slot_named(tid: u8) -> usize
    ensures { (result ≡ slot_named tid) × (result ≤ last_slot) }
{
    usize::from(tid).saturating_sub(1)
}
