// What is read from the records of an image, and written into them.
ghost use Rattle.std.specs.Prelude.{◌≡◌, ◌+◌, ◌*◌, ◌≤◌, ◌<◌, length};
ghost use Rattle.std.proofs.Math.Seq.{paste};
ghost use Rattle.tid.specs.Sizes.{slot_count};
ghost use Rattle.image.specs.Bytes.{number_in, record_at};
ghost use Rattle.image.specs.Record.{record_length, buffer_in, result_parts_in, result_of};
ghost use Rattle.records.specs.Stage.{left_bytes};
ghost use Rattle.inplace.specs.Ends.{Up, Closes};

use image::fields::{
    CUT, ENTRY, FROM, PARENT, PLACE, PRIORITY, RECORD, RESULT, ResultParts, STATE, WORD, fields_of,
    result_of,
};
use image::words::short;
use task::task::{Buffer, Outcome, State, Task};
use tid::sizes::SLOTS;

// The buffer at an offset of the image.
pub(crate) fn buffer_at(image: &[u8], at: usize) -> Buffer
    requires { at + 4 ≤ length image.now }
    ensures { result ≡ buffer_in image.now at }
{
    Buffer {
        start: short(image[at], image[at + 1]),
        len: short(image[at + 2], image[at + 3]),
    }
}

// The word at an offset of the image.
fn word_at(image: &[u8], at: usize) -> u32
    requires { at + 4 ≤ length image.now }
    ensures { result ≡ number_in image.now at 4 }
{
    u32::from_le_bytes([image[at], image[at + 1], image[at + 2], image[at + 3]])
}

// The result that a record holds.
pub(crate) fn result_at(image: &[u8], s: usize) -> Outcome
    requires { (s < slot_count) × (length image.now ≡ slot_count * record_length) }
    ensures { result ≡ result_of (result_parts_in (record_at record_length image.now s)) }
{
    let r = s * RECORD;
    result_of(ResultParts {
        kind: image[r + RESULT],
        from: image[r + FROM],
        cut: image[r + CUT],
        word: word_at(image, r + WORD),
    })
}

// A record copied into an image.
pub(crate) fn put(image: &mut [u8], at: usize, r: [u8; RECORD])
    requires { at + record_length ≤ length image.old }
    ensures { image.new ≡ paste image.old at r record_length }
{
    for i in 0..RECORD {
        image[at + i] = r[i];
    }
}

// A record written anew: its priority, its parent and its entry number stay.
pub(crate) fn leave(image: &mut [u8], s: usize, state: State, res: Outcome, place: u8)
    requires { (s < slot_count) × (length image.old ≡ slot_count * record_length) }
    ensures { image.new ≡ left_bytes image.old s state res place }
{
    let at = s * RECORD;
    let task = Task {
        state,
        priority: image[at + PRIORITY],
        parent: image[at + PARENT],
        entry: word_at(image, at + ENTRY),
        result: res,
    };
    put(image, at, fields_of(task, place));
}

// A queue, told by who stands there: the state that they have, and the byte of their records at an offset.
#[derive(Clone, Copy, Drop)]
pub(crate) struct Standing {
    pub code: u8,
    pub at: usize,
    pub key: u8,
}

// One slot moves up if it stands in the queue; it is answered if it is the head.
fn up_at(image: &mut [u8], s: usize, queue: Standing, head: usize) -> usize
    requires { (s < slot_count) × ((length image.old ≡ slot_count * record_length) × (queue.at < record_length)) }
    ensures { Up queue.code queue.at queue.key s head image.old result image.new }
{
    let r = s * RECORD;
    if image[r + STATE] != queue.code {
        return head;
    }
    if image[r + queue.at] != queue.key {
        return head;
    }
    let place = image[r + PLACE];
    if place == 0 {
        return s;
    }
    image[r + PLACE] = place - 1;
    head
}

// The head of a queue leaves it: whoever stands behind it moves up. Answers the head's slot, SLOTS where nobody leads.
pub(crate) fn close_up(image: &mut [u8], used: usize, queue: Standing) -> usize
    requires { (used ≤ slot_count) × ((length image.old ≡ slot_count * record_length) × (queue.at < record_length)) }
    ensures { Closes queue.code queue.at queue.key slot_count used image.old result image.new }
{
    let mut head = SLOTS;
    for s in 0..used {
        head = up_at(image, s, queue, head);
    }
    head
}
