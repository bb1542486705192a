// What is asked of the record of a used slot by itself, told by its bytes. What each state does not use is 0.
ghost use Rattle.std.specs.Prelude.{◌≡◌, ◌+◌, ◌≤◌, ◌<◌, length};
ghost use Rattle.tid.specs.Sizes.{slot_count};
ghost use Rattle.image.specs.Bytes.{number_in};
ghost use Rattle.image.specs.Record.{record_length};
ghost use Rattle.audit.specs.Sound.{blank_word, fits_area, result_sound, no_result, no_buffers, target_sound, waiter_sound, unplaced_sound, fields_sound, record_sound};

use image::fields::{
    AWAITED, CUT, FAULT, FROM, MESSAGE, MINUS_ONE, NOTHING, PARENT, PLACE, PRIORITY, REPLY, RESULT,
    STATE, VALUE, WORD,
};
use image::words::short;
use kernel::edition::may_join;
use queue::wide;
use rules::slots::good_parent;
use task::parts::{
    ACTIVE, EVENT_BLOCKED, EXITED, READY, RECEIVE_BLOCKED, REPLY_BLOCKED, SEND_BLOCKED,
};
use task::task::FIRST_NEGATIVE;
use tid::sizes::{AREA, EVENTS, PRIORITIES};

fn word_at(r: &[u8], at: usize) -> u32
    requires { at + 4 ≤ length r.now }
    ensures { result ≡ number_in r.now at 4 }
{
    u32::from_le_bytes([r[at], r[at + 1], r[at + 2], r[at + 3]])
}

fn blank_word(r: &[u8], at: usize) -> bool
    requires { at + 4 ≤ length r.now }
    ensures { result ≡ blank_word r.now at }
{
    word_at(r, at) == 0
}

// Whether a buffer ends within its area.
fn fits_area(r: &[u8], at: usize) -> bool
    requires { at + 4 ≤ length r.now }
    ensures { result ≡ fits_area r.now at }
{
    short(r[at], r[at + 1]) as usize + short(r[at + 2], r[at + 3]) as usize <= AREA
}

// The result of a ready task.
#[tactic(auto, unfolding(crate::specs::Sound::result_sound))]
fn good_result(r: &[u8], used: usize) -> bool
    requires { length r.now ≡ record_length }
    ensures { result ≡ result_sound used r.now }
{
    let from = r[FROM];
    let cut = r[CUT];
    let value = word_at(r, WORD);
    match r[RESULT] {
        NOTHING => (from == 0) & (cut == 0) & (value == 0),
        VALUE => (cut <= 1) & (value < FIRST_NEGATIVE) & (wide(from) <= used),
        FAULT => (from == 0) & (cut == 0) & (MINUS_ONE - 3 < value),
        _ => false,
    }
}

fn no_result(r: &[u8]) -> bool
    requires { length r.now ≡ record_length }
    ensures { result ≡ no_result r.now }
{
    (r[RESULT] == NOTHING) & (r[FROM] == 0) & (r[CUT] == 0) & blank_word(r, WORD)
}

fn no_buffers(r: &[u8]) -> bool
    requires { length r.now ≡ record_length }
    ensures { result ≡ no_buffers r.now }
{
    blank_word(r, MESSAGE) & blank_word(r, REPLY)
}

// A target in use that is not the task itself.
fn good_target(target: usize, s: usize, used: usize) -> bool
    requires { s < slot_count }
    ensures { result ≡ target_sound used s target }
{
    (1 <= target) & (target <= used) & (target != s + 1)
}

// What a task that waits for an event holds. Its place is the number of those who came before it, whom it joined.
#[tactic(auto, unfolding(crate::specs::Sound::waiter_sound))]
fn good_waiter(edition: u32, r: &[u8]) -> bool
    requires { length r.now ≡ record_length }
    ensures { result ≡ waiter_sound edition r.now }
{
    (wide(r[AWAITED]) < EVENTS) & no_buffers(r) & may_join(edition, r[PLACE])
}

// What a state holds in which a task stands in no queue.
#[tactic(auto, unfolding(crate::specs::Sound::unplaced_sound))]
fn good_unplaced(r: &[u8]) -> bool
    requires { length r.now ≡ record_length }
    ensures { result ≡ unplaced_sound r.now }
{
    if (r[PLACE] != 0) | (r[AWAITED] != 0) {
        return false;
    }
    match r[STATE] {
        SEND_BLOCKED => fits_area(r, MESSAGE) & blank_word(r, REPLY),
        REPLY_BLOCKED => blank_word(r, MESSAGE) & fits_area(r, REPLY),
        ACTIVE | EXITED => no_buffers(r),
        _ => false,
    }
}

#[tactic(auto, unfolding(crate::specs::Sound::fields_sound))]
fn good_fields(edition: u32, r: &[u8], s: usize, used: usize) -> bool
    requires { (s < slot_count) × (length r.now ≡ record_length) }
    ensures { result ≡ fields_sound edition used s r.now }
{
    match r[STATE] {
        READY => (r[AWAITED] == 0) & no_buffers(r) & good_result(r, used),
        _ if !no_result(r) => false,
        RECEIVE_BLOCKED => {
            good_target(wide(r[AWAITED]), s, used) & fits_area(r, MESSAGE) & fits_area(r, REPLY)
        }
        EVENT_BLOCKED => good_waiter(edition, r),
        _ => good_unplaced(r),
    }
}

#[tactic(auto, unfolding(crate::specs::Sound::record_sound))]
pub(crate) fn sound(edition: u32, r: &[u8], s: usize, used: usize) -> bool
    requires { (s < slot_count) × (length r.now ≡ record_length) }
    ensures { result ≡ record_sound edition used s r.now }
{
    wide(r[PRIORITY]) < PRIORITIES && good_parent(r[PARENT], s) && good_fields(edition, r, s, used)
}
