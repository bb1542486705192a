// The forms of stored records, and a form's records as another's.
ghost use Rattle.std.specs.Prelude.{◌≡◌, ◌+◌, ◌*◌, ◌≤◌, length, slice_index};
ghost use Rattle.std.proofs.Math.Seq.{paste};
ghost use Rattle.tid.specs.Sizes.{slot_count};
ghost use Rattle.image.specs.Form.{form_at, form_found, fitted, reformed, reformed_into};

use crate::fields::RECORD;
use tid::sizes::SLOTS;

// A row of the table of forms: for how many slots it has records, how many bytes a record has, and whether a record holds an entry number.
#[derive(Clone, Copy, Drop)]
pub struct Form {
    pub slots: usize,
    pub bytes: usize,
    pub entries: bool,
}

// The forms, the oldest first; the last is the newest.
pub const FORMS: [Form; 2] = [
    Form {
        slots: SLOTS,
        bytes: 20,
        entries: false,
    },
    Form {
        slots: SLOTS,
        bytes: RECORD,
        entries: true,
    },
];

// Form k; past the last it is the newest.
pub fn form_at(k: usize) -> Form
    ensures { result ≡ form_at slot_count k }
{
    FORMS[k.min(FORMS.len() - 1)]
}

// The form whose images have so many bytes.
pub fn form_for(len: usize) -> Option<Form>
    ensures { result ≡ form_found slot_count len }
{
    for k in 0..FORMS.len() {
        let form = form_at(k);
        if len == form.slots * form.bytes {
            return Some(form);
        }
    }
    None
}

// A byte of a record; 0 behind its end.
fn byte_or_zero(r: &[u8], i: usize) -> u8
    ensures { result ≡ slice_index r.now i }
{
    if i < r.len() { r[i] } else { 0 }
}

// A record put into an image with `to` bytes: cut off, or filled up with 0.
fn put_fitted(out: &mut [u8], at: usize, to: usize, r: &[u8])
    requires { at + to ≤ length out.old }
    ensures { out.new ≡ paste out.old at (fitted to r.now) to }
{
    for i in 0..to {
        out[at + i] = byte_or_zero(r, i);
    }
}

// The records of an image, each of `from` bytes, put into another, each of `to` bytes. Inlined, as both below: where the compiler knows how
// long the records are it stores them by words, and has no need of memcpy.
#[inline(always)]
fn put_each(image: &[u8], from: usize, out: &mut [u8], to: usize)
    requires { (length image.now ≡ slot_count * from) × (length out.old ≡ slot_count * to) }
    ensures { out.new ≡ reformed slot_count from to image.now }
{
    for s in 0..SLOTS {
        let at = s * from;
        put_fitted(out, s * to, to, &image[at..at + from]);
    }
}

// The same, the newest form by itself, so that either length is known.
#[inline(always)]
fn put_records(image: &[u8], from: usize, out: &mut [u8], to: usize)
    requires { (length image.now ≡ slot_count * from) × (length out.old ≡ slot_count * to) }
    ensures { out.new ≡ reformed slot_count from to image.now }
{
    if to == RECORD {
        put_each(image, from, out, RECORD);
    } else {
        put_each(image, from, out, to);
    }
}

// An image put into bytes of another form, or of the same; nothing is done where either length is no form's.
#[inline(always)]
pub fn reform(image: &[u8], out: &mut [u8])
    ensures { out.new ≡ reformed_into slot_count image.now out.old }
{
    let Some(old) = form_for(image.len()) else {
        return;
    };
    let Some(new) = form_for(out.len()) else {
        return;
    };
    put_records(image, old.bytes, out, new.bytes);
}
