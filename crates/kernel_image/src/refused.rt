// What is said on standard error in place of an answer.
use kernel::refusal::Refusal;
use kernel::table::Table;
use std::io;
use thiserror::Error;
use tid::sizes::SLOTS;
use tid::tid_of;

// As much as is read: an input that is so long may be longer.
pub(crate) const MOST: usize = 65536;

// A refusal, by its number and in words; or that what was asked for cannot be written.
#[derive(Debug, Drop, Error)]
pub(crate) enum Failure {
    #[error("R{}: an edition is 1 or 2", Refusal::BadEdition.number())]
    Edition,
    // A length that no form has.
    #[error("R{}: {len}{} bytes are no form's length", Refusal::BadImage.number(), more(.len))]
    Length { len: usize },
    // Which edition broke the rule is said, since the same bytes may be an image in the other.
    #[error("R{}: a rule of a table of edition {edition} is broken", Refusal::BadTable.number())]
    Rule { edition: u32 },
    // Whose entry number has no room in the form that was asked for: the first task that has one.
    #[error("R{}: the entry number of tid {tid} would be lost", Refusal::EntryLost.number())]
    Entry { tid: u8 },
    #[error("kernel-image: standard output cannot be written")]
    Output(#[from] io::Error),
}

fn more(len: &usize) -> &'static str {
    if *len < MOST { "" } else { " or more" }
}

// An image of so many bytes that is not read, by the number of its refusal.
pub(crate) fn unread(verdict: u8, edition: u32, len: usize) -> Failure {
    if verdict == Refusal::BadImage.number() {
        Failure::Length { len }
    } else {
        Failure::Rule { edition }
    }
}

// A table with an entry number that has no room.
pub(crate) fn lost(table: Table) -> Failure {
    let first = table.tasks.iter().position(|task| task.entry != 0);
    Failure::Entry {
        tid: tid_of(first.unwrap_or(SLOTS)),
    }
}
