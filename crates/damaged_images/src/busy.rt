// The image of a kernel with tasks in every state, made by calls from a fresh one of either edition.
use entry::{kernel_start, kernel_step};
use image::call::{ANSWER, REQUEST};
use image::stored::IMAGE;
use kernel::edition::MANY_WAIT;
use kernel::numbers::{AWAIT_EVENT, CREATE, EXIT, RECEIVE, SEND};
use tid::sizes::{AREA, SLOTS};

// The task that sends are queued at.
const SERVER: u32 = 7;

// A kernel between two calls, and the edition that it was started in.
#[derive(Clone, Copy, Drop)]
pub(crate) struct Stored {
    pub edition: u32,
    pub image: [u8; IMAGE],
}

// The record of a request: its kind and its five arguments.
pub(crate) fn request(words: [u32; REQUEST / 4]) -> [u8; REQUEST] {
    let mut bytes = [0; REQUEST];
    for (place, word) in bytes.chunks_exact_mut(4).zip(words) {
        place.copy_from_slice(&word.to_le_bytes());
    }
    bytes
}

impl Stored {
    fn started(edition: u32) -> Self {
        let mut image = [0; IMAGE];
        kernel_start(edition, 16, 16, &mut image);
        Self { edition, image }
    }

    // A request of the active task. A Send's message is 4 bytes from 4 on, and its reply is awaited in 4 bytes from 8 on:
    // a buffer from 2 on can be broken at each of its bytes, one from 0 on not at its length's low byte.
    fn ask(&mut self, kind: u32, arg0: u32, arg1: u32) {
        let mut areas = [0; SLOTS * AREA];
        let mut answer = [0; ANSWER];
        kernel_step(
            self.edition,
            &mut self.image,
            &mut areas,
            &request([kind, arg0, arg1, 4, 8, 4]),
            &mut answer,
        );
    }

    // Each task has its priority as its entry number too.
    fn create(&mut self, priority: u32) {
        self.ask(CREATE, priority, priority);
    }

    // The active task creates one above it, which runs at once and asks something.
    fn child(&mut self, priority: u32, kind: u32, arg0: u32, arg1: u32) {
        self.create(priority);
        self.ask(kind, arg0, arg1);
    }

    // Which event tid 3 awaits: that of tid 2 where many may wait for one.
    fn awaited(&self) -> u32 {
        if self.edition == MANY_WAIT { 3 } else { 5 }
    }

    // Tids 1 to 5: ready at priority 16, waiting for event 3, waiting for event 5 or behind the one before, send-blocked, and exited.
    fn served(edition: u32) -> Self {
        let mut stored = Self::started(edition);
        stored.child(8, AWAIT_EVENT, 3, 0);
        stored.child(9, AWAIT_EVENT, stored.awaited(), 0);
        stored.child(10, RECEIVE, 4, 16);
        stored.child(11, EXIT, 0, 0);
        stored
    }

    // Tids 6, 7 and 8 have priority 12, and run in turn as each asks something; 9, 10 and 11 are queued at tid 7, and tid 12 is
    // ready at priority 20. Then tid 8 awaits no event that there is, and tid 7 receives from tid 9: both are ready, with a fault
    // and with a value, and tid 6 is active.
    pub(crate) fn busy(edition: u32) -> Self {
        let mut stored = Self::served(edition);
        for _ in 0..3 {
            stored.create(12);
        }
        for _ in 0..3 {
            stored.child(11, SEND, SERVER, 4);
        }
        stored.create(20);
        stored.ask(AWAIT_EVENT, 200, 0);
        stored.ask(RECEIVE, 4, 16);
        stored
    }
}
