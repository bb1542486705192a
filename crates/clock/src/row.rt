// Rows that fill from the front: who sleeps, and who is to be answered.
ghost use Rattle.std.specs.Prelude.{◌≡◌, [], ◌∷◌, ◌==◌, take};
ghost use Rattle.std.specs.List.{list_any};
ghost use Rattle.clock.specs.Row.{asleep, row_of, hearers_of, pushed_row, pushed_hearers, holds};

// As many as may sleep at one time.
pub const ROOM: usize = 16;

// The sender, and all who may sleep.
pub const HEARERS: usize = ROOM + 1;

// Who sleeps, and at which count it is due.
#[derive(Clone, Copy, Drop)]
pub struct Sleeper {
    pub tid: u32,
    pub due: u32,
}

// Who sleeps, in order of arrival. The places past the end hold zeros.
#[derive(Clone, Copy, Drop)]
pub struct Row {
    pub places: [Sleeper; ROOM],
    pub len: usize,
}

// Who is to be answered, in this order. The places past the end hold 0.
#[derive(Clone, Copy, Drop)]
pub struct Hearers {
    pub tids: [u32; HEARERS],
    pub len: usize,
}

impl Row {
    pub(crate) fn empty() -> Self
        ensures { result ≡ row_of [] }
    {
        Self {
            places: [Sleeper { tid: 0, due: 0 }; ROOM],
            len: 0,
        }
    }

    // A sleeper comes last; a full row stays as it is.
    #[tactic(auto, unfolding(crate::specs::Row::pushed_row))]
    pub(crate) fn push(&mut self, x: Sleeper)
        ensures { self.new ≡ pushed_row self.old x }
    {
        if self.len < ROOM {
            self.places[self.len] = x;
            self.len += 1;
        }
    }

    // Those who sleep, in order of arrival.
    pub(crate) fn asleep(&self) -> &[Sleeper]
        ensures { result.now ≡ asleep self.now }
    {
        &self.places[..self.len.min(ROOM)]
    }

    // Whether a tid sleeps.
    pub(crate) fn holds(&self, tid: u32) -> bool
        ensures { result ≡ holds self.now tid }
    {
        let mut found = false;
        for x in self.asleep() {
            found |= x.tid == tid;
        }
        found
    }
}

impl Hearers {
    // Only one.
    pub(crate) fn one(tid: u32) -> Self
        ensures { result ≡ hearers_of (tid ∷ []) }
    {
        let mut tids = [0u32; HEARERS];
        tids[0] = tid;
        Self { tids, len: 1 }
    }

    pub(crate) fn none() -> Self
        ensures { result ≡ hearers_of [] }
    {
        Self {
            tids: [0; HEARERS],
            len: 0,
        }
    }

    // A tid comes last; where all places are taken, nothing changes.
    #[tactic(auto, unfolding(crate::specs::Row::pushed_hearers))]
    pub(crate) fn push(&mut self, tid: u32)
        ensures { self.new ≡ pushed_hearers self.old tid }
    {
        if self.len < HEARERS {
            self.tids[self.len] = tid;
            self.len += 1;
        }
    }
}
