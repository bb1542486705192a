// The sizes that bound a kernel, each by its own name.

// How many tasks there is room for.
pub const SLOTS: usize = 32;

pub const PRIORITIES: usize = 32;

pub const EVENTS: usize = 64;

// The bytes that each task owns.
pub const AREA: usize = 256;
