// The clock service: a task above the kernel that counts ticks and answers those who sleep.
#![tactic(auto)]

pub mod clock;
pub mod message;
pub mod row;
