// What every task above the kernel shares that serves or calls a server: the phases of a server, and the bytes of requests and answers.
#![tactic(auto)]

pub mod phase;
pub mod records;
pub mod words;
