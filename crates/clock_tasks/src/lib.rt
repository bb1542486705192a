// The clock, its notifier and its clients as tasks above the kernel, for C hosts, which call them by the names of crates/clock_tasks_c.
#![tactic(auto)]

mod array;
mod client;
pub mod client_calls;
mod client_state;
pub mod clock_calls;
mod machine;
mod notifier;
pub mod notifier_calls;
mod notifier_state;
mod serving;
mod state;
mod words;
