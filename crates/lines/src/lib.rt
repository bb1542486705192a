// What a run of the kernel prints: a line for each step.
#![tactic(auto)]

mod block;
mod shown;
mod state;
mod text;

pub use block::{Block, fresh_block, show_block};
pub use shown::line;
pub use state::LONGEST_WIDE;
